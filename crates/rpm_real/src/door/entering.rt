//! How a process is let in to the files of a folder.

ghost use Rattle.std.specs.Prelude.{◌≡◌};

use super::Door;
use crate::lock::Beside;
use crate::obstacle::Obstacle;
use crate::purpose::Purpose;
use crate::real_file::RealFile;
use rpm_outside::Failed;
use std::fs;
use std::rt::{Clock, Files};

impl Door {
    /// Takes the folder's lock alone.
    pub(super) fn hold_folder<R: Clock>(&mut self, rt: &R) -> Result<(), Failed> {
        self.folder.hold(rt, Beside::Nobody)?;
        self.may_write = true;
        Ok(())
    }

    /// Fails where the folder, which has no `Packages.db`, isn't there or has a database of another kind. Else, where
    /// there is nothing else to share, the folder's lock is shared.
    fn enter_blank<R: Files<File = fs::File> + Clock>(&mut self, rt: &R) -> Result<(), Failed> {
        if !self.may_write && !self.folder.open(rt) {
            self.obstacle = Some(Obstacle::NoFolder);
            return Err(Failed);
        }
        match self.folder.other_database(rt, self.alloc) {
            Ok(None) => {}
            Ok(Some(name)) => {
                self.obstacle = Some(Obstacle::OtherDatabase(name));
                return Err(Failed);
            }
            Err(_) => return Err(Failed),
        }
        if !self.may_write && self.folder.hold(rt, Beside::Sharers).is_err() {
            return self.busy();
        }
        Ok(())
    }

    /// Shares the lock of `Packages.db`, if it is there.
    fn share_packages<R: Files<File = fs::File> + Clock>(
        &mut self,
        rt: &R,
        pkg: &mut RealFile,
    ) -> Result<(), Failed>
        ensures { pkg.new.read ≡ pkg.old.read }
    {
        if !pkg.is_there(rt)? {
            return self.enter_blank(rt);
        }
        if pkg.hold(rt, Beside::Sharers).is_err() {
            return self.busy();
        }
        if self.may_write {
            self.first_unit = pkg.first_unit();
        }
        Ok(())
    }

    /// Lets in a change: it takes the folder's lock, and goes without a folder that isn't there yet.
    fn enter_to_change<R: Files<File = fs::File> + Clock>(
        &mut self,
        rt: &R,
        pkg: &mut RealFile,
    ) -> Result<(), Failed>
        ensures { pkg.new.read ≡ pkg.old.read }
    {
        if !self.folder.open(rt) {
            return Ok(());
        }
        if self.hold_folder(rt).is_err() {
            return self.busy();
        }
        self.share_packages(rt, pkg)
    }

    /// Lets in a question by key: it takes the folder's lock. Where another process keeps that, the question goes
    /// without, and is answered as long as it has nothing to write.
    fn enter_to_prepare<R: Files<File = fs::File> + Clock>(
        &mut self,
        rt: &R,
        pkg: &mut RealFile,
    ) -> Result<(), Failed>
        ensures { pkg.new.read ≡ pkg.old.read }
    {
        if !self.folder.open(rt) {
            self.obstacle = Some(Obstacle::NoFolder);
            return Err(Failed);
        }
        let _ = self.hold_folder(rt);
        self.share_packages(rt, pkg)
    }

    /// Before each call: lets the process in, once. Where it isn't let in, each call fails.
    #[inline(always)]
    pub fn enter<R: Files<File = fs::File> + Clock>(
        &mut self,
        rt: &R,
        pkg: &mut RealFile,
    ) -> Result<(), Failed>
        ensures { pkg.new.read ≡ pkg.old.read }
    {
        if self.is_open {
            return Ok(());
        }
        self.enter_first(rt, pkg)
    }

    /// Lets the process in, where it wasn't yet.
    #[cold]
    #[inline(never)]
    fn enter_first<R: Files<File = fs::File> + Clock>(
        &mut self,
        rt: &R,
        pkg: &mut RealFile,
    ) -> Result<(), Failed>
        ensures { pkg.new.read ≡ pkg.old.read }
    {
        if self.obstacle.is_some() {
            return Err(Failed);
        }
        match self.purpose {
            Purpose::Plain => self.share_packages(rt, pkg)?,
            Purpose::Keyed => self.enter_to_prepare(rt, pkg)?,
            Purpose::Change => self.enter_to_change(rt, pkg)?,
        }
        self.is_open = true;
        Ok(())
    }
}
