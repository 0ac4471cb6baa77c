//! What a process does before it first reads, and before it first writes: it looks at the folder, and takes the locks
//! that keep other processes out.
//!
//! There are two locks. Who may write holds that of the folder alone: a change from its start to its end, a question
//! by key while it may have to finish a transaction or to make the index. Who reads shares that of `Packages.db`, and a
//! change holds it alone before it writes. So changes come one after another, no question meets a change half made,
//! and questions wait for one another only while they open the database.

ghost use Rattle.std.specs.Prelude.{◌≡◌};

use crate::folder::Folder;
use crate::lock::Beside;
use crate::obstacle::Obstacle;
use crate::purpose::Purpose;
use crate::real_file::RealFile;
use rpm_outside::Failed;
use std::alloc::{AllocError, Global};
use std::fs;
use std::rt::{Clock, Files};

mod entering;

/// The way to the files of a folder.
#[derive(Drop)]
pub struct Door {
    alloc: Global,
    pub folder: Folder,
    purpose: Purpose,
    is_open: bool,
    // This process holds the folder's lock, as far as there are locks.
    may_write: bool,
    // The first unit of `Packages.db` as this process began, where it may write: each change gives it another one.
    first_unit: Option<[u8; 16]>,
    // All three files are open for writing, and nobody else reads or writes.
    is_ready: bool,
    obstacle: Option<Obstacle>,
}

impl Door {
    pub fn new(alloc: Global, path: &str, purpose: Purpose) -> Result<Door, AllocError> {
        Ok(Door {
            alloc,
            folder: Folder::new(alloc, path)?,
            purpose,
            is_open: false,
            may_write: false,
            first_unit: None,
            is_ready: false,
            obstacle: None,
        })
    }

    pub fn obstacle(&self) -> Option<Obstacle> {
        self.obstacle
    }

    /// Fails for want of a lock.
    fn busy<T: Drop>(&mut self) -> Result<T, Failed> {
        self.obstacle = Some(Obstacle::Busy);
        Err(Failed)
    }

    /// Whether nothing is to be done before a read: the folder is open, and no lock is to be given back.
    #[inline(always)]
    pub fn is_settled(&self) -> bool {
        self.is_open && !(self.may_write && self.purpose == Purpose::Keyed)
    }

    /// A question has opened the database: from now on it doesn't write, and others may.
    pub fn leave_writing(&mut self) {
        if self.may_write && self.purpose == Purpose::Keyed {
            self.folder.release();
            self.may_write = false;
        }
    }

    /// Before each write: this process alone may write. A folder that wasn't there is made, and then its lock taken.
    pub fn start_writing<R: Files<File = fs::File> + Clock>(
        &mut self,
        rt: &R,
    ) -> Result<(), Failed> {
        if self.may_write {
            return Ok(());
        }
        if self.purpose != Purpose::Change {
            return self.busy();
        }
        self.folder.make(rt)?;
        if self.hold_folder(rt).is_err() {
            return self.busy();
        }
        Ok(())
    }

    /// Takes the lock of `Packages.db` alone. It was shared before, and between the two another program may have
    /// changed the packages: then nothing is written.
    fn hold_packages<R: Clock>(&mut self, rt: &R, pkg: &RealFile) -> Result<(), Failed> {
        if pkg.hold(rt, Beside::Nobody).is_err() || pkg.first_unit() != self.first_unit {
            return self.busy();
        }
        Ok(())
    }

    /// Before each write to `Packages.db` or the log: all three files can be written, and nobody else reads them. So
    /// what is refused for want of a right is refused before the log has any of it.
    pub fn make_ready<R: Files<File = fs::File> + Clock>(
        &mut self,
        rt: &R,
        pkg: &mut RealFile,
        idx: &mut RealFile,
        log: &mut RealFile,
    ) -> Result<(), Failed>
        ensures pkg { pkg.new.read ≡ pkg.old.read }
        ensures idx { idx.new.read ≡ idx.old.read }
        ensures log { log.new.read ≡ log.old.read }
    {
        if self.is_ready {
            return Ok(());
        }
        self.start_writing(rt)?;
        pkg.open_to_write(rt, &mut self.folder)?;
        idx.open_to_write(rt, &mut self.folder)?;
        log.open_to_write(rt, &mut self.folder)?;
        self.hold_packages(rt, pkg)?;
        self.is_ready = true;
        Ok(())
    }
}
