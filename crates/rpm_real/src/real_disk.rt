//! A disk over the files of a folder.

ghost use Rattle.std.specs.Prelude.{◌≡◌, false, [], is_err, length};
ghost use Rattle.rpm_outside.specs.Causes.{HasCause, RoseBy};
ghost use Rattle.rpm_outside.specs.Crash.{bytes_for};
ghost use Rattle.rpm_real.specs.Counts.{FaultCount, count_of_file};

use crate::door::Door;
use crate::obstacle::Obstacle;
use crate::purpose::Purpose;
use crate::real_file::RealFile;
use rpm_outside::{Disk, Failed, File};
use std::alloc::{AllocError, Global};
use std::fs;
use std::rt::{Clock, Files};

/// The files `Packages.db`, `Hindex.db` and `Hlog.db` of a folder. What they hold isn't told.
#[derive(Drop)]
pub struct RealDisk<'a, R: Files<File = fs::File> + Clock> {
    rt: &'a R,
    door: Door,
    pkg: RealFile,
    idx: RealFile,
    log: RealFile,
    moment: u64,
    faults: u64,
}

impl<'a, R: Files<File = fs::File> + Clock> RealDisk<'a, R> {
    /// The disk of a folder, of which no file is opened yet. For a change it needs not be there: the first write makes
    /// it. Where its name is empty, each call fails.
    ///
    /// # Errors
    ///
    /// `AllocError` where the paths find no memory.
    pub fn new(
        alloc: Global,
        rt: &'a R,
        folder: &str,
        purpose: Purpose,
    ) -> Result<RealDisk<'a, R>, AllocError> {
        let mut idx = RealFile::new(alloc, folder, "Hindex.db", purpose)?;
        idx.hold_pages(alloc);
        Ok(RealDisk {
            rt,
            door: Door::new(alloc, folder, purpose)?,
            pkg: RealFile::new(alloc, folder, "Packages.db", purpose)?,
            idx,
            log: RealFile::new(alloc, folder, "Hlog.db", purpose)?,
            moment: 0,
            faults: 0,
        })
    }

    /// What stood in the way of a call that failed, where it is known.
    pub fn obstacle(&self) -> Option<Obstacle> {
        self.door
            .obstacle()
            .or(self.pkg.obstacle())
            .or(self.idx.obstacle())
            .or(self.log.obstacle())
    }
}

/// How many units of the index say what it is. A question that reads on has found it current.
const INDEX_HEAD: u64 = 2;

impl<'a, R: Files<File = fs::File> + Clock> RealDisk<'a, R> {
    /// Before a write: of the index alone, or of all files.
    fn start_writing(&mut self, file: File) -> Result<(), Failed>
        ensures pkg { self.new.pkg.read ≡ self.old.pkg.read }
        ensures idx { self.new.idx.read ≡ self.old.idx.read }
        ensures log { self.new.log.read ≡ self.old.log.read }
        ensures moment { self.new.moment ≡ self.old.moment }
        ensures faults { self.new.faults ≡ self.old.faults }
    {
        self.door.enter(self.rt, &mut self.pkg)?;
        if file == File::Idx {
            return self.door.start_writing(self.rt);
        }
        self.door
            .make_ready(self.rt, &mut self.pkg, &mut self.idx, &mut self.log)
    }
}

impl<'a, R: Files<File = fs::File> + Clock> RealDisk<'a, R> {
    /// Reads units of a file. (It isn't inlined, so that a read of a unit whose page is held stays short.)
    #[inline(never)]
    fn read_in(&mut self, file: File, unit: u64, into: &mut [u8]) -> Result<(), Failed>
        ensures reads { (f : File) → RoseBy (count_of_file self.old.pkg.read self.old.idx.read self.old.log.read f)
            (bytes_for file f (length into.old)) (count_of_file self.new.pkg.read self.new.idx.read self.new.log.read f) }
        ensures moment { self.new.moment ≡ self.old.moment }
        ensures cause { HasCause self.old.faults self.new.faults result }
        ensures once { FaultCount (is_err result) self.old.faults self.new.faults }
    {
        let entered = self.door.enter(self.rt, &mut self.pkg);
        if file == File::Idx && unit >= INDEX_HEAD {
            self.door.leave_writing();
        }
        let answer = match file {
            File::Pkg => self.pkg.read_at(self.rt, entered, unit, into),
            File::Idx => self.idx.read_at(self.rt, entered, unit, into),
            File::Log => self.log.read_at(self.rt, entered, unit, into),
        };
        counted(&mut self.faults, answer)
    }

    /// Reads units of the index where nothing is to be done before a read, as `read_in` does then.
    #[inline(never)]
    fn read_index(&mut self, unit: u64, into: &mut [u8]) -> Result<(), Failed>
        ensures reads { (f : File) → RoseBy (count_of_file self.old.pkg.read self.old.idx.read self.old.log.read f)
            (bytes_for File.Idx f (length into.old)) (count_of_file self.new.pkg.read self.new.idx.read self.new.log.read f) }
        ensures moment { self.new.moment ≡ self.old.moment }
        ensures cause { HasCause self.old.faults self.new.faults result }
        ensures once { FaultCount (is_err result) self.old.faults self.new.faults }
    {
        let answer = self.idx.read_at(self.rt, Ok(()), unit, into);
        counted(&mut self.faults, answer)
    }
}

/// Counts a failure.
fn counted<T: Copy>(faults: &mut u64, answer: Result<T, Failed>) -> Result<T, Failed>
    ensures cause { HasCause faults.old faults.new result }
    ensures once { FaultCount (is_err result) faults.old faults.new }
{
    if answer.is_err() {
        *faults = faults.saturating_add(1);
    }
    answer
}

impl<'a, R: Files<File = fs::File> + Clock> Disk for RealDisk<'a, R> {
    ghost use Rattle.rpm_real.specs.Counts.{count_of_file};

    ghost tells = { false };

    ghost files = { λ disk. record { pkg = []; idx = []; log = [] } };

    ghost left_since = { λ disk t image. Unit {0} };

    ghost moment = { λ disk. disk.moment };

    ghost bytes_read = { λ disk. count_of_file disk.pkg.read disk.idx.read disk.log.read };

    ghost faults = { λ disk. disk.faults };

    ghost follows = { λ old new. Unit {0} };

    ghost outcome = { λ old call failed new. FaultCount failed old.faults new.faults };

    ghost as_read = { λ disk told. tt };

    ghost earlier = { λ disk s t image told le below left. tt };

    ghost follows_refl = { λ disk. tt };

    ghost follows_trans = { λ a b c f g. tt };

    fn len(&mut self, file: File) -> Result<u64, Failed> {
        let entered = self.door.enter(self.rt, &mut self.pkg);
        let answer = match file {
            File::Pkg => self.pkg.units(self.rt, entered),
            File::Idx => self.idx.units(self.rt, entered),
            File::Log => self.log.units(self.rt, entered),
        };
        counted(&mut self.faults, answer)
    }

    fn read_at(&mut self, file: File, unit: u64, into: &mut [u8]) -> Result<(), Failed> {
        if file == File::Idx && self.door.is_settled() {
            if self.idx.read_held(unit, into) {
                return Ok(());
            }
            return self.read_index(unit, into);
        }
        self.read_in(file, unit, into)
    }

    fn write_at(&mut self, file: File, unit: u64, bytes: &[u8]) -> Result<(), Failed> {
        self.moment = self.moment.saturating_add(1);
        let entered = self.start_writing(file);
        let folder = &mut self.door.folder;
        let answer = match file {
            File::Pkg => self.pkg.write_at(self.rt, entered, folder, unit, bytes),
            File::Idx => self.idx.write_at(self.rt, entered, folder, unit, bytes),
            File::Log => self.log.write_at(self.rt, entered, folder, unit, bytes),
        };
        counted(&mut self.faults, answer)
    }

    fn sync(&mut self, file: File) -> Result<(), Failed> {
        self.moment = self.moment.saturating_add(1);
        let entered = self.door.enter(self.rt, &mut self.pkg);
        let folder = &mut self.door.folder;
        let answer = match file {
            File::Pkg => self.pkg.sync(self.rt, entered, folder),
            File::Idx => self.idx.sync(self.rt, entered, folder),
            File::Log => self.log.sync(self.rt, entered, folder),
        };
        counted(&mut self.faults, answer)
    }
}
