//! How a file of the database's folder is found and opened.

ghost use Rattle.std.specs.Prelude.{◌≡◌};

use super::RealFile;
use crate::folder::Folder;
use crate::lock::{Beside, take_lock};
use crate::obstacle::Obstacle;
use crate::place::{Identity, first_unit};
use crate::purpose::Purpose;
use rpm_outside::Failed;
use std::fs;
use std::fs::{OpenFile, OpenOptions};
use std::io::ErrorKind;
use std::os::unix::fs::OpenOptionsExt;
use std::rt::{Clock, Files};

impl RealFile {
    /// Opens what stands under the name for reading.
    fn open_readable<R: Files<File = fs::File>>(&mut self, rt: &R) -> Result<(), Failed>
        ensures { self.new.read ≡ self.old.read }
    {
        match fs::open(rt, self.path.as_str()) {
            Ok(file) => {
                self.file = Some(file);
                Ok(())
            }
            Err(error) => self.refuse_reading(error.kind()),
        }
    }

    /// Whether an open file is the one that was looked at, or a new one.
    fn is_expected(&self, file: &fs::File) -> bool {
        match self.identity {
            Some(identity) => identity.is_of(file),
            None => self.is_absent,
        }
    }

    /// Opens the file for reading and writing, or makes the one that isn't there: so a link, and a file that somebody
    /// put there since it was looked at, is refused.
    fn open_writable<R: Files<File = fs::File>>(&mut self, rt: &R) -> Result<(), Failed>
        ensures { self.new.read ≡ self.old.read }
    {
        let mut how = OpenOptions::new();
        how.read(true)
            .write(true)
            .create_new(self.is_absent)
            .mode(0o644);
        match how.open(rt, self.path.as_str()) {
            Ok(file) if self.is_expected(&file) => {
                self.file = Some(file);
                self.can_write = true;
                self.is_absent = false;
                Ok(())
            }
            // Another process put a file there since this one looked.
            Ok(_) => self.refuse(Obstacle::Busy),
            Err(error) if error.kind() == ErrorKind::AlreadyExists => self.refuse(Obstacle::Busy),
            Err(error) => self.refuse_writing(error.kind()),
        }
    }

    /// Opens a plain file: for a change also for writing, where this user may.
    fn open_plain<R: Files<File = fs::File>>(&mut self, rt: &R) -> Result<(), Failed>
        ensures { self.new.read ≡ self.old.read }
    {
        if self.purpose == Purpose::Change && self.open_writable(rt).is_ok() {
            return Ok(());
        }
        self.open_readable(rt)
    }

    /// Opens the plain file to which a symbolic link leads, for reading alone.
    fn open_target<R: Files<File = fs::File>>(&mut self, rt: &R) -> Result<(), Failed>
        ensures { self.new.read ≡ self.old.read }
    {
        match rt.metadata(self.path.as_str()) {
            Ok(metadata) if metadata.is_file() => self.open_readable(rt),
            Err(error) if error.kind() != ErrorKind::NotFound => self.refuse_reading(error.kind()),
            _ => self.refuse(Obstacle::NoPlainFile(self.name)),
        }
    }

    /// Looks for the file, which isn't open, and opens it, if it is there. One that isn't there is looked for once.
    /// What is no plain file isn't opened: it could keep the process waiting, or have no length.
    #[cold]
    #[inline(never)]
    fn look<R: Files<File = fs::File>>(&mut self, rt: &R) -> Result<(), Failed>
        ensures { self.new.read ≡ self.old.read }
    {
        if self.is_absent {
            return Ok(());
        }
        if self.path.is_empty() {
            return Err(Failed);
        }
        match rt.symlink_metadata(self.path.as_str()) {
            Ok(metadata) if metadata.is_file() => {
                self.identity = Some(Identity::of(&metadata));
                self.open_plain(rt)
            }
            Ok(metadata) if metadata.is_symlink() => self.open_target(rt),
            Ok(_) => self.refuse(Obstacle::NoPlainFile(self.name)),
            Err(error) if error.kind() == ErrorKind::NotFound => {
                self.is_absent = true;
                Ok(())
            }
            Err(error) => self.refuse_reading(error.kind()),
        }
    }

    /// Opens the file for reading, if it is there.
    pub fn open_to_read<R: Files<File = fs::File>>(&mut self, rt: &R) -> Result<(), Failed>
        ensures { self.new.read ≡ self.old.read }
    {
        if self.file.is_some() {
            return Ok(());
        }
        self.look(rt)
    }

    /// Whether the file is there. Then it is open.
    pub fn is_there<R: Files<File = fs::File>>(&mut self, rt: &R) -> Result<bool, Failed>
        ensures { self.new.read ≡ self.old.read }
    {
        self.open_to_read(rt)?;
        Ok(self.file.is_some())
    }

    /// Takes the lock of the file, if it is open.
    pub fn hold<R: Clock>(&self, rt: &R, beside: Beside) -> Result<(), Failed> {
        match &self.file {
            Some(file) => take_lock(rt, file, beside),
            None => Ok(()),
        }
    }

    /// Its first unit as it reads now, if it has one. What the program reads isn't counted by this.
    pub fn first_unit(&self) -> Option<[u8; 16]> {
        match &self.file {
            Some(file) => first_unit(file),
            None => None,
        }
    }

    /// Opens the file for reading and writing: never through a symbolic link, and no other one than was looked at.
    /// Where it wasn't there, it is made, with its folder.
    pub fn open_to_write<R: Files<File = fs::File>>(
        &mut self,
        rt: &R,
        folder: &mut Folder,
    ) -> Result<(), Failed>
        ensures { self.new.read ≡ self.old.read }
    {
        if self.can_write {
            return Ok(());
        }
        self.open_to_read(rt)?;
        if self.is_absent {
            folder.make(rt)?;
        } else if self.identity.is_none() {
            return self.refuse(Obstacle::NoPlainFile(self.name));
        }
        self.open_writable(rt)
    }
}
