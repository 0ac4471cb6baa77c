//! The folder of the database's files, and the names in it.

use crate::lock::{Beside, take_lock};
use rpm_outside::Failed;
use std::alloc::{AllocError, Global};
use std::fs::OpenFile;
use std::io::ErrorKind;
use std::path::Path;
use std::rt::{Clock, Files};
use std::{fs, io};

/// A folder, and whether the names in it are durable.
#[derive(Drop)]
pub struct Folder {
    path: String,
    // A name of the same folder that nothing but a folder has, so that no pipe is opened by it.
    inside: String,
    // The folder is open, where it is there and this process may read it.
    handle: Option<fs::File>,
    // The folder and those above it were made, or were there.
    is_made: bool,
    // A file was made in the folder, and the folder wasn't synced since.
    is_changed: bool,
    // The folder was synced, and no file was made in it since.
    is_durable: bool,
}

/// The files by which other kinds of rpm's database are known.
const OTHERS: [&str; 2] = ["rpmdb.sqlite", "Packages"];

/// Makes the names in a folder durable.
fn sync_names<R: Files<File = fs::File>>(rt: &R, path: &str) -> io::Result<()> {
    fs::open(rt, path)?.sync_all()
}

/// The folder in which a path is a name.
fn above(path: &str) -> &str {
    match Path::new(path).parent() {
        Some(parent) if !parent.as_str().is_empty() => parent.as_str(),
        _ => ".",
    }
}

/// Whether there is a folder under a path.
fn is_folder<R: Files<File = fs::File>>(rt: &R, path: &str) -> bool {
    match rt.metadata(path) {
        Ok(metadata) => metadata.is_dir(),
        Err(_) => false,
    }
}

/// Makes a folder in one that is there, and its name durable. One that is there may have been made by a process that
/// was killed before its name was durable, so the folder above it is synced as well, if that can be.
fn make_one<R: Files<File = fs::File>>(rt: &R, path: &str) -> Result<(), Failed> {
    let is_made = rt.create_dir(path).is_ok();
    if !is_made && !is_folder(rt, path) {
        return Err(Failed);
    }
    match sync_names(rt, above(path)) {
        Err(_) if is_made => Err(Failed),
        _ => Ok(()),
    }
}

impl Folder {
    pub fn new(alloc: Global, path: &str) -> Result<Folder, AllocError> {
        let inside = if path.is_empty() {
            String::new(alloc)
        } else {
            format!(in alloc; "{path}/.")?
        };
        Ok(Folder {
            path: String::from_str(alloc, path)?,
            inside,
            handle: None,
            is_made: false,
            is_changed: false,
            is_durable: false,
        })
    }

    /// Opens the folder, where this process may read it, and answers whether it is there.
    pub fn open<R: Files<File = fs::File>>(&mut self, rt: &R) -> bool {
        match fs::open(rt, self.inside.as_str()) {
            Ok(handle) => {
                self.handle = Some(handle);
                true
            }
            Err(error) => !matches!(error.kind(), ErrorKind::NotFound | ErrorKind::NotADirectory),
        }
    }

    /// The file in it by which another kind of database is known.
    pub fn other_database<R: Files<File = fs::File>>(
        &self,
        rt: &R,
        alloc: Global,
    ) -> Result<Option<&'static str>, AllocError> {
        let folder = self.path.as_str();
        for name in OTHERS {
            let path = format!(in alloc; "{folder}/{name}")?;
            if rt.symlink_metadata(path.as_str()).is_ok() {
                return Ok(Some(name));
            }
        }
        Ok(None)
    }

    /// Takes the folder's lock. Who may not read the folder goes without.
    pub fn hold<R: Clock>(&self, rt: &R, beside: Beside) -> Result<(), Failed> {
        match &self.handle {
            Some(handle) => take_lock(rt, handle, beside),
            None => Ok(()),
        }
    }

    /// Gives that lock back, by closing the folder. A folder whose names aren't durable yet is kept.
    pub fn release(&mut self) {
        if !self.is_changed {
            self.handle = None;
        }
    }

    /// Makes the folder where it isn't there, and those above it.
    fn make_all<R: Files<File = fs::File>>(&mut self, rt: &R) -> Result<(), Failed> {
        let path = self.path.as_str();
        for end in 1..path.len() {
            if let Some((part, rest)) = path.split_at_checked(end)
                && rest.starts_with('/')
            {
                make_one(rt, part)?;
            }
        }
        make_one(rt, path)?;
        if self.handle.is_none() {
            let Ok(handle) = fs::open(rt, self.inside.as_str()) else {
                return Err(Failed);
            };
            self.handle = Some(handle);
        }
        self.is_made = true;
        Ok(())
    }

    /// Makes the folder ready for a file that is made in it: who can't sync its names makes none.
    pub fn make<R: Files<File = fs::File>>(&mut self, rt: &R) -> Result<(), Failed> {
        if !self.is_made {
            self.make_all(rt)?;
        }
        self.is_changed = true;
        self.is_durable = false;
        Ok(())
    }

    /// Makes the names in the folder durable. That is done once, and again where a file was made since. Who may not
    /// read the folder, and made no file, goes without.
    pub fn make_names_durable(&mut self) -> Result<(), Failed> {
        if self.is_durable {
            return Ok(());
        }
        match &self.handle {
            Some(handle) => match handle.sync_all() {
                Ok(()) => {}
                Err(_) => return Err(Failed),
            },
            None if self.is_changed => return Err(Failed),
            None => {}
        }
        self.is_changed = false;
        self.is_durable = true;
        Ok(())
    }
}
