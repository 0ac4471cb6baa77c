//! One file of the database's folder.

ghost use Rattle.std.specs.Prelude.{◌≡◌, ◌<◌, ◌≤◌, ◌+◌, ◌-◌, ◌^◌, true, false, min, length};

use crate::folder::Folder;
use crate::obstacle::Obstacle;
use crate::pages::Pages;
use crate::place::{Identity, cut_tail, fill};
use crate::purpose::Purpose;
use rpm_outside::Failed;
use std::alloc::{AllocError, Global};
use std::fs;
use std::io::{Seek, SeekFrom};
use std::os::unix::fs::FileExt;
use std::rt::Files;

mod opening;
mod refusing;

/// A file that is opened when it is first used, and made only by a write.
#[derive(Drop)]
pub struct RealFile {
    name: &'static str,
    // Of a folder without a name it is empty, and no file is looked for.
    path: String,
    purpose: Purpose,
    file: Option<fs::File>,
    can_write: bool,
    // The file was looked for, and wasn't there.
    is_absent: bool,
    // Which file the name leads to, where it is no symbolic link.
    identity: Option<Identity>,
    obstacle: Option<Obstacle>,
    // How many whole units the file has, where that was asked and nothing was written since.
    units: Option<u64>,
    // The file was seen to end with a whole unit, and no write of it failed since.
    is_whole: bool,
    // What small reads are answered from, where pages are held.
    pages: Option<Pages>,
    pub read: u64,
}

// No file has more units than that: the place of each in bytes is one that the system knows.
const UNITS: u64 = 1 << 58;

impl RealFile {
    pub fn new(
        alloc: Global,
        folder: &str,
        name: &'static str,
        purpose: Purpose,
    ) -> Result<RealFile, AllocError> {
        let path = if folder.is_empty() {
            String::new(alloc)
        } else {
            format!(in alloc; "{folder}/{name}")?
        };
        Ok(RealFile {
            name,
            path,
            purpose,
            file: None,
            can_write: false,
            is_absent: false,
            identity: None,
            obstacle: None,
            units: None,
            is_whole: false,
            pages: None,
            read: 0,
        })
    }

    /// From now on pages of the file are held between its writes and syncs.
    pub fn hold_pages(&mut self, alloc: Global)
        ensures { self.new.read ≡ self.old.read }
    {
        self.pages = Some(Pages::new(alloc));
    }

    /// Gives up the pages that are held.
    fn give_up_pages(&mut self)
        ensures { self.new.read ≡ self.old.read }
    {
        if let Some(pages) = &mut self.pages {
            pages.give_up();
        }
    }

    /// The number of its whole units: none where it isn't there. The system is asked once between two writes.
    pub fn units<R: Files<File = fs::File>>(
        &mut self,
        rt: &R,
        entered: Result<(), Failed>,
    ) -> Result<u64, Failed>
        ensures { self.new.read ≡ self.old.read }
    {
        entered?;
        if let Some(units) = self.units {
            return Ok(units);
        }
        self.open_to_read(rt)?;
        match &mut self.file {
            None => Ok(0),
            // Where the end is costs less to ask than all that is known of the file. Each read and write says its own
            // place.
            Some(file) => match file.seek(SeekFrom::End(0)) {
                Ok(end) => {
                    self.units = Some(end / 16);
                    Ok(end / 16)
                }
                Err(_) => Err(Failed),
            },
        }
    }

    /// Counts bytes that are asked for.
    fn count(&mut self, bytes: usize)
        ensures read { self.new.read ≡ min (self.old.read + bytes) (2 ^ 64 - 1) }
        ensures later { self.old.read ≤ self.new.read }
    {
        self.read = self.read.saturating_add(bytes as u64);
    }

    /// Fills `into` with a unit whose page is held, and tells whether it did.
    #[inline(always)]
    pub fn read_held(&mut self, unit: u64, into: &mut [u8]) -> bool
        ensures read { result ≡ true → self.new.read ≡ min (self.old.read + length into.old) (2 ^ 64 - 1) }
        ensures later { self.old.read ≤ self.new.read }
        ensures none { result ≡ false → self.new.read ≡ self.old.read }
    {
        let Some(pages) = &mut self.pages else {
            return false;
        };
        if !pages.read_held(unit, into) {
            return false;
        }
        self.count(into.len());
        true
    }

    /// Fills `into` from a unit on. A file that ends before is an error.
    #[inline(always)]
    pub fn read_at<R: Files<File = fs::File>>(
        &mut self,
        rt: &R,
        entered: Result<(), Failed>,
        unit: u64,
        into: &mut [u8],
    ) -> Result<(), Failed>
        ensures read { self.new.read ≡ min (self.old.read + length into.old) (2 ^ 64 - 1) }
        ensures later { self.old.read ≤ self.new.read }
    {
        self.count(into.len());
        entered?;
        if unit >= UNITS {
            return Err(Failed);
        }
        if let (Some(file), Some(pages)) = (&self.file, &mut self.pages) {
            if !pages.pass() {
                return pages.read(file, unit, into);
            }
        }
        self.open_to_read(rt)?;
        match &self.file {
            Some(file) => fill(file, 16 * unit, into),
            None => Err(Failed),
        }
    }

    /// Writes to the file, which is open for writing, from a unit on.
    fn put(&mut self, unit: u64, bytes: &[u8]) -> Result<(), Failed>
        requires { unit < 2 ^ 58 }
        ensures { self.new.read ≡ self.old.read }
    {
        let Some(file) = &mut self.file else {
            return Err(Failed);
        };
        if !self.is_whole {
            cut_tail(file)?;
        }
        self.is_whole = file.write_all_at(bytes, 16 * unit).is_ok();
        if !self.is_whole {
            return Err(Failed);
        }
        Ok(())
    }

    /// Writes from a unit on. Units between the file's end and the first one are zeros.
    pub fn write_at<R: Files<File = fs::File>>(
        &mut self,
        rt: &R,
        entered: Result<(), Failed>,
        folder: &mut Folder,
        unit: u64,
        bytes: &[u8],
    ) -> Result<(), Failed>
        ensures { self.new.read ≡ self.old.read }
    {
        entered?;
        if unit >= UNITS {
            return Err(Failed);
        }
        self.open_to_write(rt, folder)?;
        self.units = None;
        self.give_up_pages();
        self.put(unit, bytes)
    }

    /// Makes durable what was written, and the name of the file: also of one that was there, since who made it may
    /// have been killed before.
    pub fn sync<R: Files<File = fs::File>>(
        &mut self,
        rt: &R,
        entered: Result<(), Failed>,
        folder: &mut Folder,
    ) -> Result<(), Failed>
        ensures { self.new.read ≡ self.old.read }
    {
        entered?;
        self.give_up_pages();
        self.open_to_read(rt)?;
        let Some(file) = &self.file else {
            return Ok(());
        };
        if file.sync_all().is_err() {
            return Err(Failed);
        }
        folder.make_names_durable()
    }
}
