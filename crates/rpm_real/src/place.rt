//! Bytes of an open file.

use rpm_outside::Failed;
use std::fs;
use std::io::{Seek, SeekFrom};
use std::os::unix::fs::{FileExt, MetadataExt};

/// Fills `into` from a byte on, where one read didn't.
#[cold]
#[inline(never)]
fn fill_again(file: &fs::File, offset: u64, into: &mut [u8]) -> Result<(), Failed> {
    match file.read_exact_at(into, offset) {
        Ok(()) => Ok(()),
        Err(_) => Err(Failed),
    }
}

/// Fills `into` from a byte on. One read does, unless a signal or the file's end cuts it short.
pub fn fill(file: &fs::File, offset: u64, into: &mut [u8]) -> Result<(), Failed> {
    match file.read_at(into, offset) {
        Ok(count) if count == into.len() => Ok(()),
        _ => fill_again(file, offset, into),
    }
}

/// Cuts off the bytes after the last whole unit. Nobody sees them; a write after them would show them in place of
/// zeros. The cut lasts before anything is written, since a crash could keep the write and lose the cut.
pub fn cut_tail(file: &mut fs::File) -> Result<(), Failed> {
    let Ok(end) = file.seek(SeekFrom::End(0)) else {
        return Err(Failed);
    };
    if end % 16 == 0 {
        return Ok(());
    }
    if file.set_len(end - end % 16).is_err() || file.sync_all().is_err() {
        return Err(Failed);
    }
    Ok(())
}

/// The first unit of a file, where it has one.
pub fn first_unit(file: &fs::File) -> Option<[u8; 16]> {
    let mut unit = [0u8; 16];
    match fill(file, 0, &mut unit) {
        Ok(()) => Some(unit),
        Err(Failed) => None,
    }
}

/// Which file of the system a name leads to.
#[derive(Clone, Copy, PartialEq, Eq)]
pub struct Identity {
    device: u64,
    inode: u64,
}

impl Identity {
    pub fn of(metadata: &fs::Metadata) -> Identity {
        Identity {
            device: metadata.dev(),
            inode: metadata.ino(),
        }
    }

    /// Whether an open file is this one.
    pub fn is_of(self, file: &fs::File) -> bool {
        match file.metadata() {
            Ok(metadata) => Identity::of(&metadata) == self,
            Err(_) => false,
        }
    }
}
