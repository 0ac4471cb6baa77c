//! A disk in memory that tells nothing of itself.

ghost use Rattle.std.specs.Prelude.{ℕ, ◌-◌, ◌^◌, false, []};

use crate::fixtures::change;
use rpm_outside::{Disk, Failed, File};
use std::alloc::Global;

/// A disk of `Packages.db` and `Hindex.db` that doesn't tell what it holds, so that a call on it owes nothing of
/// that. One of the files may be as long as a file can be, with zeros after what is held of it: what is written there
/// isn't kept. Its counts, as contracts see them, stand at their ends.
#[derive(Drop)]
pub struct PlainDisk {
    pub pkg: Vec<u8>,
    pub idx: Vec<u8>,
    /// The file that is as long as one can be.
    pub long: Option<File>,
    /// How many bytes of `Packages.db` were read.
    pub read: u64,
    /// The unit after the last one that was written.
    pub end: u64,
}

impl PlainDisk {
    /// A disk with this `Packages.db` alone.
    pub fn new(alloc: Global, pkg: Vec<u8>) -> PlainDisk {
        PlainDisk::with_index(pkg, Vec::new(alloc))
    }

    /// A disk with these files.
    pub fn with_index(pkg: Vec<u8>, idx: Vec<u8>) -> PlainDisk {
        PlainDisk {
            pkg,
            idx,
            long: None,
            read: 0,
            end: 0,
        }
    }

    fn held(&self, file: File) -> &[u8] {
        match file {
            File::Pkg => &self.pkg,
            File::Idx => &self.idx,
            File::Log => &[],
        }
    }
}

// How many bytes of a file are held.
const HELD: usize = 0x40_0000;

// Writes bytes at a place, and zeros before it where there are none.
fn hold(held: &mut Vec<u8>, at: usize, bytes: &[u8]) -> Result<(), Failed> {
    let end = at.saturating_add(bytes.len());
    if end > HELD {
        return Ok(());
    }
    for _ in held.len()..end {
        if held.push(0).is_err() {
            return Err(Failed);
        }
    }
    change(held, at, bytes);
    Ok(())
}

impl Disk for PlainDisk {
    ghost tells = { false };

    ghost files = { λ disk. record { pkg = []; idx = []; log = [] } };

    ghost left_since = { λ disk t image. Unit {0} };

    ghost moment = { λ disk. 2 ^ 64 - 1 };

    ghost bytes_read = { λ disk file. 2 ^ 64 - 1 };

    ghost faults = { λ disk. 2 ^ 64 - 1 };

    ghost follows = { λ old new. Unit {0} };

    ghost as_read = { λ disk told. tt };

    ghost earlier = { λ disk s t image told le below left. tt };

    ghost follows_refl = { λ disk. tt };

    ghost follows_trans = { λ a b c f g. tt };

    fn len(&mut self, file: File) -> Result<u64, Failed> {
        if self.long == Some(file) {
            return Ok(268_435_456);
        }
        Ok(self.held(file).len() as u64 / 16)
    }

    fn read_at(&mut self, file: File, unit: u64, into: &mut [u8]) -> Result<(), Failed> {
        if file == File::Pkg {
            self.read = self.read.saturating_add(into.len() as u64);
        }
        let from = unit.saturating_mul(16) as usize;
        let held = self.held(file);
        for (k, byte) in into.iter_mut().enumerate() {
            *byte = *held.get(from.saturating_add(k)).unwrap_or(&0);
        }
        Ok(())
    }

    fn write_at(&mut self, file: File, unit: u64, bytes: &[u8]) -> Result<(), Failed> {
        let at = unit.saturating_mul(16) as usize;
        self.end = self.end.max(unit.saturating_add(bytes.len() as u64 / 16));
        match file {
            File::Pkg => hold(&mut self.pkg, at, bytes),
            File::Idx => hold(&mut self.idx, at, bytes),
            File::Log => Err(Failed),
        }
    }

    fn sync(&mut self, _file: File) -> Result<(), Failed> {
        Ok(())
    }
}
