//! What an overlay reads without the disk below.

ghost use Rattle.std.specs.Prelude.{◌≡◌, ℕ};
ghost use Rattle.rpm_group.specs.Prelude.{bytes_for, File, RoseBy, spared_of};

use rpm_outside::File;

/// How many bytes of each file were read without the disk below. A count stays at its last value.
#[derive(Drop)]
pub struct Spared {
    pub pkg: u64,
    pub idx: u64,
    pub log: u64,
}

/// None were.
pub fn none_spared() -> Spared
    ensures { (file : File) → spared_of result file ≡ 0 }
{
    Spared {
        pkg: 0,
        idx: 0,
        log: 0,
    }
}

impl Spared {
    /// Counts bytes of a file.
    pub fn add(&mut self, file: File, bytes: usize)
        ensures { (f : File) → RoseBy (spared_of self.old f) (bytes_for file f bytes) (spared_of self.new f) }
    {
        let bytes = bytes as u64;
        match file {
            File::Pkg => self.pkg = self.pkg.saturating_add(bytes),
            File::Idx => self.idx = self.idx.saturating_add(bytes),
            File::Log => self.log = self.log.saturating_add(bytes),
        }
    }
}
