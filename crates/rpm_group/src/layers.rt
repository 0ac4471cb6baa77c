//! What is held of the three files.

ghost use Rattle.std.specs.Prelude.{◌≡◌, ℕ, ◌+◌, ◌/◌, ◌%◌, ◌<◌, ◌≤◌, ◌^◌, length, OnOk, OnErr};
ghost use Rattle.rpm_group.specs.Prelude.{file_of, Files, FitsAt, laid_files, pages_of, with_units, units_of, with_file};

use crate::pages::Pages;
use rpm_outside::File;
use std::alloc::{AllocError, Global};

/// What is held of each file.
#[derive(Drop)]
pub struct Layers {
    pub pkg: Pages,
    pub idx: Pages,
    pub log: Pages,
}

/// Nothing is held.
pub fn no_layers(alloc: Global) -> Layers
    ensures { (files : Files) → laid_files result files ≡ files }
{
    Layers {
        pkg: Pages::new(alloc),
        idx: Pages::new(alloc),
        log: Pages::new(alloc),
    }
}

impl Layers {
    /// What is held of a file.
    pub fn file(&self, file: File) -> &Pages
        ensures { result.now ≡ pages_of file self.now }
    {
        match file {
            File::Pkg => &self.pkg,
            File::Idx => &self.idx,
            File::Log => &self.log,
        }
    }

    /// Holds units of a file from this one on.
    ///
    /// # Errors
    ///
    /// `AllocError` where memory is wanting. What is held is then as it was.
    pub fn hold(
        &mut self,
        alloc: Global,
        file: File,
        unit: u64,
        bytes: &[u8],
    ) -> Result<(), AllocError>
        requires { FitsAt unit bytes.now }
        ensures ok { OnOk result ((files : Files) → laid_files self.new files
            ≡ with_file file (with_units unit (units_of bytes.now) (file_of file (laid_files self.old files)))
            (laid_files self.old files)) }
        ensures err { OnErr result ((files : Files) → laid_files self.new files ≡ laid_files self.old files) }
    {
        match file {
            File::Pkg => self.pkg.hold(alloc, unit, bytes),
            File::Idx => self.idx.hold(alloc, unit, bytes),
            File::Log => self.log.hold(alloc, unit, bytes),
        }
    }
}
