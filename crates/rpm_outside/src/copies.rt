//! Copies of the files of a disk in memory, from which an image is made without a replay from the start.

ghost use Rattle.std.specs.Prelude.{◌≡◌, ◌≤◌, ◌++◌, ◌∷◌, [], false, IfOk, IfSome, slice_get};
ghost use Rattle.rpm_outside.specs.Prelude.{HasCopy, held_files, is_loose, KeepsCopy, is_loose_after_write, SyncsFile, StartsFrom, is_loose_after_sync};

use crate::File;
use crate::steps::{Held, copy_of};
use std::alloc::{AllocError, Global};

/// The files at a moment at which each of them was made durable, so that a crash left them as they read.
#[derive(Drop)]
pub struct Copy {
    at: usize,
    files: Held,
}

/// Copies of some of the moments at which all files were durable.
///
/// A sync makes one where all files are durable then, and as many units were written since the last copy as the files
/// have. So all copies together cost no more time and memory than the writes did.
#[derive(Drop)]
pub struct Copies {
    kept: Vec<Copy>,
    // How many units were written since the last copy.
    written: u64,
    // Whether a file was written to since its last sync.
    loose_pkg: bool,
    loose_idx: bool,
    loose_log: bool,
}

impl Copies {
    /// No copies, of files that are durable.
    pub fn new(alloc: Global) -> Copies
        ensures kept { result.kept.items ≡ [] }
        ensures pkg { result.loose_pkg ≡ false }
        ensures idx { result.loose_idx ≡ false }
        ensures log { result.loose_log ≡ false }
    {
        Copies {
            kept: Vec::new(alloc),
            written: 0,
            loose_pkg: false,
            loose_idx: false,
            loose_log: false,
        }
    }

    /// So many units of a file were written.
    pub fn loosen(&mut self, file: File, units: u64)
        ensures kept { self.new.kept.items ≡ self.old.kept.items }
        ensures pkg { self.new.loose_pkg ≡ is_loose_after_write file File.Pkg self.old.loose_pkg }
        ensures idx { self.new.loose_idx ≡ is_loose_after_write file File.Idx self.old.loose_idx }
        ensures log { self.new.loose_log ≡ is_loose_after_write file File.Log self.old.loose_log }
    {
        self.written = self.written.saturating_add(units);
        match file {
            File::Pkg => self.loose_pkg = true,
            File::Idx => self.loose_idx = true,
            File::Log => self.loose_log = true,
        }
    }

    fn tighten(&mut self, file: File)
        ensures kept { self.new.kept.items ≡ self.old.kept.items }
        ensures pkg { self.new.loose_pkg ≡ is_loose_after_sync file File.Pkg self.old.loose_pkg }
        ensures idx { self.new.loose_idx ≡ is_loose_after_sync file File.Idx self.old.loose_idx }
        ensures log { self.new.loose_log ≡ is_loose_after_sync file File.Log self.old.loose_log }
    {
        match file {
            File::Pkg => self.loose_pkg = false,
            File::Idx => self.loose_idx = false,
            File::Log => self.loose_log = false,
        }
    }

    fn keep(&mut self, alloc: Global, at: usize, files: &Held)
        ensures kept { KeepsCopy self.old.kept.items self.new.kept.items at (held_files files.now) }
        ensures pkg { self.new.loose_pkg ≡ self.old.loose_pkg }
        ensures idx { self.new.loose_idx ≡ self.old.loose_idx }
        ensures log { self.new.loose_log ≡ self.old.loose_log }
    {
        let Ok(copy) = copy_of(alloc, files) else {
            return;
        };
        let Ok(()) = self.kept.push(Copy { at, files: copy }) else {
            return;
        };
        self.written = 0;
    }

    /// A file was made durable, and it is this moment now. Where a copy is due and memory is wanting, none is made.
    pub fn note_sync(&mut self, alloc: Global, file: File, at: usize, files: &Held)
        ensures { SyncsFile self.old self.new file at (held_files files.now) }
    {
        self.tighten(file);
        let loose = self.loose_pkg || (self.loose_idx || self.loose_log);
        if !loose && files.units() <= self.written {
            self.keep(alloc, at, files);
        }
    }

    /// The last copy that isn't after a moment.
    fn last_before(&self, moment: usize) -> Option<&Copy>
        ensures { IfSome result (λ copy. HasCopy self.now.kept.items moment copy.now) }
    {
        for k in (0..self.kept.len()).rev() {
            let copy = &self.kept[k];
            if copy.at <= moment {
                return Some(copy);
            }
        }
        None
    }

    /// The files of the last copy that isn't after a moment, and the copy's own moment: the first files, of moment 0,
    /// where there is none.
    pub fn start(
        &self,
        alloc: Global,
        first: &Held,
        moment: usize,
    ) -> Result<(usize, Held), AllocError>
        ensures { IfOk result (λ s. StartsFrom self.now.kept.items (held_files first.now) moment s.0 (held_files s.1)) }
    {
        match self.last_before(moment) {
            None => Ok((0, copy_of(alloc, first)?)),
            Some(copy) => Ok((copy.at, copy_of(alloc, &copy.files)?)),
        }
    }
}
