//! A disk in memory, which keeps each write and sync, and nothing else.

ghost use Rattle.std.specs.Prelude.{◌≡◌, ◌≤◌, ◌+◌, ◌-◌, ◌^◌, ◌==◌, ◌∷◌, ◌++◌, [], true, min, ℕ, length, take, IfOk, OnOk, OnErr};
ghost use Rattle.rpm_outside.specs.Prelude.{after_steps, as_read_now, bytes_of, file_of, Files, held_files, HoldCopies, Images, ImagesSince, IsImage, list_any, picked_image, since_earlier, units_of};

use crate::copies::Copies;
use crate::steps::{
    Held, Pick, Step, copy_of, copy_units, go_over, joined, keep_sync, write_units,
};
use crate::{Disk, Failed, File};
use std::alloc::{AllocError, Global};

/// A disk that keeps each write and sync, so that each image that a crash leaves can be had, and that can be told to
/// fail.
#[derive(Drop)]
pub struct MemDisk {
    alloc: Global,
    first: Held,
    held: Held,
    steps: Vec<Step>,
    copies: Copies,
    failing: Vec<u64>,
    calls: u64,
    starved: u64,
    faults: u64,
    read_pkg: u64,
    read_idx: u64,
    read_log: u64,
    ghost replayed: { held_files held ≡ after_steps steps.items (held_files first) },
    ghost copied: { HoldCopies copies steps.items (held_files first) (held_files held) },
}

impl MemDisk {
    ghost use Rattle.rpm_outside.specs.MemDisk.{mem_faults, mem_starved, mem_files, mem_read, mem_steps, mem_first, mem_failing, IsNew, SameButFailing};

    /// A disk on which nothing was done yet.
    fn durable(alloc: Global, first: Held, held: Held) -> MemDisk
        requires { held_files held ≡ held_files first }
        ensures { IsNew result (held_files first) }
    {
        MemDisk {
            alloc,
            first,
            held,
            steps: Vec::new(alloc),
            copies: Copies::new(alloc),
            failing: Vec::new(alloc),
            calls: 0,
            starved: 0,
            faults: 0,
            read_pkg: 0,
            read_idx: 0,
            read_log: 0,
        }
    }

    /// A disk with these files, which are durable. Bytes after a file's last whole unit are left out.
    ///
    /// # Errors
    ///
    /// `AllocError` where memory is wanting.
    pub fn new(alloc: Global, pkg: &[u8], idx: &[u8], log: &[u8]) -> Result<MemDisk, AllocError>
        ensures { IfOk result (λ disk. IsNew disk (record { pkg = units_of pkg.now; idx = units_of idx.now; log = units_of log.now })) }
    {
        let held = Held::of(alloc, pkg, idx, log)?;
        let first = copy_of(alloc, &held)?;
        Ok(MemDisk::durable(alloc, first, held))
    }

    /// One of the images that a crash at this moment may leave, as a durable disk. It is made from a copy of the
    /// files at the last moment before it of which one is kept, and the writes and syncs since then.
    /// `MemDisk` keeps one at a sync where all files are durable, and as many units were written since
    /// the last copy as the files have.
    ///
    /// # Errors
    ///
    /// `AllocError` where memory is wanting.
    pub fn image(&self, alloc: Global, moment: u64, pick: Pick) -> Result<MemDisk, AllocError>
        requires { moment ≤ length (mem_steps self.now) }
        ensures image { IfOk result (λ disk. Images (take moment (mem_steps self.now)) (mem_first self.now) (mem_files disk)) }
        ensures units { IfOk result (λ disk. IsImage (take moment (mem_steps self.now)) (mem_first self.now) (mem_files disk)) }
        ensures picked { IfOk result (λ disk. mem_files disk ≡ picked_image pick (take moment (mem_steps self.now))
            (mem_first self.now) (mem_first self.now)) }
        ensures durable { IfOk result (λ disk. IsNew disk (mem_files disk)) }
    {
        let (from, start) = self.copies.start(alloc, &self.first, moment as usize)?;
        let mut image = copy_of(alloc, &start)?;
        let mut now = start;
        for k in from..moment as usize {
            go_over(alloc, &self.steps[k], &mut now, &mut image, pick)?;
        }
        Ok(MemDisk::durable(alloc, copy_of(alloc, &image)?, image))
    }

    /// The moment: how many writes and syncs were kept.
    pub fn now(&self) -> u64
        ensures { result ≡ length (mem_steps self.now) }
    {
        self.steps.len() as u64
    }

    /// The bytes of a file as it reads.
    ///
    /// # Errors
    ///
    /// `AllocError` where memory is wanting.
    pub fn copy_file(&self, alloc: Global, file: File) -> Result<Vec<u8>, AllocError>
        ensures { IfOk result (λ bytes. bytes.items ≡ bytes_of (file_of file (mem_files self.now))) }
    {
        joined(alloc, self.held.file(file))
    }

    /// Lets a call fail, besides those that were named before. The calls of the disk are counted from 1. A write that
    /// was named writes the first half of its units, rounded down, and so nothing where it is of one unit: the file
    /// isn't lengthened then, and the moment stays. Any other call that was named does nothing.
    ///
    /// # Errors
    ///
    /// `AllocError` where memory is wanting. The disk is then as it was.
    pub fn fail_call(&mut self, call: u64) -> Result<(), AllocError>
        ensures named { OnOk result (mem_failing self.new ≡ mem_failing self.old ++ call ∷ []) }
        ensures err { OnErr result (mem_failing self.new ≡ mem_failing self.old) }
        ensures rest { SameButFailing self.old self.new }
    {
        self.failing.push(call)?;
        Ok(())
    }

    /// How many calls failed.
    pub fn faults(&self) -> u64
        ensures { result ≡ mem_faults self.now }
    {
        self.faults
    }

    /// How many writes and syncs failed for want of memory.
    pub fn starved(&self) -> u64
        ensures { result ≡ mem_starved self.now }
    {
        self.starved
    }

    /// How many bytes of a file were read.
    pub fn bytes_read(&self, file: File) -> u64
        ensures { result ≡ mem_read self.now file }
    {
        match file {
            File::Pkg => self.read_pkg,
            File::Idx => self.read_idx,
            File::Log => self.read_log,
        }
    }
}

/// Counts a call, and says whether it is to fail.
fn call_fails(calls: &mut u64, failing: &[u64]) -> bool
    ensures counted { calls.new ≡ min (calls.old + 1) (2 ^ 64 - 1) }
    ensures named { result ≡ list_any (λ call. call == calls.new) failing.now }
{
    *calls = calls.saturating_add(1);
    let now = *calls;
    failing.iter().any(|call| *call == now)
}

impl Disk for MemDisk {
    ghost use Rattle.rpm_outside.specs.MemDisk.{mem_files, mem_read, FailsWhereNamed};

    ghost tells = { true };

    ghost files = { mem_files };

    ghost left_since = { λ disk t image. ImagesSince disk.steps.items (held_files disk.first) t image };

    ghost moment = { λ disk. length disk.steps.items };

    ghost bytes_read = { mem_read };

    ghost faults = { λ disk. disk.faults };

    ghost follows = { λ old new. Unit {0} };

    ghost outcome = { FailsWhereNamed };

    ghost as_read = { λ disk told. as_read_now disk.steps.items (held_files disk.first) (held_files disk.held) disk.replayed };

    ghost earlier = { λ disk s t image told le below left. since_earlier disk.steps.items (held_files disk.first) s t image le left };

    ghost follows_refl = { λ disk. tt };

    ghost follows_trans = { λ a b c f g. tt };

    fn len(&mut self, file: File) -> Result<u64, Failed> {
        if call_fails(&mut self.calls, &self.failing) {
            self.faults = self.faults.saturating_add(1);
            return Err(Failed);
        }
        Ok(self.held.file(file).len() as u64)
    }

    fn read_at(&mut self, file: File, unit: u64, into: &mut [u8]) -> Result<(), Failed> {
        let count = into.len() as u64;
        match file {
            File::Pkg => self.read_pkg = self.read_pkg.saturating_add(count),
            File::Idx => self.read_idx = self.read_idx.saturating_add(count),
            File::Log => self.read_log = self.read_log.saturating_add(count),
        }
        if call_fails(&mut self.calls, &self.failing) {
            self.faults = self.faults.saturating_add(1);
            return Err(Failed);
        }
        let from = unit as usize;
        let units = self.held.file(file);
        copy_units(&units[from..from + into.len() / 16], into);
        Ok(())
    }

    fn write_at(&mut self, file: File, unit: u64, bytes: &[u8]) -> Result<(), Failed> {
        let fails = call_fails(&mut self.calls, &self.failing);
        let Ok(()) = write_units(
            self.alloc,
            &mut self.held,
            &mut self.steps,
            file,
            unit,
            bytes,
            fails,
        ) else {
            self.starved = self.starved.saturating_add(1);
            self.faults = self.faults.saturating_add(1);
            return Err(Failed);
        };
        self.copies.loosen(file, bytes.len() as u64 / 16);
        if fails {
            self.faults = self.faults.saturating_add(1);
            return Err(Failed);
        }
        Ok(())
    }

    fn sync(&mut self, file: File) -> Result<(), Failed> {
        if call_fails(&mut self.calls, &self.failing) {
            self.faults = self.faults.saturating_add(1);
            return Err(Failed);
        }
        let Ok(()) = keep_sync(&mut self.steps, file) else {
            self.starved = self.starved.saturating_add(1);
            self.faults = self.faults.saturating_add(1);
            return Err(Failed);
        };
        self.copies
            .note_sync(self.alloc, file, self.steps.len(), &self.held);
        Ok(())
    }
}
