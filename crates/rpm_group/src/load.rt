//! An overlay that holds the change of an open log.

ghost use Rattle.std.specs.Prelude.{◌≡◌, ℕ, ◌+◌, ◌*◌, ◌/◌, ◌%◌, ◌<◌, ◌≤◌, ◌^◌, IsTrue, length, take, drop, Err, None, OnOk, IfOk, IfErr};
ghost use Rattle.rpm_group.specs.Prelude.{disk_after, DiskFault, entries_of, file_of, Files, FitsAt, HasCauseAt, heads_behind, IsDiskFault, IsLoaded, IsOpen, IsOutsideLog, laid_files, LoadedSays, LoadSays, Log, log_state, OnlyReadsFile, overlay_below, overlay_held, with_units, ReadsAtOr, reopened_files, unit_at, with_entries, with_file};

use crate::layers::{Layers, no_layers};
use crate::log::{CommitRecord, Reading, read_head, read_log};
use crate::overlay::Overlay;
use rpm_outside::{Disk, File};
use std::alloc::Global;

/// Why an overlay can't be loaded.
#[derive(Clone, Copy, PartialEq, Eq)]
pub enum LoadFault {
    /// The log is wrong at this unit.
    BadLog { unit: u64 },
    /// A call of the disk failed.
    DiskFault,
    /// There was no memory for the entries.
    NoMemory,
}

/// Holds units of the log as units of a file, as many as `bytes` takes.
fn hold_piece<D: Disk>(
    alloc: Global,
    disk: &mut D,
    held: &mut Layers,
    from: u64,
    file: File,
    at: u64,
    bytes: &mut [u8],
) -> Result<(), LoadFault>
    requires fits { FitsAt at bytes.old }
    requires within { IsTrue D.tells → from + length bytes.old / 16 ≤ length (D.files disk.old).log }
    ensures held { OnOk result (IsTrue D.tells → (files : Files)
        → laid_files held.new files ≡ with_file file
        (with_units at (take (length bytes.old / 16) (drop from (D.files disk.old).log))
        (file_of file (laid_files held.old files))) (laid_files held.old files)) }
    ensures fault { IfErr result IsOutsideLog }
    ensures reads { ReadsAtOr D.Disk Log (result ≡ Err LoadFault.DiskFault) disk.old disk.new }
{
    disk.read_at(File::Log, from, bytes)
        .map_err(|_| LoadFault::DiskFault)?;
    held.hold(alloc, file, at, bytes)
        .map_err(|_| LoadFault::NoMemory)
}

/// Holds so many units of the log as units of a file, 4 KiB at a time.
fn hold_units<D: Disk>(
    alloc: Global,
    disk: &mut D,
    held: &mut Layers,
    from: u64,
    file: File,
    at: u64,
    count: u32,
) -> Result<(), LoadFault>
    requires some { 0 < count }
    requires within { IsTrue D.tells → from + count ≤ length (D.files disk.old).log }
    requires room { at + count ≤ 2 ^ 28 }
    requires place { from ≤ 2 ^ 32 }
    ensures held { OnOk result (IsTrue D.tells → (files : Files)
        → laid_files held.new files ≡ with_file file
        (with_units at (take count (drop from (D.files disk.old).log)) (file_of file (laid_files held.old files)))
        (laid_files held.old files)) }
    ensures fault { IfErr result IsOutsideLog }
    ensures reads { ReadsAtOr D.Disk Log (result ≡ Err LoadFault.DiskFault) disk.old disk.new }
{
    let mut page = [0u8; 4096];
    let mut done = 0u32;
    while done < count {
        let n = (count - done).min(256);
        let bytes = &mut page[..16 * n as usize];
        let place = at + done as u64;
        hold_piece(alloc, disk, held, from + done as u64, file, place, bytes)?;
        done += n;
    }
    Ok(())
}

/// Holds the entries after a commit record.
fn hold_entries<D: Disk>(
    alloc: Global,
    disk: &mut D,
    held: &mut Layers,
    commit_record: CommitRecord,
) -> Result<(), LoadFault>
    requires last { IsTrue D.tells → commit_record.last < length (D.files disk.old).log }
    requires open { IsTrue D.tells → IsOpen (heads_behind commit_record (D.files disk.old).log) }
    ensures held { OnOk result (IsTrue D.tells → (files : Files)
        → laid_files held.new files ≡ with_entries (entries_of (heads_behind commit_record (D.files disk.old).log))
        (laid_files held.old files)) }
    ensures fault { IfErr result (λ fault. IsTrue D.tells → IsOutsideLog fault) }
    ensures reads { ReadsAtOr D.Disk Log (result ≡ Err LoadFault.DiskFault) disk.old disk.new }
{
    let mut p = 1u64;
    for _k in 0..commit_record.entries {
        let Ok(found) = read_head(disk, commit_record.last, p) else {
            return Err(LoadFault::DiskFault);
        };
        let Some(head) = found else {
            return Err(LoadFault::BadLog { unit: p });
        };
        let first = head.first as u64;
        hold_units(alloc, disk, held, p + 1, head.file, first, head.count)?;
        p += 1 + head.count as u64;
    }
    Ok(())
}

/// Holds the entries of an open log, and none of a closed one.
pub fn hold_log<D: Disk>(alloc: Global, disk: &mut D, held: &mut Layers) -> Result<(), LoadFault>
    requires { (files : Files) → laid_files held.old files ≡ files }
    ensures held { OnOk result (IsTrue D.tells → laid_files held.new (D.files disk.old)
        ≡ with_file File.Log (D.files disk.old).log (reopened_files (D.files disk.old))) }
    ensures entries { OnOk result (IsTrue D.tells → (files : Files)
        → laid_files held.new files ≡ with_entries (entries_of (log_state (D.files disk.old).log)) files) }
    ensures says { IsTrue D.tells → LoadSays (log_state (D.files disk.old).log) result }
    ensures reads { ReadsAtOr D.Disk Log (result ≡ Err LoadFault.DiskFault) disk.old disk.new }
{
    let Ok(reading) = read_log(disk) else {
        return Err(LoadFault::DiskFault);
    };
    match reading {
        Reading::Shut => Ok(()),
        Reading::Bad(unit) => Err(LoadFault::BadLog { unit }),
        Reading::Opened(commit_record) => hold_entries(alloc, disk, held, commit_record),
    }
}

/// A disk that was to be loaded, with the reason why it wasn't.
#[derive(Drop)]
pub struct LoadRefused<D> {
    pub why: LoadFault,
    pub disk: D,
}

impl<D: Disk> Overlay<D> {
    /// An overlay over a disk that holds the entries of an open log, and nothing where the log is closed.
    ///
    /// It neither writes nor syncs. Of the disk it reads the log alone: its units once, and its heads twice.
    ///
    /// # Errors
    ///
    /// The disk comes back with the reason: `BadLog` where the log is malformed, with the unit; `DiskFault` only
    /// where the count of faults rose; `NoMemory`.
    pub fn load(alloc: Global, disk: D) -> Result<Overlay<D>, LoadRefused<D>>
        ensures loaded { IfOk result (λ overlay. IsLoaded overlay) }
        ensures files { IfOk result (λ overlay. IsTrue D.tells
            → laid_files (overlay_held overlay) (D.files (overlay_below overlay))
            ≡ with_file File.Log (D.files disk).log (reopened_files (D.files disk))) }
        ensures entries { IfOk result (λ overlay. IsTrue D.tells → (files : Files)
            → laid_files (overlay_held overlay) files
            ≡ with_entries (entries_of (log_state (D.files disk).log)) files) }
        ensures says { IsTrue D.tells → LoadedSays (log_state (D.files disk).log) result }
        ensures looks { OnlyReadsFile D.Disk Log disk (disk_after result) }
        ensures cause { HasCauseAt (IsDiskFault result) (D.faults disk) (D.faults (disk_after result)) }
    {
        let mut disk = disk;
        let mut held = no_layers(alloc);
        match hold_log(alloc, &mut disk, &mut held) {
            Ok(()) => Ok(Overlay::of(alloc, disk, held)),
            Err(why) => Err(LoadRefused { why, disk }),
        }
    }
}
