//! What a crash left of a change is finished.

ghost use Rattle.std.specs.Prelude.{◌≡◌, ◌↔◌, ℕ, ◌+◌, ◌*◌, ◌/◌, ◌%◌, ◌<◌, ◌≤◌, ◌^◌, IsTrue, length, take, drop, Ok, Err, None, true, OnOk, IfOk, IfErr};
ghost use Rattle.rpm_group.specs.Prelude.{AreDurable, Closed, DiskFault, entries_of, file_of, Files, FitsAt, heads_behind, images, IsHead, IsOpen, IsDurable, KeepsBehind, CrashChanges, CrashLeaves, Log, log_state, OnlyReadsLog, OnlyReadsLogOr, with_units, ReadsLog, RecoverKeeps, RecoverSays, reopened_files, ReopensAs, ReopensAsOneOf, unit_at, without_log, WasWithin, with_entries, with_file, Within};

use crate::log::{CommitRecord, Reading, read_head, read_log};
use rpm_outside::{Disk, Failed, File};

/// Why a database can't be recovered.
#[derive(Clone, Copy, PartialEq, Eq)]
pub enum RecoverFault {
    /// The log is wrong at this unit.
    BadLog { unit: u64 },
    /// A call of the disk failed.
    DiskFault,
}

/// Makes all three files durable.
pub fn sync_all<D: Disk>(disk: &mut D) -> Result<(), Failed>
    ensures same { IsTrue D.tells → D.files disk.new ≡ D.files disk.old }
    ensures durable { OnOk result (IsTrue D.tells → AreDurable (D.files disk.new) (images D.Disk disk.new)) }
    ensures images { IsTrue D.tells → CrashLeaves D.Disk disk.old disk.new (images D.Disk disk.old) }
    ensures reads { OnlyReadsLog D.Disk result disk.old disk.new }
{
    sync_files(disk)?;
    disk.sync(File::Log)
}

/// Makes the two files durable that the log is for.
pub fn sync_files<D: Disk>(disk: &mut D) -> Result<(), Failed>
    ensures same { IsTrue D.tells → D.files disk.new ≡ D.files disk.old }
    ensures pkg { OnOk result (IsTrue D.tells → IsDurable File.Pkg (D.files disk.new) (images D.Disk disk.new)) }
    ensures idx { OnOk result (IsTrue D.tells → IsDurable File.Idx (D.files disk.new) (images D.Disk disk.new)) }
    ensures images { IsTrue D.tells → CrashLeaves D.Disk disk.old disk.new (images D.Disk disk.old) }
    ensures reads { OnlyReadsLog D.Disk result disk.old disk.new }
{
    disk.sync(File::Pkg)?;
    disk.sync(File::Idx)?;
    Ok(())
}

/// Copies units of the log to a file, as many as `bytes` holds.
fn copy_piece<D: Disk>(
    disk: &mut D,
    from: u64,
    file: File,
    at: u64,
    bytes: &mut [u8],
) -> Result<(), Failed>
    requires fits { FitsAt at bytes.old }
    requires within { IsTrue D.tells → from + length bytes.old / 16 ≤ length (D.files disk.old).log }
    ensures written { OnOk result (IsTrue D.tells
        → D.files disk.new ≡ with_file file (with_units at (take (length bytes.old / 16) (drop from (D.files disk.old).log))
        (file_of file (D.files disk.old))) (D.files disk.old)) }
    ensures images { IsTrue D.tells → CrashChanges D.Disk file at (at + length bytes.old / 16) disk.old disk.new }
    ensures reads { OnlyReadsLog D.Disk result disk.old disk.new }
{
    disk.read_at(File::Log, from, bytes)?;
    disk.write_at(file, at, bytes)?;
    Ok(())
}

/// Copies so many units of the log to a file, 4 KiB at a time.
fn copy_units<D: Disk>(
    disk: &mut D,
    from: u64,
    file: File,
    at: u64,
    count: u32,
) -> Result<(), Failed>
    requires some { 0 < count }
    requires not_log { file ≡ File.Log → ⊥ }
    requires within { IsTrue D.tells → from + count ≤ length (D.files disk.old).log }
    requires room { at + count ≤ 2 ^ 28 }
    requires place { from ≤ 2 ^ 32 }
    ensures written { OnOk result (IsTrue D.tells → D.files disk.new
        ≡ with_file file (with_units at (take count (drop from (D.files disk.old).log)) (file_of file (D.files disk.old)))
        (D.files disk.old)) }
    ensures images { IsTrue D.tells → CrashChanges D.Disk file at (at + count) disk.old disk.new }
    ensures reads { OnlyReadsLog D.Disk result disk.old disk.new }
{
    let mut page = [0u8; 4096];
    let mut done = 0u32;
    while done < count {
        let n = (count - done).min(256);
        let bytes = &mut page[..16 * n as usize];
        copy_piece(disk, from + done as u64, file, at + done as u64, bytes)?;
        done += n;
    }
    Ok(())
}

/// Writes the entries after a commit record to their files. A head that isn't right any more gives its unit, which no
/// disk that tells its contents has.
fn copy_entries<D: Disk>(disk: &mut D, commit_record: CommitRecord) -> Result<Option<u64>, Failed>
    requires last { IsTrue D.tells → commit_record.last < length (D.files disk.old).log }
    requires open { IsTrue D.tells → IsOpen (heads_behind commit_record (D.files disk.old).log) }
    ensures none { IfOk result (λ fault. IsTrue D.tells → fault ≡ None) }
    ensures written { OnOk result (IsTrue D.tells → D.files disk.new
        ≡ with_entries (entries_of (heads_behind commit_record (D.files disk.old).log)) (D.files disk.old)) }
    ensures images { IsTrue D.tells → CrashLeaves D.Disk disk.old disk.new
        (WasWithin (entries_of (heads_behind commit_record (D.files disk.old).log)) (images D.Disk disk.old)) }
    ensures reads { OnlyReadsLog D.Disk result disk.old disk.new }
{
    let mut p = 1u64;
    for _k in 0..commit_record.entries {
        let Some(head) = read_head(disk, commit_record.last, p)? else {
            return Ok(Some(p));
        };
        copy_units(disk, p + 1, head.file, head.first as u64, head.count)?;
        p += 1 + head.count as u64;
    }
    Ok(None)
}

/// Writes the entries after a commit record to their files, and makes these durable.
fn apply_entries<D: Disk>(disk: &mut D, commit_record: CommitRecord) -> Result<Option<u64>, Failed>
    requires last { IsTrue D.tells → commit_record.last < length (D.files disk.old).log }
    requires open { IsTrue D.tells → IsOpen (heads_behind commit_record (D.files disk.old).log) }
    requires durable { IsTrue D.tells → AreDurable (D.files disk.old) (images D.Disk disk.old) }
    ensures none { IfOk result (λ fault. IsTrue D.tells → fault ≡ None) }
    ensures written { OnOk result (IsTrue D.tells → D.files disk.new
        ≡ with_entries (entries_of (heads_behind commit_record (D.files disk.old).log)) (D.files disk.old)) }
    ensures durable { OnOk result (IsTrue D.tells → AreDurable (D.files disk.new) (images D.Disk disk.new)) }
    ensures images { IsTrue D.tells → CrashLeaves D.Disk disk.old disk.new
        (WasWithin (entries_of (heads_behind commit_record (D.files disk.old).log)) (images D.Disk disk.old)) }
    ensures reads { OnlyReadsLog D.Disk result disk.old disk.new }
{
    let fault = copy_entries(disk, commit_record)?;
    sync_files(disk)?;
    Ok(fault)
}

/// Makes the commit record zeros, and makes the log durable.
pub fn close_log<D: Disk>(disk: &mut D) -> Result<(), Failed>
    requires some { IsTrue D.tells → 0 < length (D.files disk.old).log }
    requires durable { IsTrue D.tells → AreDurable (D.files disk.old) (images D.Disk disk.old) }
    requires open { IsTrue D.tells → IsOpen (log_state (D.files disk.old).log) }
    requires done { IsTrue D.tells → with_entries (entries_of (log_state (D.files disk.old).log))
        (without_log (D.files disk.old)) ≡ without_log (D.files disk.old) }
    ensures closed { OnOk result (IsTrue D.tells → log_state (D.files disk.new).log ≡ Closed) }
    ensures behind { OnOk result (IsTrue D.tells → KeepsBehind 1 (D.files disk.old).log (D.files disk.new).log) }
    ensures same { IsTrue D.tells → without_log (D.files disk.new) ≡ without_log (D.files disk.old) }
    ensures durable { OnOk result (IsTrue D.tells → AreDurable (D.files disk.new) (images D.Disk disk.new)) }
    ensures images { IsTrue D.tells → CrashLeaves D.Disk disk.old disk.new (ReopensAs (without_log (D.files disk.old))) }
    ensures commit_record { IsTrue D.tells → CrashChanges D.Disk File.Log 0 1 disk.old disk.new }
    ensures reads { OnlyReadsLog D.Disk result disk.old disk.new }
{
    disk.write_at(File::Log, 0, &[0u8; 16])?;
    disk.sync(File::Log)?;
    Ok(())
}

/// Finishes the change of a log with this commit record.
fn finish<D: Disk>(disk: &mut D, commit_record: CommitRecord) -> Result<bool, RecoverFault>
    requires last { IsTrue D.tells → commit_record.last < length (D.files disk.old).log }
    requires state { IsTrue D.tells → log_state (D.files disk.old).log ≡ heads_behind commit_record (D.files disk.old).log }
    requires open { IsTrue D.tells → IsOpen (log_state (D.files disk.old).log) }
    requires durable { IsTrue D.tells → AreDurable (D.files disk.old) (images D.Disk disk.old) }
    ensures done { IfOk result (λ was_open. was_open ≡ true) }
    ensures fault { IfErr result (λ fault. IsTrue D.tells → fault ≡ RecoverFault.DiskFault) }
    ensures closed { OnOk result (IsTrue D.tells → log_state (D.files disk.new).log ≡ Closed) }
    ensures files { OnOk result (IsTrue D.tells → without_log (D.files disk.new) ≡ reopened_files (D.files disk.old)) }
    ensures durable { OnOk result (IsTrue D.tells → AreDurable (D.files disk.new) (images D.Disk disk.new)) }
    ensures images { IsTrue D.tells → CrashLeaves D.Disk disk.old disk.new (ReopensAs (reopened_files (D.files disk.old))) }
    ensures behind { IsTrue D.tells → CrashLeaves D.Disk disk.old disk.new (λ image. KeepsBehind 1 (D.files disk.old).log image.log) }
    ensures reads { OnlyReadsLogOr D.Disk (result ≡ Err RecoverFault.DiskFault) disk.old disk.new }
{
    let Ok(fault) = apply_entries(disk, commit_record) else {
        return Err(RecoverFault::DiskFault);
    };
    if let Some(unit) = fault {
        return Err(RecoverFault::BadLog { unit });
    }
    close_log(disk).map_err(|_| RecoverFault::DiskFault)?;
    Ok(true)
}

/// Finishes the change that an open log says, and answers whether there was one. The log is closed then.
///
/// It takes no memory, reads the log alone, its units once and its heads twice, and writes 4 KiB at a time. It syncs
/// all three files first; with an open log both databases again, after what it wrote, and the log, once that is closed.
///
/// # Errors
///
/// `BadLog` where the log is malformed, with the unit. `DiskFault` only where the count of faults rose. Whatever the
/// answer, the disk represents what it represented at the start, and each image that a crash since the start may leave represents
/// what one of the start represented; its log is malformed only where that one is left with all its files as it was.
/// Where the log is closed or malformed, no file changes.
pub fn recover<D: Disk>(disk: &mut D) -> Result<bool, RecoverFault>
    ensures says { IsTrue D.tells → RecoverSays (log_state (D.files disk.old).log) result }
    ensures kept { IsTrue D.tells → RecoverKeeps (log_state (D.files disk.old).log) (D.files disk.old) (D.files disk.new) }
    ensures closed { OnOk result (IsTrue D.tells → log_state (D.files disk.new).log ≡ Closed) }
    ensures files { OnOk result (IsTrue D.tells → without_log (D.files disk.new) ≡ reopened_files (D.files disk.old)) }
    ensures durable { OnOk result (IsTrue D.tells → AreDurable (D.files disk.new) (images D.Disk disk.new)) }
    ensures stands { IsTrue D.tells → reopened_files (D.files disk.new) ≡ reopened_files (D.files disk.old) }
    ensures images { IsTrue D.tells → CrashLeaves D.Disk disk.old disk.new (ReopensAsOneOf (images D.Disk disk.old)) }
    ensures behind { IsTrue D.tells → CrashLeaves D.Disk disk.old disk.new
        (λ image. (from : Files) × images D.Disk disk.old from × KeepsBehind 1 from.log image.log) }
    ensures reads { ReadsLog D.Disk disk.old disk.new }
    ensures cause { DiskFault D.Disk (result ≡ Err RecoverFault.DiskFault) disk.old disk.new }
{
    sync_all(disk).map_err(|_| RecoverFault::DiskFault)?;
    let Ok(reading) = read_log(disk) else {
        return Err(RecoverFault::DiskFault);
    };
    match reading {
        Reading::Shut => Ok(false),
        Reading::Bad(unit) => Err(RecoverFault::BadLog { unit }),
        Reading::Opened(commit_record) => finish(disk, commit_record),
    }
}
