//! What an overlay holds becomes one change of the disk below.

ghost use Rattle.std.specs.Prelude.{◌≡◌, ◌⊎◌, ◌↔◌, ℕ, ◌+◌, ◌-◌, ◌*◌, ◌/◌, ◌%◌, ◌<◌, ◌≤◌, ◌^◌, IsTrue, length, Ok, Err, OnOk, OnErr, IfOk, IfErr, List};
ghost use Rattle.rpm_group.specs.Prelude.{AreDurable, BeforeOrAfter, IsChangedInRange, Closed, CommitSays, CoversHeld, DiskFault, Entry, file_of, Files, images, IsCommit, IsLogFull, IsTransaction, IsLogged, IsDurable, IsTail, KeepsBehind, CrashChanges, CrashLeaves, log_state, needed_units, OnlyReadsLog, OnlyReadsLogOr, Open, overlay_below, overlay_held, overlay_starved, ReadsNothing, reopened_files, runs_of, units_of_log, without_log, IsUntouched, Unwritten, WasWithin, with_entries, with_file, with_held};

use crate::layers::Layers;
use crate::overlay::Overlay;
use crate::recovery::{close_log, sync_files};
use crate::scan::extent;
use crate::transaction::{Tail, apply_runs, log_runs};
use crate::writes::Buffer;
use rpm_outside::{Disk, Failed, File, unit_of_words};

/// Writes the entries of both files to the log after the commit record, and makes it durable.
fn log_held<D: Disk>(disk: &mut D, held: &Layers, buffer: &mut Buffer) -> Result<Tail, Failed>
    requires room { needed_units held.now ≤ 2 ^ 28 }
    requires durable { IsTrue D.tells → AreDurable (D.files disk.old) (images D.Disk disk.old) }
    ensures entries { IfOk result (λ tail. tail.entries ≡ runs_of held.now.pkg + runs_of held.now.idx) }
    ensures at { IfOk result (λ tail. tail.at ≡ needed_units held.now) }
    ensures logged { IfOk result (λ tail. IsTrue D.tells
        → (entries : List Entry) × IsTransaction entries held.now × IsTail entries tail (D.files disk.new).log) }
    ensures changed { OnOk result (IsTrue D.tells → IsChangedInRange File.Log 1 (needed_units held.now) (D.files disk.old) (D.files disk.new)) }
    ensures durable { OnOk result (IsTrue D.tells → AreDurable (D.files disk.new) (images D.Disk disk.new)) }
    ensures images { IsTrue D.tells → CrashChanges D.Disk File.Log 1 (needed_units held.now) disk.old disk.new }
    ensures reads { ReadsNothing D.Disk result disk.old disk.new }
{
    let start = Tail { at: 1, entries: 0 };
    let middle = log_runs(disk, &held.pkg, File::Pkg, start, buffer)?;
    let tail = log_runs(disk, &held.idx, File::Idx, middle, buffer)?;
    disk.sync(File::Log)?;
    Ok(tail)
}

// `RpmL`
const MAGIC: u32 = 0x4c6d_7052;

/// Writes the commit record, and makes the log durable.
fn open_log<D: Disk>(disk: &mut D, tail: Tail) -> Result<(), Failed>
    requires some { 0 < tail.entries }
    requires place { 1 < tail.at }
    requires small { tail.at ≤ 2 ^ 28 }
    requires durable { IsTrue D.tells → AreDurable (D.files disk.old) (images D.Disk disk.old) }
    requires closed { IsTrue D.tells → log_state (D.files disk.old).log ≡ Closed }
    ensures open { OnOk result (IsTrue D.tells → (entries : List Entry) → IsTail entries tail (D.files disk.old).log
        → log_state (D.files disk.new).log ≡ Open entries) }
    ensures same { IsTrue D.tells → without_log (D.files disk.new) ≡ without_log (D.files disk.old) }
    ensures long { IsTrue D.tells → length (D.files disk.old).log ≤ length (D.files disk.new).log }
    ensures behind { OnOk result (IsTrue D.tells → KeepsBehind 1 (D.files disk.old).log (D.files disk.new).log) }
    ensures durable { OnOk result (IsTrue D.tells → AreDurable (D.files disk.new) (images D.Disk disk.new)) }
    ensures images { IsTrue D.tells → (entries : List Entry) → IsTail entries tail (D.files disk.old).log
        → CrashLeaves D.Disk disk.old disk.new (BeforeOrAfter (without_log (D.files disk.old))
        (with_entries entries (without_log (D.files disk.old)))) }
    ensures commit_record { IsTrue D.tells → CrashChanges D.Disk File.Log 0 1 disk.old disk.new }
    ensures reads { ReadsNothing D.Disk result disk.old disk.new }
{
    let commit_record = unit_of_words(MAGIC, 1, tail.entries, (tail.at - 1) as u32);
    disk.write_at(File::Log, 0, &commit_record)?;
    disk.sync(File::Log)?;
    Ok(())
}

/// Writes what is held of both files to them, and makes them durable.
fn apply_held<D: Disk>(disk: &mut D, held: &Layers, buffer: &mut Buffer) -> Result<(), Failed>
    ensures written { OnOk result (IsTrue D.tells → D.files disk.new ≡ with_held held.now (D.files disk.old)) }
    ensures pkg { OnOk result (IsTrue D.tells → IsDurable File.Pkg (D.files disk.new) (images D.Disk disk.new)) }
    ensures idx { OnOk result (IsTrue D.tells → IsDurable File.Idx (D.files disk.new) (images D.Disk disk.new)) }
    ensures images { IsTrue D.tells → (entries : List Entry) → IsTransaction entries held.now
        → CrashLeaves D.Disk disk.old disk.new (WasWithin entries (images D.Disk disk.old)) }
    ensures reads { OnlyReadsLog D.Disk result disk.old disk.new }
{
    apply_runs(disk, &held.pkg, File::Pkg, buffer)?;
    apply_runs(disk, &held.idx, File::Idx, buffer)?;
    sync_files(disk)
}

/// Writes what is held as one change.
fn write_transaction<D: Disk>(disk: &mut D, held: &Layers) -> Result<(), Failed>
    requires room { needed_units held.now ≤ 2 ^ 28 }
    requires some { 1 < needed_units held.now }
    requires durable { IsTrue D.tells → AreDurable (D.files disk.old) (images D.Disk disk.old) }
    requires closed { IsTrue D.tells → log_state (D.files disk.old).log ≡ Closed }
    ensures files { OnOk result (IsTrue D.tells → without_log (D.files disk.new) ≡ without_log (with_held held.now (D.files disk.old))) }
    ensures closed { OnOk result (IsTrue D.tells → log_state (D.files disk.new).log ≡ Closed) }
    ensures logged { OnOk result (IsTrue D.tells → IsLogged held.now (D.files disk.new).log) }
    ensures durable { OnOk result (IsTrue D.tells → AreDurable (D.files disk.new) (images D.Disk disk.new)) }
    ensures images { IsTrue D.tells → CrashLeaves D.Disk disk.old disk.new
        (BeforeOrAfter (without_log (D.files disk.old)) (without_log (with_held held.now (D.files disk.old)))) }
    ensures behind { IsTrue D.tells → CrashLeaves D.Disk disk.old disk.new
        (λ image. KeepsBehind (needed_units held.now) (D.files disk.old).log image.log) }
    ensures reads { OnlyReadsLog D.Disk result disk.old disk.new }
{
    let mut buffer = [0u8; 65_536];
    let tail = log_held(disk, held, &mut buffer)?;
    open_log(disk, tail)?;
    apply_held(disk, held, &mut buffer)?;
    close_log(disk)
}

/// Why a commit didn't go through.
#[derive(Clone, Copy, PartialEq, Eq)]
pub enum CommitFault {
    /// The log would have this many units, which is more than it can have.
    LogFull { needed: u64 },
    /// A call of the disk failed.
    DiskFault,
}

// How many units a log may have.
const MOST: u64 = 268_435_456;

/// Writes what is held as one change, or nothing where nothing is held.
fn write_held<D: Disk>(disk: &mut D, held: &Layers) -> Result<(), CommitFault>
    requires durable { IsTrue D.tells → AreDurable (D.files disk.old) (images D.Disk disk.old) }
    requires closed { IsTrue D.tells → log_state (D.files disk.old).log ≡ Closed }
    ensures files { OnOk result (IsTrue D.tells → without_log (D.files disk.new) ≡ without_log (with_held held.now (D.files disk.old))) }
    ensures closed { OnOk result (IsTrue D.tells → log_state (D.files disk.new).log ≡ Closed) }
    ensures logged { OnOk result (IsTrue D.tells → IsLogged held.now (D.files disk.new).log) }
    ensures durable { OnOk result (IsTrue D.tells → AreDurable (D.files disk.new) (images D.Disk disk.new)) }
    ensures images { IsTrue D.tells → CrashLeaves D.Disk disk.old disk.new
        (BeforeOrAfter (without_log (D.files disk.old)) (without_log (with_held held.now (D.files disk.old)))) }
    ensures behind { IsTrue D.tells → CrashLeaves D.Disk disk.old disk.new
        (λ image. KeepsBehind (needed_units held.now) (D.files disk.old).log image.log) }
    ensures says { CommitSays (2 ^ 28) (needed_units held.now) result }
    ensures full { 2 ^ 28 < needed_units held.now → IsLogFull (needed_units held.now) result }
    ensures idle { needed_units held.now ≡ 1 → Unwritten D.Disk disk.old disk.new }
    ensures unwritten { IsLogFull (needed_units held.now) result → Unwritten D.Disk disk.old disk.new }
    ensures reads { OnlyReadsLogOr D.Disk (result ≡ Err CommitFault.DiskFault) disk.old disk.new }
{
    let pkg = extent(&held.pkg.table, held.pkg.end as usize);
    let idx = extent(&held.idx.table, held.idx.end as usize);
    let units = pkg.runs + pkg.units + idx.runs + idx.units;
    if units == 0 {
        return Ok(());
    }
    if units >= MOST {
        return Err(CommitFault::LogFull { needed: 1 + units });
    }
    write_transaction(disk, held).map_err(|_| CommitFault::DiskFault)
}

impl<D: Disk> Overlay<D> {
    /// Makes what is held of the two files one change of the disk below, and hands that back. What is held of the log
    /// is dropped.
    ///
    /// Each run of held units is one entry of the log, those of `Packages.db` first. It takes no memory, writes each
    /// unit twice, up to 64 KiB at a time, and syncs five times: the log after its entries and after its commit
    /// record, both files, and the log after zeros in the place of the commit record. Where nothing is held it does
    /// nothing.
    ///
    /// # Errors
    ///
    /// `LogFull` exactly where the log would be longer than a file can be, which takes two files of the overlay that
    /// together have half as many units; nothing is written then. `DiskFault` only where the count of faults of the
    /// disk below rose; the disk stands then for its files before or for those of the overlay, as does each image
    /// that a crash since the start may leave represents, and none of them has a malformed log.
    pub fn commit(self) -> (D, Result<(), CommitFault>)
        requires starved { overlay_starved self ≡ 0 }
        requires durable { IsTrue D.tells → AreDurable (D.files (overlay_below self)) (images D.Disk (overlay_below self)) }
        requires closed { IsTrue D.tells → log_state (D.files (overlay_below self)).log ≡ Closed }
        ensures { IsCommit D.Disk (overlay_held self) result.1 (overlay_below self) result.0 }
    {
        let (mut below, held) = self.into_parts();
        let answer = write_held(&mut below, &held);
        (below, answer)
    }
}
