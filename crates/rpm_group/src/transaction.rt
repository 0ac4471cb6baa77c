//! What is held is written as one change: to the log, and from memory to the files.

ghost use Rattle.std.specs.Prelude.{◌≡◌, ◌⊎◌, ℕ, ◌+◌, ◌-◌, ◌*◌, ◌/◌, ◌%◌, ◌<◌, ◌≤◌, ◌^◌, IsTrue, length, OnOk, OnErr, IfOk, IfErr, List, Err};
ghost use Rattle.rpm_group.specs.Prelude.{begins_run, IsChangedInRange, Closed, count_below, CoversHeld, EntriesIn, Entry, file_of, Files, HeadsEndInZeros, images, laid_units, CrashChanges, CrashLeaves, log_state, log_units, EntriesOfTable, ReadsNothing, reopened_files, without_log, IsUntouched, WasWithin, with_entries, with_file};

use crate::pages::Pages;
use crate::scan::next_unit;
use crate::writes::{Buffer, log_run, write_run};
use rpm_outside::{Disk, Failed, File};

/// The unit of the log after its last entry, and how many entries there are.
#[derive(Clone, Copy, PartialEq, Eq)]
pub struct Tail {
    pub at: u64,
    pub entries: u32,
}

/// Writes an entry to the log for each run of held units of a file.
pub fn log_runs<D: Disk>(
    disk: &mut D,
    pages: &Pages,
    file: File,
    tail: Tail,
    buffer: &mut Buffer,
) -> Result<Tail, Failed>
    requires not_log { file ≡ File.Log → ⊥ }
    requires room { tail.at + log_units pages.now.table.items pages.now.end ≤ 2 ^ 28 }
    requires few { tail.entries ≤ tail.at }
    ensures at { IfOk result (λ next. next.at ≡ tail.at + log_units pages.now.table.items pages.now.end) }
    ensures entries { IfOk result (λ next. next.entries ≡ tail.entries + count_below (begins_run pages.now.table.items) pages.now.end) }
    ensures logged { IfOk result (λ next. IsTrue D.tells
        → (entries : List Entry) × EntriesOfTable entries file pages.now.table.items pages.now.end
        × EntriesIn entries tail.at next.at (D.files disk.new).log
        × HeadsEndInZeros entries tail.at (D.files disk.new).log) }
    ensures changed { OnOk result (IsTrue D.tells → IsChangedInRange File.Log tail.at
        (tail.at + log_units pages.now.table.items pages.now.end) (D.files disk.old) (D.files disk.new)) }
    ensures images { IsTrue D.tells → CrashChanges D.Disk File.Log tail.at
        (tail.at + log_units pages.now.table.items pages.now.end) disk.old disk.new }
    ensures reads { ReadsNothing D.Disk result disk.old disk.new }
{
    let end = pages.end as usize;
    let mut next = tail;
    let mut at = 0;
    while at < end {
        let first = next_unit(&pages.table, at, end, true);
        let stop = next_unit(&pages.table, first, end, false);
        if first < stop {
            log_run(disk, &pages.table, file, next.at, first, stop, buffer)?;
            next = Tail {
                at: next.at + 1 + (stop - first) as u64,
                entries: next.entries + 1,
            };
        }
        at = stop;
    }
    Ok(next)
}

/// Writes the held units of a file to it, run by run.
pub fn apply_runs<D: Disk>(
    disk: &mut D,
    pages: &Pages,
    file: File,
    buffer: &mut Buffer,
) -> Result<(), Failed>
    ensures written { OnOk result (IsTrue D.tells → D.files disk.new
        ≡ with_file file (laid_units pages.now.table.items pages.now.end (file_of file (D.files disk.old)))
        (D.files disk.old)) }
    ensures images { IsTrue D.tells → (entries : List Entry)
        → CoversHeld entries file pages.now.table.items pages.now.end
        → CrashLeaves D.Disk disk.old disk.new (WasWithin entries (images D.Disk disk.old)) }
    ensures reads { ReadsNothing D.Disk result disk.old disk.new }
{
    let end = pages.end as usize;
    let mut at = 0;
    while at < end {
        let first = next_unit(&pages.table, at, end, true);
        let stop = next_unit(&pages.table, first, end, false);
        if first < stop {
            write_run(disk, &pages.table, file, first as u64, first, stop, buffer)?;
        }
        at = stop;
    }
    Ok(())
}
