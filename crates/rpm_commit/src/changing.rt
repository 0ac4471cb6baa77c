//! `AnswersChange` of the theorem: commands that change packages, all changes of a command line as one.

ghost use Rattle.std.specs.Prelude.{◌≡◌, ◌⊎◌, ◌≤◌, ℕ, List, true, false, IsTrue, Err, IfErr};
ghost use Rattle.rpm_commit.specs.Prelude.{AnswersChange, done_why, EmptyBy, TransactionEnding, is_done, is_halt, is_of_streams, is_of_words, IsCountable, IsShut, KeepsAlways, laid_files, LogIs, needs_none, overlay_below, overlay_held, overlay_starved, ran, reads_shelf, reopened_files, Rose, shown_outputs, Streams, task_course, task_parts, without_log};

use crate::courses::change_on;
use rpm_command::Task;
use rpm_effects::{Tally, Why, unless_starved, why_of_load, why_of_recover};
use rpm_group::{CommitFault, Overlay, recover};
use rpm_outside::{Buffered, Disk, Shelf, Sink};
use std::alloc::Global;

/// How a command that changes packages ended, and how many of its changes were made.
#[derive(Clone, Copy, Debug, PartialEq, Eq)]
pub struct CommandEnding {
    pub why: Why,
    pub changes: u32,
}

/// The ending of a command that was done.
fn done_why(failed: u32) -> Why
    ensures is { result ≡ done_why failed }
    ensures done { is_done result ≡ true }
{
    if failed == 0 {
        Why::Done
    } else {
        Why::Failed(failed)
    }
}

/// An ending that leaves everything as it was.
fn unchanged(why: Why) -> CommandEnding
    ensures { result ≡ record { why = why; changes = 0 } }
{
    CommandEnding { why, changes: 0 }
}

/// Ends a command on an overlay: its changes are committed where it was done, and count then; else they are let go.
fn end_transaction<D: Disk>(overlay: Overlay<D>, ended: Result<Tally, Why>) -> (CommandEnding, D)
    requires halted { IfErr ended (λ given. is_halt given ≡ true) }
    requires shut { IsTrue D.tells → IsShut D.Disk (overlay_below overlay) }
    ensures ends { IsTrue D.tells → TransactionEnding D.Disk ended result.0.why result.0.changes
        (without_log (laid_files (overlay_held overlay) (D.files (overlay_below overlay)))) (overlay_below overlay)
        result.1 }
    ensures log { IsTrue D.tells → LogIs (laid_files (overlay_held overlay) (D.files (overlay_below overlay))) result.0.why }
    ensures counted { is_done result.0.why ≡ false → result.0.changes ≡ 0 }
    ensures of_words { is_of_words result.0.why ≡ false }
    ensures kept { is_of_streams result.0.why ≡ true → ended ≡ Err result.0.why }
    ensures goes_on { D.follows (overlay_below overlay) result.1 }
    ensures later { D.faults (overlay_below overlay) ≤ D.faults result.1 }
    ensures disk { result.0.why ≡ Why.DiskFault → Rose (D.faults (overlay_below overlay)) (D.faults result.1)
        ⊎ ((ended ≡ Err Why.DiskFault) × (overlay_starved overlay ≡ 0)) }
{
    match ended {
        Ok(tally) => {
            if overlay.is_starved() {
                return (unchanged(Why::NoMemory), overlay.release());
            }
            let (disk, answer) = overlay.commit();
            match answer {
                Ok(()) => {
                    let why = done_why(tally.failed);
                    let changes = tally.changes;
                    (CommandEnding { why, changes }, disk)
                }
                Err(CommitFault::LogFull { needed }) => (unchanged(Why::LogFull { needed }), disk),
                Err(CommitFault::DiskFault) => (unchanged(Why::DiskFault), disk),
            }
        }
        Err(given) => {
            let why = unless_starved(overlay.is_starved(), given);
            (unchanged(why), overlay.release())
        }
    }
}

/// Finishes what a crash left of a change, and makes the changes that a command asks for, one after the
/// other and all as one change. An argument that fails has its line, and the others go on. Where there is no
/// database, one is made.
///
/// The changes are held in memory, over the disk, and committed after the last one: a crash at any moment leaves all
/// of them or none. The ending is `Done`, or `Failed` with how many arguments failed; only then are changes counted,
/// and on a lawful database the index is current then, and the disk lawful. Generation, slot pages and the lengths of
/// the files are then those that the changes make. Any other ending leaves what the files represent as it was,
/// `DiskFault` aside, after which all changes or none are made. That a command line is one change is this project's
/// own rule.
///
/// - `BadLog` comes exactly where the log is malformed, and the files stay as they are; else `Damaged` where
///   `Packages.db` is damaged, with the place.
/// - `NotEmpty` comes exactly of an exercise where there are packages, with the least number.
/// - `IndexFull` comes first where the index must be made before the changes and needs more than 268435456 units.
///   Then, going through the changes in order, the first that is refused decides, and of it the first limit that it
///   meets: `NumbersSpent`, `GenerationSpent`, `StoreFull`, `IndexFull`. Of `IndexFull` that is said on a lawful
///   database, and on any of a command that makes the index anew.
/// - `LogFull` tells how many units the log would have, more than 268435456.
/// - `BadIndex` comes only where an index that was found current is changed, and isn't well formed as a whole: `unit`
///   has the first fault of a chain, or is 1, which counts too little.
/// - `DiskFault`, `ShelfFault`, `OutFault` and `ErrFault` come only where that object's count of faults rose;
///   `NoMemory` comes freely.
///
/// Of `Packages.db` it reads the slot pages, the blocks of all packages where the index must be made, and those of
/// each package that is replaced or erased. It syncs three times before the changes, six times where it finishes what
/// a crash left, and five times for them, and keeps a page of 4 KiB in memory for each 4 KiB that are written. `now`
/// is the moment of an installation, in seconds since 1970.
pub fn change_asked<D: Disk, S: Shelf, O: Sink + Drop, E: Sink + Drop>(
    alloc: Global,
    task: &Task<'_>,
    disk: D,
    shelf: &mut S,
    out: &mut Buffered<O>,
    err: &mut Buffered<E>,
    now: u32,
) -> (CommandEnding, D)
    requires countable { IsCountable (task_parts task.now) }
    ensures answers { (words : List (List ℕ)) → IsTrue D.tells → (reads_shelf (task_parts task.now) ≡ true → IsTrue S.tells)
        → AnswersChange (ran D.Disk words result.0.why result.0.changes (disk, result.1)
        (shown_outputs O.Sink E.Sink out.old err.old, shown_outputs O.Sink E.Sink out.new err.new))
        (task_parts task.now) (task_course (S.paths shelf.old) now (task_parts task.now)) }
    ensures empty { IsTrue D.tells → EmptyBy (needs_none (task_parts task.now)) (reopened_files (D.files disk)) result.0.why }
    ensures keeps { KeepsAlways D.Disk result.0 disk result.1 }
    ensures streams { Streams S.Shelf O.Sink E.Sink (reads_shelf (task_parts task.now))
        (λ why. result.0.why ≡ why) (shelf.old, out.old, err.old)
        (shelf.new, out.new, err.new) }
{
    let mut disk = disk;
    match recover(&mut disk) {
        Ok(_) => match Overlay::load(alloc, disk) {
            Ok(overlay) => {
                let mut overlay = overlay;
                let ended = change_on(alloc, &mut overlay, shelf, task, now, out, err);
                end_transaction(overlay, ended)
            }
            Err(refused) => (unchanged(why_of_load(refused.why)), refused.disk),
        },
        Err(fault) => (unchanged(why_of_recover(fault)), disk),
    }
}
