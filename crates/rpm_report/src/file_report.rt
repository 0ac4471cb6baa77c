//! `AnswersPlain` of the theorem: what is told of the paths that several packages own and that differ.

ghost use Rattle.std.specs.Prelude.{◌≡◌, ◌≢◌, ◌+◌, ◌≤◌, [], ◌∷◌, map, if◌then◌else◌, false, IsTrue, Err, IfErr};
ghost use Rattle.rpm_report.specs.Prelude.{check_files, conflict_step, packages_cost, DiskFault, EndHands, Everything, fails, HaltHands, is_foreign, is_of_opening, IsAskable, IsOfPrint, label_told, OnlyReads, OutTakes, packages_in, PartIs, Pkg, pkg_read, PutsOut, reached_by, shown_outputs, together, told_steps, CommandProgress, whole_step};

use rpm_db::Db;
use rpm_effects::{Halt, Why, put_out};
use rpm_filecheck::{Conflict, ConflictList, FileCheckFault, conflicts};
use rpm_outside::{Buffered, Disk, File, Sink};
use rpm_print::put_bad;
use std::alloc::Global;

/// A word, where what it names differs.
fn if_differs<'a>(differs: bool, word: &'a [u8]) -> &'a [u8]
    ensures { result.now ≡ if differs then word.now else [] }
{
    if differs { word } else { b"" }
}

/// Writes to out the line of a conflict.
fn put_conflict<'a, O: Sink + Drop>(
    out: &mut Buffered<O>,
    report: &'a ConflictList,
    conflict: &'a Conflict,
) -> Result<bool, Halt>
    ensures part { OutTakes O.Sink (λ old new. PartIs (fails (conflict_step (label_told report.now) conflict.now)) result
        old new (λ for. for ≡ whole_step 0)) out.old out.new }
    ensures puts { PutsOut O.Sink result out.old out.new }
{
    let first = report.label(conflict.first());
    let second = report.label(conflict.second());
    let digest = if_differs(conflict.digest(), b" digest");
    let mode = if_differs(conflict.mode(), b" mode");
    let link = if_differs(conflict.link(), b" link");
    put_out(
        out,
        &[
            conflict.path(),
            b": ",
            first,
            b" ",
            second,
            b":",
            digest,
            mode,
            link,
            b"\n",
        ],
    )
}

/// Tells a report: to err the packages that can't be read, and then to out the conflicts, a line for each. Says whether
/// the argument fails.
fn tell_report<O: Sink + Drop, E: Sink + Drop>(
    alloc: Global,
    report: &ConflictList,
    out: &mut Buffered<O>,
    err: &mut Buffered<E>,
) -> Result<bool, Halt>
    ensures part { PartIs (together (map fails (told_steps report.now))) result (shown_outputs O.Sink E.Sink out.old err.old)
        (shown_outputs O.Sink E.Sink out.new err.new) (λ for. for ≡ whole_step 0) }
    ensures no_read { result ≢ Err Halt.DiskFault }
    ensures class { IfErr result IsOfPrint }
    ensures hands { HaltHands O.Sink E.Sink result out.old err.old out.new err.new }
{
    let bad = report.bad();
    for number in bad {
        put_bad(alloc, err, *number)?;
    }
    for i in 0..report.len() {
        put_conflict(out, report, report.at(i))?;
    }
    Ok(!bad.is_empty() | (report.len() != 0))
}

/// Tells the packages that can't be read, and then the paths that several packages own and that differ. Reads all
/// packages, each once, before the first line; what it keeps of them is what [`conflicts`](rpm_filecheck::conflicts)
/// says.
pub fn check_files<D: Disk, O: Sink + Drop, E: Sink + Drop>(
    alloc: Global,
    db: &Db,
    disk: &mut D,
    out: &mut Buffered<O>,
    err: &mut Buffered<E>,
) -> Why
    requires asked { IsAskable D.Disk disk.old db.now }
    ensures went { IsTrue D.tells → CommandProgress (check_files (packages_in D.Disk disk.old db.now)) result
        (shown_outputs O.Sink E.Sink out.old err.old) (shown_outputs O.Sink E.Sink out.new err.new)
        (λ for. pkg_read D.Disk disk.new ≤ pkg_read D.Disk disk.old + reached_by (Everything ∷ []) db.now for) }
    ensures done { is_foreign result ≡ false }
    ensures opened { is_of_opening result ≡ false }
    ensures looks { OnlyReads D.Disk Pkg (packages_cost db.now) disk.old disk.new }
    ensures disk { DiskFault D.Disk (result ≡ Why.DiskFault) disk.old disk.new }
    ensures hands { EndHands O.Sink E.Sink result out.old err.old out.new err.new }
{
    let report = match conflicts(alloc, db, disk) {
        Ok(report) => report,
        Err(FileCheckFault::DiskFault) => return Why::DiskFault,
        Err(FileCheckFault::NoMemory) => return Why::NoMemory,
    };
    match tell_report(alloc, &report, out, err) {
        Ok(true) => Why::Failed(1),
        Ok(false) => Why::Done,
        Err(halt) => Why::from(halt),
    }
}
