//! A command line, of which each call of the disk fails in turn.

use crate::difference::{Stop, differs, same_bytes};
use crate::ending::ending_text;
use crate::tool::{Ran, run_once, words_of};
use rpm_outside::{MemDisk, Pick};
use rpm_row_files::{Fails, Files, Line, NOTHING_FAILS, Shown, Start};
use rpm_tool::Why;
use std::alloc::Global;

/// More calls than this no row's line makes.
const MOST_CALLS: u64 = 100_000;

/// Runs a command line on files alone.
fn ask(alloc: Global, words: &[&str], files: &Files) -> Result<Ran, Stop> {
    let words = words_of(alloc, words)?;
    let ran = run_once(alloc, &words, &Start::new(alloc), files, NOTHING_FAILS, 0)?;
    Ok(ran)
}

/// What a disk shows that is opened again.
fn reopened(alloc: Global, line: usize, disk: &MemDisk) -> Result<Vec<u8>, Stop> {
    let asked = ask(alloc, &["rpm", "-q", "a"], &Files::of(alloc, disk)?)?;
    if asked.outcome.status > 1 {
        let came = ending_text(alloc, asked.outcome)?;
        let text = format!(in alloc; "opened again: expected status 0 or 1, came {came}");
        return Err(differs(line, text));
    }
    let files = Files::of(alloc, &asked.disk)?;
    let all = ask(alloc, &["rpm", "-qa"], &files)?;
    let mut text = Vec::new(alloc);
    if files.packages.is_empty() {
        text.extend_from_slice(b"no database\n")?;
    }
    text.extend_from_slice(all.out.bytes())?;
    text.extend_from_slice(all.err.bytes())?;
    Ok(text)
}

/// That the database that a line left is that after it, or that before it where this may be.
fn check_image(
    alloc: Global,
    shown: &Shown,
    ran: &Ran,
    pick: Pick,
    may_be_before: bool,
) -> Result<(), Stop> {
    let image = ran.disk.image(alloc, ran.disk.now(), pick)?;
    let text = reopened(alloc, shown.line, &image)?;
    if may_be_before && text == shown.before {
        return Ok(());
    }
    same_bytes(alloc, shown.line, "opened again", &shown.after, &text)
}

/// That a line of which this call fails ends with a disk fault and leaves one of the two databases. Whether the call
/// failed.
fn check_call(
    alloc: Global,
    start: &Start,
    line: &Line,
    files: &Files,
    shown: &Shown,
    call: u64,
) -> Result<bool, Stop> {
    let fails = Fails {
        disk: call,
        ..line.fails
    };
    let ran = run_once(alloc, &line.words, start, files, fails, line.now)?;
    let has_failed = ran.disk.faults() > 0;
    if has_failed && ran.outcome.why != Why::DiskFault {
        let came = ending_text(alloc, ran.outcome)?;
        let text = format!(in alloc; "call {call} fails: expected DiskFault, came {came}");
        return Err(differs(shown.line, text));
    }
    for pick in [Pick::Old, Pick::New] {
        check_image(alloc, shown, &ran, pick, has_failed)?;
    }
    Ok(has_failed)
}

/// That a line leaves one of two databases, whichever call of the disk fails.
pub fn check_calls(
    alloc: Global,
    start: &Start,
    line: &Line,
    files: &Files,
    shown: &Shown,
) -> Result<(), Stop> {
    for call in 1..=MOST_CALLS {
        if !check_call(alloc, start, line, files, shown, call)? {
            return Ok(());
        }
    }
    let text = format!(in alloc; "more than {MOST_CALLS} calls fail");
    Err(differs(shown.line, text))
}
