//! A command line, run on files and a shelf in memory.

use rpm_outside::{MemDisk, MemShelf, MemSink};
use rpm_row_files::{Fails, Files, Start};
use rpm_tool::{Outcome, run};
use rpm_words::Words;
use std::alloc::{AllocError, Global};

/// How a command line ended, and what it left.
#[derive(Drop)]
pub struct Ran {
    pub outcome: Outcome,
    pub disk: MemDisk,
    pub out: MemSink,
    pub err: MemSink,
}

/// The words of a command line that is written here.
pub fn words_of(alloc: Global, line: &[&str]) -> Result<Words, AllocError> {
    let mut words = Words::new(alloc);
    for word in line {
        if words.len() < u32::MAX {
            words.push(word)?;
        }
    }
    Ok(words)
}

/// A shelf with what the row puts on it.
fn shelf_of(alloc: Global, start: &Start, failing: u64) -> Result<MemShelf, AllocError> {
    let mut shelf = MemShelf::new(alloc);
    for shelved in start.shelf.iter() {
        shelf.put(&shelved.path, &shelved.bytes)?;
    }
    shelf.at_most(start.pieces.max(1));
    shelf.fail_read(failing);
    Ok(shelf)
}

/// A sink that fails after so many bytes.
fn sink_of(alloc: Global, start: &Start, limit: u64) -> MemSink {
    let mut sink = MemSink::new(alloc);
    sink.at_most(start.pieces.max(1));
    sink.fail_after(limit);
    sink
}

/// Runs a command line on these objects. No other function calls `run`: each call's proof goes through its whole
/// contract.
fn run_with(
    alloc: Global,
    words: &Words,
    disk: MemDisk,
    shelf: MemShelf,
    sinks: [MemSink; 2],
    now: u32,
) -> Ran {
    let mut shelf = shelf;
    let [mut out, mut err] = sinks;
    let (outcome, disk) = run(alloc, words, disk, &mut shelf, &mut out, &mut err, now);
    Ran {
        outcome,
        disk,
        out,
        err,
    }
}

/// Runs a command line on files, with a new disk, shelf and sinks.
pub fn run_once(
    alloc: Global,
    words: &Words,
    start: &Start,
    files: &Files,
    fails: Fails,
    now: u32,
) -> Result<Ran, AllocError> {
    let mut disk = MemDisk::new(alloc, &files.packages, &files.index, &files.log)?;
    disk.fail_call(fails.disk)?;
    let shelf = shelf_of(alloc, start, fails.read)?;
    let sinks = [
        sink_of(alloc, start, fails.out),
        sink_of(alloc, start, fails.err),
    ];
    Ok(run_with(alloc, words, disk, shelf, sinks, now))
}
