//! The one call of `run` on objects in memory, and the one on real files: the proof of each goes through its whole
//! contract.

use crate::fixtures::package;
use rpm_command::{Kind, kind_of};
use rpm_outside::{MemDisk, MemShelf, MemSink};
use rpm_real::{Purpose, RealDisk, RealShelf};
use rpm_tool::{Outcome, Why, run};
use rpm_words::{Words, read};
use std::alloc::{AllocError, Global};

/// What a command line gave on a disk in memory.
#[derive(Drop)]
pub struct Ran {
    pub outcome: Outcome,
    pub disk: MemDisk,
    pub out: MemSink,
    pub err: MemSink,
}

/// What one gave on the files of a folder.
#[derive(Drop)]
pub struct Told {
    pub outcome: Outcome,
    pub out: MemSink,
    pub err: MemSink,
}

/// An ending: its status, why it came, and how many changes stand.
pub fn outcome(status: u8, why: Why, changes: u32) -> Outcome {
    Outcome {
        status,
        why,
        changes,
    }
}

/// The words of a line.
pub fn words_of(alloc: Global, line: &str) -> Result<Words, AllocError> {
    let mut words = Words::new(alloc);
    for word in line.split_whitespace() {
        if words.len() < u32::MAX {
            words.push(word)?;
        }
    }
    Ok(words)
}

/// Runs a line at the moment 5. The shelf has the package file under `p1.rpm`.
pub fn run_on(alloc: Global, line: &str, disk: MemDisk) -> Result<Ran, AllocError> {
    let words = words_of(alloc, line)?;
    let mut shelf = MemShelf::new(alloc);
    shelf.put("p1.rpm", &package(alloc)?)?;
    let mut out = MemSink::new(alloc);
    let mut err = MemSink::new(alloc);
    let (outcome, disk) = run(alloc, &words, disk, &mut shelf, &mut out, &mut err, 5);
    Ok(Ran {
        outcome,
        disk,
        out,
        err,
    })
}

// What a line is to do with the database.
fn purpose_of(alloc: Global, words: &Words) -> Purpose {
    match read(alloc, words) {
        Ok(ask) => match kind_of(alloc, words, &ask) {
            Ok(Kind::Change(_)) => Purpose::Change,
            Ok(Kind::Keyed(_)) => Purpose::Keyed,
            Ok(Kind::Files | Kind::Plain(_) | Kind::Text(_)) | Err(_) => Purpose::Plain,
        },
        Err(_) => Purpose::Plain,
    }
}

/// Runs a line on the files of a folder, at the moment 5.
pub fn run_in(rt: &HostRuntime, folder: &str, line: &str) -> Result<Told, AllocError> {
    let alloc = rt.alloc();
    let words = words_of(alloc, line)?;
    let disk = RealDisk::new(alloc, rt, folder, purpose_of(alloc, &words))?;
    let mut shelf = RealShelf::new(alloc, rt);
    let mut out = MemSink::new(alloc);
    let mut err = MemSink::new(alloc);
    let (outcome, _) = run(alloc, &words, disk, &mut shelf, &mut out, &mut err, 5);
    Ok(Told { outcome, out, err })
}

/// Whether it ended so, with these bytes on out and err.
pub fn has_ended(told: &Told, ending: Outcome, out: &[u8], err: &[u8]) -> bool {
    told.outcome == ending && told.out.bytes() == out && told.err.bytes() == err
}
