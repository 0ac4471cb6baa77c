//! Several command lines on one disk.

use crate::fixtures::{database, package};
use crate::runs::{outcome, run_on, words_of};
use rpm_history::{Line, run_each};
use rpm_outside::{MemDisk, MemShelf, MemSink};
use rpm_tool::{Outcome, Why, WordsFault, WordsKind};
use rpm_words::Words;
use std::alloc::{AllocError, Global};
use std::test::Fail;

const LINES: &[&str] = &[
    "rpm --addpkg p1.rpm p1.rpm",
    "rpm --erasepkg 4",
    "rpm --erasepkg 4 5",
    "rpm -q",
];

// How these lines end on a disk, one after the other, and the disk after them.
fn all_run(
    alloc: Global,
    lines: &[Words],
    disk: MemDisk,
) -> Result<(Vec<Outcome>, MemDisk), AllocError> {
    let mut shelf = MemShelf::new(alloc);
    shelf.put("p1.rpm", &package(alloc)?)?;
    let mut out = MemSink::new(alloc);
    let mut err = MemSink::new(alloc);
    let mut at_once = Vec::new(alloc);
    for words in lines {
        at_once.push(Line { words, moment: 0 })?;
    }
    let (outcomes, disk) = run_each(alloc, &at_once, disk, &mut shelf, &mut out, &mut err);
    Ok((outcomes?, disk))
}

#[test]
fn lines_are_done_in_a_row(rt: HostRuntime) -> Result<(), Fail> {
    let alloc = rt.alloc();
    let mut lines = Vec::new(alloc);
    for &line in LINES {
        lines.push(words_of(alloc, line)?)?;
    }
    let disk = MemDisk::new(alloc, &database(alloc)?, &[], &[])?;
    let (outcomes, disk) = all_run(alloc, &lines, disk)?;
    let left = run_on(alloc, "rpm -qa --qf %{DBINSTANCE}", disk)?;
    let unasked = WordsFault {
        kind: WordsKind::MissingArgument,
        word: 2,
    };
    let expected = [
        outcome(0, Why::Done, 2),
        outcome(0, Why::Done, 1),
        outcome(1, Why::Failed(1), 1),
        outcome(251, Why::Usage(unasked), 0),
    ];
    assert!(rt; outcomes.as_slice() == expected.as_slice() && left.out.bytes() == b"1".as_slice());
    Ok(())
}
