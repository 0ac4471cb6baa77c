//! A row, run line by line.

use crate::difference::{Stop, differs, same_bytes, same_numbers, wrong};
use crate::ending::ending_text;
use crate::failing::check_calls;
use crate::leavings::check_left;
use crate::tool::{Ran, run_once};
use rpm_outside::File;
use rpm_row_files::{Ending, Files, Line, Output, Row, Start, Taken};
use std::alloc::Global;

/// How many line ends there are.
fn line_ends(bytes: &[u8]) -> u64 {
    bytes.iter().filter(|byte| **byte == b'\n').count() as u64
}

/// That a sink took what is expected.
fn check_output(alloc: Global, what: &str, expected: &Output, came: &[u8]) -> Result<(), Stop> {
    match &expected.taken {
        Taken::Bytes(bytes) => same_bytes(alloc, expected.line, what, bytes, came),
        Taken::Lines(count) => same_numbers(alloc, expected.line, what, *count, line_ends(came)),
    }
}

/// That a line ended as is expected.
fn check_ending(alloc: Global, expected: &Ending, ran: &Ran) -> Result<(), Stop> {
    let came = ending_text(alloc, ran.outcome)?;
    same_bytes(
        alloc,
        expected.line,
        "ends",
        expected.text.as_bytes(),
        came.as_bytes(),
    )
}

/// That the disk was used as is expected.
fn check_disk(alloc: Global, line: &Line, ran: &Ran) -> Result<(), Stop> {
    let read = ran.disk.bytes_read(File::Pkg);
    if read > line.reads {
        let most = line.reads;
        let text = format!(in alloc; "reads: expected at most {most}, came {read}");
        return Err(differs(line.line, text));
    }
    if line.is_untouched {
        return same_numbers(alloc, line.line, "writes and syncs", 0, ran.disk.now());
    }
    Ok(())
}

/// That a line did what is expected.
fn check_ran(alloc: Global, line: &Line, ran: &Ran) -> Result<(), Stop> {
    check_output(alloc, "err", &line.err, ran.err.bytes())?;
    check_output(alloc, "out", &line.out, ran.out.bytes())?;
    if let Some(expected) = &line.ends {
        check_ending(alloc, expected, ran)?;
    }
    check_disk(alloc, line, ran)
}

/// Runs a line as often as it is to run, and gives the files that it left.
fn run_line(alloc: Global, start: &Start, line: &Line, files: Files) -> Result<Files, Stop> {
    if let Some(shown) = &line.every_call {
        check_calls(alloc, start, line, &files, shown)?;
    }
    let mut files = files;
    for _ in 0..line.times {
        let ran = run_once(alloc, &line.words, start, &files, line.fails, line.now)?;
        check_ran(alloc, line, &ran)?;
        files = Files::of(alloc, &ran.disk)?;
    }
    Ok(files)
}

/// That a row's lines do what is expected.
pub fn check_row(alloc: Global, row: &Row) -> Result<(), Stop> {
    if let Some(found) = &row.wrong {
        return Err(wrong(alloc, found.line, found.fault));
    }
    let mut files = row.start.files.copy(alloc)?;
    for line in row.lines.iter() {
        files = run_line(alloc, &row.start, line, files)?;
    }
    check_left(alloc, row, &files)
}
