//! What a row's lines left.

use crate::difference::{Stop, differs, same_bytes, same_file, same_numbers};
use crate::tool::{run_once, words_of};
use hex::encode;
use rpm_outside::File;
use rpm_row_files::{Files, Left, LeftAt, NOTHING_FAILS, Record, Row, Start, records_of};
use sha2::{Digest, Sha256};
use std::alloc::{AllocError, Global};

/// The name of a file, as rows write it.
fn file_name(file: File) -> &'static str {
    match file {
        File::Pkg => "packages",
        File::Idx => "index",
        File::Log => "log",
    }
}

/// That a file has this digest.
fn check_digest(
    alloc: Global,
    line: usize,
    file: File,
    expected: &[u8; 32],
    came: &[u8],
) -> Result<(), Stop> {
    let expected = encode(alloc, expected.as_slice())?;
    let came = encode(alloc, Sha256::digest(came).as_slice())?;
    same_bytes(
        alloc,
        line,
        file_name(file),
        expected.as_bytes(),
        came.as_bytes(),
    )
}

/// That a record is among these.
fn check_record(
    alloc: Global,
    line: usize,
    expected: &Record,
    records: &[Record],
) -> Result<(), Stop> {
    if records.contains(expected) {
        return Ok(());
    }
    let text = String::from_str(alloc, "record: expected this one, came an index without it");
    Err(differs(line, text))
}

/// How many records of a number the row names.
fn named_of(left: &[LeftAt], number: u32) -> u64 {
    let mut count = 0u64;
    for at in left {
        if let Left::Record(named) = &at.left
            && named.number == number
        {
            count = count.saturating_add(1);
        }
    }
    count
}

/// That a number has as many records as the row names.
fn check_all_of(
    alloc: Global,
    line: usize,
    number: u32,
    row: &Row,
    records: &[Record],
) -> Result<(), Stop> {
    let came = records
        .iter()
        .filter(|record| record.number == number)
        .count();
    let expected = named_of(&row.left, number);
    same_numbers(alloc, line, "records of the number", expected, came as u64)
}

/// The index that is made from scratch of the packages.
fn rebuilt(alloc: Global, files: &Files) -> Result<Vec<u8>, AllocError> {
    let words = words_of(alloc, &["rpmdb", "--rebuilddb"])?;
    let ran = run_once(alloc, &words, &Start::new(alloc), files, NOTHING_FAILS, 0)?;
    ran.disk.copy_file(alloc, File::Idx)
}

/// That the records are those of an index made from scratch.
fn check_rebuilt(
    alloc: Global,
    line: usize,
    files: &Files,
    records: &[Record],
) -> Result<(), Stop> {
    let index = rebuilt(alloc, files)?;
    let expected = records_of(alloc, &index)?;
    if let Some(expected) = expected
        && expected.as_slice() == records
    {
        return Ok(());
    }
    let text = String::from_str(
        alloc,
        "records: expected those of an index made from scratch",
    );
    Err(differs(line, text))
}

/// That a file is as is expected, where this is said of one.
fn check_file(alloc: Global, at: &LeftAt, files: &Files) -> Result<(), Stop> {
    match &at.left {
        Left::Bytes(file, bytes) => {
            same_file(alloc, at.line, file_name(*file), bytes, files.bytes(*file))
        }
        Left::Digest(file, digest) => {
            check_digest(alloc, at.line, *file, digest, files.bytes(*file))
        }
        _ => Ok(()),
    }
}

/// That the records are as is expected, where this is said of them.
fn check_records(
    alloc: Global,
    at: &LeftAt,
    row: &Row,
    files: &Files,
    records: &[Record],
) -> Result<(), Stop> {
    let line = at.line;
    match &at.left {
        Left::Bytes(..) | Left::Digest(..) => Ok(()),
        Left::Records(count) => same_numbers(alloc, line, "records", *count, records.len() as u64),
        Left::Record(expected) => check_record(alloc, line, expected, records),
        Left::AllOf(number) => check_all_of(alloc, line, *number, row, records),
        Left::AsRebuilt => check_rebuilt(alloc, line, files, records),
    }
}

/// That the index is well formed, and its records as is expected.
fn check_index(alloc: Global, row: &Row, files: &Files) -> Result<(), Stop> {
    let Some(records) = records_of(alloc, &files.index)? else {
        let text = String::from_str(alloc, "index: expected records, came a malformed index");
        return Err(differs(row.line, text));
    };
    for at in row.left.iter() {
        check_records(alloc, at, row, files, &records)?;
    }
    Ok(())
}

/// That all is left as is expected.
pub fn check_left(alloc: Global, row: &Row, files: &Files) -> Result<(), Stop> {
    for at in row.left.iter() {
        check_file(alloc, at, files)?;
    }
    if row.left.iter().any(|at| at.left.is_of_records()) {
        return check_index(alloc, row, files);
    }
    Ok(())
}
