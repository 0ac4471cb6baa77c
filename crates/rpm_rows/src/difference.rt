//! What differs from what a row expects.

use hex::encode;
use rpm_row_files::Fault;
use std::alloc::{AllocError, AllocFailed, Global};
use std::fmt::Write;

/// What differs, and the line that expects otherwise.
#[derive(Drop)]
pub struct Difference {
    pub line: usize,
    pub text: String,
}

/// Why a row isn't gone on with.
#[derive(Drop)]
pub enum Stop {
    NoMemory,
    Differs(Difference),
}

impl From<AllocError> for Stop {
    fn from(_error: AllocError) -> Stop {
        Stop::NoMemory
    }
}

impl<T: Drop> From<AllocFailed<T>> for Stop {
    fn from(_error: AllocFailed<T>) -> Stop {
        Stop::NoMemory
    }
}

/// A difference at a line.
pub fn differs(line: usize, text: Result<String, AllocError>) -> Stop {
    match text {
        Ok(text) => Stop::Differs(Difference { line, text }),
        Err(AllocError) => Stop::NoMemory,
    }
}

/// A statement that can't be taken, or is missing.
pub fn wrong(alloc: Global, line: usize, fault: Fault) -> Stop {
    differs(line, String::from_str(alloc, fault.text()))
}

/// How many bytes are shown of a text.
const SHOWN: usize = 160;

/// Where the line begins in which two texts first differ.
fn first_differing(expected: &[u8], came: &[u8]) -> usize {
    let mut begin = 0;
    for (i, (left, right)) in expected.iter().zip(came.iter()).enumerate() {
        if left != right {
            return begin;
        }
        if *left == b'\n' {
            begin = i.saturating_add(1);
        }
    }
    begin
}

/// Appends a byte as rows write it in a text.
fn push_shown(text: &mut String, byte: u8) -> Result<(), AllocError> {
    match byte {
        b'\n' => text.push_str("\\n"),
        b'\t' => text.push_str("\\t"),
        b'"' => text.push_str("\\\""),
        b'\\' => text.push_str("\\\\"),
        b' '..=b'~' => text.push(char::from(byte)),
        _ => write!(text, "\\x{byte:02x}"),
    }
}

/// Bytes from a place on, as rows write a text. Where it is long, its beginning.
fn shown(alloc: Global, bytes: &[u8], from: usize) -> Result<String, AllocError> {
    let mut text = String::new(alloc);
    if from > 0 {
        text.push_str("..")?;
    }
    text.push('"')?;
    for byte in bytes.iter().skip(from).take(SHOWN) {
        push_shown(&mut text, *byte)?;
    }
    text.push('"')?;
    if bytes.len() > from.saturating_add(SHOWN) {
        text.push_str("..")?;
    }
    Ok(text)
}

/// Both texts, from the line on in which they differ.
fn both_shown(
    alloc: Global,
    what: &str,
    expected: &[u8],
    came: &[u8],
) -> Result<String, AllocError> {
    let from = first_differing(expected, came);
    let expected = shown(alloc, expected, from)?;
    let came = shown(alloc, came, from)?;
    format!(in alloc; "{what}: expected {expected}, came {came}")
}

/// That two texts are the same.
pub fn same_bytes(
    alloc: Global,
    line: usize,
    what: &str,
    expected: &[u8],
    came: &[u8],
) -> Result<(), Stop> {
    if expected == came {
        return Ok(());
    }
    Err(differs(line, both_shown(alloc, what, expected, came)))
}

/// The unit of 16 bytes that begins at a place, or what there is of it, as hex digits.
fn unit_shown(alloc: Global, bytes: &[u8], at: usize) -> Result<String, AllocError> {
    let rest = bytes.get(at..).unwrap_or(&[]);
    let unit = rest.get(..16).unwrap_or(rest);
    encode(alloc, unit)
}

/// How long two files are, and the first unit in which they differ.
fn files_shown(
    alloc: Global,
    what: &str,
    expected: &[u8],
    came: &[u8],
) -> Result<String, AllocError> {
    let pairs = expected.iter().zip(came.iter());
    let at = pairs.take_while(|(left, right)| left == right).count() / 16 * 16;
    let expected_unit = unit_shown(alloc, expected, at)?;
    let came_unit = unit_shown(alloc, came, at)?;
    let expected = expected.len();
    let came = came.len();
    format!(in alloc;
        "{what}: expected {expected} bytes, came {came}; at byte {at} expected {expected_unit}, came {came_unit}"
    )
}

/// That a file holds the bytes that are expected.
pub fn same_file(
    alloc: Global,
    line: usize,
    what: &str,
    expected: &[u8],
    came: &[u8],
) -> Result<(), Stop> {
    if expected == came {
        return Ok(());
    }
    Err(differs(line, files_shown(alloc, what, expected, came)))
}

/// That two numbers are the same.
pub fn same_numbers(
    alloc: Global,
    line: usize,
    what: &str,
    expected: u64,
    came: u64,
) -> Result<(), Stop> {
    if expected == came {
        return Ok(());
    }
    let text = format!(in alloc; "{what}: expected {expected}, came {came}");
    Err(differs(line, text))
}
