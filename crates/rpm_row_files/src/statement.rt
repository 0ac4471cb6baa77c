//! The statements of a file.

use std::alloc::{AllocError, Global};

/// A statement, with the lines that go on with it.
#[derive(Drop)]
pub struct Statement {
    /// The number of its first line, from 1 on.
    pub line: usize,
    /// Its text, without spaces in front.
    pub text: Vec<u8>,
}

/// Goes on with the last statement, or begins one.
fn push_line(
    alloc: Global,
    found: &mut Vec<Statement>,
    line: usize,
    text: &[u8],
) -> Result<(), AllocError> {
    if let Some(more) = text.strip_prefix(b"+ ")
        && let Some(last) = found.last_mut()
    {
        last.text.push(b' ')?;
        return last.text.extend_from_slice(more);
    }
    let text = text.to_vec(alloc)?;
    found.push(Statement { line, text })?;
    Ok(())
}

/// The statements of a file's bytes. Empty lines and those that begin with `#` are passed over; one that begins with
/// `+ ` goes on with the statement before it.
pub fn statements_of(alloc: Global, bytes: &[u8]) -> Result<Vec<Statement>, AllocError> {
    let mut found = Vec::new(alloc);
    for (i, line) in bytes.split(|byte| *byte == b'\n').enumerate() {
        let text = line.trim_ascii_start();
        if !text.is_empty() && !text.starts_with(b"#") {
            push_line(alloc, &mut found, i.saturating_add(1), text)?;
        }
    }
    Ok(found)
}

/// The first word of a text, and what stands after it and one space.
pub fn first_word(text: &[u8]) -> (&[u8], &[u8]) {
    let length = text
        .iter()
        .take_while(|byte| !byte.is_ascii_whitespace())
        .count();
    match text.split_at_checked(length) {
        Some((word, rest)) => (word, rest.strip_prefix(b" ").unwrap_or(rest)),
        None => (text, b""),
    }
}
