//! Formats that are refused, and the limits of those that are read.

use crate::trees::is_text;
use rpm_qfparse::{FormatFault, FormatKind, parse};
use std::alloc::{AllocError, Global};

// Formats with the fault of each, and its place.
const FAULTS: &[(&[u8], FormatKind, u32)] = &[
    (b"%{NAME", FormatKind::MissingClose, 6),
    (b"%{}", FormatKind::EmptyTag, 2),
    (b"%{NOPE}", FormatKind::UnknownTag, 2),
    (b"%{NAME:x}", FormatKind::UnknownFormatter, 7),
    (b"%{NAME:}", FormatKind::UnknownFormatter, 7),
    (b"%5000{NAME}", FormatKind::WidthTooLarge, 1),
    (b"%x", FormatKind::MissingOpen, 1),
    (b"%", FormatKind::MissingOpen, 1),
    (b"%-3", FormatKind::MissingOpen, 3),
    (b"%--3{NAME}", FormatKind::MissingOpen, 2),
    (b"%-4097{", FormatKind::WidthTooLarge, 2),
    (b"%99999999999999999999{", FormatKind::WidthTooLarge, 1),
    (b"%{=}", FormatKind::EmptyTag, 3),
    (b"%{:x}", FormatKind::EmptyTag, 2),
    (b"%{NOPE:x}", FormatKind::UnknownTag, 2),
    (b"%{#=NAME}", FormatKind::UnknownTag, 3),
    (b"%{=NAME:Hex}", FormatKind::UnknownFormatter, 8),
    (b"%{NAME:hex:hex}", FormatKind::UnknownFormatter, 7),
    (b"%{NAME:hex", FormatKind::MissingClose, 10),
    (b"%{NAME}%{}", FormatKind::EmptyTag, 9),
    // Of brackets and conditions.
    (b"a]", FormatKind::UnexpectedBracket, 1),
    (b"[%{NAME}", FormatKind::BracketExpected, 8),
    (b"[[", FormatKind::NestedBracket, 1),
    (b"x}", FormatKind::UnexpectedBrace, 1),
    (b"[}", FormatKind::UnexpectedBrace, 1),
    (b"[]]", FormatKind::UnexpectedBracket, 2),
    (b"%|EPOCH?{]", FormatKind::UnexpectedBracket, 9),
    (b"[%|EPOCH?{]", FormatKind::UnexpectedBracket, 10),
    (b"[%|EPOCH?{[", FormatKind::NestedBracket, 10),
    (b"%|EPOCH?{[}", FormatKind::UnexpectedBrace, 10),
    (b"%|EPOCH", FormatKind::QuestionExpected, 7),
    (b"%|?{x}|", FormatKind::EmptyTag, 2),
    (b"%|NOPE?{x}|", FormatKind::UnknownTag, 2),
    (b"%|NOPE", FormatKind::QuestionExpected, 6),
    (b"%|EPOCH?x", FormatKind::BraceExpected, 8),
    (b"%|EPOCH?", FormatKind::BraceExpected, 8),
    (b"%|EPOCH?{x", FormatKind::MissingClose, 10),
    (b"%|EPOCH?{x}", FormatKind::BarExpected, 11),
    (b"%|EPOCH?{x}y", FormatKind::BarExpected, 11),
    (b"%|EPOCH?{x}:y", FormatKind::BraceExpected, 12),
    (b"%|EPOCH?{x}:{y", FormatKind::MissingClose, 14),
    (b"%|EPOCH?{x}:{y}:", FormatKind::BarExpected, 15),
    (b"a]%{}", FormatKind::UnexpectedBracket, 1),
];

/// Whether a format is one text, of these bytes.
fn is_one_text(alloc: Global, text: &[u8], bytes: &[u8]) -> bool {
    match parse(alloc, text) {
        Ok(format) => format.parts().len() == 1 && is_text(format.parts(), 0, bytes),
        Err(_) => false,
    }
}

const LITERAL: &[(&[u8], &[u8])] = &[
    (b"a b", b"a b"),
    (b"\\a\\b\\f\\n\\r\\t\\v", b"\x07\x08\x0c\x0a\x0d\x09\x0b"),
    (b"\\\\\\[\\]\\}\\%\\q\\0", b"\\[]}%q0"),
    (b"x\\", b"x\\"),
    (b"%%", b"%"),
    (b"{|:?=#-\"", b"{|:?=#-\""),
    (b"\xff\x00\xc3\xa4", b"\xff\x00\xc3\xa4"),
    (b"a%%b\\tc", b"a%b\tc"),
];

/// Whether a format of no byte has no part.
fn is_blank(alloc: Global) -> bool {
    match parse(alloc, b"") {
        Ok(format) => format.parts().len() == 0,
        Err(_) => false,
    }
}

/// As many beginnings of conditions.
fn conditions(alloc: Global, count: u32) -> Result<Vec<u8>, AllocError> {
    let mut text = Vec::new(alloc);
    for _ in 0..count {
        text.extend_from_slice(b"%|EPOCH?{")?;
    }
    Ok(text)
}

fn has_fault(alloc: Global, text: &[u8], kind: FormatKind, at: u32) -> bool {
    parse(alloc, text).err() == Some(FormatFault { kind, at })
}

/// Whether the longest format is read, and a longer one is refused.
fn has_length_limit(alloc: Global) -> Result<bool, AllocError> {
    let mut text = Vec::from_elem(alloc, b'x', 65_536)?;
    let longest = is_one_text(alloc, &text, &text);
    text.push(b']')?;
    Ok(longest && has_fault(alloc, &text, FormatKind::TooLong, 65_536))
}

/// Whether so many conditions, each in the one before, have this fault at the end of the sixteenth.
fn is_deep(alloc: Global, count: u32, kind: FormatKind) -> Result<bool, AllocError> {
    let text = conditions(alloc, count)?;
    Ok(has_fault(alloc, &text, kind, 144))
}

fn unlike_fault(alloc: Global) -> Option<&'static [u8]> {
    for &(text, kind, at) in FAULTS {
        if !has_fault(alloc, text, kind, at) {
            return Some(text);
        }
    }
    None
}

fn unlike_literal(alloc: Global) -> Option<&'static [u8]> {
    for &(text, bytes) in LITERAL {
        if !is_one_text(alloc, text, bytes) {
            return Some(text);
        }
    }
    None
}

#[test]
fn formats_are_read_and_refused(rt: HostRuntime) {
    let alloc = rt.alloc();
    let fault = unlike_fault(alloc);
    let literal = unlike_literal(alloc);
    let blank = is_blank(alloc);
    let length = has_length_limit(alloc);
    let deepest = is_deep(alloc, 16, FormatKind::MissingClose);
    let deeper = is_deep(alloc, 17, FormatKind::TooDeep);
    let is_same = fault.is_none() && literal.is_none() && blank;
    assert!(rt;
        is_same && length == Ok(true) && deepest == Ok(true) && deeper == Ok(true),
        "{fault:?} {literal:?} {blank} {length:?} {deepest:?} {deeper:?}"
    );
}
