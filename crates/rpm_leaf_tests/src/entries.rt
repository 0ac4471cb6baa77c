//! Entries of each form.

use crate::fixtures::bytes_of;
use rpm_header::{Entry, Form, View};
use std::alloc::{AllocError, Global};

/// The text of an entry at a place.
fn text_of<'a>(entry: &Entry<'a>, i: u32) -> Option<&'a [u8]> {
    let has_texts = matches!(entry.form(), Form::Text | Form::Texts | Form::I18n);
    if has_texts && i < entry.count() {
        Some(entry.text(i))
    } else {
        None
    }
}

/// Whether the last entry of a tag is this text alone.
pub fn has_text(view: &View<'_>, tag: u32, text: &[u8]) -> bool {
    match view.find(tag) {
        None => false,
        Some(entry) => {
            entry.tag() == tag && entry.count() == 1 && text_of(&entry, 0) == Some(text)
        }
    }
}

// An entry of each form, and a second one of the first tag.
const FORMS: &str = "0000000a 0000002e
    000007d0 00000001 00000000 00000002
    000007d1 00000002 00000002 00000002
    000007d2 00000003 00000004 00000002
    000007d3 00000004 00000008 00000002
    000007d4 00000005 00000010 00000002
    000007d5 00000007 00000020 00000003
    000007d6 00000009 00000023 00000002
    000007d7 00000008 00000028 00000003
    000007d8 00000000 ffffffff 00000007
    000007d0 00000006 00000028 00000001
    41ff 8001 80000102 ffffffff 00000005
    ffffffffffffffff 0000000100000002 dead00 6100626300 780000797a00";

/// The two numbers of an entry that has just these.
fn pair_of(entry: &Entry<'_>) -> Option<(u64, u64)> {
    let has_numbers = matches!(
        entry.form(),
        Form::Char | Form::Int8 | Form::Int16 | Form::Int32 | Form::Int64
    );
    if has_numbers && entry.count() == 2 {
        Some((entry.number(0), entry.number(1)))
    } else {
        None
    }
}

/// The texts of an entry, each with a comma after it, or its bytes.
fn content(alloc: Global, entry: &Entry<'_>) -> Result<Vec<u8>, AllocError> {
    let mut bytes = Vec::new(alloc);
    match entry.form() {
        Form::Text | Form::Texts | Form::I18n => {
            for text in entry.texts() {
                bytes.extend_from_slice(text)?;
                bytes.push(b',')?;
            }
        }
        Form::Bin => bytes.extend_from_slice(entry.bytes())?,
        _ => {}
    }
    Ok(bytes)
}

// The places of entries, with their forms and counts, two numbers or the text at place 1, and their texts or bytes.
const ENTRIES: &[(u32, Form, u32, Option<(u64, u64)>, Option<&[u8]>, &[u8])] = &[
    (0, Form::Char, 2, Some((65, 255)), None, b""),
    (1, Form::Int8, 2, Some((128, 1)), None, b""),
    (2, Form::Int16, 2, Some((32_768, 258)), None, b""),
    (3, Form::Int32, 2, Some((4_294_967_295, 5)), None, b""),
    (
        4,
        Form::Int64,
        2,
        Some((u64::MAX, 4_294_967_298)),
        None,
        b"",
    ),
    (5, Form::Bin, 3, None, None, b"\xde\xad\0"),
    (6, Form::I18n, 2, None, Some(b"bc"), b"a,bc,"),
    (7, Form::Texts, 3, None, Some(b""), b"x,,yz,"),
    (8, Form::Null, 7, None, None, b""),
    (9, Form::Text, 1, None, None, b"x,"),
];

/// Whether an entry has this form and count, and these two numbers or this text at place 1.
fn is_like(
    entry: &Entry<'_>,
    form: Form,
    count: u32,
    numbers: Option<(u64, u64)>,
    second: Option<&[u8]>,
) -> bool {
    entry.form() == form
        && entry.count() == count
        && pair_of(entry) == numbers
        && text_of(entry, 1) == second
}

/// The first place of the table at which a header has another entry.
fn first_other(alloc: Global, view: &View<'_>) -> Result<Option<u32>, AllocError> {
    for &(place, form, count, numbers, second, bytes) in ENTRIES {
        if place >= view.entries() {
            return Ok(Some(place));
        }
        let entry = view.entry(place);
        let content = content(alloc, &entry)?;
        if content.as_slice() != bytes || !is_like(&entry, form, count, numbers, second) {
            return Ok(Some(place));
        }
    }
    Ok(None)
}

/// The first place of the table at which the header of all forms has another entry, or the number of entries that it
/// ought to have.
fn differing(alloc: Global) -> Result<Option<u32>, AllocError> {
    let blob = bytes_of(alloc, FORMS)?;
    match View::parse(&blob) {
        Ok(view) if view.entries() == 10 && has_text(&view, 2000, b"x") => {
            first_other(alloc, &view)
        }
        _ => Ok(Some(10)),
    }
}

#[test]
fn entries_of_each_form_are_read(rt: HostRuntime) {
    let found = differing(rt.alloc());
    assert!(rt; found == Ok(None), "{found:?}");
}
