//! What tags say of headers: values and keys.

use crate::fixtures::{LIBRARY, PLAIN, SHELL, SNAPSHOT, bytes_of};
use rpm_header::{PlacesRoom, View};
use rpm_tags::{Class, Joined, Tag, TagValue, value};
use std::alloc::{AllocError, Global};

// Two files of which the second has an index past the directories.
const PAST_DIRS: &str = "00000003 00000010
    0000045d 00000008 00000000 00000002
    0000045c 00000004 00000004 00000002
    0000045e 00000008 0000000c 00000001
    61006200 00000000 00000001 2f642f00";

// Two files with one index.
const UNEQUAL: &str = "00000003 0000000c
    0000045d 00000008 00000000 00000002
    0000045c 00000004 00000004 00000001
    0000045e 00000008 00000008 00000001
    61006200 00000000 2f642f00";

// An index that is a text.
const TEXT_INDEXES: &str = "00000003 00000008
    0000045d 00000008 00000000 00000001
    0000045c 00000008 00000002 00000001
    0000045e 00000008 00000004 00000001
    61003000 2f642f00";

// Four files in three directories.
const TWO_DIRS: &str = "00000003 00000024
    0000045d 00000008 00000000 00000004
    0000045c 00000004 00000008 00000004
    0000045e 00000008 00000018 00000003
    61006200 63006400 00000001 00000000 00000001 00000002 2f782f00 2f792f00
    2f7a2f00";

// Five files in eighteen directories: the third and the fifth ask for one that was passed, and whose
// place in the memory another one took.
const PASSED_DIRS: &str = "00000003 00000033
    0000045c 00000002 00000000 00000005
    0000045d 00000008 00000005 00000005
    0000045e 00000008 0000000f 00000012
    00100011 01310032 00330034 00350061 00620063 00640065 00660067 00680069
    006a006b 006c006d 006e006f 00700071 007200";

// A region with a name, a name after the region, an epoch that is a text, an architecture that is a
// number, a group in three languages, the greatest size, no capability and two bytes.
pub const ODD: &str = "0000000b 0000003a
    0000003f 00000007 00000000 00000010
    000003e8 00000006 00000010 00000001
    000003e9 00000006 00000012 00000001
    000003ea 00000006 00000014 00000001
    000003e8 00000006 00000016 00000001
    000003eb 00000006 00000018 00000001
    000003fe 00000004 0000001c 00000001
    000003f8 00000009 00000020 00000003
    000003f1 00000005 00000030 00000001
    00000417 00000000 00000038 00000005
    00000105 00000007 00000038 00000002
    0000003f 00000007 ffffffe0 00000010 72003100 32006400 33000000 00000004
    656e0064 65006672 00000000 00000000 ffffffff ffffffff dead";

// A name that is a number, and the greatest epoch.
pub const NO_NAME: &str = "00000004 00000010
    000003e8 00000004 00000000 00000001
    000003e9 00000006 00000004 00000001
    000003ea 00000006 00000006 00000001
    000003eb 00000005 00000008 00000001
    00000005 31003200 ffffffff ffffffff";

/// A text, whose parts come one after the other.
fn push_parts(bytes: &mut Vec<u8>, text: &Joined<'_>) -> Result<(), AllocError> {
    for k in 0..9 {
        match text.part(k) {
            None => return Ok(()),
            Some(part) => bytes.extend_from_slice(part)?,
        }
    }
    Ok(())
}

/// The texts of a value, each with a bar after it.
fn shown(alloc: Global, value: &TagValue<'_>) -> Result<Vec<u8>, AllocError> {
    let mut bytes = Vec::new(alloc);
    if value.class() == Class::Text {
        let mut room = PlacesRoom::new();
        for text in value.texts(Some(&mut room)) {
            push_parts(&mut bytes, &text)?;
            bytes.push(b'|')?;
        }
    }
    Ok(bytes)
}

// Headers with a tag, and its texts, where it has a value.
const TEXTS: &[(&str, Tag, Option<&str>)] = &[
    (PLAIN, Tag::Nvr, Some("a-1-2|")),
    (PLAIN, Tag::Nvra, Some("a-1-2.x|")),
    (PLAIN, Tag::Evr, Some("1-2|")),
    (PLAIN, Tag::Nevra, Some("a-1-2.x|")),
    (PLAIN, Tag::Filenames, None),
    (PLAIN, Tag::Stored(1003), None),
    (SHELL, Tag::Nevra, Some("bash-5.1-2.x86_64|")),
    (SHELL, Tag::Filenames, Some("/usr/bin/bash|/usr/bin/sh|")),
    (SHELL, Tag::Stored(1113), Some("5.1-2||")),
    (LIBRARY, Tag::Nvr, Some("libx-1.0~rc1-1|")),
    (LIBRARY, Tag::Nvra, Some("libx-1.0~rc1-1.noarch|")),
    (LIBRARY, Tag::Evr, Some("1:1.0~rc1-1|")),
    (LIBRARY, Tag::Nevra, Some("libx-1:1.0~rc1-1.noarch|")),
    (SNAPSHOT, Tag::Evr, Some("1.0^git1-1|")),
    (SNAPSHOT, Tag::Nevra, Some("libx-1.0^git1-1.noarch|")),
    (PAST_DIRS, Tag::Filenames, None),
    (UNEQUAL, Tag::Filenames, None),
    (TEXT_INDEXES, Tag::Filenames, None),
    (TWO_DIRS, Tag::Filenames, Some("/y/a|/x/b|/y/c|/z/d|")),
    (PASSED_DIRS, Tag::Filenames, Some("a1|q2|a3|r4|b5|")),
    (ODD, Tag::Stored(1000), Some("d|")),
    (ODD, Tag::Nvra, Some("d-1-2|")),
    (ODD, Tag::Evr, Some("1-2|")),
    (ODD, Tag::Nevra, Some("d-1-2|")),
    (ODD, Tag::Stored(1016), Some("en|")),
    (ODD, Tag::Stored(1047), None),
    (NO_NAME, Tag::Nvr, None),
    (NO_NAME, Tag::Evr, Some("18446744073709551615:1-2|")),
    (NO_NAME, Tag::Nevra, None),
];

/// Whether a tag of a header has these texts, or no value.
fn has_texts(alloc: Global, hex: &str, tag: Tag, want: Option<&str>) -> Result<bool, AllocError> {
    let blob = bytes_of(alloc, hex)?;
    let Ok(view) = View::parse(&blob) else {
        return Ok(false);
    };
    match (value(&view, 7, tag), want) {
        (Some(value), Some(want)) => Ok(shown(alloc, &value)?.as_slice() == want.as_bytes()),
        (value, want) => Ok(value.is_none() && want.is_none()),
    }
}

// Headers with a tag, how many numbers it has, and the last of them.
const NUMBERS: &[(&str, Tag, u32, u64)] = &[
    (PLAIN, Tag::Epochnum, 1, 0),
    (PLAIN, Tag::Dbinstance, 1, 7),
    (SHELL, Tag::Stored(1030), 2, 41471),
    (SHELL, Tag::Stored(1048), 2, 0),
    (LIBRARY, Tag::Epochnum, 1, 1),
    (LIBRARY, Tag::Stored(1003), 1, 1),
    (ODD, Tag::Epochnum, 1, 0),
    (ODD, Tag::Stored(1009), 1, u64::MAX),
    (NO_NAME, Tag::Epochnum, 1, u64::MAX),
];

/// Whether a value is so many numbers, of which this is the last.
fn is_numbers(value: &TagValue<'_>, count: u32, last: u64) -> bool {
    value.class() == Class::Number
        && value.count() == count
        && value.number(value.count() - 1) == last
}

/// Whether a tag of a header has so many numbers, of which this is the last.
fn has_numbers(
    alloc: Global,
    hex: &str,
    tag: Tag,
    count: u32,
    last: u64,
) -> Result<bool, AllocError> {
    let blob = bytes_of(alloc, hex)?;
    let Ok(view) = View::parse(&blob) else {
        return Ok(false);
    };
    match value(&view, 7, tag) {
        Some(value) => Ok(is_numbers(&value, count, last)),
        None => Ok(false),
    }
}

/// Whether the last of four paths has two parts, and is this one.
fn is_path(alloc: Global, value: &TagValue<'_>, want: &[u8]) -> Result<bool, AllocError> {
    let mut bytes = Vec::new(alloc);
    if value.class() != Class::Text || value.count() != 4 {
        return Ok(false);
    }
    let path = value.text(3);
    push_parts(&mut bytes, &path)?;
    let has_two = path.part(1).is_some() && path.part(2).is_none();
    Ok(has_two && path.len() as usize == want.len() && bytes.as_slice() == want)
}

fn has_path(alloc: Global, hex: &str, want: &[u8]) -> Result<bool, AllocError> {
    let blob = bytes_of(alloc, hex)?;
    let Ok(view) = View::parse(&blob) else {
        return Ok(false);
    };
    match value(&view, 7, Tag::Filenames) {
        Some(value) => is_path(alloc, &value, want),
        None => Ok(false),
    }
}

/// Whether a tag of a header is a blob of these bytes.
fn has_blob(alloc: Global, hex: &str, tag: Tag, want: &[u8]) -> Result<bool, AllocError> {
    let blob = bytes_of(alloc, hex)?;
    let Ok(view) = View::parse(&blob) else {
        return Ok(false);
    };
    match value(&view, 7, tag) {
        Some(value) => Ok(
            value.class() == Class::Blob && value.count() == 1 && value.blob() == want,
        ),
        None => Ok(false),
    }
}

fn unlike_texts(alloc: Global) -> Option<(&'static str, Option<&'static str>)> {
    for &(hex, tag, want) in TEXTS {
        if has_texts(alloc, hex, tag, want) != Ok(true) {
            return Some((hex, want));
        }
    }
    None
}

fn unlike_numbers(alloc: Global) -> Option<(&'static str, u64)> {
    for &(hex, tag, count, last) in NUMBERS {
        if has_numbers(alloc, hex, tag, count, last) != Ok(true) {
            return Some((hex, last));
        }
    }
    None
}

#[test]
fn values_are_those_by_hand(rt: HostRuntime) {
    let alloc = rt.alloc();
    let texts = unlike_texts(alloc);
    let numbers = unlike_numbers(alloc);
    let path = has_path(alloc, TWO_DIRS, b"/z/d");
    let blob = has_blob(alloc, ODD, Tag::Stored(261), b"\xde\xad");
    assert!(rt;
        texts.is_none() && numbers.is_none() && path == Ok(true) && blob == Ok(true),
        "{texts:?} {numbers:?} {path:?} {blob:?}"
    );
}
