//! The words of a command line, the numbers among them, and the folder that they name.

use rpm_words::{Span, Words, number_of, place_of};
use std::alloc::{AllocError, Global};

/// The words of a line; none of an empty one.
pub fn line(alloc: Global, text: &str) -> Result<Words, AllocError> {
    let mut words = Words::new(alloc);
    if text.is_empty() {
        return Ok(words);
    }
    for word in text.split('|') {
        if words.len() < u32::MAX {
            words.push(word)?;
        }
    }
    Ok(words)
}

const NUMBERS: &[(&str, Option<u32>)] = &[
    ("0", Some(0)),
    ("05", Some(5)),
    ("0000000005", Some(5)),
    ("00000000005", None),
    ("4294967295", Some(4_294_967_295)),
    ("4294967296", None),
    ("9999999999", None),
    ("", None),
    ("+5", None),
    ("-5", None),
    ("5 ", None),
    ("5a", None),
];

fn unlike_number() -> Option<&'static str> {
    for &(text, number) in NUMBERS {
        if number_of(text) != number {
            return Some(text);
        }
    }
    None
}

const FOLDERS: &[(&str, &str)] = &[
    ("", "/var/lib/rpm"),
    ("rpm|-qa", "/var/lib/rpm"),
    ("rpmx|--dbpath|d", "/var/lib/rpm"),
    ("rpm|--dbpath|d|-qa", "d"),
    ("rpmdb|--dbpath=e=f", "e=f"),
    ("rpm|--dbpath=", ""),
    ("rpm|--dbpath|d|--dbpath|--dbpath", "--dbpath"),
    ("rpm|--dbpath|d|--dbpath", "/var/lib/rpm"),
    ("rpm|--qf|--dbpath|d", "/var/lib/rpm"),
    ("rpm|--|--dbpath|d", "/var/lib/rpm"),
    ("rpm|-z|--dbpath|d|--after|x", "d"),
    ("rpm|--list=x|--dbpath|d", "d"),
    ("rpmdb|--after|--dbpath|d", "d"),
];

/// Whether the database of a line is in this folder.
fn has_folder(alloc: Global, text: &str, folder: &str) -> Result<bool, AllocError> {
    let words = line(alloc, text)?;
    Ok(place_of(&words) == folder)
}

fn unlike_folder(alloc: Global) -> Option<&'static str> {
    for &(text, folder) in FOLDERS {
        if has_folder(alloc, text, folder) != Ok(true) {
            return Some(text);
        }
    }
    None
}

const ENDS: &[(u32, u32, &[u8])] = &[(1, 1, b"qa"), (1, 3, b""), (1, 4, b""), (2, 0, b"")];

/// Whether words are held as they were given, and nothing is where there is none.
fn are_held(words: &Words) -> bool {
    for &(word, from, bytes) in ENDS {
        if words.bytes_from(Span { word, from }) != bytes {
            return false;
        }
    }
    words.len() == 2
        && words.word(1) == "-qa"
        && words.text_at(0) == "rpm"
        && words.text_at(2).is_empty()
}

fn is_held(alloc: Global) -> Result<bool, AllocError> {
    let words = line(alloc, "rpm|-qa")?;
    Ok(are_held(&words))
}

#[test]
fn words_numbers_and_folders_are_those_by_hand(rt: HostRuntime) {
    let number = unlike_number();
    let folder = unlike_folder(rt.alloc());
    let held = is_held(rt.alloc());
    assert!(rt;
        number.is_none() && folder.is_none() && held == Ok(true),
        "{number:?} {folder:?} {held:?}"
    );
}
