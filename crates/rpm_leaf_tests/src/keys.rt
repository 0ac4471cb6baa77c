//! The keys by which packages are found, the files that they own, and what they need or give.

use crate::fixtures::{SHELL, bytes_of};
use crate::values::{NO_NAME, ODD};
use rpm_header::View;
use rpm_tags::{Kind, Tags, dependencies, has_file, keys};
use std::alloc::{AllocError, Global};

// INSTALLTID of two numbers, and a recommended capability.
const TWO_TIDS: &str = "00000002 0000000a
    00000468 00000004 00000000 00000002
    000013b6 00000008 00000008 00000001
    00000006 00000007 6100";

// INSTALLTID of one number of eight bytes, and as a text.
const WIDE_TID: &str = "00000001 00000008
    00000468 00000005 00000000 00000001 3132333435363738";

const TEXT_TID: &str = "00000001 00000002
    00000468 00000006 00000000 00000001 3600";

// Headers with a kind, and its keys, each with its place and a bar after it.
const KEYS: &[(&str, Kind, &str)] = &[
    (SHELL, Kind::Name, "bash0|"),
    (SHELL, Kind::Basenames, "bash0|sh1|"),
    (SHELL, Kind::Group, "Shells0|"),
    (SHELL, Kind::Providename, "bash0|sh1|"),
    (SHELL, Kind::Requirename, "libc0|libtinfo1|"),
    (SHELL, Kind::Conflictname, ""),
    (SHELL, Kind::Obsoletename, ""),
    (SHELL, Kind::Triggername, ""),
    (SHELL, Kind::Dirnames, "/usr/bin/0|"),
    (SHELL, Kind::Installtid, ""),
    (ODD, Kind::Name, "d0|"),
    (ODD, Kind::Group, "en0|"),
    (ODD, Kind::Providename, ""),
    (NO_NAME, Kind::Name, ""),
    (
        TWO_TIDS,
        Kind::Installtid,
        "\0\0\0\0\0\0\0\x060|\0\0\0\0\0\0\0\x071|",
    ),
    (TWO_TIDS, Kind::Recommendname, "a0|"),
    (WIDE_TID, Kind::Installtid, "123456780|"),
    (TEXT_TID, Kind::Installtid, ""),
];

/// The keys of a kind, each with its place and a bar after it.
fn shown(alloc: Global, view: &View<'_>, kind: Kind) -> Result<Vec<u8>, AllocError> {
    let mut bytes = Vec::new(alloc);
    for (key, place) in keys(kind, view) {
        bytes.extend_from_slice(key.bytes())?;
        bytes.push(if place == 0 { b'0' } else { b'1' })?;
        bytes.push(b'|')?;
    }
    Ok(bytes)
}

/// Whether a header has these keys of a kind.
fn has_keys(alloc: Global, hex: &str, kind: Kind, want: &str) -> Result<bool, AllocError> {
    let blob = bytes_of(alloc, hex)?;
    match View::parse(&blob) {
        Ok(view) => Ok(shown(alloc, &view, kind)?.as_slice() == want.as_bytes()),
        Err(_) => Ok(false),
    }
}

// The second of two files is `/b/c`, and its name is `/c`.
const NAMES_WITH_SLASH: &str = "00000003 00000014
    0000045c 00000004 00000000 00000002
    0000045d 00000008 0000000f 00000002
    0000045e 00000008 00000008 00000002
    00000000 00000001 2f612f00 2f6200 7800 2f6300";

const FILES: &[(&str, bool)] = &[
    ("/a/x", true),
    ("/b/c", false),
    ("/a/c", false),
    ("x", false),
];

/// Whether a header has a file of this path.
fn owns(alloc: Global, hex: &str, path: &str) -> Result<bool, AllocError> {
    let blob = bytes_of(alloc, hex)?;
    match View::parse(&blob) {
        Ok(view) => Ok(has_file(&view, path.as_bytes())),
        Err(_) => Ok(false),
    }
}

// Two names, one number of flags, one version.
const SHORT_FLAGS: &str = "00000003 0000000a
    00000417 00000008 00000004 00000002
    00000458 00000004 00000000 00000001
    00000459 00000008 00000008 00000001
    00000008 61006200 3100";

const PROVIDES: Tags = Tags {
    names: 1047,
    flags: 1112,
    versions: 1113,
};

const PROVIDED: &[(&[u8], u64, &[u8])] = &[(b"a", 8, b"1"), (b"b", 0, b"")];

/// Whether a header provides just these.
fn provides(view: &View<'_>, wanted: &[(&[u8], u64, &[u8])]) -> bool {
    let mut left = dependencies(view, PROVIDES);
    for &(name, flags, version) in wanted {
        let is_same = match left.next() {
            Some(found) => {
                found.name == name && found.flags == flags && found.version == version
            }
            None => false,
        };
        if !is_same {
            return false;
        }
    }
    left.next().is_none()
}

/// Whether a header says that it provides just these.
fn says(alloc: Global, hex: &str, wanted: &[(&[u8], u64, &[u8])]) -> Result<bool, AllocError> {
    let blob = bytes_of(alloc, hex)?;
    match View::parse(&blob) {
        Ok(view) => Ok(provides(&view, wanted)),
        Err(_) => Ok(false),
    }
}

fn unlike_keys(alloc: Global) -> Option<(&'static str, &'static str)> {
    for &(hex, kind, want) in KEYS {
        if has_keys(alloc, hex, kind, want) != Ok(true) {
            return Some((hex, want));
        }
    }
    None
}

fn unlike_file(alloc: Global) -> Option<&'static str> {
    for &(path, is_there) in FILES {
        if owns(alloc, NAMES_WITH_SLASH, path) != Ok(is_there) {
            return Some(path);
        }
    }
    None
}

#[test]
fn keys_files_and_dependencies_are_those_by_hand(rt: HostRuntime) {
    let alloc = rt.alloc();
    let keys = unlike_keys(alloc);
    let file = unlike_file(alloc);
    let short = says(alloc, SHORT_FLAGS, PROVIDED);
    assert!(rt;
        keys.is_none() && file.is_none() && short == Ok(true),
        "{keys:?} {file:?} {short:?}"
    );
}
