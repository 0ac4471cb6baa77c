//! Headers that are read.

use crate::entries::has_text;
use crate::fixtures::{INSTALLED, PLAIN, REGION, REGION_INSTALLED, bytes_of};
use rpm_header::{HeaderFault, View, immutable_digest};
use std::alloc::{AllocError, Global};

fn has_names(view: &View<'_>) -> bool {
    has_text(view, 1000, b"a")
        && has_text(view, 1001, b"1")
        && has_text(view, 1002, b"2")
        && has_text(view, 1022, b"x")
        && view.find(1003).is_none()
}

// Headers, how many entries each has, and how many bytes.
const LAYOUTS: &[(&str, u32, usize)] = &[(PLAIN, 4, 80), (REGION, 5, 112), (INSTALLED, 6, 120)];

/// Whether a header with a byte after it has so many entries and bytes, and its names.
fn is_laid(alloc: Global, hex: &str, entries: u32, length: usize) -> Result<bool, AllocError> {
    let mut blob = bytes_of(alloc, hex)?;
    blob.push(0xff)?;
    match View::parse(&blob) {
        Ok(view) => {
            Ok(view.entries() == entries && view.blob().len() == length && has_names(&view))
        }
        Err(_) => Ok(false),
    }
}

// The blobs that have each answer. Where one has two faults, the answer is the one that is looked
// for first.
const FAULTS: &[(Option<HeaderFault>, &[&str])] = &[
    (
        None,
        &[
            "00000000 00000000",
            // A Null's offset and count mean nothing.
            "00000001 00000000 000003e8 00000000 ffffffff ffffffff",
            // Of a trailer the third number alone is looked at.
            "00000001 00000010 0000003f 00000007 00000000 00000010 0000003f 00000007 fffffff0 00000010",
            "00000001 00000010 0000003e 00000007 00000000 00000010 00000000 00000000 fffffff0 00000000",
            "00000002 00000010 0000003f 00000007 00000000 00000010 000003e8 00000000 00000000 00000000
             0000003f 00000007 ffffffe0 00000010",
            // No entry but the first is a region.
            "00000002 00000000 000003e8 00000000 00000000 00000000 0000003f 00000000 00000000 00000000",
        ],
    ),
    (
        Some(HeaderFault::Short),
        &[
            "",
            "00000000 000000",
            "00000001 00000000",
            "0000ffff 04000000",
            "00000001 00000001 000003e8 00000006 00000000 00000001",
        ],
    ),
    (
        Some(HeaderFault::TooManyEntries),
        &["00010000 00000000", "00010000 04000001"],
    ),
    (Some(HeaderFault::TooMuchData), &["00000000 04000001"]),
    (
        Some(HeaderFault::BadType(0)),
        &[
            "00000001 00000000 000003e8 0000000a 00000000 00000001",
            "00000001 00000000 0000003f 0000000a 00000001 00000000",
        ],
    ),
    (
        Some(HeaderFault::BadOffset(0)),
        &[
            "00000001 00000004 000003e8 00000004 00000002 00000001 00000000",
            "00000001 00000004 000003e8 00000003 00000001 00000001 00000000",
            "00000001 0000000c 000003e8 00000005 00000004 00000001 00000000 00000000 00000000",
            "00000001 00000004 000003e8 00000007 00000005 00000001 00000000",
            "00000001 00000000 000003e8 00000004 00000001 00000000",
        ],
    ),
    (
        Some(HeaderFault::BadCount(0)),
        &[
            "00000001 00000001 000003e8 00000001 00000000 00000000 00",
            "00000001 00000001 000003e8 00000002 00000000 00000002 00",
            "00000001 00000004 000003e8 00000003 00000000 00000003 00000000",
            "00000001 00000004 000003e8 00000004 00000000 00000002 00000000",
            "00000001 00000008 000003e8 00000005 00000000 20000001 00000000 00000000",
            "00000001 00000001 000003e8 00000006 00000000 00000000 00",
            "00000001 00000001 000003e8 00000006 00000000 00000002 00",
            "00000001 00000001 000003e8 00000006 00000000 00000002 61",
            "00000001 00000004 000003e8 00000007 00000000 00000005 00000000",
            "00000001 00000004 000003e8 00000007 00000004 00000001 00000000",
            "00000001 00000001 000003e8 00000008 00000000 00000000 00",
            "00000001 00000001 000003e8 00000009 00000000 00000000 00",
            "00000001 0000000f 0000003f 00000007 00000000 00000010 0000003f 00000007 fffffff0 000000",
        ],
    ),
    (
        Some(HeaderFault::NoEnd(0)),
        &[
            "00000001 00000000 000003e8 00000006 00000000 00000001",
            "00000001 00000001 000003e8 00000006 00000000 00000001 61",
            "00000001 00000003 000003e8 00000008 00000000 00000002 610062",
            "00000001 00000003 000003e8 00000009 00000001 00000002 610062",
            "00000001 00000001 0000003f 00000006 00000000 00000001 61",
            "00000002 00000001 000003e8 00000006 00000000 00000001 000003e9 0000000a 00000000 00000001 61",
        ],
    ),
    (
        Some(HeaderFault::BadRegion),
        &[
            // The third number as signed: -32 of one entry, 0, 16, and -8.
            "00000001 00000010 0000003f 00000007 00000000 00000010 0000003f 00000007 ffffffe0 00000010",
            "00000001 00000010 0000003e 00000007 00000000 00000010 0000003e 00000007 ffffffe0 00000010",
            "00000001 00000010 0000003f 00000007 00000000 00000010 0000003f 00000007 00000000 00000010",
            "00000001 00000010 0000003f 00000007 00000000 00000010 0000003f 00000007 00000010 00000010",
            "00000001 00000010 0000003f 00000007 00000000 00000010 0000003f 00000007 fffffff8 00000010",
            // The wrong count, the wrong type, and nothing at all.
            "00000001 00000010 0000003f 00000007 00000000 0000000f 0000003f 00000007 fffffff0 00000010",
            "00000001 00000010 0000003f 00000004 00000000 00000004 0000003f 00000007 fffffff0 00000010",
            "00000001 00000000 0000003f 00000000 00000000 00000000",
            "00000002 00000000 0000003f 00000000 00000000 00000000 000003e9 0000000a 00000000 00000001",
        ],
    ),
    (
        Some(HeaderFault::BadType(1)),
        &[
            "00000002 00000000 000003e8 00000000 00000000 00000000 0000003f 0000000a 00000000 00000000",
        ],
    ),
    (
        Some(HeaderFault::BadOffset(1)),
        &[
            "00000002 00000002 000003e8 00000006 00000000 00000001 000003e9 00000003 00000001 00000001 0000",
        ],
    ),
    (
        Some(HeaderFault::BadCount(1)),
        &[
            "00000002 00000001 000003e8 00000006 00000000 00000001 000003e9 00000006 00000000 00000003 00",
        ],
    ),
    (
        Some(HeaderFault::NoEnd(1)),
        &[
            "00000002 00000002 000003e8 00000006 00000000 00000001 000003e9 00000006 00000001 00000001 0061",
        ],
    ),
    (
        Some(HeaderFault::NoEnd(2)),
        &[
            "00000003 00000001 000003e8 00000000 00000000 00000000 000003e8 00000000 00000000 00000000
           000003e9 00000006 00000000 00000001 61",
        ],
    ),
];

/// The first fault of a header.
fn fault_of(alloc: Global, hex: &str) -> Result<Option<HeaderFault>, AllocError> {
    let blob = bytes_of(alloc, hex)?;
    Ok(View::parse(&blob).err())
}

/// A header of ten entries, which share 128 texts; the last is said to have so many.
fn sharing(alloc: Global, last: u32) -> Result<Vec<u8>, AllocError> {
    let mut bytes = bytes_of(alloc, "0000000a 00000100")?;
    for _ in 0..9u32 {
        bytes.extend_from_slice(&bytes_of(alloc, "00000417 00000008 00000000 00000080")?)?;
    }
    bytes.extend_from_slice(&bytes_of(alloc, "00000417 00000008 00000000")?)?;
    bytes.extend_from_slice(&last.to_be_bytes())?;
    for _ in 0..128u32 {
        bytes.extend_from_slice(b"a\0")?;
    }
    Ok(bytes)
}

// How many texts the last entry is said to have, and the fault.
const SHARED: &[(u32, Option<HeaderFault>)] = &[(128, None), (129, Some(HeaderFault::NoEnd(9)))];

/// The first fault of such a header.
fn shared_fault(alloc: Global, last: u32) -> Result<Option<HeaderFault>, AllocError> {
    Ok(View::parse(&sharing(alloc, last)?).err())
}

// Headers with the SHA-256 of their region as `sha256sum` of coreutils gives it.
const DIGESTS: &[(&str, &str)] = &[
    (
        REGION,
        "3d0d85fe20030bf49852a9bd894c16eaef3594996b7685ce400298d8bbab7e0d",
    ),
    (
        REGION_INSTALLED,
        "3d0d85fe20030bf49852a9bd894c16eaef3594996b7685ce400298d8bbab7e0d",
    ),
    (
        "00000002 00000010 0000003f 00000007 00000000 00000010 000003e8 00000000 00000000 00000000
         0000003f 00000007 fffffff0 00000010",
        "a751567a298d70b9699c88f6c8948911cd7a41893fb9efea86326eb4888dd14a",
    ),
    (PLAIN, ""),
    (
        "00000001 00000010 0000003e 00000007 00000000 00000010 0000003e 00000007 fffffff0 00000010",
        "",
    ),
    ("00000000 00000000", ""),
];

fn is_digest(view: &View<'_>, want: &[u8]) -> bool {
    match immutable_digest(view) {
        Some(digest) => digest.as_slice() == want,
        None => want.is_empty(),
    }
}

/// Whether the region of a header has this digest, or where none is given, there is none.
fn has_digest(alloc: Global, hex: &str, want: &str) -> Result<bool, AllocError> {
    let blob = bytes_of(alloc, hex)?;
    let digest = bytes_of(alloc, want)?;
    match View::parse(&blob) {
        Ok(view) => Ok(is_digest(&view, &digest)),
        Err(_) => Ok(false),
    }
}

fn unlike_layout(alloc: Global) -> Option<&'static str> {
    for &(hex, entries, length) in LAYOUTS {
        if is_laid(alloc, hex, entries, length) != Ok(true) {
            return Some(hex);
        }
    }
    None
}

fn unlike_in<'a>(
    alloc: Global,
    fault: Option<HeaderFault>,
    blobs: &'a [&'a str],
) -> Option<&'a str> {
    for &hex in blobs {
        if fault_of(alloc, hex) != Ok(fault) {
            return Some(hex);
        }
    }
    None
}

fn unlike_fault(alloc: Global) -> Option<&'static str> {
    for &(fault, blobs) in FAULTS {
        if let Some(hex) = unlike_in(alloc, fault, blobs) {
            return Some(hex);
        }
    }
    None
}

fn unlike_shared(alloc: Global) -> Option<u32> {
    for &(texts, fault) in SHARED {
        if shared_fault(alloc, texts) != Ok(fault) {
            return Some(texts);
        }
    }
    None
}

fn unlike_digest(alloc: Global) -> Option<&'static str> {
    for &(hex, want) in DIGESTS {
        if has_digest(alloc, hex, want) != Ok(true) {
            return Some(hex);
        }
    }
    None
}

#[test]
fn headers_are_read_refused_and_digested(rt: HostRuntime) {
    let alloc = rt.alloc();
    let layout = unlike_layout(alloc);
    let fault = unlike_fault(alloc);
    let shared = unlike_shared(alloc);
    let digest = unlike_digest(alloc);
    assert!(rt;
        layout.is_none() && fault.is_none() && shared.is_none() && digest.is_none(),
        "{layout:?} {fault:?} {shared:?} {digest:?}"
    );
}
