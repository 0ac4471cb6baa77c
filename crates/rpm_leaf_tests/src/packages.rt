//! Package files that are read.

use crate::fixtures::{LEAD, PACKAGE, PIECES, PLAIN, bytes_of, joined, opened};
use rpm_file::{Stamp, read_package, read_package_with};
use rpm_outside::{MemShelf, Shelf};
use std::alloc::{AllocError, Global};

// The header of four texts with the number of the signature header after them.
const JOINED: &str = "00000005 0000000c
    000003e8 00000006 00000000 00000001
    000003e9 00000006 00000002 00000001
    000003ea 00000006 00000004 00000001
    000003fe 00000006 00000006 00000001
    00000101 00000004 00000008 00000001
    61003100 32007800 00000058";

// The same with two numbers of the caller's after all others.
const STAMPED: &str = "00000007 00000014
    000003e8 00000006 00000000 00000001
    000003e9 00000006 00000002 00000001
    000003ea 00000006 00000004 00000001
    000003fe 00000006 00000006 00000001
    00000101 00000004 00000008 00000001
    000003f0 00000004 0000000c 00000001
    00000468 00000004 00000010 00000001
    61003100 32007800 00000058 00000005 00000006";

/// Whether the numbers of the caller's stand after all others.
fn is_stamped(alloc: Global) -> Result<bool, AllocError> {
    let file = joined(alloc, PACKAGE)?;
    let want = bytes_of(alloc, STAMPED)?;
    let stamps = [
        Stamp {
            tag: 1008,
            number: 5,
        },
        Stamp {
            tag: 1128,
            number: 6,
        },
    ];
    match read_package_with(alloc, &mut opened(alloc, &file, u32::MAX)?, &stamps) {
        Ok(package) => Ok(package.into_header().as_slice() == want.as_slice()),
        Err(_) => Ok(false),
    }
}

/// Whether the open package has this header, and a byte of 7 after its main header.
fn has_header(alloc: Global, shelf: &mut MemShelf, want: &[u8]) -> bool {
    let is_same = match read_package(alloc, shelf) {
        Ok(package) => package.header() == want,
        Err(_) => false,
    };
    let mut into = [0u8; 2];
    is_same && shelf.read(&mut into) == Ok(1) && into[0] == 7
}

/// Whether a file has this header, whether it comes in whole pieces or byte by byte.
fn is_read(alloc: Global, file: &[u8], want: &[u8]) -> Result<bool, AllocError> {
    for &most in PIECES {
        if !has_header(alloc, &mut opened(alloc, file, most)?, want) {
            return Ok(false);
        }
    }
    Ok(true)
}

// The tag of the signature's entry, the tag of the main header's last entry, and the tag under which the first joins.
const JOINS: &[(u16, u16, Option<u16>)] = &[
    (1000, 1022, Some(257)),
    (1004, 1022, Some(261)),
    (1007, 1022, Some(1046)),
    (256, 1022, Some(256)),
    (999, 1022, Some(999)),
    (255, 1022, None),
    (1001, 1022, None),
    // it is the tag that it gets that the main header must not have
    (257, 257, None),
    (1000, 257, None),
    (1007, 1046, None),
    (1004, 1004, Some(261)),
];

/// A file of these parts, in which some places have a tag.
fn tagged(alloc: Global, parts: &[&str], places: &[(usize, u16)]) -> Result<Vec<u8>, AllocError> {
    let mut bytes = joined(alloc, parts)?;
    for &(at, tag) in places {
        let [high, low] = tag.to_be_bytes();
        let length = bytes.len();
        if length >= 2 && at <= length - 2 {
            bytes[at] = high;
            bytes[at + 1] = low;
        }
    }
    Ok(bytes)
}

/// The header of four texts, the last of this tag, with the number of the signature header after them where it joins.
fn header_with(alloc: Global, last: u16, joins: Option<u16>) -> Result<Vec<u8>, AllocError> {
    match joins {
        Some(under) => tagged(alloc, &[JOINED], &[(58, last), (74, under)]),
        None => tagged(alloc, &[PLAIN], &[(58, last)]),
    }
}

/// Whether the number of a package's signature header joins under this tag.
fn is_joined(alloc: Global, tag: u16, last: u16, joins: Option<u16>) -> Result<bool, AllocError> {
    let file = tagged(alloc, PACKAGE, &[(114, tag), (202, last)])?;
    let want = header_with(alloc, last, joins)?;
    is_read(alloc, &file, &want)
}

// The magic and a signature header of entries of each form, and the magic after it. Neither the tag 1001 joins nor an
// entry of type 0, and two entries that become one tag both join.
const MANY: &str = "8eade801 00000000 0000000b 00000028
    0000010e 00000005 00000000 00000001
    0000010d 00000006 00000008 00000001
    000003ec 00000007 0000000b 00000003
    000003e9 00000004 00000010 00000001
    0000012c 00000003 00000014 00000002
    0000012d 00000008 00000018 00000002
    0000012e 00000002 0000001c 00000001
    0000012f 00000000 00000000 00000000
    00000130 00000009 0000001d 00000001
    000003e8 00000004 00000020 00000001
    00000101 00000004 00000024 00000001
    00000000 00000005 61620001 02030000 00000007 00010002 63006400 09650000 00000058 00000059
    8eade801 00000000";

const MANY_JOINED: &str = "0000000d 0000002c
    000003e8 00000006 00000000 00000001
    000003e9 00000006 00000002 00000001
    000003ea 00000006 00000004 00000001
    000003fe 00000006 00000006 00000001
    0000010e 00000005 00000008 00000001
    0000010d 00000006 00000010 00000001
    00000105 00000007 00000013 00000003
    0000012c 00000003 00000016 00000002
    0000012d 00000008 0000001a 00000002
    0000012e 00000002 0000001e 00000001
    00000130 00000009 0000001f 00000001
    00000101 00000004 00000024 00000001
    00000101 00000004 00000028 00000001
    61003100 32007800 00000000 00000005 61620001 02030001 00026300 64000965 00000000 00000058 00000059";

/// Whether entries of each form join in their order.
fn is_many_joined(alloc: Global) -> Result<bool, AllocError> {
    let file = joined(alloc, &[LEAD, MANY, PLAIN, "07"])?;
    let want = bytes_of(alloc, MANY_JOINED)?;
    is_read(alloc, &file, &want)
}

fn unlike_join(alloc: Global) -> Option<(u16, u16)> {
    for &(tag, last, joins) in JOINS {
        if is_joined(alloc, tag, last, joins) != Ok(true) {
            return Some((tag, last));
        }
    }
    None
}

#[test]
fn signature_entries_join_under_their_tags(rt: HostRuntime) {
    let alloc = rt.alloc();
    let join = unlike_join(alloc);
    let many = is_many_joined(alloc);
    let stamped = is_stamped(alloc);
    assert!(rt;
        join.is_none() && many == Ok(true) && stamped == Ok(true),
        "{join:?} {many:?} {stamped:?}"
    );
}
