//! Lists of headers.

use crate::fixtures::{PIECES, PLAIN, bytes_of, changed, first, joined, opened};
use rpm_file::{ListFault, next_header};
use rpm_header::MAGIC;
use rpm_outside::MemShelf;
use std::alloc::{AllocError, Global};

const MAGIC_BYTES: &str = "8eade801 00000000";

// Two headers, in 176 bytes.
const LIST: &[&str] = &[MAGIC_BYTES, PLAIN, MAGIC_BYTES, PLAIN];

/// How many headers a list gives, and the fault after them.
fn walk(alloc: Global, shelf: &mut MemShelf) -> (u32, Option<ListFault>) {
    for given in 0..3 {
        match next_header(alloc, shelf) {
            Ok(Some(_)) => {}
            Ok(None) => return (given, None),
            Err(fault) => return (given, Some(fault)),
        }
    }
    (3, None)
}

/// Whether the next header of a list has these bytes.
fn gives(alloc: Global, shelf: &mut MemShelf, want: &[u8]) -> bool {
    match next_header(alloc, shelf) {
        Ok(Some(header)) => header.as_slice() == want,
        _ => false,
    }
}

/// Whether an open list gives this header twice, and then its end.
fn gives_both(alloc: Global, shelf: &mut MemShelf, header: &[u8]) -> bool {
    gives(alloc, shelf, header)
        && gives(alloc, shelf, header)
        && matches!(next_header(alloc, shelf), Ok(None))
}

/// Whether the list gives both its headers, where a read takes so many bytes at most.
fn is_read(alloc: Global, most: u32) -> Result<bool, AllocError> {
    let list = joined(alloc, LIST)?;
    let header = bytes_of(alloc, PLAIN)?;
    let mut shelf = opened(alloc, &list, most)?;
    Ok(first(&list, 8) == MAGIC.as_slice() && gives_both(alloc, &mut shelf, &header))
}

// What is answered for the first bytes of a list of two headers, where it has this byte in place of its own.
const LISTS: &[(usize, (usize, u8), u32, Option<ListFault>)] = &[
    (0, (0, 0x8e), 0, None),
    (4, (0, 0x8e), 0, Some(ListFault::Short)),
    (12, (0, 0x8e), 0, Some(ListFault::Short)),
    (87, (0, 0x8e), 0, Some(ListFault::Short)),
    (88, (0, 0x8e), 1, None),
    (92, (0, 0x8e), 1, Some(ListFault::Short)),
    (100, (0, 0x8e), 1, Some(ListFault::Short)),
    (175, (0, 0x8e), 1, Some(ListFault::Short)),
    (176, (0, 0), 0, Some(ListFault::BadMagic)),
    (176, (88, 0), 1, Some(ListFault::BadMagic)),
    (176, (9, 1), 0, Some(ListFault::TooManyEntries)),
    (176, (12, 4), 0, Some(ListFault::TooMuchData)),
    // an entry of a type that no header has: a list is not parsed
    (176, (23, 10), 2, None),
];

/// Whether a list gives so many headers and this fault, whether it comes in whole pieces or byte by byte.
fn ends_with(
    alloc: Global,
    list: &[u8],
    given: u32,
    fault: Option<ListFault>,
) -> Result<bool, AllocError> {
    for &most in PIECES {
        if walk(alloc, &mut opened(alloc, list, most)?) != (given, fault) {
            return Ok(false);
        }
    }
    Ok(true)
}

/// Whether the first bytes of the list, with this change, give so many headers and this fault.
fn is_told(
    alloc: Global,
    cut: usize,
    change: (usize, u8),
    given: u32,
    fault: Option<ListFault>,
) -> Result<bool, AllocError> {
    let list = joined(alloc, LIST)?;
    let wrong = changed(alloc, first(&list, cut), &[change])?;
    ends_with(alloc, &wrong, given, fault)
}

/// Whether 16 bytes that claim 68,157,432 are a list that is cut short.
fn is_short(alloc: Global) -> Result<bool, AllocError> {
    let hostile = bytes_of(alloc, "8eade801 00000000 0000ffff 04000000")?;
    ends_with(alloc, &hostile, 0, Some(ListFault::Short))
}

/// The fault of the list where the read of this number fails.
fn fault_at(alloc: Global, most: u32, read: u64) -> Result<Option<ListFault>, AllocError> {
    let list = joined(alloc, LIST)?;
    let mut shelf = opened(alloc, &list, most)?;
    shelf.fail_read(read);
    Ok(walk(alloc, &mut shelf).1)
}

fn unlike_piece(alloc: Global) -> Option<u32> {
    for &most in PIECES {
        if is_read(alloc, most) != Ok(true) {
            return Some(most);
        }
    }
    None
}

fn unlike_list(alloc: Global) -> Option<(usize, (usize, u8))> {
    for &(cut, change, given, fault) in LISTS {
        if is_told(alloc, cut, change, given, fault) != Ok(true) {
            return Some((cut, change));
        }
    }
    None
}

/// The first of so many reads whose failure isn't told, where a read takes so many bytes at most; the last one sees
/// the list's end.
fn untold_read(alloc: Global, most: u32, reads: u64) -> Option<u64> {
    for read in 0..reads {
        if fault_at(alloc, most, read + 1) != Ok(Some(ListFault::ReadFault)) {
            return Some(read);
        }
    }
    None
}

#[test]
fn lists_are_read_and_refused(rt: HostRuntime) {
    let alloc = rt.alloc();
    let piece = unlike_piece(alloc);
    let list = unlike_list(alloc);
    let hostile = is_short(alloc);
    let whole = untold_read(alloc, 65_536, 5);
    let bytewise = untold_read(alloc, 1, 177);
    let is_same = piece.is_none() && list.is_none() && hostile == Ok(true);
    assert!(rt;
        is_same && whole.is_none() && bytewise.is_none(),
        "{piece:?} {list:?} {hostile:?} {whole:?} {bytewise:?}"
    );
}
