//! Package files that are refused.

use crate::fixtures::{LEAD, PACKAGE, PIECES, SIGNATURE, changed, first, joined, opened};
use rpm_file::{FileFault, read_package};
use rpm_header::HeaderFault;
use std::alloc::{AllocError, Global};

/// Whether a file has this fault, whether it comes in whole pieces or byte by byte.
fn is_refused(alloc: Global, file: &[u8], fault: FileFault) -> Result<bool, AllocError> {
    for &most in PIECES {
        if read_package(alloc, &mut opened(alloc, file, most)?).err() != Some(fault) {
            return Ok(false);
        }
    }
    Ok(true)
}

const CUTS: &[usize] = &[223, 159, 143, 135, 131, 111, 104, 95, 0];

// What is answered where a package has these two bytes in place of its own, in the order of its parts.
const WRONG: &[(&[(usize, u8)], FileFault)] = &[
    (&[(0, 0), (79, 4)], FileFault::NotAPackage),
    (&[(79, 4), (96, 0)], FileFault::NotAPackage),
    (&[(96, 0), (105, 1)], FileFault::BadMagic),
    (
        &[(105, 1), (108, 5)],
        FileFault::Signature(HeaderFault::TooManyEntries),
    ),
    (
        &[(108, 5), (119, 10)],
        FileFault::Signature(HeaderFault::TooMuchData),
    ),
    // its body is cut: it says that it has 256 bytes of data
    (&[(110, 1), (119, 10)], FileFault::Short),
    (
        &[(119, 10), (136, 0)],
        FileFault::Signature(HeaderFault::BadType(0)),
    ),
    (
        &[(123, 1), (136, 0)],
        FileFault::Signature(HeaderFault::BadOffset(0)),
    ),
    (
        &[(127, 2), (136, 0)],
        FileFault::Signature(HeaderFault::BadCount(0)),
    ),
    (
        &[(119, 6), (123, 3)],
        FileFault::Signature(HeaderFault::NoEnd(0)),
    ),
    (
        &[(114, 0), (115, 62)],
        FileFault::Signature(HeaderFault::BadRegion),
    ),
    (&[(136, 0), (145, 1)], FileFault::BadMagic),
    (
        &[(145, 1), (148, 5)],
        FileFault::Main(HeaderFault::TooManyEntries),
    ),
    (
        &[(148, 5), (159, 10)],
        FileFault::Main(HeaderFault::TooMuchData),
    ),
    (&[(150, 1), (159, 10)], FileFault::Short),
    (
        &[(159, 10), (223, 1)],
        FileFault::Main(HeaderFault::BadType(0)),
    ),
    (
        &[(163, 9), (223, 1)],
        FileFault::Main(HeaderFault::BadOffset(0)),
    ),
    (
        &[(167, 2), (223, 1)],
        FileFault::Main(HeaderFault::BadCount(0)),
    ),
    (
        &[(223, 1), (223, 1)],
        FileFault::Main(HeaderFault::NoEnd(3)),
    ),
    (
        &[(154, 0), (155, 63)],
        FileFault::Main(HeaderFault::BadRegion),
    ),
];

/// Whether a package is cut short after so many bytes.
fn is_cut(alloc: Global, cut: usize) -> Result<bool, AllocError> {
    let package = joined(alloc, PACKAGE)?;
    is_refused(alloc, first(&package, cut), FileFault::Short)
}

/// Whether a package with these bytes in place of its own has this fault.
fn is_wrong(alloc: Global, changes: &[(usize, u8)], fault: FileFault) -> Result<bool, AllocError> {
    let package = joined(alloc, PACKAGE)?;
    let wrong = changed(alloc, &package, changes)?;
    is_refused(alloc, &wrong, fault)
}

// The two lengths of main headers, and how long the file is: as many entries as a header may have, and as many bytes
// of data.
const FULL: &[(&str, usize)] = &[
    ("0000ffff 00000000", 152 + 16 * 65_535),
    ("00000000 04000000", 152 + 67_108_864),
];

/// Whether a package whose main header is as large as that has no room for what joins it.
fn is_full(alloc: Global, lengths: &str, length: usize) -> Result<bool, AllocError> {
    let mut file = joined(alloc, &[LEAD, SIGNATURE, lengths])?;
    file.resize(length, 0)?;
    is_refused(alloc, &file, FileFault::TooLarge)
}

/// The fault of a package where the read of this number fails.
fn fault_at(alloc: Global, most: u32, read: u64) -> Result<Option<FileFault>, AllocError> {
    let package = joined(alloc, PACKAGE)?;
    let mut shelf = opened(alloc, &package, most)?;
    shelf.fail_read(read);
    Ok(read_package(alloc, &mut shelf).err())
}

fn unlike_cut(alloc: Global) -> Option<usize> {
    for &cut in CUTS {
        if is_cut(alloc, cut) != Ok(true) {
            return Some(cut);
        }
    }
    None
}

fn unlike_wrong(alloc: Global) -> Option<&'static [(usize, u8)]> {
    for &(changes, fault) in WRONG {
        if is_wrong(alloc, changes, fault) != Ok(true) {
            return Some(changes);
        }
    }
    None
}

fn unlike_full(alloc: Global) -> Option<usize> {
    for &(lengths, length) in FULL {
        if is_full(alloc, lengths, length) != Ok(true) {
            return Some(length);
        }
    }
    None
}

/// The first of so many reads whose failure isn't told, where a read takes so many bytes at most.
fn untold_read(alloc: Global, most: u32, reads: u64) -> Option<u64> {
    for read in 0..reads {
        if fault_at(alloc, most, read + 1) != Ok(Some(FileFault::ReadFault)) {
            return Some(read);
        }
    }
    None
}

#[test]
fn packages_have_their_first_fault(rt: HostRuntime) {
    let alloc = rt.alloc();
    let cut = unlike_cut(alloc);
    let wrong = unlike_wrong(alloc);
    let full = unlike_full(alloc);
    let whole = untold_read(alloc, 65_536, 6);
    let bytewise = untold_read(alloc, 1, 224);
    let is_same = cut.is_none() && wrong.is_none() && full.is_none();
    assert!(rt;
        is_same && whole.is_none() && bytewise.is_none(),
        "{cut:?} {wrong:?} {full:?} {whole:?} {bytewise:?}"
    );
}
