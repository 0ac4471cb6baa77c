//! A package, a database and a log, byte for byte as the formats lay them out.

use std::alloc::{AllocError, Global};

/// A header of four texts: the name a, version 1, release 2 and architecture x.
pub const HEADER: &[u8] = b"\0\0\0\x04\0\0\0\x08\
    \0\0\x03\xe8\0\0\0\x06\0\0\0\0\0\0\0\x01\
    \0\0\x03\xe9\0\0\0\x06\0\0\0\x02\0\0\0\x01\
    \0\0\x03\xea\0\0\0\x06\0\0\0\x04\0\0\0\x01\
    \0\0\x03\xfe\0\0\0\x06\0\0\0\x06\0\0\0\x01\
    a\x001\x002\0x\0";

/// What stands before a header in a list.
pub const MAGIC: &[u8] = b"\x8e\xad\xe8\x01\0\0\0\0";

/// The bytes of these pieces, one after the other.
pub fn joined(alloc: Global, pieces: &[&[u8]]) -> Result<Vec<u8>, AllocError> {
    let mut bytes = Vec::new(alloc);
    for piece in pieces {
        bytes.extend_from_slice(piece)?;
    }
    Ok(bytes)
}

/// A package file without a payload: a lead, a signature header that says the size 88, and the header.
pub fn package(alloc: Global) -> Result<Vec<u8>, AllocError> {
    joined(
        alloc,
        &[
            b"\xed\xab\xee\xdb\x03\0\0\0\0\x01a-1-2",
            &[0; 61],
            b"\0\x01\0\x05",
            &[0; 16],
            MAGIC,
            b"\0\0\0\x01\0\0\0\x04\0\0\x03\xe8\0\0\0\x04\0\0\0\0\0\0\0\x01\0\0\0\x58\0\0\0\0",
            MAGIC,
            HEADER,
        ],
    )
}

/// A Packages.db of one page with this package under number 1. The next number is 4.
pub fn database(alloc: Global) -> Result<Vec<u8>, AllocError> {
    let mut bytes = joined(
        alloc,
        &[
            b"RpmP\0\0\0\0\x01\0\0\0\x01\0\0\0",
            b"\x04\0\0\0\0\0\0\0\0\0\0\0\0\0\0\0",
            b"Slot\x01\0\0\0\0\x01\0\0\x07\0\0\0",
        ],
    )?;
    for _ in 3..256 {
        bytes.extend_from_slice(b"Slot\0\0\0\0\0\0\0\0\0\0\0\0")?;
    }
    bytes.extend_from_slice(b"BlbS\x01\0\0\0\x01\0\0\0\x50\0\0\0")?;
    bytes.extend_from_slice(HEADER)?;
    bytes.extend_from_slice(b"\0\0\0\0\0\0\0\0\x50\0\0\0BlbE")?;
    Ok(bytes)
}

/// A log of one entry, which is that Packages.db from its first unit on: 263 of them.
pub fn log(alloc: Global) -> Result<Vec<u8>, AllocError> {
    let mut log = Vec::new(alloc);
    log.extend_from_slice(b"RpmL\x01\0\0\0\x01\0\0\0\x08\x01\0\0")?;
    log.extend_from_slice(b"\x01\0\0\0\0\0\0\0\x07\x01\0\0\0\0\0\0")?;
    log.extend_from_slice(&database(alloc)?)?;
    Ok(log)
}

/// The same bytes but these, from a place on.
pub fn changed(mut file: Vec<u8>, at: usize, bytes: &[u8]) -> Vec<u8> {
    for (k, byte) in bytes.iter().enumerate() {
        let place = at.saturating_add(k);
        if place < file.len() {
            file[place] = *byte;
        }
    }
    file
}
