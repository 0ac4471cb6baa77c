//! Headers and bytes that the tests of several crates read.

use rpm_outside::{MemShelf, Shelf};
use std::alloc::{AllocError, Global};

// A header of four texts: NAME `a`, VERSION `1`, RELEASE `2` and ARCH `x`. Its layout was worked out by hand, as that
// of the next two.
pub const PLAIN: &str = "00000004 00000008
    000003e8 00000006 00000000 00000001
    000003e9 00000006 00000002 00000001
    000003ea 00000006 00000004 00000001
    000003fe 00000006 00000006 00000001
    61003100 32007800";

// The same as a region, whose trailer ends the data.
pub const REGION: &str = "00000005 00000018
    0000003f 00000007 00000008 00000010
    000003e8 00000006 00000000 00000001
    000003e9 00000006 00000002 00000001
    000003ea 00000006 00000004 00000001
    000003fe 00000006 00000006 00000001
    61003100 32007800 0000003f 00000007 ffffffb0 00000010";

// The first one with two numbers after it, the time and the transaction of its installation.
pub const INSTALLED: &str = "00000006 00000010
    000003e8 00000006 00000000 00000001
    000003e9 00000006 00000002 00000001
    000003ea 00000006 00000004 00000001
    000003fe 00000006 00000006 00000001
    000003f0 00000004 00000008 00000001
    00000468 00000004 0000000c 00000001
    61003100 32007800 00000005 00000005";

// The region with the time and the transaction of its installation after it.
pub const REGION_INSTALLED: &str = "00000007 00000020
    0000003f 00000007 00000008 00000010
    000003e8 00000006 00000000 00000001
    000003e9 00000006 00000002 00000001
    000003ea 00000006 00000004 00000001
    000003fe 00000006 00000006 00000001
    000003f0 00000004 00000018 00000001
    00000468 00000004 0000001c 00000001
    61003100 32007800 0000003f 00000007 ffffffb0 00000010 00000005 00000005";

// A package of two files, with what it provides and requires, and a group in one language. The layouts of this one
// and the next two were made by a program of a few lines in Python, which packs an entry's numbers after filling up
// with zeros.
pub const SHELL: &str = "0000000f 00000072
    000003e8 00000006 00000000 00000001
    000003e9 00000006 00000005 00000001
    000003ea 00000006 00000009 00000001
    000003fe 00000006 0000000b 00000001
    000003f8 00000009 00000012 00000001
    00000417 00000008 00000019 00000002
    00000458 00000004 00000024 00000002
    00000459 00000008 0000002c 00000002
    00000419 00000008 00000033 00000002
    00000418 00000004 00000044 00000002
    0000041a 00000008 0000004c 00000002
    0000045d 00000008 00000052 00000002
    0000045c 00000004 0000005c 00000002
    0000045e 00000008 00000064 00000001
    00000406 00000003 0000006e 00000002
    62617368 00352e31 00320078 38365f36 34005368 656c6c73 00626173 68007368
    00000000 00000008 00000000 352e312d 3200006c 69626300 6c696274 696e666f
    00000000 0000000c 00000000 322e3330 00006261 73680073 68000000 00000000
    00000000 2f757372 2f62696e 2f0081ed a1ff";

// A library with an epoch, so that zeros stand before numbers, and no file.
pub const LIBRARY: &str = "00000008 0000002c
    000003e8 00000006 00000000 00000001
    000003e9 00000006 00000005 00000001
    000003ea 00000006 0000000d 00000001
    000003eb 00000004 00000010 00000001
    000003fe 00000006 00000014 00000001
    00000417 00000008 0000001b 00000001
    00000458 00000004 00000020 00000001
    00000459 00000008 00000024 00000001
    6c696278 00312e30 7e726331 00310000 00000001 6e6f6172 6368006c 69627800
    00000008 312e307e 72633100";

// The same without the epoch, in another version.
pub const SNAPSHOT: &str = "00000007 00000029
    000003e8 00000006 00000000 00000001
    000003e9 00000006 00000005 00000001
    000003ea 00000006 0000000e 00000001
    000003fe 00000006 00000010 00000001
    00000417 00000008 00000017 00000001
    00000458 00000004 0000001c 00000001
    00000459 00000008 00000020 00000001
    6c696278 00312e30 5e676974 31003100 6e6f6172 6368006c 69627800 00000008
    312e305e 67697431 00";

fn digit(byte: u8) -> u8 {
    match byte {
        b'0'..=b'9' => byte - b'0',
        b'a'..=b'f' => byte - b'a' + 10,
        _ => 0,
    }
}

/// The bytes of hexadecimal digits, which white space parts for the reader.
pub fn bytes_of(alloc: Global, hex: &str) -> Result<Vec<u8>, AllocError> {
    let mut bytes = Vec::new(alloc);
    let mut high = None;
    for byte in hex.as_bytes() {
        if *byte <= b' ' {
            continue;
        }
        match high {
            None => high = Some(digit(*byte).wrapping_mul(16)),
            Some(half) => {
                bytes.push(half | digit(*byte))?;
                high = None;
            }
        }
    }
    Ok(bytes)
}

/// The bytes of several texts of hexadecimal digits, one after the other.
pub fn joined(alloc: Global, parts: &[&str]) -> Result<Vec<u8>, AllocError> {
    let mut bytes = Vec::new(alloc);
    for &part in parts {
        bytes.extend_from_slice(&bytes_of(alloc, part)?)?;
    }
    Ok(bytes)
}

/// The first so many bytes, or all where there are fewer.
pub fn first(bytes: &[u8], count: usize) -> &[u8] {
    if count < bytes.len() {
        &bytes[..count]
    } else {
        bytes
    }
}

/// These bytes with others at some places.
pub fn changed(
    alloc: Global,
    bytes: &[u8],
    changes: &[(usize, u8)],
) -> Result<Vec<u8>, AllocError> {
    let mut bytes = bytes.to_vec(alloc)?;
    for &(at, byte) in changes {
        if at < bytes.len() {
            bytes[at] = byte;
        }
    }
    Ok(bytes)
}

// The first 96 bytes of a package file, which name it `a-1-2`.
pub const LEAD: &str = "edabeedb 03000000 0001612d 312d3200 00000000 00000000 00000000 00000000
    00000000 00000000 00000000 00000000 00000000 00000000 00000000 00000000
    00000000 00000000 00000000 00010005 00000000 00000000 00000000 00000000";

// A signature header with SIGSIZE 88, between two magics, and its padding.
pub const SIGNATURE: &str = "8eade801 00000000 00000001 00000004
    000003e8 00000004 00000000 00000001 00000058 00000000 8eade801 00000000";

/// A package file of 224 bytes, and a byte of payload.
pub const PACKAGE: &[&str] = &[LEAD, SIGNATURE, PLAIN, "07"];

/// The most bytes that a read takes: whole pieces, and one byte at a time.
pub const PIECES: &[u32] = &[u32::MAX, 1];

/// A shelf on which these bytes are open, of which a read takes no more than so many.
pub fn opened(alloc: Global, bytes: &[u8], most: u32) -> Result<MemShelf, AllocError> {
    let mut shelf = MemShelf::new(alloc);
    shelf.put("a", bytes)?;
    if most > 0 {
        shelf.at_most(most);
    }
    let _ = shelf.open("a");
    Ok(shelf)
}
