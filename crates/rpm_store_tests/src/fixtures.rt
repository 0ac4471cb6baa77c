//! What the tests begin with: headers, stores of them, and what is looked at in a file.

use std::alloc::{AllocError, Global};

pub const INT32: u32 = 4;

pub const TEXT: u32 = 6;

pub const TEXTS: u32 = 8;

pub const I18N: u32 = 9;

/// An entry of a header: its tag, its type, how many elements it has, and these.
pub type Entry<'a> = (u32, u32, u32, &'a [u8]);

/// The header of a package `a-1-2.x`.
pub const PLAIN: [u8; 80] = [
    0, 0, 0, 4, 0, 0, 0, 8, //
    0, 0, 3, 0xe8, 0, 0, 0, 6, 0, 0, 0, 0, 0, 0, 0, 1, //
    0, 0, 3, 0xe9, 0, 0, 0, 6, 0, 0, 0, 2, 0, 0, 0, 1, //
    0, 0, 3, 0xea, 0, 0, 0, 6, 0, 0, 0, 4, 0, 0, 0, 1, //
    0, 0, 3, 0xfe, 0, 0, 0, 6, 0, 0, 0, 6, 0, 0, 0, 1, //
    0x61, 0, 0x31, 0, 0x32, 0, 0x78, 0,
];

/// The checksum of that header's blob, where it is number 1 of generation 2.
pub const PLAIN_SUM: u32 = 0x70d1_06ec;

/// The same package with the version 3.
pub const NEWER: [u8; 80] = [
    0, 0, 0, 4, 0, 0, 0, 8, //
    0, 0, 3, 0xe8, 0, 0, 0, 6, 0, 0, 0, 0, 0, 0, 0, 1, //
    0, 0, 3, 0xe9, 0, 0, 0, 6, 0, 0, 0, 2, 0, 0, 0, 1, //
    0, 0, 3, 0xea, 0, 0, 0, 6, 0, 0, 0, 4, 0, 0, 0, 1, //
    0, 0, 3, 0xfe, 0, 0, 0, 6, 0, 0, 0, 6, 0, 0, 0, 1, //
    0x61, 0, 0x33, 0, 0x32, 0, 0x78, 0,
];

// The bits of an offset that are zeros where a type's elements stand.
fn unaligned_bits(kind: u32) -> usize {
    match kind {
        INT32 => 3,
        _ => 0,
    }
}

// Adds an entry to the index of a header, and its elements to the data at the least aligned offset.
fn push_entry(
    index: &mut Vec<u8>,
    data: &mut Vec<u8>,
    entry: &Entry<'_>,
) -> Result<(), AllocError> {
    let (tag, kind, count, elements) = entry;
    for _ in 0..3 {
        if data.len() & unaligned_bits(*kind) != 0 {
            data.push(0)?;
        }
    }
    let offset = (data.len() & 0xffff) as u32;
    for number in [*tag, *kind, offset, *count] {
        index.extend_from_slice(&number.to_be_bytes())?;
    }
    data.extend_from_slice(elements)
}

/// A header of these entries.
pub fn header(alloc: Global, entries: &[Entry<'_>]) -> Result<Vec<u8>, AllocError> {
    let mut blob = Vec::from_slice(alloc, &[0u8; 8])?;
    let mut data = Vec::new(alloc);
    for entry in entries {
        push_entry(&mut blob, &mut data, entry)?;
    }
    let counts = [
        (entries.len() & 0xffff) as u16,
        (data.len() & 0xffff) as u16,
    ];
    change(&mut blob, 2, &counts[0].to_be_bytes());
    change(&mut blob, 6, &counts[1].to_be_bytes());
    blob.extend_from_slice(&data)?;
    Ok(blob)
}

/// The header of the package `pkgI-1.K-1.noarch`, K being the last digit of I. It gives one of seven capabilities and
/// needs the next, and has one of eleven texts elsewhere.
pub fn generated(alloc: Global, i: u32) -> Result<Vec<u8>, AllocError> {
    let name = format!(in alloc; "pkg{i}\0")?;
    let version = format!(in alloc; "1.{}\0", i % 10)?;
    let provides = format!(in alloc; "pkg{i}\0cap{}\0", i % 7)?;
    let needs = format!(in alloc; "cap{}\0", i.wrapping_add(1) % 7)?;
    let other = format!(in alloc; "cap{}\0", i % 11)?;
    let file = format!(in alloc; "f{i}\0")?;
    header(
        alloc,
        &[
            (1000, TEXT, 1, name.as_bytes()),
            (1001, TEXT, 1, version.as_bytes()),
            (1002, TEXT, 1, b"1\0"),
            (1022, TEXT, 1, b"noarch\0"),
            (1016, I18N, 1, other.as_bytes()),
            (1047, TEXTS, 2, provides.as_bytes()),
            (1049, TEXTS, 1, needs.as_bytes()),
            (1054, TEXTS, 1, other.as_bytes()),
            (1090, TEXTS, 1, other.as_bytes()),
            (1066, TEXTS, 1, other.as_bytes()),
            (5046, TEXTS, 1, other.as_bytes()),
            (1128, INT32, 1, &(i % 11).to_be_bytes()),
            (1117, TEXTS, 1, file.as_bytes()),
            (1116, INT32, 1, b"\0\0\0\0"),
            (1118, TEXTS, 1, b"/opt/\0"),
        ],
    )
}

/// Adds a unit of four bytes and three numbers.
pub fn push_unit(
    bytes: &mut Vec<u8>,
    front: &[u8; 4],
    numbers: [u32; 3],
) -> Result<(), AllocError> {
    bytes.extend_from_slice(front)?;
    for number in numbers {
        bytes.extend_from_slice(&number.to_le_bytes())?;
    }
    Ok(())
}

/// A `Packages.db` in the making: its slots, and its blobs in the same order.
#[derive(Drop)]
pub struct Draft {
    pages: u32,
    generation: u32,
    slots: Vec<u8>,
    blobs: Vec<u8>,
}

impl Draft {
    /// A store of so many pages, in which nothing is yet.
    pub fn new(alloc: Global, pages: u32, generation: u32) -> Draft {
        Draft {
            pages,
            generation,
            slots: Vec::new(alloc),
            blobs: Vec::new(alloc),
        }
    }

    /// Adds the blocks of a blob, with this checksum.
    pub fn push_blob(&mut self, number: u32, blob: &[u8], sum: u32) -> Result<(), AllocError> {
        let length = (blob.len() & 0xffff) as u32;
        push_unit(&mut self.blobs, b"BlbS", [number, self.generation, length])?;
        self.blobs.extend_from_slice(blob)?;
        for _ in 0..15 {
            if self.blobs.len() % 16 != 4 {
                self.blobs.push(0)?;
            }
        }
        self.blobs.extend_from_slice(&sum.to_le_bytes())?;
        self.blobs.extend_from_slice(&length.to_le_bytes())?;
        self.blobs.extend_from_slice(b"BlbE")
    }

    /// The first block after the pages and the blobs.
    fn end(&self) -> u32 {
        let blocks = (self.blobs.len() / 16 & 0xff_ffff) as u32;
        self.pages.saturating_mul(256).saturating_add(blocks)
    }

    /// Adds a package: its slot and its blob.
    pub fn push(&mut self, number: u32, blob: &[u8], sum: u32) -> Result<(), AllocError> {
        let start = self.end();
        self.push_blob(number, blob, sum)?;
        let count = self.end().saturating_sub(start);
        push_unit(&mut self.slots, b"Slot", [number, start, count])
    }

    /// Adds so many blocks that nobody has.
    pub fn push_gap(&mut self, blocks: u32) -> Result<(), AllocError> {
        for _ in 0..blocks {
            self.blobs.extend_from_slice(&[0; 16])?;
        }
        Ok(())
    }

    /// The file, whose other slots are free.
    pub fn finish(&self, alloc: Global, next: u32) -> Result<Vec<u8>, AllocError> {
        let mut file = Vec::new(alloc);
        push_unit(&mut file, b"RpmP", [0, self.generation, self.pages])?;
        push_unit(&mut file, &next.to_le_bytes(), [0; 3])?;
        file.extend_from_slice(&self.slots)?;
        let end = self.pages.saturating_mul(4096) as usize;
        for _ in 0..self.pages.saturating_mul(256) {
            if file.len() < end {
                push_unit(&mut file, b"Slot", [0; 3])?;
            }
        }
        file.extend_from_slice(&self.blobs)?;
        Ok(file)
    }
}

/// A store of one page and generation 2 with the plain header as number 1.
pub fn one_package(alloc: Global) -> Result<Vec<u8>, AllocError> {
    let mut draft = Draft::new(alloc, 1, 2);
    draft.push(1, &PLAIN, PLAIN_SUM)?;
    draft.finish(alloc, 2)
}

/// Writes bytes at a place, as far as the file goes.
pub fn change(file: &mut [u8], at: usize, bytes: &[u8]) {
    for (k, byte) in bytes.iter().enumerate() {
        let place = at.saturating_add(k);
        if place < file.len() {
            file[place] = *byte;
        }
    }
}

/// Whether a file has these units, each of which has one byte all over.
pub fn is_units(file: &[u8], units: &[u8]) -> bool {
    if file.len() % 16 != 0 || file.len() / 16 != units.len() {
        return false;
    }
    for (k, byte) in file.iter().enumerate() {
        if units.get(k / 16) != Some(byte) {
            return false;
        }
    }
    true
}
