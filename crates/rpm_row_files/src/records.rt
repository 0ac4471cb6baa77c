//! The records of an index, read from its bytes as docs/FORMATS.md has them.

use crate::fault::Fault;
use std::alloc::{AllocError, Global};

const KINDS: &[(&[u8], u32)] = &[
    (b"name", 1),
    (b"basenames", 2),
    (b"group", 3),
    (b"providename", 4),
    (b"requirename", 5),
    (b"conflictname", 6),
    (b"obsoletename", 7),
    (b"triggername", 8),
    (b"dirnames", 9),
    (b"installtid", 10),
    (b"recommendname", 11),
];

/// The number of a kind.
pub fn kind_of(word: &[u8]) -> Result<u32, Fault> {
    for &(text, kind) in KINDS {
        if text == word {
            return Ok(kind);
        }
    }
    Err(Fault::UnknownWord)
}

/// A record: a key of a kind that a package has at a place.
#[derive(PartialEq, Eq, PartialOrd, Ord, Drop)]
pub struct Record {
    /// The number of the package.
    pub number: u32,
    pub kind: u32,
    pub key: Vec<u8>,
    pub place: u32,
}

/// Four bytes of a unit as a number, the lowest first. Past the end there are none.
fn number_at(index: &[u8], unit: u32, field: usize) -> Option<u32> {
    let at = 16 * unit as usize + 4 * field.min(3);
    let (bytes, _) = index.get(at..)?.split_first_chunk::<4>()?;
    Some(u32::from_le_bytes(*bytes))
}

/// The bytes of the key whose record begins at a unit.
fn key_at(index: &[u8], unit: u32, word: u32) -> Option<&[u8]> {
    let behind = 16 * (unit as usize + 1);
    let length = (word & 0x0fff_ffff) as usize;
    index.get(behind..)?.get(..length)
}

/// The first unit of a record.
#[derive(Clone, Copy)]
struct Head {
    next: u32,
    word: u32,
    number: u32,
    place: u32,
}

/// The first unit of the record that begins there.
fn head_at(index: &[u8], unit: u32) -> Option<Head> {
    Some(Head {
        next: number_at(index, unit, 0)?,
        word: number_at(index, unit, 1)?,
        number: number_at(index, unit, 2)?,
        place: number_at(index, unit, 3)?,
    })
}

/// The record of a head and a key.
fn record_of(alloc: Global, head: Head, key: &[u8]) -> Result<Record, AllocError> {
    Ok(Record {
        number: head.number,
        kind: head.word >> 28,
        key: key.to_vec(alloc)?,
        place: head.place,
    })
}

/// Adds the record that begins at a unit, and gives the unit of the next one in its chain. None where the record is
/// cut off.
fn push_record(
    alloc: Global,
    index: &[u8],
    unit: u32,
    records: &mut Vec<Record>,
) -> Result<Option<u32>, AllocError> {
    let Some(head) = head_at(index, unit) else {
        return Ok(None);
    };
    let Some(key) = key_at(index, unit, head.word) else {
        return Ok(None);
    };
    let record = record_of(alloc, head, key)?;
    records.push(record)?;
    Ok(Some(head.next))
}

/// Adds the records of a chain, up to so many in all. Whether the chain is well formed, and there was room for them.
fn push_chain(
    alloc: Global,
    index: &[u8],
    first: u32,
    most: u32,
    records: &mut Vec<Record>,
) -> Result<bool, AllocError> {
    let mut unit = first;
    for _ in 0..=most {
        if unit == 0 {
            return Ok(true);
        }
        if records.len() >= most as usize {
            return Ok(false);
        }
        match push_record(alloc, index, unit, records)? {
            Some(next) => unit = next,
            None => return Ok(false),
        }
    }
    Ok(false)
}

/// All records of an index, in an order that is the same for two indexes with the same records, each as often. None
/// where a chain is malformed, or the counts of units and records aren't those of the chains. An index without bytes
/// has no records.
pub fn records_of(alloc: Global, index: &[u8]) -> Result<Option<Vec<Record>>, AllocError> {
    let mut records = Vec::new(alloc);
    let buckets = number_at(index, 0, 3).unwrap_or(0);
    let count = number_at(index, 1, 1).unwrap_or(0);
    for bucket in 0..buckets {
        let field = (bucket % 4) as usize;
        let Some(first) = number_at(index, 2 + bucket / 4, field) else {
            return Ok(None);
        };
        if !push_chain(alloc, index, first, count, &mut records)? {
            return Ok(None);
        }
    }
    if records.len() as u64 != u64::from(count) {
        return Ok(None);
    }
    records.sort_unstable();
    Ok(Some(records))
}
