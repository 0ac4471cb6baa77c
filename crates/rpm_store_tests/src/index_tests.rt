//! The index: its bytes, and what is found in it.

use crate::fixtures::change;
use rpm_hindex::{FindFault, Hindex, Hits, Rows, index_units};
use rpm_outside::{Disk, File, MemDisk};
use std::alloc::{AllocError, Global};

// The index of one package with the one key `a` of kind 1, sealed at 2: its units that aren't zeros, each with its
// place.
const SEALED: &[(usize, [u8; 16])] = &[
    (
        0,
        [
            0x52, 0x70, 0x6d, 0x48, 2, 0, 0, 0, 2, 0, 0, 0, 0x40, 0, 0, 0,
        ],
    ),
    (16, [0x14, 0, 0, 0, 1, 0, 0, 0, 2, 0, 0, 0, 0, 0, 0, 0]),
    (112, [0, 0, 0, 0, 0, 0, 0, 0, 0, 0, 0, 0, 0x12, 0, 0, 0]),
    (288, [0, 0, 0, 0, 1, 0, 0, 0x10, 1, 0, 0, 0, 0, 0, 0, 0]),
    (304, [0x61, 0, 0, 0, 0, 0, 0, 0, 0, 0, 0, 0, 0, 0, 0, 0]),
];

/// That index, in a file of so many bytes.
pub fn sealed_file(alloc: Global, size: usize) -> Result<Vec<u8>, AllocError> {
    let mut file = vec![in alloc; 0u8; size]?;
    for (at, unit) in SEALED {
        change(&mut file, *at, unit);
    }
    Ok(file)
}

/// Writes the index of these rows, and seals it.
pub fn rewrite<D: Disk>(alloc: Global, disk: &mut D, rows: &Rows, generation: u32) -> bool {
    let Ok(mut index) = Hindex::open(disk) else {
        return false;
    };
    index.rewrite(alloc, disk, rows).is_ok()
        && index.pending > 0
        && index.seal(disk, generation).is_ok()
}

/// Changes an index that is sealed at the generation before, and seals it.
#[tactic(auto, using(crate::proofs::Sealed::current_in_order))]
pub fn change_rows<D: Disk>(
    alloc: Global,
    disk: &mut D,
    drops: &Rows,
    adds: &Rows,
    generation: u32,
) -> bool {
    let Ok(mut index) = Hindex::open(disk) else {
        return false;
    };
    if !index.is_current(generation.wrapping_sub(1)) {
        return false;
    }
    match index.prepare(alloc, disk, drops, adds) {
        Ok(plan) => {
            index.apply(disk, plan).is_ok()
                && index.pending > 0
                && index.seal(disk, generation).is_ok()
        }
        Err(_) => false,
    }
}

// How many hits there are, those at one place alone where one is named.
fn hit_count(hits: &Hits, place: Option<u32>) -> usize {
    let mut count = 0usize;
    for i in 0..hits.len() {
        if place.is_none() || place == Some(hits.at(i).place) {
            count = count.saturating_add(1);
        }
    }
    count
}

/// How often a key is found, at one place alone where one is named. `Err(None)` where the index isn't sealed at this
/// generation.
#[tactic(auto, using(crate::proofs::Sealed::current_in_order))]
pub fn find<D: Disk>(
    alloc: Global,
    disk: &mut D,
    generation: u32,
    (kind, key): (u8, &[u8]),
    place: Option<u32>,
) -> Result<usize, Option<FindFault>> {
    let Ok(index) = Hindex::open(disk) else {
        return Err(None);
    };
    if !index.is_current(generation) {
        return Err(None);
    }
    match index.find(alloc, disk, kind, key) {
        Ok(hits) => Ok(hit_count(&hits, place)),
        Err(fault) => Err(Some(fault)),
    }
}

/// How often a key of kind 1 is found.
pub fn count<D: Disk>(
    alloc: Global,
    disk: &mut D,
    generation: u32,
    key: &[u8],
) -> Result<usize, Option<FindFault>> {
    find(alloc, disk, generation, (1, key), None)
}

/// A row of each of these keys, which are of kind 1.
pub fn rows_of(alloc: Global, keys: &[&[u8]]) -> Result<Rows, AllocError> {
    let mut rows = Rows::with_room(alloc, keys.len(), 100)?;
    for key in keys {
        if key.len() < 100 {
            rows.push(1, key, 1, 0)?;
        }
    }
    Ok(rows)
}

// Keys, and how often the row of each is there before a change, is dropped and added by it, and is there then. The
// last three share a bucket.
const KEYS: &[(&[u8], [usize; 4])] = &[
    (b"", [1, 0, 1, 2]),
    (b"sixteen bytes go", [1, 1, 0, 0]),
    (b"seventeen bytes g", [0, 1, 1, 1]),
    (b"a", [2, 1, 0, 1]),
    (b"az", [1, 1, 1, 1]),
    (b"ef", [1, 0, 0, 1]),
];

// Adds the row of a key of kind 1 so often.
fn push_times(rows: &mut Rows, key: &[u8], times: usize) -> Result<(), AllocError> {
    if key.len() < 100 {
        for _ in 0..times {
            rows.add(1, key, 3, 4)?;
        }
    }
    Ok(())
}

// The rows of one of these columns.
fn column(alloc: Global, at: usize) -> Result<Rows, AllocError> {
    let mut rows = Rows::new(alloc);
    for (key, times) in KEYS {
        push_times(&mut rows, key, *times.get(at).unwrap_or(&0))?;
    }
    Ok(rows)
}

// The first key that is found otherwise than as often as a column says.
fn other_key(alloc: Global, disk: &mut MemDisk, generation: u32, at: usize) -> Option<usize> {
    for (row, (key, times)) in KEYS.iter().enumerate() {
        if count(alloc, disk, generation, key).ok() != times.get(at).copied() {
            return Some(row);
        }
    }
    None
}

#[test]
fn a_row_is_there_as_often_as_it_was_put(rt: HostRuntime) -> Result<(), AllocError> {
    let alloc = rt.alloc();
    let mut disk = MemDisk::new(alloc, &[], &[], &[])?;
    let made = rewrite(alloc, &mut disk, &column(alloc, 0)?, 1);
    let first = other_key(alloc, &mut disk, 1, 0);
    let changed = change_rows(alloc, &mut disk, &column(alloc, 1)?, &column(alloc, 2)?, 2);
    let second = other_key(alloc, &mut disk, 2, 3);
    let sizes = (
        index_units(0, 0),
        index_units(128, 256),
        index_units(129, 258),
    );
    assert_eq!(rt;
        (made, first, changed, second, sizes),
        (true, None, true, None, (18, 274, 292))
    );
    Ok(())
}
