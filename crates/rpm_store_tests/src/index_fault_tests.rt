//! The index: what is wrong with one.

use crate::fixtures::change;
use crate::index_tests::{count, rows_of, sealed_file};
use crate::plain_disk::PlainDisk;
use rpm_hindex::{FindFault, Hindex, PrepareFault, Rows};
use std::alloc::{AllocError, Global};

// The units that change where the keys `az` and `ef` stand in front of `a` in the chain of bucket 23.
const CHAINED: &[(usize, [u8; 16])] = &[
    (16, [24, 0, 0, 0, 3, 0, 0, 0, 6, 0, 0, 0, 0, 0, 0, 0]),
    (112, [0, 0, 0, 0, 0, 0, 0, 0, 0, 0, 0, 0, 22, 0, 0, 0]),
    (320, [18, 0, 0, 0, 2, 0, 0, 0x10, 1, 0, 0, 0, 0, 0, 0, 0]),
    (336, [0x61, 0x7a, 0, 0, 0, 0, 0, 0, 0, 0, 0, 0, 0, 0, 0, 0]),
    (352, [20, 0, 0, 0, 2, 0, 0, 0x10, 1, 0, 0, 0, 0, 0, 0, 0]),
    (368, [0x65, 0x66, 0, 0, 0, 0, 0, 0, 0, 0, 0, 0, 0, 0, 0, 0]),
];

// That index with one byte changed.
fn damaged(alloc: Global, at: usize, byte: u8) -> Result<PlainDisk, AllocError> {
    let mut file = sealed_file(alloc, 384)?;
    for (place, unit) in CHAINED {
        change(&mut file, *place, unit);
    }
    change(&mut file, at, &[byte]);
    Ok(PlainDisk::with_index(Vec::new(alloc), file))
}

// What is told to one who drops these rows and adds those. None where the index isn't sealed at 2.
#[tactic(auto, using(crate::proofs::Sealed::current_in_order))]
fn drop_fault(
    alloc: Global,
    disk: &mut PlainDisk,
    drops: &Rows,
    adds: &Rows,
) -> Option<Option<PrepareFault>> {
    let index = Hindex::open(disk).ok()?;
    if !index.is_current(2) {
        return None;
    }
    Some(index.prepare(alloc, disk, drops, adds).err())
}

// What is told to one who drops a key. None where the index isn't sealed at 2.
fn key_fault(
    alloc: Global,
    disk: &mut PlainDisk,
    key: &[u8],
) -> Result<Option<Option<PrepareFault>>, AllocError> {
    let row = rows_of(alloc, &[key])?;
    Ok(drop_fault(alloc, disk, &row, &Rows::new(alloc)))
}

// A byte to change, the unit of the fault that a chain has then for one who looks for `a` or drops it, and whether it
// is met by one who drops `ef`, the first record.
const FAULTS: &[(usize, u8, u64, bool)] = &[
    // the bucket's word names a unit before the records, or after them
    (124, 17, 7, true),
    (124, 24, 7, true),
    // in the middle of the chain: a next that isn't below, one before the records, one amid a record
    (320, 20, 20, false),
    (320, 17, 20, false),
    (320, 19, 19, false),
    // a record past the last one, and a key of another bucket
    (324, 64, 20, false),
    (336, 0x62, 20, false),
    // at the end of the chain
    (288, 18, 18, false),
    (304, 0x62, 18, false),
];

// The first byte that is told otherwise.
fn other_fault(alloc: Global) -> Result<Option<(usize, u8)>, AllocError> {
    for &(at, byte, unit, is_met) in FAULTS {
        let mut disk = damaged(alloc, at, byte)?;
        let found = count(alloc, &mut disk, 2, b"a");
        let dropped = key_fault(alloc, &mut disk, b"a")?;
        let passed = key_fault(alloc, &mut disk, b"ef")?;
        let fault = Some(PrepareFault::BadIndex { unit });
        let front = if is_met { fault } else { None };
        if found != Err(Some(FindFault::BadIndex { unit }))
            || dropped != Some(fault)
            || passed != Some(front)
        {
            return Ok(Some((at, byte)));
        }
    }
    Ok(None)
}

// A byte of unit 1 to change, and what is told then to one who drops three records: as it was, fewer records, and
// fewer units.
const COUNTS: &[(usize, u8, Option<PrepareFault>)] = &[
    (20, 3, None),
    (20, 2, Some(PrepareFault::BadIndex { unit: 1 })),
    (24, 3, Some(PrepareFault::BadIndex { unit: 1 })),
];

// The first byte that is told otherwise.
fn other_count(alloc: Global) -> Result<Option<(usize, u8)>, AllocError> {
    let drops = rows_of(alloc, &[b"a", b"az", b"ef"])?;
    let adds = Rows::new(alloc);
    for &(at, byte, wanted) in COUNTS {
        let mut disk = damaged(alloc, at, byte)?;
        if drop_fault(alloc, &mut disk, &drops, &adds) != Some(wanted) {
            return Ok(Some((at, byte)));
        }
    }
    Ok(None)
}

#[test]
fn a_fault_is_told_with_its_unit(rt: HostRuntime) -> Result<(), AllocError> {
    let fault = other_fault(rt.alloc())?;
    let count = other_count(rt.alloc())?;
    assert_eq!(rt; (fault, count), (None, None));
    Ok(())
}
