//! The database: what changes answer and leave.

use crate::db_tests::{Tally, named, seven};
use crate::fixtures::{Draft, NEWER, PLAIN, change, one_package};
use crate::index_tests::sealed_file;
use crate::plain_disk::PlainDisk;
use rpm_db::{ChangeFault, Db, HeaderFault};
use rpm_outside::{Disk, File, MemDisk};
use std::alloc::{AllocError, Global};

// Adds a header. None where the database isn't opened, or blank.
fn add<D: Disk>(alloc: Global, disk: &mut D, blob: &[u8]) -> Option<Result<u32, ChangeFault>> {
    let Ok(mut db) = Db::open(alloc, disk) else {
        return None;
    };
    if !db.is_indexed() {
        return None;
    }
    Some(db.add(alloc, disk, blob))
}

/// Puts a header in place of a number. None where the database isn't opened, or blank.
pub fn put<D: Disk>(
    alloc: Global,
    disk: &mut D,
    n: u32,
    blob: &[u8],
) -> Option<Result<(), ChangeFault>> {
    let Ok(mut db) = Db::open(alloc, disk) else {
        return None;
    };
    if !db.is_indexed() {
        return None;
    }
    Some(db.put(alloc, disk, n, blob))
}

fn erase<D: Disk>(alloc: Global, disk: &mut D, n: u32) -> Option<Result<(), ChangeFault>> {
    let Ok(mut db) = Db::open(alloc, disk) else {
        return None;
    };
    if !db.is_indexed() {
        return None;
    }
    Some(db.erase(alloc, disk, n))
}

// One change of a database.
#[derive(Clone, Copy)]
enum Step {
    Add(&'static [u8]),
    Put(u32, &'static [u8]),
    Erase(u32),
}

// Changes the database of this disk, and answers the number that was changed.
fn apply(alloc: Global, disk: &mut PlainDisk, step: Step) -> Option<Result<u32, ChangeFault>> {
    match step {
        Step::Add(blob) => add(alloc, disk, blob),
        Step::Put(n, blob) => Some(put(alloc, disk, n, blob)?.map(|_| n)),
        Step::Erase(n) => Some(erase(alloc, disk, n)?.map(|_| n)),
    }
}

#[test]
fn rows_that_both_headers_have_stay(rt: HostRuntime) -> Result<(), AllocError> {
    let alloc = rt.alloc();
    let mut sealed = sealed_file(alloc, 320)?;
    let mut disk = MemDisk::new(alloc, &one_package(alloc)?, &sealed, &[])?;
    let put = put(alloc, &mut disk, 1, &NEWER);
    // the first two units, which opening reads
    let read = disk.bytes_read(File::Idx);
    change(&mut sealed, 8, &[3]);
    let is_same = disk.copy_file(alloc, File::Idx)? == sealed;
    assert_eq!(rt; (put, read, is_same), (Some(Ok(())), 32, true));
    Ok(())
}

const BAD: ChangeFault = ChangeFault::BadHeader(HeaderFault::TooManyEntries);

const TEXT: &[u8] = b"no header";

// The place of a number that is the last one, a change of the seven packages, what it answers, and the tally of the
// name `a` then.
const STEPS: &[(Option<usize>, Step, Result<u32, ChangeFault>, Tally)] = &[
    (None, Step::Add(&PLAIN), Ok(8), (6, 29, 0)),
    (None, Step::Add(TEXT), Err(BAD), (5, 21, 0)),
    // the rows of the old header go
    (None, Step::Put(1, &PLAIN), Ok(1), (5, 21, 0)),
    // over a Bad one
    (None, Step::Put(3, &PLAIN), Ok(3), (6, 24, 0)),
    (
        None,
        Step::Put(9, &PLAIN),
        Err(ChangeFault::NoSuch),
        (5, 21, 0),
    ),
    (None, Step::Put(9, TEXT), Err(BAD), (5, 21, 0)),
    (None, Step::Erase(1), Ok(1), (4, 20, 0)),
    // a Bad one has no rows
    (None, Step::Erase(4), Ok(4), (5, 21, 0)),
    (None, Step::Erase(9), Err(ChangeFault::NoSuch), (5, 21, 0)),
    (
        Some(16),
        Step::Add(&PLAIN),
        Err(ChangeFault::NumbersSpent),
        (5, 21, 0),
    ),
    (
        Some(8),
        Step::Add(&PLAIN),
        Err(ChangeFault::GenerationSpent),
        (5, 21, 0),
    ),
    (
        Some(8),
        Step::Put(1, &PLAIN),
        Err(ChangeFault::GenerationSpent),
        (5, 21, 0),
    ),
    (
        Some(8),
        Step::Erase(1),
        Err(ChangeFault::GenerationSpent),
        (5, 21, 0),
    ),
];

// The first step that answers or leaves otherwise.
fn other_step(alloc: Global) -> Result<Option<usize>, AllocError> {
    for (row, &(spent, step, answer, found)) in STEPS.iter().enumerate() {
        let mut disk = PlainDisk::new(alloc, seven(alloc)?);
        if let Some(at) = spent {
            change(&mut disk.pkg, at, &[0xff; 4]);
        }
        let answered = apply(alloc, &mut disk, step);
        if answered != Some(answer) || named(alloc, &mut disk) != Some(found) {
            return Ok(Some(row));
        }
    }
    Ok(None)
}

#[test]
fn changes_answer_by_the_first_cause(rt: HostRuntime) -> Result<(), AllocError> {
    let other = other_step(rt.alloc())?;
    assert_eq!(rt; other, None);
    Ok(())
}

// A store in a file as long as one can be, in which number 1 has all blocks but the last six, and cannot be read.
fn almost_full(alloc: Global) -> Result<PlainDisk, AllocError> {
    let mut file = Draft::new(alloc, 1, 1).finish(alloc, 2)?;
    change(
        &mut file,
        36,
        &[1, 0, 0, 0, 0, 1, 0, 0, 0xfa, 0xfe, 0xff, 0x0f],
    );
    let mut disk = PlainDisk::new(alloc, file);
    disk.long = Some(File::Pkg);
    Ok(disk)
}

#[test]
fn a_store_without_room_is_full(rt: HostRuntime) -> Result<(), AllocError> {
    let mut disk = almost_full(rt.alloc())?;
    let added = add(rt.alloc(), &mut disk, &PLAIN);
    let put = put(rt.alloc(), &mut disk, 1, &PLAIN);
    let full = ChangeFault::StoreFull;
    assert_eq!(rt; (added, put), (Some(Err(full)), Some(Err(full))));
    Ok(())
}
