//! The package store: what changes take, and where there is no room for one.

use crate::fixtures::{Draft, PLAIN, change, one_package};
use crate::plain_disk::PlainDisk;
use rpm_outside::{Disk, File, MemDisk};
use rpm_pkgdb::{PkgDb, PlanFault};
use std::alloc::{AllocError, Global};

/// Makes a store in a blank file.
pub fn make<D: Disk>(alloc: Global, disk: &mut D) -> bool {
    match PkgDb::open(alloc, disk) {
        Ok(mut db) => db.is_blank() && db.make(disk).is_ok(),
        Err(_) => false,
    }
}

/// Raises the generation of a store that is made.
pub fn raise<D: Disk>(alloc: Global, disk: &mut D) -> bool {
    match PkgDb::open(alloc, disk) {
        Ok(mut db) => !db.is_blank() && db.generation() < u32::MAX && db.raise(disk).is_ok(),
        Err(_) => false,
    }
}

/// Erases a number that is there.
pub fn erase<D: Disk>(alloc: Global, disk: &mut D, n: u32) -> bool {
    match PkgDb::open(alloc, disk) {
        Ok(mut db) => db.holds(n) && db.erase(disk, n).is_ok(),
        Err(_) => false,
    }
}

/// Puts a blob under a number that is there, or under a new one, and answers the number. None where that doesn't go
/// otherwise.
pub fn put<D: Disk>(
    alloc: Global,
    disk: &mut D,
    n: Option<u32>,
    blob: &[u8],
) -> Option<Result<u32, PlanFault>> {
    let mut db = PkgDb::open(alloc, disk).ok()?;
    if db.is_blank() || blob.len() > 5000 {
        return None;
    }
    if let Some(m) = n
        && !db.holds(m)
    {
        return None;
    }
    match db.plan(alloc, n, blob.len() as u32) {
        Ok(plan) => Some(Ok(db.put(disk, plan, blob).ok()?)),
        Err(fault) => Some(Err(fault)),
    }
}

// Raises the generation, and puts a blob under a new number.
fn add<D: Disk>(alloc: Global, disk: &mut D, blob: &[u8]) -> bool {
    raise(alloc, disk) && put(alloc, disk, None, blob).is_some_and(|number| number.is_ok())
}

// A store that was made, to which the header was added so many times.
fn filled(alloc: Global, count: u32) -> Result<MemDisk, AllocError> {
    let mut disk = MemDisk::new(alloc, &[], &[], &[])?;
    let mut goes = make(alloc, &mut disk);
    for _ in 0..count {
        goes = goes && add(alloc, &mut disk, &PLAIN);
    }
    if goes { Ok(disk) } else { Err(AllocError) }
}

// Whether the checksum of a number's blob is right. None where there is no telling.
fn sum_holds(alloc: Global, disk: &mut MemDisk, n: u32) -> Option<bool> {
    let db = PkgDb::open(alloc, disk).ok()?;
    db.checksum_holds(alloc, disk, n).ok()
}

#[test]
fn a_package_is_put_and_erased(rt: HostRuntime) -> Result<(), AllocError> {
    let alloc = rt.alloc();
    let mut disk = filled(alloc, 1)?;
    // no write and no sync more than the orders have
    let moments = disk.now();
    let added = disk.copy_file(alloc, File::Pkg)?;
    let holds = sum_holds(alloc, &mut disk, 1);
    let goes = erase(alloc, &mut disk, 1);
    let erased = disk.copy_file(alloc, File::Pkg)?;
    let one = one_package(alloc)?;
    let mut none = one_package(alloc)?;
    change(&mut none, 36, &[0; 9]);
    change(&mut none, 4096, &[0; 112]);
    let is_right = holds == Some(true) && added == one && erased == none;
    assert!(rt; goes && moments == 14 && is_right);
    Ok(())
}

/// A store of generation 2 whose slots all have the header, one after the other, and so many free blocks after the
/// first.
pub fn full_pages(alloc: Global, pages: u32, gap: u32) -> Result<MemDisk, AllocError> {
    let mut draft = Draft::new(alloc, pages, 2);
    let next = pages.saturating_mul(256).saturating_sub(1);
    for number in 1..next {
        draft.push(number, &PLAIN, 0)?;
        if number == 1 {
            draft.push_gap(gap)?;
        }
    }
    MemDisk::new(alloc, &draft.finish(alloc, next)?, &[], &[])
}

static BYTES: [u8; 85] = [0x5a; 85];

// What putting bytes answers where the file ends at the greatest block and the numbers 2 and 1 have all blocks but
// the last seven, with this next number; and the unit after the last one that is written.
fn put_at_the_end(
    alloc: Global,
    next: u32,
    n: Option<u32>,
    length: usize,
) -> Result<(Option<Result<u32, PlanFault>>, u64), AllocError> {
    let mut file = Draft::new(alloc, 1, 2).finish(alloc, next)?;
    change(
        &mut file,
        36,
        &[2, 0, 0, 0, 0, 1, 0, 0, 0xf2, 0xfe, 0xff, 0x0f],
    );
    change(&mut file, 52, &[1, 0, 0, 0, 0xf2, 0xff, 0xff, 0x0f, 7]);
    let mut disk = PlainDisk::new(alloc, file);
    disk.long = Some(File::Pkg);
    let number = put(alloc, &mut disk, n, &BYTES[..length.min(85)]);
    Ok((number, disk.end))
}

// The next number, the number that is asked for and the length of a blob; what putting it answers, and the unit after
// it.
const ENDS: &[(u32, Option<u32>, usize, Result<u32, PlanFault>, u64)] = &[
    (3, None, 84, Ok(3), 268_435_456),
    (3, None, 85, Err(PlanFault::StoreFull), 0),
    (3, Some(1), 84, Ok(1), 268_435_456),
    (3, Some(1), 85, Err(PlanFault::StoreFull), 0),
    (u32::MAX, None, 80, Err(PlanFault::NumbersSpent), 0),
];

fn other_end(alloc: Global) -> Result<Option<(u32, usize)>, AllocError> {
    for &(next, n, length, number, end) in ENDS {
        if put_at_the_end(alloc, next, n, length)? != (Some(number), end) {
            return Ok(Some((next, length)));
        }
    }
    Ok(None)
}

#[test]
fn numbers_and_blocks_are_spent(rt: HostRuntime) -> Result<(), AllocError> {
    let other = other_end(rt.alloc())?;
    assert_eq!(rt; other, None);
    Ok(())
}
