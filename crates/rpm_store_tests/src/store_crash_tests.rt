//! The package store: what each stop and each failing call of a change leaves.

use crate::fixtures::{PLAIN, one_package};
use crate::store_change_tests::{erase, full_pages, make, put, raise};
use rpm_outside::{File, MemDisk, Pick};
use rpm_pkgdb::{GetFault, PkgDb};
use std::alloc::{AllocError, Global};

#[derive(Clone, Copy)]
enum Change {
    Make,
    Raise,
    Put(Option<u32>, &'static [u8]),
    Erase(u32),
}

fn apply(alloc: Global, disk: &mut MemDisk, change: Change) -> bool {
    match change {
        Change::Make => make(alloc, disk),
        Change::Raise => raise(alloc, disk),
        Change::Put(n, blob) => put(alloc, disk, n, blob).is_some_and(|number| number.is_ok()),
        Change::Erase(n) => erase(alloc, disk, n),
    }
}

// A number for the bytes of a blob: its 64-bit FNV-1a hash.
fn digest(blob: &[u8]) -> u64 {
    let mut hash = 0xcbf2_9ce4_8422_2325u64;
    for byte in blob {
        hash = (hash ^ *byte as u64).wrapping_mul(0x100_0000_01b3);
    }
    hash
}

// The digest of a number's blob; 0 where there is none. None where it can't be read.
fn digest_of(alloc: Global, disk: &mut MemDisk, n: u32) -> Option<u64> {
    let db = PkgDb::open(alloc, disk).ok()?;
    match db.get(alloc, disk, n) {
        Ok(blob) => Some(digest(&blob)),
        Err(GetFault::NoSuch) => Some(0),
        Err(_) => None,
    }
}

fn generation(alloc: Global, disk: &mut MemDisk) -> Option<u32> {
    Some(PkgDb::open(alloc, disk).ok()?.generation())
}

// The generation, and the digests of the first five numbers. None where one can't be read.
type State = Option<[u64; 6]>;

fn state(alloc: Global, disk: &mut MemDisk) -> State {
    let mut state = [generation(alloc, disk)? as u64; 6];
    for n in 1..6u32 {
        state[n as usize] = digest_of(alloc, disk, n)?;
    }
    Some(state)
}

// The states of a file before and after a change, which goes, and of which both can be read.
fn both_of(alloc: Global, file: &[u8], change: Change) -> Result<[State; 2], AllocError> {
    let mut disk = MemDisk::new(alloc, file, &[], &[])?;
    let before = state(alloc, &mut disk);
    let goes = apply(alloc, &mut disk, change);
    let after = state(alloc, &mut disk);
    if goes && before.is_some() && after.is_some() {
        Ok([before, after])
    } else {
        Err(AllocError)
    }
}

fn images_are_either(
    alloc: Global,
    disk: &MemDisk,
    moment: u64,
    both: [State; 2],
) -> Result<bool, AllocError> {
    for pick in [Pick::Old, Pick::New, Pick::Mixed(1)] {
        if moment > disk.now() {
            return Ok(false);
        }
        let mut image = disk.image(alloc, moment, pick)?;
        let state = state(alloc, &mut image);
        if state != both[0] && state != both[1] {
            return Ok(false);
        }
    }
    Ok(true)
}

// The first moment of a change of which an image has neither state.
fn first_crash(
    alloc: Global,
    file: &[u8],
    change: Change,
    both: [State; 2],
) -> Result<Option<u64>, AllocError> {
    let mut disk = MemDisk::new(alloc, file, &[], &[])?;
    let _ = apply(alloc, &mut disk, change);
    for moment in 0..=disk.now() {
        if !images_are_either(alloc, &disk, moment, both)? {
            return Ok(Some(moment));
        }
    }
    Ok(None)
}

// Whether a change goes where a call of the disk fails, and whether the file has one of two states then.
fn fails_at(
    alloc: Global,
    file: &[u8],
    change: Change,
    call: u64,
    both: [State; 2],
) -> Result<(bool, bool), AllocError> {
    let mut disk = MemDisk::new(alloc, file, &[], &[])?;
    disk.fail_call(call)?;
    let goes = apply(alloc, &mut disk, change);
    let state = state(alloc, &mut disk);
    Ok((goes, state == both[0] || state == both[1]))
}

// The first call of a change whose failure leaves neither state. None where there is none.
fn first_fault(
    alloc: Global,
    file: &[u8],
    change: Change,
    both: [State; 2],
) -> Result<Option<u64>, AllocError> {
    for call in 1..1000 {
        match fails_at(alloc, file, change, call, both)? {
            (true, _) => return Ok(None),
            (false, true) => {}
            (false, false) => return Ok(Some(call)),
        }
    }
    Ok(Some(1000))
}

// The first of these changes of which a crash at a moment, or a call that fails, leaves neither the packages before
// nor those after.
fn other_change(
    alloc: Global,
    file: &[u8],
    changes: &[Change],
) -> Result<Option<(usize, Option<u64>, Option<u64>)>, AllocError> {
    for (row, change) in changes.iter().enumerate() {
        let both = both_of(alloc, file, *change)?;
        let crash = first_crash(alloc, file, *change, both)?;
        let fault = first_fault(alloc, file, *change, both)?;
        if crash.is_some() || fault.is_some() {
            return Ok(Some((row, crash, fault)));
        }
    }
    Ok(None)
}

const CHANGES: &[Change] = &[
    Change::Raise,
    Change::Put(None, &[7; 40]),
    Change::Put(Some(1), &[7; 40]),
    Change::Put(Some(1), &[7; 80]),
    Change::Put(Some(1), &[7; 300]),
    Change::Erase(1),
];

#[test]
fn each_crash_and_fault_leaves_the_packages_before_or_after(
    rt: HostRuntime,
) -> Result<(), AllocError> {
    let alloc = rt.alloc();
    let of_one = other_change(alloc, &one_package(alloc)?, CHANGES)?;
    let of_none = other_change(alloc, &[], &[Change::Make])?;
    // two ranges move: the first lies in the new page, and the second on both sides of its end
    let page = full_pages(alloc, 1, 245)?.copy_file(alloc, File::Pkg)?;
    let of_page = other_change(alloc, &page, &[Change::Put(None, &PLAIN)])?;
    assert_eq!(rt; (of_one, of_none, of_page), (None, None, None));
    Ok(())
}
