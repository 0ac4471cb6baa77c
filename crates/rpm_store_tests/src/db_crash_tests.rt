//! The database: what a crash and a fault of a change leave.

use crate::db_change_tests::put;
use crate::db_tests::{header_of, named};
use crate::fixtures::{NEWER, PLAIN, one_package};
use crate::index_tests::sealed_file;
use rpm_db::{ChangeFault, Db};
use rpm_outside::{File, MemDisk, Pick};
use std::alloc::{AllocError, Global};

// Whether opening the database of one package reads its blocks exactly where the generations of the files differ: for
// the index.
fn is_remade_where_due(alloc: Global, disk: &mut MemDisk) -> Result<bool, AllocError> {
    let packages = disk.copy_file(alloc, File::Pkg)?;
    let index = disk.copy_file(alloc, File::Idx)?;
    let is_current = packages.get(8..12) == index.get(8..12);
    let is_found = named(alloc, disk) == Some((1, 1, 0));
    Ok(is_found && (disk.bytes_read(File::Pkg) == 4096) == is_current)
}

// Whether each image of a moment has one of these headers as its package.
fn images_have(
    alloc: Global,
    disk: &MemDisk,
    moment: u64,
    either: [&[u8]; 2],
) -> Result<bool, AllocError> {
    for pick in [Pick::Old, Pick::New, Pick::Mixed(1)] {
        if moment > disk.now() {
            return Ok(false);
        }
        let mut image = disk.image(alloc, moment, pick)?;
        let is_remade = is_remade_where_due(alloc, &mut image)?;
        let is_old = header_of(alloc, &mut image, 1, either[0]).1;
        let is_new = header_of(alloc, &mut image, 1, either[1]).1;
        if !is_remade || !(is_old || is_new) {
            return Ok(false);
        }
    }
    Ok(true)
}

// The first moment of replacing the plain header at which neither it nor the newer one is there; the last moment has
// the newer one.
fn other_moment(alloc: Global) -> Result<Option<u64>, AllocError> {
    let mut disk = MemDisk::new(alloc, &one_package(alloc)?, &sealed_file(alloc, 320)?, &[])?;
    let goes = put(alloc, &mut disk, 1, &NEWER) == Some(Ok(()));
    for moment in 0..=disk.now() {
        let old = if moment < disk.now() { PLAIN } else { NEWER };
        if !goes || !images_have(alloc, &disk, moment, [&old, &NEWER])? {
            return Ok(Some(moment));
        }
    }
    Ok(None)
}

#[test]
fn a_crash_leaves_the_old_header_or_the_new_one(rt: HostRuntime) -> Result<(), AllocError> {
    let other = other_moment(rt.alloc())?;
    assert_eq!(rt; other, None);
    Ok(())
}

// What putting a header answers on a disk whose call of this number fails, and what erasing answers then. None where
// it isn't opened.
fn failing(
    alloc: Global,
    call: u64,
) -> Result<Option<(Result<(), ChangeFault>, Result<(), ChangeFault>)>, AllocError> {
    let mut disk = MemDisk::new(alloc, &one_package(alloc)?, &sealed_file(alloc, 320)?, &[])?;
    disk.fail_call(call)?;
    let Ok(mut db) = Db::open(alloc, &mut disk) else {
        return Ok(None);
    };
    if !db.is_indexed() {
        return Ok(None);
    }
    match db.put(alloc, &mut disk, 1, &PLAIN) {
        Err(ChangeFault::DiskFault) => Ok(Some((
            Err(ChangeFault::DiskFault),
            db.erase(alloc, &mut disk, 1),
        ))),
        answer => Ok(Some((answer, Ok(())))),
    }
}

// How many of sixty failing calls stop the value, and how many it doesn't meet. None where one ends otherwise.
fn stopped(alloc: Global) -> Result<Option<(u32, u32)>, AllocError> {
    let (mut stopped, mut whole) = (0u32, 0u32);
    for call in 1..=60u64 {
        match failing(alloc, call)? {
            None => {}
            Some((Ok(()), Ok(()))) => whole = whole.saturating_add(1),
            Some((Err(_), Err(ChangeFault::Stopped))) => stopped = stopped.saturating_add(1),
            Some(_) => return Ok(None),
        }
    }
    Ok(Some((stopped, whole)))
}

#[test]
fn a_value_that_failed_is_stopped(rt: HostRuntime) -> Result<(), AllocError> {
    let counts = stopped(rt.alloc())?;
    let are_some = counts.is_some_and(|(stopped, whole)| stopped > 0 && whole > 0);
    assert!(rt; are_some, "{counts:?}");
    Ok(())
}
