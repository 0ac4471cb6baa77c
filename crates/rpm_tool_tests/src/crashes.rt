//! What a crash at each moment leaves, in the oldest image, the newest and mixed ones; and a disk of which each call
//! fails in turn.

use crate::fixtures::{changed, database, log};
use crate::runs::{outcome, run_on};
use rpm_outside::{File, MemDisk, Pick};
use rpm_tool::Why;
use std::alloc::{AllocError, Global};
use std::test::Fail;

const PICKS: &[Pick] = &[Pick::Old, Pick::New, Pick::Mixed(1), Pick::Mixed(6)];

// The three files.
type Files<'a> = [&'a [u8]; 3];

fn disk_of(alloc: Global, files: Files<'_>) -> Result<MemDisk, AllocError> {
    MemDisk::new(alloc, files[0], files[1], files[2])
}

// Whether the commit record of a disk's log is zeros: no group is pending.
fn is_closed(alloc: Global, disk: &MemDisk) -> Result<bool, AllocError> {
    let log = disk.copy_file(alloc, File::Log)?;
    Ok(log.iter().take(16).all(|byte| *byte == 0))
}

// Whether a disk has these packages and this index, and a log without a group.
fn has(alloc: Global, disk: &MemDisk, left: [&[u8]; 2]) -> Result<bool, AllocError> {
    let packages = disk.copy_file(alloc, File::Pkg)?;
    let index = disk.copy_file(alloc, File::Idx)?;
    Ok(packages.as_slice() == left[0] && index.as_slice() == left[1] && is_closed(alloc, disk)?)
}

// Asks for the package by its name: the disk after it, where it was printed and this is left.
fn ask(alloc: Global, disk: MemDisk, left: [&[u8]; 2]) -> Result<Option<MemDisk>, AllocError> {
    let ran = run_on(alloc, "rpm -q a", disk)?;
    let is_told = ran.outcome == outcome(0, Why::Done, 0)
        && ran.out.bytes() == b"a-1-2.x\n".as_slice();
    let is_right = is_told && has(alloc, &ran.disk, left)?;
    Ok(is_right.then_some(ran.disk))
}

// Of how many images of a moment the question is answered so.
fn answered_at(
    alloc: Global,
    disk: &MemDisk,
    moment: u64,
    left: [&[u8]; 2],
) -> Result<usize, AllocError> {
    let mut answered = 0usize;
    for &pick in PICKS {
        if moment <= disk.now() && ask(alloc, disk.image(alloc, moment, pick)?, left)?.is_some() {
            answered = answered.saturating_add(1);
        }
    }
    Ok(answered)
}

// Whether the question is answered so on these files, and again wherever a crash cuts it off.
fn is_answered_again(
    alloc: Global,
    files: Files<'_>,
    left: [&[u8]; 2],
) -> Result<bool, AllocError> {
    let Some(disk) = ask(alloc, disk_of(alloc, files)?, left)? else {
        return Ok(false);
    };
    let mut is_right = disk.now() > 3;
    for moment in 0..=disk.now() {
        is_right = is_right && answered_at(alloc, &disk, moment, left)? == PICKS.len();
    }
    Ok(is_right)
}

// Whether the question ends with DiskFault where this call of the disk fails, and is answered so when it is asked
// again; and None where no call failed.
fn is_answered_behind(
    alloc: Global,
    files: Files<'_>,
    left: [&[u8]; 2],
    call: u64,
) -> Result<Option<bool>, AllocError> {
    let mut disk = disk_of(alloc, files)?;
    disk.fail_call(call)?;
    let ran = run_on(alloc, "rpm -q a", disk)?;
    if ran.disk.faults() == 0 {
        return Ok(None);
    }
    let is_told = ran.outcome == outcome(252, Why::DiskFault, 0) && ran.out.bytes().is_empty();
    let again = ran.disk.image(alloc, ran.disk.now(), Pick::New)?;
    Ok(Some(is_told && ask(alloc, again, left)?.is_some()))
}

// Of how many calls the question is answered so after the one that fails: all of them, and more than ten.
fn calls_that_fail(
    alloc: Global,
    files: Files<'_>,
    left: [&[u8]; 2],
) -> Result<Option<u64>, AllocError> {
    for call in 1..=100 {
        match is_answered_behind(alloc, files, left, call)? {
            Some(true) => {}
            Some(false) => return Ok(None),
            None => return Ok(Some(call)),
        }
    }
    Ok(None)
}

// The index that the question makes on this Packages.db.
fn index_of(alloc: Global, packages: &[u8]) -> Result<Vec<u8>, AllocError> {
    let ran = run_on(alloc, "rpm -q a", MemDisk::new(alloc, packages, &[], &[])?)?;
    ran.disk.copy_file(alloc, File::Idx)
}

#[test]
fn a_change_that_was_cut_off_is_finished(rt: HostRuntime) -> Result<(), Fail> {
    let alloc = rt.alloc();
    let packages = database(alloc)?;
    let made = index_of(alloc, &packages)?;
    let log = log(alloc)?;
    let start: Files<'_> = [&[], &[], &log];
    let left: [&[u8]; 2] = [&packages, &made];
    let is_finished = is_answered_again(alloc, start, left)?;
    let calls = calls_that_fail(alloc, start, left)?;
    assert!(rt;
        is_finished && calls.is_some_and(|calls| calls > 10),
        "{calls:?}"
    );
    Ok(())
}

#[test]
fn an_index_of_an_earlier_generation_is_made_anew(rt: HostRuntime) -> Result<(), Fail> {
    let alloc = rt.alloc();
    let packages = database(alloc)?;
    let made = index_of(alloc, &packages)?;
    let later = changed(packages, 8, b"\x02");
    let sealed = changed(made.as_slice().to_vec(alloc)?, 8, b"\x02");
    let start: Files<'_> = [&later, &made, &[]];
    let left: [&[u8]; 2] = [&later, &sealed];
    let is_answered = is_answered_again(alloc, start, left)?;
    let calls = calls_that_fail(alloc, start, left)?;
    // Without an index nothing is written, and no file synced.
    let unindexed = run_on(alloc, "rpm -q --noindex a", disk_of(alloc, start)?)?;
    let is_left = unindexed.disk.now() == 0 && has(alloc, &unindexed.disk, [&later, &made])?;
    assert!(rt;
        is_answered
            && calls.is_some_and(|calls| calls > 10)
            && is_left
            && unindexed.out.bytes() == b"a-1-2.x\n".as_slice(),
        "{calls:?}"
    );
    Ok(())
}

#[test]
fn a_malformed_log_is_durable_and_left(rt: HostRuntime) -> Result<(), Fail> {
    let alloc = rt.alloc();
    let log = b"RpmL\x01\0\0\0\x01\0\0\0\x05\0\0\0";
    let ran = run_on(
        alloc,
        "rpm -q a",
        MemDisk::new(alloc, &database(alloc)?, &[], log)?,
    )?;
    let left = ran.disk.copy_file(alloc, File::Log)?;
    // The three moments are those of three syncs.
    assert!(rt;
        ran.outcome.why == (Why::BadLog { unit: 0 })
            && ran.disk.now() == 3
            && left.as_slice() == log.as_slice()
    );
    Ok(())
}

// What a question prints on a database of one package, and on one of three.
const ONE: &[u8] = b"a-1-2.x\n";

const THREE: &[u8] = b"a-1-2.x\na-1-2.x\na-1-2.x\n";

// Whether an image reopens to three packages, or to one; None where it does to neither. The query of all leaves it
// alone, and the question by key prints the same and leaves a log without a group.
fn has_three(alloc: Global, image: MemDisk) -> Result<Option<bool>, AllocError> {
    let all = run_on(alloc, "rpm -qa", image)?;
    let was_left = all.disk.now() == 0;
    let keyed = run_on(alloc, "rpm -q a", all.disk)?;
    let is_closed = is_closed(alloc, &keyed.disk)?;
    if !was_left || !is_closed || keyed.out.bytes() != all.out.bytes() {
        return Ok(None);
    }
    if all.out.bytes() == ONE {
        return Ok(Some(false));
    }
    Ok((all.out.bytes() == THREE).then_some(true))
}

// How many of the images of a moment reopen to three packages, the others being of one; None where one is of neither.
fn images_of_three(alloc: Global, disk: &MemDisk, moment: u64) -> Result<Option<u32>, AllocError> {
    if moment > disk.now() {
        return Ok(None);
    }
    let mut found = 0u32;
    for &pick in PICKS {
        match has_three(alloc, disk.image(alloc, moment, pick)?)? {
            Some(true) => found = found.saturating_add(1),
            Some(false) => {}
            None => return Ok(None),
        }
    }
    Ok(Some(found))
}

// Whether the files of a moment's newest image, but an index that was removed, are a database of one package or of
// three once it was rebuilt: a question by key then prints what the query of all does.
fn is_rebuilt(alloc: Global, disk: &MemDisk, moment: u64) -> Result<bool, AllocError> {
    if moment > disk.now() {
        return Ok(false);
    }
    let image = disk.image(alloc, moment, Pick::New)?;
    let packages = image.copy_file(alloc, File::Pkg)?;
    let log = image.copy_file(alloc, File::Log)?;
    let bare = MemDisk::new(alloc, &packages, &[], &log)?;
    let rebuilt = run_on(alloc, "rpmdb --rebuilddb", bare)?;
    let is_done = rebuilt.outcome == outcome(0, Why::Done, 0);
    let durable = rebuilt.disk.image(alloc, rebuilt.disk.now(), Pick::New)?;
    Ok(is_done && has_three(alloc, durable)?.is_some())
}

#[test]
fn an_index_that_was_removed_is_rebuilt(rt: HostRuntime) -> Result<(), Fail> {
    let alloc = rt.alloc();
    let disk = MemDisk::new(alloc, &database(alloc)?, &[], &[])?;
    let ran = run_on(alloc, "rpm --addpkg p1.rpm p1.rpm", disk)?;
    let mut are_rebuilt = ran.outcome == outcome(0, Why::Done, 2);
    for moment in 0..=ran.disk.now() {
        are_rebuilt = are_rebuilt && is_rebuilt(alloc, &ran.disk, moment)?;
    }
    assert!(rt; are_rebuilt);
    Ok(())
}

#[test]
fn a_crash_leaves_both_packages_or_neither(rt: HostRuntime) -> Result<(), Fail> {
    let alloc = rt.alloc();
    let disk = MemDisk::new(alloc, &database(alloc)?, &[], &[])?;
    let ran = run_on(alloc, "rpm --addpkg p1.rpm p1.rpm", disk)?;
    // At first none of the images has three packages; then some have, and at the end all.
    let mut is_rising = true;
    let mut last = 0;
    for moment in 0..=ran.disk.now() {
        let found = images_of_three(alloc, &ran.disk, moment)?;
        is_rising = is_rising
            && found.is_some_and(|found| last <= found && (moment > 0 || found == 0));
        last = found.unwrap_or(0);
    }
    assert!(rt; ran.outcome == outcome(0, Why::Done, 2) && is_rising && last == 4);
    Ok(())
}
