//! Changes as one: what a commit leaves, also where it is stopped or fails.

use crate::group_tests::{Both, has_both, logged};
use rpm_group::{Overlay, recover};
use rpm_outside::{Disk, Failed, File, MemDisk, Pick};
use std::alloc::{AllocError, Global};

// Writes units of one byte each.
fn write_all<D: Disk>(disk: &mut D, units: &[(File, u16, u8)]) -> Result<(), Failed>
    ensures { D.follows disk.old disk.new }
{
    for (file, unit, byte) in units {
        disk.write_at(*file, *unit as u64, &[*byte; 16])?;
    }
    Ok(())
}

// Finishes what a log says, and writes units of one byte each, as one change.
fn write_units<D: Disk + Drop>(alloc: Global, disk: D, units: &[(File, u16, u8)]) -> (D, bool) {
    let mut disk = disk;
    let Ok(_) = recover(&mut disk) else {
        return (disk, false);
    };
    let mut overlay = match Overlay::load(alloc, disk) {
        Ok(overlay) => overlay,
        Err(refused) => return (refused.disk, false),
    };
    let Ok(()) = write_all(&mut overlay, units) else {
        return (overlay.release(), false);
    };
    if overlay.is_starved() {
        return (overlay.release(), false);
    }
    let (below, answer) = overlay.commit();
    (below, answer.is_ok())
}

const PICKS: &[Pick] = &[
    Pick::Old,
    Pick::New,
    Pick::Mixed(0b0101),
    Pick::Mixed(0b1010),
];

// Whether each image of a moment, once it is recovered, has one of these as its two files.
fn images_have(
    alloc: Global,
    disk: &MemDisk,
    moment: u64,
    old: Both,
    new: Both,
) -> Result<bool, AllocError> {
    for pick in PICKS {
        if moment > disk.now() {
            return Ok(false);
        }
        let mut image = disk.image(alloc, moment, *pick)?;
        let goes = recover(&mut image).is_ok();
        if !goes || !(has_both(alloc, &image, old)? || has_both(alloc, &image, new)?) {
            return Ok(false);
        }
    }
    Ok(true)
}

// The first moment of a disk of which an image has neither. The last has the second files alone, where they are there
// then.
fn other_moment(
    alloc: Global,
    disk: &MemDisk,
    old: Both,
    new: Both,
    done: bool,
) -> Result<Option<u64>, AllocError> {
    for moment in 0..=disk.now() {
        let before = if done && moment == disk.now() {
            new
        } else {
            old
        };
        if !images_have(alloc, disk, moment, before, new)? {
            return Ok(Some(moment));
        }
    }
    Ok(None)
}

// Units of one change, the files that it makes of two units, and how many calls it makes.
const GROUPS: &[(&[(File, u16, u8)], Both, u64)] = &[
    (&[(File::Pkg, 0, 7)], (&[7, 2], &[]), 15),
    (
        &[(File::Idx, 1, 9), (File::Pkg, 0, 7)],
        (&[7, 2], &[0, 9]),
        18,
    ),
];

// The first failing call, and the first moment, at which a change is neither whole nor absent. 0 is no call.
fn other_crash(
    alloc: Global,
    units: &[(File, u16, u8)],
    new: Both,
    calls: u64,
) -> Result<Option<(u64, Option<u64>)>, AllocError> {
    let before = [[1u8; 16], [2; 16]].concat(alloc)?;
    for failing in 0..24 {
        let mut disk = MemDisk::new(alloc, &before, &[], &[])?;
        disk.fail_call(failing)?;
        let (disk, done) = write_units(alloc, disk, units);
        let moment = other_moment(alloc, &disk, (&[1, 2], &[]), new, done)?;
        if moment.is_some() || done != (failing == 0 || failing > calls) {
            return Ok(Some((failing, moment)));
        }
    }
    Ok(None)
}

#[test]
fn a_crash_leaves_a_change_whole_or_not_at_all(rt: HostRuntime) -> Result<(), AllocError> {
    let mut other = None;
    for &(units, files, calls) in GROUPS {
        other = other.or(other_crash(rt.alloc(), units, files, calls)?);
    }
    assert_eq!(rt; other, None);
    Ok(())
}

// The first failing call, and the first moment, at which the log isn't finished by the next one who recovers. 0 is no
// call.
fn other_recovery(alloc: Global) -> Result<Option<(u64, Option<u64>)>, AllocError> {
    let new: Both = (&[1, 7, 8], &[9, 3]);
    for failing in 0..20 {
        let mut disk = logged(alloc, &[])?;
        disk.fail_call(failing)?;
        let done = recover(&mut disk).is_ok();
        let moment = other_moment(alloc, &disk, new, new, done)?;
        if moment.is_some() || done != (failing == 0 || failing > 17) {
            return Ok(Some((failing, moment)));
        }
    }
    Ok(None)
}

#[test]
fn a_crash_while_recovering_is_recovered(rt: HostRuntime) -> Result<(), AllocError> {
    let other = other_recovery(rt.alloc())?;
    assert_eq!(rt; other, None);
    Ok(())
}

// Units of two files in four runs, one of them of two units; and the log of them, whose heads are the units 1, 3, 6.
const RUNS: &[(File, u16, u8)] = &[
    (File::Idx, 1, 9),
    (File::Pkg, 3, 7),
    (File::Pkg, 0, 6),
    (File::Pkg, 4, 8),
];

const LOGGED: [u8; 128] = [
    0, 0, 0, 0, 0, 0, 0, 0, 0, 0, 0, 0, 0, 0, 0, 0, //
    1, 0, 0, 0, 0, 0, 0, 0, 1, 0, 0, 0, 0, 0, 0, 0, //
    6, 6, 6, 6, 6, 6, 6, 6, 6, 6, 6, 6, 6, 6, 6, 6, //
    1, 0, 0, 0, 3, 0, 0, 0, 2, 0, 0, 0, 0, 0, 0, 0, //
    7, 7, 7, 7, 7, 7, 7, 7, 7, 7, 7, 7, 7, 7, 7, 7, //
    8, 8, 8, 8, 8, 8, 8, 8, 8, 8, 8, 8, 8, 8, 8, 8, //
    2, 0, 0, 0, 1, 0, 0, 0, 1, 0, 0, 0, 0, 0, 0, 0, //
    9, 9, 9, 9, 9, 9, 9, 9, 9, 9, 9, 9, 9, 9, 9, 9,
];

// Writes units on an empty disk as one change. Gives whether that went, the moment then, and the disk.
fn written(alloc: Global, units: &[(File, u16, u8)]) -> Result<(bool, u64, MemDisk), AllocError> {
    let (disk, done) = write_units(alloc, MemDisk::new(alloc, &[], &[], &[])?, units);
    Ok((done, disk.now(), disk))
}

#[test]
fn a_change_is_written_run_by_run(rt: HostRuntime) -> Result<(), AllocError> {
    let alloc = rt.alloc();
    // nothing is held but of the log: only the three files are durable
    let none = written(alloc, &[])?;
    let log = written(alloc, &[(File::Log, 3, 4)])?;
    let runs = written(alloc, RUNS)?;
    let is_logged = runs.2.copy_file(alloc, File::Log)?.as_slice() == LOGGED.as_slice();
    let is_right = has_both(alloc, &runs.2, (&[6, 0, 0, 7, 8], &[0, 9]))? && is_logged;
    // 2 writes a run for the log, one for its file, 2 for the commit record; 5 syncs, and 3 before
    assert_eq!(rt;
        ((none.0, none.1), (log.0, log.1), (runs.0, runs.1), is_right),
        ((true, 3), (true, 3), (true, 3 + 3 * 3 + 2 + 5), true)
    );
    Ok(())
}

#[test]
fn ten_thousand_runs_are_one_change(rt: HostRuntime) -> Result<(), AllocError> {
    let mut units = Vec::new(rt.alloc());
    for i in 0..10_000u16 {
        units.push((File::Pkg, 2 * i, 7))?;
    }
    let (done, moments, disk) = written(rt.alloc(), &units)?;
    let length = disk.copy_file(rt.alloc(), File::Pkg)?.len();
    assert_eq!(rt;
        (done, moments, length),
        (true, 3 + 3 * 10_000 + 2 + 5, 16 * 19_999)
    );
    Ok(())
}
