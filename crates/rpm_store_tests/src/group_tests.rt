//! Changes as one: what is finished of a log, and what an overlay reads.

ghost use Rattle.std.specs.Prelude.{◌≡◌, ◌%◌, length};

use crate::fixtures::is_units;
use rpm_group::{LoadFault, Overlay, recover};
use rpm_outside::{Disk, File, MemDisk};
use std::alloc::{AllocError, Global};

// The log of two entries: units 1 and 2 of Packages.db, and unit 0 of Hindex.db.
const LOG: [u8; 96] = [
    0x52, 0x70, 0x6d, 0x4c, 1, 0, 0, 0, 2, 0, 0, 0, 5, 0, 0, 0, //
    1, 0, 0, 0, 1, 0, 0, 0, 2, 0, 0, 0, 0, 0, 0, 0, //
    7, 7, 7, 7, 7, 7, 7, 7, 7, 7, 7, 7, 7, 7, 7, 7, //
    8, 8, 8, 8, 8, 8, 8, 8, 8, 8, 8, 8, 8, 8, 8, 8, //
    2, 0, 0, 0, 0, 0, 0, 0, 1, 0, 0, 0, 0, 0, 0, 0, //
    9, 9, 9, 9, 9, 9, 9, 9, 9, 9, 9, 9, 9, 9, 9, 9,
];

/// The disk of one unit of ones, two of twos and threes, and that log with these bytes in place of its own.
pub fn logged(alloc: Global, patches: &[(usize, u8)]) -> Result<MemDisk, AllocError> {
    let mut log = LOG;
    for &(place, byte) in patches {
        if place < 96 {
            log[place] = byte;
        }
    }
    let index = [[2u8; 16], [3; 16]].concat(alloc)?;
    MemDisk::new(alloc, &[1; 16], &index, &log)
}

/// The units of Packages.db and of Hindex.db, each of one byte all over.
pub type Both = (&'static [u8], &'static [u8]);

/// Whether a disk has these.
pub fn has_both(alloc: Global, disk: &MemDisk, (pkg, idx): Both) -> Result<bool, AllocError> {
    Ok(
        is_units(&disk.copy_file(alloc, File::Pkg)?, pkg)
            && is_units(&disk.copy_file(alloc, File::Idx)?, idx),
    )
}

// How many units an overlay over a disk holds, and the disk.
fn load(alloc: Global, disk: MemDisk) -> (Result<u64, LoadFault>, MemDisk) {
    match Overlay::load(alloc, disk) {
        Ok(overlay) => (Ok(overlay.held()), overlay.release()),
        Err(refused) => (Err(refused.why), refused.disk),
    }
}

// A commit record of zeros, with rubbish after it.
const SHUT: &[(usize, u8)] = &[(0, 0), (1, 0), (2, 0), (3, 0), (4, 0), (8, 0), (12, 0)];

#[test]
fn a_closed_log_says_nothing(rt: HostRuntime) -> Result<(), AllocError> {
    let mut disk = logged(rt.alloc(), SHUT)?;
    let was_open = recover(&mut disk);
    let (held, disk) = load(rt.alloc(), disk);
    let is_same = has_both(rt.alloc(), &disk, (&[1], &[2, 3]))?;
    // each of the two calls read one unit
    let read = disk.bytes_read(File::Log);
    assert!(rt; was_open == Ok(false) && held == Ok(0) && is_same && read == 32);
    Ok(())
}

// Whether the first bytes of a file were read, where it has so many.
fn reads<D: Disk>(disk: &mut D, file: File, into: &mut [u8]) -> bool
    requires { length into.old % 16 ≡ 0 }
{
    match disk.len(file) {
        Ok(units) => into.len() as u64 / 16 <= units && disk.read_at(file, 0, into).is_ok(),
        Err(_) => false,
    }
}

#[test]
fn an_overlay_reads_what_is_held_over_what_is_below(rt: HostRuntime) -> Result<(), AllocError> {
    let Ok(mut overlay) = Overlay::load(rt.alloc(), logged(rt.alloc(), &[])?) else {
        return Err(AllocError);
    };
    let held = overlay.held();
    // a unit after a gap, and one that was held before
    let behind = overlay.write_at(File::Pkg, 4, &[5; 16]);
    let again = overlay.write_at(File::Pkg, 2, &[6; 16]);
    let log = overlay.write_at(File::Log, 9, &[4; 16]);
    let mut bytes = [0xffu8; 80];
    let goes = reads(&mut overlay, File::Pkg, &mut bytes) && !overlay.is_starved();
    let sizes = (held, overlay.held(), overlay.len(File::Pkg));
    let disk = overlay.release();
    let is_same = disk.now() == 0 && has_both(rt.alloc(), &disk, (&[1], &[2, 3]))?;
    let is_right = is_units(&bytes, &[1, 7, 6, 0, 5]) && is_same;
    assert_eq!(rt;
        (behind, again, log, goes, sizes, is_right),
        (Ok(()), Ok(()), Ok(()), true, (3, 5, Ok(5)), true)
    );
    Ok(())
}
