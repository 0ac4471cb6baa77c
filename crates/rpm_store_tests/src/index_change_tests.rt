//! The index: what a crash and a fault leave of it, and where it is changed in place or made from scratch.

ghost use Rattle.std.specs.Prelude.{◌≤◌};

use crate::fixtures::change;
use crate::index_tests::{change_rows, count, find, rewrite, rows_of, sealed_file};
use crate::plain_disk::PlainDisk;
use rpm_hindex::{Hindex, Rows};
use rpm_outside::{Disk, File, MemDisk, Pick};
use std::alloc::{AllocError, Global};

fn void<D: Disk>(disk: &mut D) -> bool {
    match Hindex::open(disk) {
        Ok(mut index) => index.void(disk).is_ok(),
        Err(_) => false,
    }
}

// Makes the index of each generation up to this one: of `a`, then of `b` in place, then of nothing from scratch,
// which is voided.
fn written(alloc: Global, disk: &mut MemDisk, last: u32) -> Result<bool, AllocError> {
    let (a, b, none) = (
        rows_of(alloc, &[b"a"])?,
        rows_of(alloc, &[b"b"])?,
        Rows::new(alloc),
    );
    Ok(
        rewrite(alloc, disk, &a, 1)
            && (last < 2 || change_rows(alloc, disk, &a, &b, 2))
            && (last < 3 || (change_rows(alloc, disk, &b, &none, 3) && void(disk))),
    )
}

// How often the index has the keys `a` and `b` at each generation.
const SEALS: &[(u32, [usize; 2])] = &[(1, [1, 0]), (2, [0, 1]), (3, [0, 0])];

fn is_sealed(disk: &mut MemDisk, generation: u32) -> bool {
    match Hindex::open(disk) {
        Ok(index) => index.is_current(generation),
        Err(_) => false,
    }
}

// Whether an index has the keys of this generation, or isn't sealed at it.
fn agrees(alloc: Global, disk: &mut MemDisk, last: u32) -> bool {
    for &(generation, [a, b]) in SEALS {
        if generation == last && is_sealed(disk, last) {
            return count(alloc, disk, last, b"a") == Ok(a)
                && count(alloc, disk, last, b"b") == Ok(b);
        }
    }
    true
}

const PICKS: &[Pick] = &[
    Pick::Old,
    Pick::New,
    Pick::Mixed(1),
    Pick::Mixed(0x5555_5555),
];

// Whether each image of a moment agrees with this generation.
fn images_agree(alloc: Global, disk: &MemDisk, moment: u64, last: u32) -> Result<bool, AllocError> {
    for pick in PICKS {
        if moment > disk.now() {
            return Ok(false);
        }
        let mut image = disk.image(alloc, moment, *pick)?;
        if !agrees(alloc, &mut image, last) {
            return Ok(false);
        }
    }
    Ok(true)
}

// Whether the changes up to this generation fail exactly where this call of the disk does, and each image agrees with
// it. 0 is no call.
fn crashes_well(alloc: Global, last: u32, failing: u64) -> Result<bool, AllocError> {
    let mut disk = MemDisk::new(alloc, &[], &[], &[])?;
    disk.fail_call(failing)?;
    let done = written(alloc, &mut disk, last)?;
    if done != (disk.faults() == 0) {
        return Ok(false);
    }
    for moment in 0..=disk.now() {
        if !images_agree(alloc, &disk, moment, last)? {
            return Ok(false);
        }
    }
    Ok(failing > 0 || is_sealed(&mut disk, last) == (last < 3))
}

// The first generation and the first failing call that leave another index.
fn other_crash(alloc: Global) -> Result<Option<(u32, u64)>, AllocError> {
    for last in 1..4 {
        for failing in 0..56 {
            if !crashes_well(alloc, last, failing)? {
                return Ok(Some((last, failing)));
            }
        }
    }
    Ok(None)
}

#[test]
fn each_call_crashes_and_fails_in_turn(rt: HostRuntime) -> Result<(), AllocError> {
    let other = other_crash(rt.alloc())?;
    assert_eq!(rt; other, None);
    Ok(())
}

// The kind and the key of row k.
fn key_of(k: u32) -> (u8, [u8; 4])
    ensures { (1 ≤ result.0) × (result.0 ≤ 3) }
{
    (1 + (k % 3) as u8, (k / 2).to_be_bytes())
}

// The rows of these places, all of one number.
fn numbered(alloc: Global, (from, to): (u32, u32), number: u32) -> Result<Rows, AllocError> {
    let mut rows = Rows::new(alloc);
    for k in from..to {
        let (kind, key) = key_of(k);
        rows.push(kind, &key, number, k)?;
    }
    Ok(rows)
}

// How many rows of these places are found.
fn found(alloc: Global, disk: &mut MemDisk, generation: u32, (from, to): (u32, u32)) -> usize {
    let mut found = 0usize;
    for k in from..to {
        let (kind, key) = key_of(k);
        let times = find(alloc, disk, generation, (kind, &key), Some(k));
        found = found.saturating_add(times.unwrap_or(0));
    }
    found
}

// The first unit after all records, as unit 1 says it.
fn used(file: &[u8]) -> u32 {
    match file.get(16..20) {
        Some([a, b, c, d]) => u32::from_le_bytes([*a, *b, *c, *d]),
        _ => 0,
    }
}

// The rows of each change that are dropped, their number, and those that are added; how many rows are there then, and
// how many units.
const CHANGES: &[((u32, u32), u32, (u32, u32), usize, u32)] = &[
    // in place, after the 218 units that were there
    ((10, 30), 1, (120, 140), 100, 258),
    // more than two records a bucket: from scratch
    ((0, 0), 2, (140, 440), 400, 2 + 256 / 4 + 800),
    // more dead units than live ones: from scratch
    ((120, 440), 2, (0, 0), 80, 2 + 64 / 4 + 160),
];

// The first change, by its generation, that leaves another index.
fn other_change(alloc: Global, disk: &mut MemDisk) -> Result<Option<u32>, AllocError> {
    let mut generation = 1u32;
    for &(drops, number, adds, rows, units) in CHANGES {
        generation = generation.saturating_add(1);
        let drops = numbered(alloc, drops, number)?;
        let adds = numbered(alloc, adds, 2)?;
        let goes = change_rows(alloc, disk, &drops, &adds, generation);
        let found = found(alloc, disk, generation, (0, 440));
        let used = used(&disk.copy_file(alloc, File::Idx)?);
        if !goes || found != rows || used != units {
            return Ok(Some(generation));
        }
    }
    Ok(None)
}

// The unit after the last one that is written where `b` is added to an index of which unit 1 says that it has so many
// units, in a file as long as one can be; and how many units it says then.
fn changed_at_the_end(alloc: Global, units: u32) -> Result<(bool, u64, u32), AllocError> {
    let mut file = sealed_file(alloc, 320)?;
    change(&mut file, 16, &units.to_le_bytes());
    change(&mut file, 24, &units.saturating_sub(18).to_le_bytes());
    let mut disk = PlainDisk::with_index(Vec::new(alloc), file);
    disk.long = Some(File::Idx);
    let (none, row) = (Rows::new(alloc), rows_of(alloc, &[b"b"])?);
    let goes = change_rows(alloc, &mut disk, &none, &row, 3);
    Ok((goes, disk.end, used(&disk.idx)))
}

#[test]
fn a_change_is_made_in_place_or_from_scratch(rt: HostRuntime) -> Result<(), AllocError> {
    let alloc = rt.alloc();
    let mut disk = MemDisk::new(alloc, &[], &[], &[])?;
    let made = rewrite(alloc, &mut disk, &numbered(alloc, (0, 100), 1)?, 1);
    let other = other_change(alloc, &mut disk)?;
    // two units after the last one are the last that a file has; with one more they are too many
    let last = changed_at_the_end(alloc, 268_435_454)?;
    let past = changed_at_the_end(alloc, 268_435_455)?;
    assert_eq!(rt;
        (made, other, last, past),
        (true, None, (true, 268_435_456, 268_435_456), (true, 22, 22))
    );
    Ok(())
}

// Drops fifty rows of a large index and adds fifty. Gives the bytes that it reads, and how often it writes and syncs.
fn small_change(alloc: Global, disk: &mut MemDisk) -> Result<(bool, u64, u64), AllocError> {
    let drops = numbered(alloc, (500, 550), 1)?;
    let adds = numbered(alloc, (20_000, 20_050), 1)?;
    let (read, now) = (disk.bytes_read(File::Idx), disk.now());
    let goes = change_rows(alloc, disk, &drops, &adds, 2);
    let more = disk.bytes_read(File::Idx).saturating_sub(read);
    Ok((goes, more, disk.now().saturating_sub(now)))
}

#[test]
fn a_small_change_of_a_large_index_stays_small(rt: HostRuntime) -> Result<(), AllocError> {
    let alloc = rt.alloc();
    let mut disk = MemDisk::new(alloc, &[], &[], &[])?;
    let made = rewrite(alloc, &mut disk, &numbered(alloc, (0, 20_000), 1)?, 1);
    // each row that is dropped is looked for by opening the index and reading its bucket's chain
    let read = disk.bytes_read(File::Idx);
    let found = found(alloc, &mut disk, 1, (500, 550));
    let looked = disk.bytes_read(File::Idx).saturating_sub(read);
    let (goes, bytes, moments) = small_change(alloc, &mut disk)?;
    // the records, at most a unit for each row, unit 1, and the seal, with two syncs
    let is_small = bytes <= looked.saturating_add(50 * 16 + 32) && moments <= 1 + 100 + 1 + 1 + 2;
    assert_eq!(rt; (made, found, goes, is_small), (true, 50, true, true));
    Ok(())
}
