//! The disk, the shelf and the sinks in memory, and the buffer in front of a sink.

use crate::fixtures::is_units;
use rpm_outside::{
    Absent, Buffered, Disk, Failed, File, MemDisk, MemShelf, MemSink, Pick, Shelf, Sink, put_all,
    put_and_flush,
};
use std::alloc::{AllocError, Global};

// A disk of two units, the second of which is written over, and one after it; and then two files are durable.
fn written(alloc: Global) -> Result<MemDisk, AllocError> {
    let mut disk = MemDisk::new(alloc, &[1; 32], &[], &[])?;
    let _ = disk.write_at(File::Pkg, 1, &[2; 32]);
    let _ = disk.sync(File::Idx);
    let _ = disk.sync(File::Pkg);
    Ok(disk)
}

// Moments of that disk, and the units of images of them.
const IMAGES: &[(u64, Pick, &[u8])] = &[
    (0, Pick::New, &[1, 1]),
    (1, Pick::Old, &[1, 1]),
    (1, Pick::New, &[1, 2, 2]),
    (1, Pick::Mixed(0b010), &[1, 2, 0]),
    (2, Pick::Old, &[1, 1]),
    (3, Pick::Old, &[1, 2, 2]),
];

fn image_has(
    alloc: Global,
    disk: &MemDisk,
    moment: u64,
    pick: Pick,
    units: &[u8],
) -> Result<bool, AllocError> {
    if moment > disk.now() {
        return Ok(false);
    }
    let image = disk.image(alloc, moment, pick)?;
    Ok(is_units(&image.copy_file(alloc, File::Pkg)?, units))
}

// The first row whose image has other units.
fn other_image(alloc: Global, disk: &MemDisk) -> Result<Option<usize>, AllocError> {
    for (row, &(moment, pick, units)) in IMAGES.iter().enumerate() {
        if !image_has(alloc, disk, moment, pick, units)? {
            return Ok(Some(row));
        }
    }
    Ok(None)
}

#[test]
fn a_crash_leaves_old_or_new_units(rt: HostRuntime) -> Result<(), AllocError> {
    let disk = written(rt.alloc())?;
    let other = other_image(rt.alloc(), &disk)?;
    let counts = (
        disk.now(),
        disk.faults(),
        disk.starved(),
        disk.bytes_read(File::Pkg),
    );
    assert_eq!(rt; (other, counts), (None, (3, 0, 0, 0)));
    Ok(())
}

#[test]
fn a_named_call_fails_and_writes_the_first_half(rt: HostRuntime) -> Result<(), AllocError> {
    let mut disk = MemDisk::new(rt.alloc(), &[], &[1; 32], &[])?;
    disk.fail_call(2)?;
    disk.fail_call(4)?;
    let mut unit = [0u8; 16];
    let units = disk.len(File::Idx);
    let half = disk.write_at(File::Idx, 0, &[2; 32]);
    let read = disk.read_at(File::Idx, 0, &mut unit);
    let none = disk.write_at(File::Idx, 9, &unit);
    let left = disk.copy_file(rt.alloc(), File::Idx)?;
    let counts = [
        disk.now(),
        disk.faults(),
        disk.bytes_read(File::Idx),
        disk.bytes_read(File::Log),
    ];
    assert!(rt;
        units == Ok(2)
            && half == Err(Failed)
            && read == Ok(())
            && none == Err(Failed)
            && counts == [1, 2, 16, 0]
            && unit == [2; 16]
            && is_units(&left, &[2, 1])
    );
    Ok(())
}

// Whether a read of at most two bytes gives so many, of which this is the first.
fn gives(shelf: &mut MemShelf, count: usize, first: u8) -> bool {
    let mut into = [0u8; 2];
    shelf.read(&mut into) == Ok(count) && into[0] == first
}

#[test]
fn a_shelf_gives_its_newest_item_once(rt: HostRuntime) -> Result<(), AllocError> {
    let mut shelf = MemShelf::new(rt.alloc());
    shelf.put("a", b"old")?;
    shelf.put("-", b"input")?;
    shelf.put("a", b"new")?;
    let absent = shelf.open("b") == Err(Absent) && gives(&mut shelf, 0, 0);
    let front = shelf.open("a") == Ok(()) && gives(&mut shelf, 2, b'n');
    shelf.fail_read(3);
    let failed = shelf.read(&mut [0u8; 2]) == Err(Failed);
    let rest = gives(&mut shelf, 1, b'w') && gives(&mut shelf, 0, 0);
    let counts = [shelf.absences(), shelf.faults()];
    shelf.at_most(1);
    let single = shelf.open("a") == Ok(()) && gives(&mut shelf, 1, b'n');
    assert!(rt; absent && front && failed && rest && counts == [1, 1] && single);
    Ok(())
}

#[test]
fn a_sink_fails_after_its_limit(rt: HostRuntime) {
    let mut sink = MemSink::new(rt.alloc());
    let two = put_all(&mut sink, b"ab");
    sink.fail_after(3);
    let one = sink.write(b"cd");
    let none = put_all(&mut sink, b"d");
    let counts = [sink.bytes().len() as u64, sink.faults(), sink.starved()];
    sink.fail_after(9);
    sink.at_most(1);
    let single = sink.write(b"de");
    let last = put_all(&mut sink, b"e");
    assert!(rt;
        two == Ok(())
            && one == Ok(1)
            && none == Err(Failed)
            && counts == [3, 1, 0]
            && single == Ok(1)
            && last == Ok(())
            && sink.bytes() == b"abcde".as_slice()
    );
}

const PIECES: [&[u8]; 4] = [&[1; 4000], &[2; 200], &[3; 4097], &[4; 4096]];

// Whether the pieces and a flush went through a buffer to a sink that takes so many bytes, how often it failed, and
// how many bytes it has, all of them right.
fn through_a_buffer(alloc: Global, limit: u64) -> Result<(bool, u64, usize), AllocError> {
    let mut sink = MemSink::new(alloc);
    sink.fail_after(limit);
    let mut buffered = Buffered::new(sink);
    let mut went = true;
    for piece in PIECES {
        went = went && put_all(&mut buffered, piece).is_ok();
    }
    went = went && buffered.flush().is_ok();
    let sink = buffered.into_inner();
    let taken = sink.bytes();
    if PIECES.concat(alloc)?.starts_with(taken) {
        Ok((went, sink.faults(), taken.len()))
    } else {
        Ok((false, 0, 0))
    }
}

// How many bytes a sink takes of the 12393.
const LIMITS: &[u64] = &[0, 3999, 4000, 4095, 4096, 4097, 4200, 8296, 8297, 12392];

// The first limit at which a sink has other bytes, or fails otherwise than once.
fn other_limit(alloc: Global) -> Result<Option<u64>, AllocError> {
    for &limit in LIMITS {
        if through_a_buffer(alloc, limit)? != (false, 1, limit as usize) {
            return Ok(Some(limit));
        }
    }
    Ok(None)
}

#[test]
fn a_buffer_hands_on_the_first_bytes(rt: HostRuntime) -> Result<(), AllocError> {
    let other = other_limit(rt.alloc())?;
    let whole = through_a_buffer(rt.alloc(), 12393)?;
    assert_eq!(rt; (other, whole), (None, (true, 0, 12393)));
    Ok(())
}

#[test]
fn a_buffer_holds_what_fits(rt: HostRuntime) {
    let mut sink = MemSink::new(rt.alloc());
    let mut buffered = Buffered::new(&mut sink);
    let put = put_and_flush(&mut buffered, b"ab");
    let held = (buffered.write(b"cd"), buffered.inner().bytes().len());
    let through = (buffered.write(&[7; 4097]), buffered.inner().bytes().len());
    let last = buffered.write(b"e");
    buffered.clear();
    let flushed = buffered.flush();
    let right = sink.bytes().len() == 4101 && sink.bytes().starts_with(b"abcd\x07");
    assert_eq!(rt;
        (put, held, through, last, flushed, right),
        (Ok(()), (Ok(2), 2), (Ok(4097), 4101), Ok(1), Ok(()), true)
    );
}
