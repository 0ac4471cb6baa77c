//! The disk, the shelf and the sinks over the files and streams of the system.

use crate::watched::{CutOutput, Watched};
use rpm_outside::{Absent, Disk, Failed, File, Shelf, Sink};
use rpm_real::{Purpose, RealDisk, RealShelf, RealSink};
use std::alloc::{AllocError, Global};
use std::fs;
use std::os::unix::fs::symlink;
use std::rt::{Clock, Files};
use std::test::Fail;

#[test]
fn a_disk_makes_its_files_by_writing_only(rt: HostRuntime) -> Result<(), Fail> {
    fs::create_dir_all(&rt, "written")?;
    let mut disk = RealDisk::new(rt.alloc(), &rt, "written", Purpose::Change)?;
    let mut unit = [0u8; 16];
    let length = disk.len(File::Idx);
    let before = disk.read_at(File::Idx, 0, &mut unit);
    let was_made = fs::exists(&rt, "written/Hindex.db")?;
    let written = disk.write_at(File::Idx, 2, &[7; 16]);
    let synced = disk.sync(File::Idx);
    let longer = disk.len(File::Idx);
    let behind = disk.read_at(File::Idx, 2, &mut unit);
    let bytes = unit;
    let past = disk.read_at(File::Idx, 3, &mut unit);
    fs::remove_dir_all(&rt, "written")?;
    assert!(rt;
        length == Ok(0)
            && before == Err(Failed)
            && !was_made
            && written == Ok(())
            && synced == Ok(())
            && longer == Ok(3)
            && behind == Ok(())
            && bytes == [7; 16]
            && past == Err(Failed)
    );
    Ok(())
}

// The bytes of a file, how many units it has, the unit that is written, and the bytes then.
type Tail<'a> = (&'a [u8], u64, u64, &'a [u8]);

const TAILS: &[Tail<'static>] = &[
    (b"abcde", 0, 0, b"written, 16 byte"),
    (
        b"abcde",
        0,
        2,
        b"\0\0\0\0\0\0\0\0\0\0\0\0\0\0\0\0\0\0\0\0\0\0\0\0\0\0\0\0\0\0\0\0written, 16 byte",
    ),
    (
        b"abcdefghijklmno",
        0,
        1,
        b"\0\0\0\0\0\0\0\0\0\0\0\0\0\0\0\0written, 16 byte",
    ),
    (
        b"0123456789abcdef",
        1,
        2,
        b"0123456789abcdef\0\0\0\0\0\0\0\0\0\0\0\0\0\0\0\0written, 16 byte",
    ),
    (b"0123456789abcdef+", 1, 0, b"written, 16 byte"),
    (
        b"0123456789abcdef+",
        1,
        1,
        b"0123456789abcdefwritten, 16 byte",
    ),
    (
        b"0123456789abcdef+",
        1,
        2,
        b"0123456789abcdef\0\0\0\0\0\0\0\0\0\0\0\0\0\0\0\0written, 16 byte",
    ),
];

#[test]
fn a_write_behind_a_partial_unit_leaves_zeros(rt: HostRuntime) -> Result<(), Fail> {
    fs::create_dir_all(&rt, "partial")?;
    let mut are_right = true;
    for &(before, units, unit, after) in TAILS {
        fs::write(&rt, "partial/Packages.db", before)?;
        let mut disk = RealDisk::new(rt.alloc(), &rt, "partial", Purpose::Change)?;
        let length = disk.len(File::Pkg);
        // No row writes after unit 2, so that each fits.
        let written = disk.write_at(File::Pkg, unit.min(2), b"written, 16 byte");
        let left = fs::read(&rt, "partial/Packages.db")?;
        let is_right = length == Ok(units) && written == Ok(()) && left.as_slice() == after;
        are_right = are_right && is_right;
    }
    fs::remove_dir_all(&rt, "partial")?;
    assert!(rt; are_right);
    Ok(())
}

#[test]
fn names_are_durable_with_the_first_sync(rt: HostRuntime) -> Result<(), Fail> {
    fs::create_dir_all(&rt, "named")?;
    fs::create_dir_all(&rt, "elsewhere")?;
    // Another process made these two, of which one lies after a symbolic link.
    fs::write(&rt, "named/Packages.db", &[0u8; 16])?;
    fs::write(&rt, "elsewhere/log", &[0u8; 16])?;
    symlink(&rt, "../elsewhere/log", "named/Hlog.db")?;
    let watched = Watched::new(&rt);
    let mut disk = RealDisk::new(rt.alloc(), &watched, "named", Purpose::Change)?;
    let mut opened = [0u32; 6];
    let mut are_done = disk.sync(File::Pkg) == Ok(());
    opened[0] = watched.folders();
    are_done = are_done && disk.sync(File::Pkg) == Ok(());
    opened[1] = watched.folders();
    // The folder is kept open, and nothing is written after a link.
    are_done = are_done && disk.sync(File::Log) == Ok(());
    opened[2] = watched.folders();
    // A file that isn't there has no name; one that is made has.
    are_done = are_done && disk.sync(File::Idx) == Ok(());
    opened[3] = watched.folders();
    are_done = are_done && disk.write_at(File::Idx, 0, &[1; 16]) == Ok(());
    opened[4] = watched.folders();
    are_done = are_done && disk.sync(File::Idx) == Ok(());
    opened[5] = watched.folders();
    fs::remove_dir_all(&rt, "named")?;
    fs::remove_dir_all(&rt, "elsewhere")?;
    // Where a file is made, the folder above is synced too.
    assert!(rt; are_done && opened == [1, 1, 1, 1, 2, 2], "{opened:?}");
    Ok(())
}

#[test]
fn a_folder_without_a_name_has_no_files(rt: HostRuntime) -> Result<(), Fail> {
    let mut disk = RealDisk::new(rt.alloc(), &rt, "", Purpose::Change)?;
    let mut unit = [0u8; 16];
    let length = disk.len(File::Pkg);
    let read = disk.read_at(File::Idx, 0, &mut unit);
    let written = disk.write_at(File::Log, 0, &unit);
    let synced = disk.sync(File::Pkg);
    let is_there = fs::exists(&rt, "/Hlog.db")?;
    assert!(rt;
        length == Err(Failed)
            && read == Err(Failed)
            && written == Err(Failed)
            && synced == Err(Failed)
            && !is_there
    );
    Ok(())
}

#[test]
fn a_shelf_reads_files_and_sinks_write(rt: HostRuntime) -> Result<(), Fail> {
    fs::write(&rt, "item", "abc")?;
    let mut shelf = RealShelf::new(rt.alloc(), &rt);
    let mut into = [0u8; 8];
    let absent = shelf.open("no such item");
    let nothing = shelf.read(&mut into);
    let opened = shelf.open("item");
    let front = shelf.read(&mut into);
    let bytes = into;
    let end = shelf.read(&mut into);
    let input = shelf.open("-");
    fs::remove_file(&rt, "item")?;
    let written = [
        RealSink::new(rt.stdout()).write(b"\n"),
        RealSink::new(rt.stderr()).write(b"\n"),
    ];
    assert!(rt;
        absent == Err(Absent)
            && nothing == Ok(0)
            && opened == Ok(())
            && front == Ok(3)
            && bytes == *b"abc\0\0\0\0\0"
            && end == Ok(0)
            && input == Ok(())
            && written == [Ok(1), Ok(1)]
    );
    Ok(())
}

#[test]
fn what_a_signal_cuts_is_done_again(rt: HostRuntime) -> Result<(), Fail> {
    let watched = Watched::new(&rt);
    let mut shelf = RealShelf::new(rt.alloc(), &watched);
    let mut into = [0u8; 8];
    let opened = shelf.open("-");
    let read = [shelf.read(&mut into), shelf.read(&mut into)];
    let written = RealSink::new(CutOutput::new()).write(b"ab");
    assert!(rt; opened == Ok(()) && read == [Ok(1), Ok(0)] && into[0] == b'a' && written == Ok(1));
    Ok(())
}

// The units of a file: twice as many bytes as pages of it are held.
const UNITS: u32 = 1_048_576;

// A file of these units, each of which says its own number, four times.
fn numbered_file(alloc: Global) -> Result<Vec<u8>, AllocError> {
    let mut file = Vec::with_capacity(alloc, 16_777_216)?;
    for at in 0..UNITS {
        for _ in 0..4 {
            file.extend_from_slice(&at.to_le_bytes())?;
        }
    }
    Ok(file)
}

// The first unit that doesn't say its number, of 20,000, each so many units after the one before.
fn other_unit<R: Files<File = fs::File> + Clock>(
    disk: &mut RealDisk<'_, R>,
    step: u32,
) -> Option<u32> {
    let mut unit = [0u8; 16];
    for i in 0..20_000u32 {
        let at = i.wrapping_mul(step) % UNITS;
        let [a, b, c, d] = at.to_le_bytes();
        let read = disk.read_at(File::Idx, at as u64, &mut unit);
        if read != Ok(()) || unit != [a, b, c, d, a, b, c, d, a, b, c, d, a, b, c, d] {
            return Some(at);
        }
    }
    None
}

#[test]
fn pages_say_what_the_file_has(rt: HostRuntime) -> Result<(), Fail> {
    fs::create_dir_all(&rt, "pages")?;
    fs::write(&rt, "pages/Hindex.db", &numbered_file(rt.alloc())?)?;
    let mut disk = RealDisk::new(rt.alloc(), &rt, "pages", Purpose::Change)?;
    // each read of the first walk is of another page, so that pages are left alone soon; at the end of the second one
    // they are held, and the third one comes to a unit that was written since
    let far = other_unit(&mut disk, 7919);
    let near = other_unit(&mut disk, 1);
    let written = disk.write_at(File::Idx, 15_838, &[0; 16]);
    let again = other_unit(&mut disk, 7919);
    fs::remove_dir_all(&rt, "pages")?;
    assert_eq!(rt;
        (far, near, written, again),
        (None, None, Ok(()), Some(15_838))
    );
    Ok(())
}
