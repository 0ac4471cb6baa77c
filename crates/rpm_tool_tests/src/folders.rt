//! Command lines on the files of a folder.

use crate::fixtures::{HEADER, MAGIC, database, joined, log, package};
use crate::runs::{has_ended, outcome, run_in, run_on};
use rpm_outside::{File, MemDisk};
use rpm_tool::Why;
use std::alloc::{AllocError, Global};
use std::fs;
use std::os::unix::fs::{PermissionsExt, symlink};
use std::test::Fail;

// Whether a line is done on the files of a folder, with so many changes and these bytes on out.
fn is_done(
    rt: &HostRuntime,
    folder: &str,
    line: &str,
    changes: u32,
    out: &[u8],
) -> Result<bool, AllocError> {
    let told = run_in(rt, folder, line)?;
    Ok(has_ended(&told, outcome(0, Why::Done, changes), out, b""))
}

#[test]
fn packages_are_listed_and_left(rt: HostRuntime) -> Result<(), Fail> {
    fs::create_dir_all(&rt, "listed")?;
    let file = database(rt.alloc())?;
    fs::write(&rt, "listed/Packages.db", file.as_slice())?;
    let is_listed = is_done(&rt, "listed", "rpm -qa", 0, b"a-1-2.x\n")?;
    let left = fs::read(&rt, "listed/Packages.db")?;
    fs::remove_dir_all(&rt, "listed")?;
    assert!(rt; is_listed && left.as_slice() == file.as_slice());
    Ok(())
}

#[test]
fn a_package_file_is_read(rt: HostRuntime) -> Result<(), Fail> {
    // A lead, a signature header without entries, and the header of the package.
    let lead: &[&[u8]] = &[b"\xed\xab\xee\xdb", &[0; 75], b"\x05", &[0; 16]];
    let start = joined(rt.alloc(), lead)?;
    let file = joined(rt.alloc(), &[&start, MAGIC, &[0; 8], MAGIC, HEADER])?;
    fs::write(&rt, "bare.rpm", file.as_slice())?;
    let is_read = is_done(&rt, "no such folder", "rpm -qp bare.rpm", 0, b"a-1-2.x\n")?;
    fs::remove_file(&rt, "bare.rpm")?;
    assert!(rt; is_read);
    Ok(())
}

// A line, how many changes it makes, and what it prints.
type Step<'a> = (&'a str, u32, &'a [u8]);

const STEPS: &[Step<'static>] = &[
    ("rpm --addpkg p1.rpm", 1, b""),
    ("rpm -qa", 0, b"a-1-2.x\n"),
    ("rpm -qp p1.rpm", 0, b"a-1-2.x\n"),
    ("rpm -q a", 0, b"a-1-2.x\n"),
    ("rpm --erasepkg 1", 1, b""),
];

// Whether each of these lines leaves in a folder what it leaves in memory, byte for byte.
fn all_leave_the_same(rt: &HostRuntime, folder: &str, file: &str) -> Result<bool, Fail> {
    let alloc = rt.alloc();
    let mut disk = MemDisk::new(alloc, &[], &[], &[])?;
    for &(line, changes, out) in STEPS {
        disk = run_on(alloc, line, disk)?.disk;
        let expected = disk.copy_file(alloc, File::Pkg)?;
        let is_done = is_done(rt, folder, line, changes, out)?;
        if !is_done || fs::read(rt, file)?.as_slice() != expected.as_slice() {
            return Ok(false);
        }
    }
    Ok(true)
}

#[test]
fn packages_are_added_and_erased(rt: HostRuntime) -> Result<(), Fail> {
    fs::create_dir_all(&rt, "anew")?;
    fs::write(&rt, "p1.rpm", package(rt.alloc())?.as_slice())?;
    let are_left = all_leave_the_same(&rt, "anew", "anew/Packages.db")?;
    let is_empty = is_done(&rt, "anew", "rpm -qa", 0, b"")?;
    fs::remove_file(&rt, "p1.rpm")?;
    fs::remove_dir_all(&rt, "anew")?;
    assert!(rt; are_left && is_empty);
    Ok(())
}

// Whether a question of the package ends so, with this on standard output.
fn answers(rt: &HostRuntime, line: &str, why: Why, out: &[u8]) -> Result<bool, AllocError> {
    let told = run_in(rt, "closed", line)?;
    Ok(told.outcome.why == why && told.out.bytes() == out)
}

#[test]
fn a_current_index_answers_where_nothing_can_be_written(rt: HostRuntime) -> Result<(), Fail> {
    let line = b"a-1-2.x\n".as_slice();
    fs::create_dir_all(&rt, "closed")?;
    fs::write(&rt, "closed/Packages.db", database(rt.alloc())?.as_slice())?;
    // No index can be made where its name leads nowhere, whatever rights the test has.
    symlink(&rt, "nowhere/Hindex.db", "closed/Hindex.db")?;
    let mut are_right = answers(&rt, "rpm -q a", Why::DiskFault, b"")?
        && answers(&rt, "rpm -q --noindex a", Why::Done, line)?;
    fs::remove_file(&rt, "closed/Hindex.db")?;
    are_right = are_right && answers(&rt, "rpm -q a", Why::Done, line)?;

    // Then the index is current, and all rights to write are taken away, and then that to read the names.
    for &(file, mode) in &[
        ("closed/Packages.db", 0o444),
        ("closed/Hindex.db", 0o444),
        ("closed", 0o555),
        ("closed", 0o111),
    ] {
        fs::set_permissions(&rt, file, fs::Permissions::from_mode(mode))?;
        are_right = are_right && answers(&rt, "rpm -q a", Why::Done, line)?;
    }
    fs::set_permissions(&rt, "closed", fs::Permissions::from_mode(0o755))?;
    let is_there = fs::exists(&rt, "closed/Hlog.db")?;
    fs::remove_dir_all(&rt, "closed")?;
    assert!(rt; are_right && !is_there);
    Ok(())
}

// The bytes of Packages.db and of Hlog.db, a line, and what `rpm -qa` prints after it.
type Partial<'a> = (&'a [u8], &'a [u8], &'a str, &'a [u8]);

// Whether a line and then a question of all packages are done on these two files, and the second prints this.
fn is_mended(rt: &HostRuntime, case: Partial<'_>) -> Result<bool, Fail> {
    let (packages, log, line, out) = case;
    fs::create_dir_all(rt, "mended")?;
    fs::write(rt, "mended/Packages.db", packages)?;
    fs::write(rt, "mended/Hlog.db", log)?;
    let told = run_in(rt, "mended", line)?;
    let is_listed = is_done(rt, "mended", "rpm -qa", 0, out)?;
    fs::remove_dir_all(rt, "mended")?;
    Ok(told.outcome.why == Why::Done && is_listed)
}

// The first bytes of a Packages.db: fewer than a unit.
const START: &[u8; 15] = b"RpmP\0\0\0\0\x01\0\0\0\x01\0\0";

// A log of one entry: of Packages.db the unit 1, of zeros.
const ZEROS: &[u8] = b"RpmL\x01\0\0\0\x01\0\0\0\x02\0\0\0\
    \x01\0\0\0\x01\0\0\0\x01\0\0\0\0\0\0\0\
    \0\0\0\0\0\0\0\0\0\0\0\0\0\0\0\0";

#[test]
fn a_transaction_is_finished_over_a_partial_unit(rt: HostRuntime) -> Result<(), Fail> {
    let alloc = rt.alloc();
    let pending = log(alloc)?;
    let whole = database(alloc)?;
    fs::write(&rt, "p2.rpm", package(alloc)?.as_slice())?;
    let one = b"a-1-2.x\n".as_slice();
    let two = b"a-1-2.x\na-1-2.x\n".as_slice();
    let mut are_mended = true;
    for length in 0..16usize {
        let torn = &START[..length];
        let mut longer = whole.as_slice().to_vec(alloc)?;
        longer.extend_from_slice(torn)?;
        are_mended = are_mended
            && is_mended(&rt, (torn, ZEROS, "rpmdb --initdb", b""))?
            && is_mended(&rt, (torn, &pending, "rpm -q a", one))?
            && is_mended(&rt, (&whole, torn, "rpm --addpkg p2.rpm", two))?
            && is_mended(&rt, (&longer, torn, "rpm --addpkg p2.rpm", two))?;
    }
    fs::remove_file(&rt, "p2.rpm")?;
    assert!(rt; are_mended);
    Ok(())
}
