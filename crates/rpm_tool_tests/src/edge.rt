//! Folders that have no name, aren't there, or have a link among the three names.

use crate::fixtures::{database, package};
use crate::runs::{has_ended, outcome, run_in};
use rpm_tool::Why;
use std::fs;
use std::os::unix::fs::symlink;
use std::test::Fail;

// Commands that need the database.
const LINES: &[&str] = &[
    "rpm -qa",
    "rpm -q a",
    "rpm -q --noindex a",
    "rpmdb --verifydb",
    "rpmdb --exportdb",
    "rpmdb --initdb",
    "rpmdb --rebuilddb",
    "rpmdb --exercise 1",
    "rpm --erasepkg 1",
];

#[test]
fn a_folder_without_a_name_is_no_database(rt: HostRuntime) -> Result<(), Fail> {
    let line = b"rpm: the database could not be read or written\n";
    let mut are_refused = true;
    for &words in LINES {
        let told = run_in(&rt, "", words)?;
        are_refused = are_refused && has_ended(&told, outcome(252, Why::DiskFault, 0), b"", line);
    }
    let is_there = fs::exists(&rt, "/Packages.db")? || fs::exists(&rt, "/Hlog.db")?;
    assert!(rt; are_refused && !is_there);
    Ok(())
}

// Questions, which need a folder that is there.
const QUESTIONS: &[&str] = &[
    "rpm -qa",
    "rpm -q a",
    "rpm -q --noindex a",
    "rpmdb --verifydb",
    "rpmdb --exportdb",
];

// A command that makes a database, and how many changes it makes.
const CHANGES: &[(&str, u32)] = &[
    ("rpmdb --initdb", 0),
    ("rpm --addpkg p3.rpm", 1),
    ("rpmdb --rebuilddb", 0),
    ("rpmdb --exercise 1", 1),
];

#[test]
fn a_folder_is_made_by_a_change_alone(rt: HostRuntime) -> Result<(), Fail> {
    let folder = "not/there/yet";
    let mut are_right = true;
    let refused = b"rpm: the database could not be read or written\n";
    for &line in QUESTIONS {
        let told = run_in(&rt, folder, line)?;
        let ending = outcome(252, Why::DiskFault, 0);
        are_right = are_right && has_ended(&told, ending, b"", refused) && !fs::exists(&rt, "not")?;
    }
    fs::write(&rt, "p3.rpm", package(rt.alloc())?.as_slice())?;
    for &(line, changes) in CHANGES {
        let told = run_in(&rt, folder, line)?;
        let is_made = fs::exists(&rt, "not/there/yet/Packages.db")?;
        are_right = are_right && told.outcome == outcome(0, Why::Done, changes) && is_made;
        fs::remove_dir_all(&rt, "not")?;
    }
    fs::remove_file(&rt, "p3.rpm")?;
    assert!(rt; are_right);
    Ok(())
}

// Links that lead to a file, or nowhere, and what a change leaves of one's target.
const LINKS: &[(&str, &str)] = &[
    ("full/Hindex.db", "nowhere"),
    ("full/Hindex.db", "../target"),
    ("full/Hlog.db", "nowhere"),
];

#[test]
fn a_change_that_may_not_write_all_files_does_nothing(rt: HostRuntime) -> Result<(), Fail> {
    let line = b"rpm: the database could not be read or written\n";
    let mut are_right = true;
    for &(name, target) in LINKS {
        fs::create_dir_all(&rt, "full")?;
        fs::write(&rt, "full/Packages.db", database(rt.alloc())?.as_slice())?;
        fs::write(&rt, "target", b"")?;
        symlink(&rt, target, name)?;
        let told = run_in(&rt, "full", "rpm --erasepkg 1")?;
        let is_refused = has_ended(&told, outcome(252, Why::DiskFault, 0), b"", line);
        fs::remove_file(&rt, name)?;
        // Nothing is left that a later command would make of it.
        let told = run_in(&rt, "full", "rpm -q a")?;
        let is_kept = has_ended(&told, outcome(0, Why::Done, 0), b"a-1-2.x\n", b"");
        let is_untouched = fs::read(&rt, "target")?.is_empty();
        are_right = are_right && is_refused && is_kept && is_untouched;
        fs::remove_dir_all(&rt, "full")?;
    }
    fs::remove_file(&rt, "target")?;
    assert!(rt; are_right);
    Ok(())
}
