//! Disks beside each other on the files of one folder, as processes have them: locks, links, and what is no plain file.

use crate::watched::Watched;
use rpm_outside::{Absent, Disk, Failed, File, Shelf};
use rpm_real::{Obstacle, Purpose, RealDisk, RealShelf};
use std::fs;
use std::os::unix::fs::symlink;
use std::test::Fail;

const UNIT: [u8; 16] = *b"RpmP\0\0\0\0\x01\0\0\0\x01\0\0\0";

// Makes a folder with a Packages.db of one unit.
fn make_folder(rt: &HostRuntime, folder: &str) -> Result<(), Fail> {
    fs::create_dir_all(rt, folder)?;
    fs::write(
        rt,
        format!(in rt.alloc(); "{folder}/Packages.db")?.as_str(),
        &UNIT,
    )?;
    Ok(())
}

#[test]
fn of_two_changes_one_goes_on(rt: HostRuntime) -> Result<(), Fail> {
    make_folder(&rt, "two")?;
    let watched = Watched::new(&rt);
    let mut first = RealDisk::new(rt.alloc(), &watched, "two", Purpose::Change)?;
    let begun = first.len(File::Pkg);
    let mut second = RealDisk::new(rt.alloc(), &watched, "two", Purpose::Change)?;
    let unread = second.len(File::Pkg);
    let refused = second.write_at(File::Log, 0, &UNIT);
    let obstacle = second.obstacle();
    let written = first.write_at(File::Log, 0, &UNIT);
    drop(first);
    let mut third = RealDisk::new(rt.alloc(), &watched, "two", Purpose::Change)?;
    let length = third.len(File::Log);
    fs::remove_dir_all(&rt, "two")?;
    assert!(rt;
        begun == Ok(1)
            && unread == Err(Failed)
            && refused == Err(Failed)
            && obstacle == Some(Obstacle::Busy)
            && written == Ok(())
            && length == Ok(1)
    );
    Ok(())
}

#[test]
fn a_change_waits_for_questions_before_it_writes(rt: HostRuntime) -> Result<(), Fail> {
    make_folder(&rt, "asked")?;
    let watched = Watched::new(&rt);
    let mut change = RealDisk::new(rt.alloc(), &watched, "asked", Purpose::Change)?;
    let mut question = RealDisk::new(rt.alloc(), &watched, "asked", Purpose::Plain)?;
    let begun = change.len(File::Pkg);
    let asked = question.len(File::Pkg);
    let refused = change.write_at(File::Log, 0, &UNIT);
    let obstacle = change.obstacle();
    let log = fs::read(&rt, "asked/Hlog.db")?;
    drop(question);
    let written = change.write_at(File::Log, 0, &UNIT);
    let mut late = RealDisk::new(rt.alloc(), &watched, "asked", Purpose::Plain)?;
    let unanswered = late.len(File::Pkg);
    let cause = late.obstacle();
    fs::remove_dir_all(&rt, "asked")?;
    assert!(rt;
        begun == Ok(1)
            && asked == Ok(1)
            && refused == Err(Failed)
            && obstacle == Some(Obstacle::Busy)
            && log.is_empty()
            && written == Ok(())
            && unanswered == Err(Failed)
            && cause == Some(Obstacle::Busy)
    );
    Ok(())
}

#[test]
fn a_question_by_key_is_answered_beside_a_change(rt: HostRuntime) -> Result<(), Fail> {
    make_folder(&rt, "keyed")?;
    let watched = Watched::new(&rt);
    let mut change = RealDisk::new(rt.alloc(), &watched, "keyed", Purpose::Change)?;
    let begun = change.len(File::Pkg);
    let mut question = RealDisk::new(rt.alloc(), &watched, "keyed", Purpose::Keyed)?;
    let synced = question.sync(File::Pkg);
    let read = question.len(File::Pkg);
    // It has no right to write while the change goes on.
    let refused = question.write_at(File::Idx, 0, &UNIT);
    let is_made = fs::exists(&rt, "keyed/Hindex.db")?;
    fs::remove_dir_all(&rt, "keyed")?;
    assert!(rt;
        begun == Ok(1)
            && synced == Ok(())
            && read == Ok(1)
            && refused == Err(Failed)
            && question.obstacle() == Some(Obstacle::Busy)
            && !is_made
    );
    Ok(())
}

#[test]
fn what_another_program_changed_is_not_written_over(rt: HostRuntime) -> Result<(), Fail> {
    make_folder(&rt, "foreign")?;
    let mut change = RealDisk::new(rt.alloc(), &rt, "foreign", Purpose::Change)?;
    let begun = change.len(File::Pkg);
    // Who takes no lock, or took it between the two of this change: the generation is another one.
    let mut raised = UNIT;
    raised[8] = 2;
    fs::write(&rt, "foreign/Packages.db", &raised)?;
    let refused = change.write_at(File::Log, 0, &UNIT);
    let log = fs::read(&rt, "foreign/Hlog.db")?;
    let packages = fs::read(&rt, "foreign/Packages.db")?;
    fs::remove_dir_all(&rt, "foreign")?;
    assert!(rt;
        begun == Ok(1)
            && refused == Err(Failed)
            && change.obstacle() == Some(Obstacle::Busy)
            && log.is_empty()
            && packages.as_slice() == raised.as_slice()
    );
    Ok(())
}

const FILES: [(File, &str, &str); 3] = [
    (File::Pkg, "Packages.db", "odd/Packages.db"),
    (File::Idx, "Hindex.db", "odd/Hindex.db"),
    (File::Log, "Hlog.db", "odd/Hlog.db"),
];

#[test]
fn nothing_is_written_through_a_link(rt: HostRuntime) -> Result<(), Fail> {
    let mut are_right = true;
    for &(file, name, path) in &FILES {
        make_folder(&rt, "odd")?;
        fs::write(&rt, "target", &UNIT)?;
        let _ = fs::remove_file(&rt, path);
        symlink(&rt, "../target", path)?;
        let mut disk = RealDisk::new(rt.alloc(), &rt, "odd", Purpose::Change)?;
        // A link is read, and each write of the log is refused, since all files would have to be written after it.
        let read = disk.len(file);
        let unlogged = disk.write_at(File::Log, 0, &[7; 16]);
        let refused = disk.write_at(file, 0, &[7; 16]);
        let target = fs::read(&rt, "target")?;
        are_right = are_right
            && read == Ok(1)
            && unlogged == Err(Failed)
            && refused == Err(Failed)
            && disk.obstacle() == Some(Obstacle::NoPlainFile(name))
            && target.as_slice() == UNIT.as_slice();
        fs::remove_dir_all(&rt, "odd")?;
    }
    fs::remove_file(&rt, "target")?;
    assert!(rt; are_right);
    Ok(())
}

#[test]
fn what_is_no_plain_file_is_refused(rt: HostRuntime) -> Result<(), Fail> {
    let mut are_right = true;
    for &(file, name, path) in &FILES {
        make_folder(&rt, "odd")?;
        let _ = fs::remove_file(&rt, path);
        fs::create_dir(&rt, path)?;
        let mut disk = RealDisk::new(rt.alloc(), &rt, "odd", Purpose::Plain)?;
        let refused = disk.len(file) == Err(Failed);
        are_right = are_right && refused && disk.obstacle() == Some(Obstacle::NoPlainFile(name));
        fs::remove_dir(&rt, path)?;
        // A link that leads nowhere is no file that isn't there yet.
        symlink(&rt, "nowhere", path)?;
        let mut disk = RealDisk::new(rt.alloc(), &rt, "odd", Purpose::Change)?;
        let refused = disk.len(file) == Err(Failed);
        are_right = are_right && refused && disk.obstacle() == Some(Obstacle::NoPlainFile(name));
        fs::remove_dir_all(&rt, "odd")?;
    }
    assert!(rt; are_right);
    Ok(())
}

const OTHERS: [&str; 2] = ["rpmdb.sqlite", "Packages"];

const PURPOSES: [Purpose; 3] = [Purpose::Plain, Purpose::Keyed, Purpose::Change];

#[test]
fn another_kind_of_database_is_named(rt: HostRuntime) -> Result<(), Fail> {
    let alloc = rt.alloc();
    let mut are_right = true;
    for &other in &OTHERS {
        fs::create_dir_all(&rt, "other")?;
        fs::write(&rt, format!(in alloc; "other/{other}")?.as_str(), b"")?;
        for &purpose in &PURPOSES {
            let mut disk = RealDisk::new(alloc, &rt, "other", purpose)?;
            let unread = disk.len(File::Pkg);
            let refused = disk.write_at(File::Log, 0, &UNIT);
            are_right = are_right
                && unread == Err(Failed)
                && refused == Err(Failed)
                && disk.obstacle() == Some(Obstacle::OtherDatabase(other))
                && !fs::exists(&rt, "other/Hlog.db")?;
        }
        fs::remove_dir_all(&rt, "other")?;
    }
    let mut question = RealDisk::new(alloc, &rt, "other", Purpose::Keyed)?;
    let refused = question.len(File::Pkg);
    assert!(rt;
        are_right && refused == Err(Failed) && question.obstacle() == Some(Obstacle::NoFolder)
    );
    Ok(())
}

#[test]
fn a_folder_is_no_item_of_a_shelf(rt: HostRuntime) -> Result<(), Fail> {
    fs::create_dir_all(&rt, "layer")?;
    let mut shelf = RealShelf::new(rt.alloc(), &rt);
    let opened = shelf.open("layer");
    fs::remove_dir_all(&rt, "layer")?;
    assert!(rt; opened == Err(Absent));
    Ok(())
}
