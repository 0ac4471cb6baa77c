//! Going through all packages.

ghost use Rattle.std.specs.Prelude.{◌≡◌, IsTrue, true, false, OnOk, IfOk};
ghost use Rattle.rpm_filecheck.specs.Prelude.{FileQuestion, package_cost, packages_cost, IsStoreKept, no_files, packages_in, with_packages, with_some};
ghost use Rattle.std.specs.FinMap as finite;
ghost use Rattle.rpm_db.specs.Database as database;

use crate::fault::FileCheckFault;
use crate::found::Found;
use rpm_db::{Db, GetFault};
use rpm_outside::Disk;
use std::alloc::Global;
use std::mem::replace;

/// Adds the package of a number that is there. Reads its blocks, each once, into a vector of the caller's: one that
/// held a package before has its room already.
fn add_package<D: Disk>(
    alloc: Global,
    db: &Db,
    disk: &mut D,
    found: &mut Found,
    number: u32,
    room: &mut Vec<u8>,
) -> Result<(), FileCheckFault>
    requires keeps { IsStoreKept D.Disk disk.old db.now }
    requires runs { db.now.stopped ≡ false }
    requires there { database.holds number db.now ≡ true }
    ensures found { OnOk result (IsTrue D.tells → found.new ≡ with_some number (finite.get (packages_in D.Disk disk.old db.now) number) found.old) }
    ensures asks { FileQuestion D.Disk (package_cost number db.now) disk.old disk.new db.now result }
{
    match db.read_in(disk, number, replace(room, Vec::new(alloc))) {
        Ok(blob) => {
            found.add_blob(alloc, number, &blob)?;
            *room = blob;
        }
        Err(GetFault::NoSuch) => unreachable!(),
        Err(GetFault::Bad) => found.add_bad(number)?,
        Err(GetFault::DiskFault) => return Err(FileCheckFault::DiskFault),
        Err(GetFault::NoMemory) => return Err(FileCheckFault::NoMemory),
    }
    Ok(())
}

/// What is found in all packages. Reads the blocks of each, once.
pub fn gather<D: Disk>(alloc: Global, db: &Db, disk: &mut D) -> Result<Found, FileCheckFault>
    requires keeps { IsStoreKept D.Disk disk.old db.now }
    requires runs { db.now.stopped ≡ false }
    ensures found { IfOk result (λ found. IsTrue D.tells → found ≡ with_packages (finite.entries (packages_in D.Disk disk.old db.now)) no_files) }
    ensures asks { FileQuestion D.Disk (packages_cost db.now) disk.old disk.new db.now result }
{
    let mut found = Found::new(alloc);
    let mut room = Vec::new(alloc);
    let mut passed = 0;
    while let Some(number) = db.next_above(passed) {
        add_package(alloc, db, disk, &mut found, number, &mut room)?;
        passed = number;
    }
    Ok(found)
}
