//! Opening the database to change it.

ghost use Rattle.std.specs.Prelude.{◌≡◌, false, not, IsTrue, Err, IfOk, IfErr, OnOk};
ghost use Rattle.rpm_commit.specs.Prelude.{BeginsOn, DiskFault, images, is_blank_database, is_indexed, IsOfOpening, IsOutside, IsDurable, OpensBy, OpensOn, Runs, SameLog, Serving, store};

use rpm_db::{ChangeFault, Db};
use rpm_effects::{Why, why_of_open};
use rpm_outside::{Disk, File};
use std::alloc::Global;

/// Makes a database where there is none, without packages.
fn make_blank<D: Disk>(alloc: Global, db: &mut Db, disk: &mut D) -> Result<(), Why>
    requires going { db.old.stopped ≡ false }
    requires indexed { is_indexed db.old ≡ not (is_blank_database db.old) }
    requires serving { Serving D.Disk disk.old db.old }
    requires pkg { IsTrue D.tells → IsDurable File.Pkg (D.files disk.old) (images D.Disk disk.old) }
    ensures begins { OnOk result (BeginsOn D.Disk disk.old disk.new db.old db.new) }
    ensures fault { IfErr result IsOutside }
    ensures runs { Runs D.Disk SameLog disk.old disk.new }
    ensures disk { DiskFault D.Disk (result ≡ Err Why.DiskFault) disk.old disk.new }
{
    match db.init(alloc, disk) {
        Ok(true) => Ok(()),
        Ok(false) => Ok(()),
        Err(ChangeFault::DiskFault) => Err(Why::DiskFault),
        Err(ChangeFault::NoMemory) => Err(Why::NoMemory),
        Err(_) => unreachable!(),
    }
}

/// Opens the database with its index, to change it; where there is none, one is made.
pub(crate) fn open_to_change<D: Disk>(alloc: Global, disk: &mut D) -> Result<Db, Why>
    ensures found { IsTrue D.tells → OpensBy (D.files disk.old) (store (D.files disk.old).pkg) (D.files disk.new) result }
    ensures opens { IfOk result (OpensOn D.Disk disk.old disk.new) }
    ensures fault { IfErr result IsOfOpening }
    ensures runs { Runs D.Disk SameLog disk.old disk.new }
    ensures disk { DiskFault D.Disk (result ≡ Err Why.DiskFault) disk.old disk.new }
{
    let mut db = match Db::open(alloc, disk) {
        Ok(db) => db,
        Err(fault) => return Err(why_of_open(fault)),
    };
    make_blank(alloc, &mut db, disk)?;
    Ok(db)
}
