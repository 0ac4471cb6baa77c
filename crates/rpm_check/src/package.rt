//! The header of one package.

ghost use Rattle.std.specs.Prelude.{◌≡◌, IsTrue, is_some, IfOk};
ghost use Rattle.std.specs.FinMap as finite;
ghost use Rattle.rpm_check.specs.Prelude.{CheckQuestion, header_at, is_good_at, IsAskable, packages_in};

use crate::faults::CheckFault;
use rpm_db::{Db, GetFault};
use rpm_header::View;
use rpm_outside::Disk;
use std::alloc::Global;
use std::mem::replace;

/// The header of a number's package, if it can be read. Reads its blocks once, into a vector of the caller's: one that
/// held a package before has its room already.
pub fn read_header<'a, D: Disk>(
    alloc: Global,
    db: &Db,
    disk: &mut D,
    number: u32,
    room: &'a mut Vec<u8>,
) -> Result<Option<View<'a>>, CheckFault>
    requires asked { IsAskable D.Disk disk.old db.now }
    ensures good { IfOk result (λ read. IsTrue D.tells → is_some read ≡ is_good_at (finite.get (packages_in D.Disk disk.old db.now) number)) }
    ensures told { IfOk result (λ read. IsTrue D.tells → read ≡ header_at (finite.get (packages_in D.Disk disk.old db.now) number)) }
    ensures asks { CheckQuestion D.Disk disk.old disk.new db.now result }
{
    match db.read_in(disk, number, replace(room, Vec::new(alloc))) {
        Ok(blob) => {
            *room = blob;
            match View::parse(room) {
                Ok(view) => Ok(Some(view)),
                Err(_) => Ok(None),
            }
        }
        Err(GetFault::NoSuch | GetFault::Bad) => Ok(None),
        Err(GetFault::DiskFault) => Err(CheckFault::DiskFault),
        Err(GetFault::NoMemory) => Err(CheckFault::NoMemory),
    }
}
