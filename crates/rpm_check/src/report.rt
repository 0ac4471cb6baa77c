//! All requirements that no package meets.

ghost use Rattle.std.specs.Prelude.{◌≡◌, ◌++◌, IsTrue, IfOk, OnOk};
ghost use Rattle.std.specs.FinMap as finite;
ghost use Rattle.rpm_check.specs.Prelude.{CheckQuestion, HasKeptRows, IsAskable, KnowsOn, lacks, packages_in, unmet, unmet_at};

use crate::faults::CheckFault;
use crate::lacking::push_lacking;
use crate::list::{Unmet, UnmetList};
use crate::memo::Memo;
use crate::package::read_header;
use rpm_db::Db;
use rpm_outside::Disk;
use std::alloc::Global;

/// Adds the requirements of a number's package that are lacking.
fn push_unmet<D: Disk>(
    alloc: Global,
    db: &Db,
    disk: &mut D,
    memo: &mut Memo,
    number: u32,
    room: &mut Vec<u8>,
    found: &mut Vec<Unmet>,
) -> Result<(), CheckFault>
    requires asked { IsAskable D.Disk disk.old db.now }
    requires remembers { KnowsOn D.Disk disk.old db.now memo.old }
    ensures told { OnOk result (IsTrue D.tells → HasKeptRows D.Disk disk.old db.now
        → found.new.items ≡ found.old.items ++ unmet_at (lacks (packages_in D.Disk disk.old db.now)) number
        (finite.get (packages_in D.Disk disk.old db.now) number)) }
    ensures remembered { KnowsOn D.Disk disk.old db.now memo.new }
    ensures asks { CheckQuestion D.Disk disk.old disk.new db.now result }
{
    match read_header(alloc, db, disk, number, room)? {
        Some(view) => push_lacking(alloc, db, disk, memo, number, &view, found),
        None => Ok(()),
    }
}

/// The requirements of the packages that no package meets, by rising number and place, each once.
///
/// A package that can't be read requires nothing and meets nothing. A requirement whose name begins with `rpmlib(` or
/// with `(` isn't looked at: the first names a feature of rpm itself, and the second is a rich dependency (own).
///
/// Reads the blocks of each package once, and looks each distinct requirement up once, as `is_met` does: what was
/// found of a name with these flags and this version is remembered, in order. So with an index it takes n log n steps
/// in the requirements, and reads beside them the candidates of each distinct one; of a name that comes in a third range
/// they are read once more, and then kept, in order: a further range takes log n steps in them. Holds the distinct
/// requirements, a package and the one that was read last for a requirement, which isn't read again for the next one,
/// what the packages provide under those names, and 8 bytes for each that is listed.
///
/// # Errors
///
/// - `BadIndex` only where an index is kept, and the chain of the bucket of a key isn't well formed: the unit of its
///   first fault. It never comes where the index holds the rows of the packages.
/// - `DiskFault` only where the disk's count of faults rose.
/// - `NoMemory` where a package, a requirement, what is found of it or the list finds no memory.
pub fn unmet<D: Disk>(alloc: Global, db: &Db, disk: &mut D) -> Result<UnmetList, CheckFault>
    requires asked { IsAskable D.Disk disk.old db.now }
    ensures told { IfOk result (λ list. IsTrue D.tells → HasKeptRows D.Disk disk.old db.now → list ≡ unmet (packages_in D.Disk disk.old db.now)) }
    ensures asks { CheckQuestion D.Disk disk.old disk.new db.now result }
{
    let mut memo = Memo::new(alloc);
    let mut room = Vec::new(alloc);
    let mut found = Vec::new(alloc);
    let mut passed = 0;
    while let Some(next) = db.next_above(passed) {
        push_unmet(alloc, db, disk, &mut memo, next, &mut room, &mut found)?;
        passed = next;
    }
    Ok(UnmetList::of(found))
}
