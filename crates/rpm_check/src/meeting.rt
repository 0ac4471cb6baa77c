//! Whether one requirement is met.

ghost use Rattle.std.specs.Prelude.{◌≡◌, IsTrue, IfOk};
ghost use Rattle.rpm_check.specs.Prelude.{CheckQuestion, HasKeptRows, is_met, is_some_of, IsAskable, needed_in, packages_in, picks, Recalls};

use crate::faults::CheckFault;
use rpm_db::Db;
use rpm_outside::Disk;
use rpm_select::{Capability, Picker, Recent, Selection};
use rpm_tags::Dependency;
use std::alloc::Global;

/// Whether a selection picks a package.
fn picks_any<D: Disk>(
    alloc: Global,
    db: &Db,
    disk: &mut D,
    recent: &mut Recent,
    selection: &Selection<'_>,
) -> Result<bool, CheckFault>
    requires asked { IsAskable D.Disk disk.old db.now }
    ensures told { IfOk result (λ any. IsTrue D.tells → HasKeptRows D.Disk disk.old db.now
        → Recalls (packages_in D.Disk disk.old db.now) recent.old
        → any ≡ is_some_of (picks (packages_in D.Disk disk.old db.now) selection.now)) }
    ensures recalls { IsTrue D.tells → Recalls (packages_in D.Disk disk.old db.now) recent.old
        → Recalls (packages_in D.Disk disk.old db.now) recent.new }
    ensures asks { CheckQuestion D.Disk disk.old disk.new db.now result }
{
    let picker = Picker::new(alloc, db, disk, selection)?;
    let picked = picker.next_number_after(alloc, db, disk, selection, recent, 0)?;
    Ok(picked.is_some())
}

/// Whether a package meets a requirement: one that can be read provides its name in a range that overlaps, or has the
/// file of which it is the path.
///
/// Asks the index for the packages that provide the name, and for those with a file of its last part where it is a
/// path; of these it reads the blocks of each once, up to the first that meets it, but not those of the package that
/// was read last. Without an index it goes over all packages.
///
/// # Errors
///
/// - `BadIndex` only where an index is kept, and the chain of the bucket of a key isn't well formed: the unit of its
///   first fault. It never comes where the index holds the rows of the packages.
/// - `DiskFault` only where the disk's count of faults rose.
/// - `NoMemory` where what is found of the keys or a package finds no memory.
pub fn is_met<D: Disk>(
    alloc: Global,
    db: &Db,
    disk: &mut D,
    recent: &mut Recent,
    needed: &Dependency<'_>,
) -> Result<bool, CheckFault>
    requires asked { IsAskable D.Disk disk.old db.now }
    ensures told { IfOk result (λ met. IsTrue D.tells → HasKeptRows D.Disk disk.old db.now
        → Recalls (packages_in D.Disk disk.old db.now) recent.old
        → met ≡ is_met (packages_in D.Disk disk.old db.now) (needed_in needed.now)) }
    ensures recalls { IsTrue D.tells → Recalls (packages_in D.Disk disk.old db.now) recent.old
        → Recalls (packages_in D.Disk disk.old db.now) recent.new }
    ensures asks { CheckQuestion D.Disk disk.old disk.new db.now result }
{
    let wanted = Capability::of_range(needed.name, needed.flags, needed.version);
    picks_any(alloc, db, disk, recent, &Selection::Provides(wanted))
}
