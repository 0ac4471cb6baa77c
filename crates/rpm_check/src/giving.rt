//! Which packages meet a requirement.

ghost use Rattle.std.specs.Prelude.{◌≡◌, map, IsTrue, IfOk};
ghost use Rattle.rpm_check.specs.Prelude.{CheckQuestion, givers, HasKeptRows, IsAskable, needed_in, packages_in, picks, Recalls};

use crate::faults::CheckFault;
use rpm_db::Db;
use rpm_outside::Disk;
use rpm_select::{Capability, Picker, Recent, Selection};
use rpm_tags::Dependency;
use std::alloc::Global;

/// The numbers of the packages that a selection picks, rising.
fn numbers_picked<D: Disk>(
    alloc: Global,
    db: &Db,
    disk: &mut D,
    recent: &mut Recent,
    selection: &Selection<'_>,
) -> Result<Vec<u32>, CheckFault>
    requires asked { IsAskable D.Disk disk.old db.now }
    ensures told { IfOk result (λ numbers. IsTrue D.tells → HasKeptRows D.Disk disk.old db.now
        → Recalls (packages_in D.Disk disk.old db.now) recent.old
        → numbers.items ≡ map (λ e. e.0) (picks (packages_in D.Disk disk.old db.now) selection.now)) }
    ensures recalls { IsTrue D.tells → Recalls (packages_in D.Disk disk.old db.now) recent.old
        → Recalls (packages_in D.Disk disk.old db.now) recent.new }
    ensures asks { CheckQuestion D.Disk disk.old disk.new db.now result }
{
    let picker = Picker::new(alloc, db, disk, selection)?;
    let mut numbers = Vec::new(alloc);
    let mut passed = 0;
    while let Some(next) = picker.next_number_after(alloc, db, disk, selection, recent, passed)? {
        numbers.push(next)?;
        passed = next;
    }
    Ok(numbers)
}

/// The numbers of the packages that meet a requirement, rising. Asks the index and reads as `is_met` does, but reads
/// each candidate.
///
/// # Errors
///
/// Those of `is_met`, with the same causes.
pub fn givers<D: Disk>(
    alloc: Global,
    db: &Db,
    disk: &mut D,
    recent: &mut Recent,
    needed: &Dependency<'_>,
) -> Result<Vec<u32>, CheckFault>
    requires asked { IsAskable D.Disk disk.old db.now }
    ensures told { IfOk result (λ numbers. IsTrue D.tells → HasKeptRows D.Disk disk.old db.now
        → Recalls (packages_in D.Disk disk.old db.now) recent.old
        → numbers.items ≡ givers (packages_in D.Disk disk.old db.now) (needed_in needed.now)) }
    ensures recalls { IsTrue D.tells → Recalls (packages_in D.Disk disk.old db.now) recent.old
        → Recalls (packages_in D.Disk disk.old db.now) recent.new }
    ensures asks { CheckQuestion D.Disk disk.old disk.new db.now result }
{
    let wanted = Capability::of_range(needed.name, needed.flags, needed.version);
    numbers_picked(alloc, db, disk, recent, &Selection::Provides(wanted))
}
