//! Where the edges from one package end.

ghost use Rattle.std.specs.Prelude.{◌≡◌, ◌++◌, ℕ, IsTrue, is_some, Err, IfOk, IfSome, OnOk, OnErr};
ghost use Rattle.rpm_check.specs.Prelude.{CheckQuestion, flat_map, givers, HasKeptRows, is_good_at, is_in, IsAskable, IsStrictlyIncreasing, KnowsGiversOn, needed_in, needs_at, packages_in, requirements};
ghost use Rattle.std.specs.FinMap as finite;

use crate::faults::CheckFault;
use crate::giver_memo::GiverMemo;
use crate::lacking::REQUIRES;
use crate::looking::givers_by_name;
use crate::memo::Requirement;
use crate::package::read_header;
use rpm_db::Db;
use rpm_header::View;
use rpm_outside::Disk;
use rpm_select::each_once;
use rpm_tags::{Dependency, dependencies};
use std::alloc::Global;

/// Adds numbers after those that are there.
fn push_all(ends: &mut Vec<u32>, numbers: &[u32]) -> Result<(), CheckFault>
    ensures told { OnOk result (ends.new.items ≡ ends.old.items ++ numbers.now) }
    ensures refused { OnErr result (result ≡ Err CheckFault.NoMemory) }
{
    ends.extend_from_slice(numbers)?;
    Ok(())
}

/// Adds the numbers of the packages that meet a requirement, which are looked up once.
fn push_givers<D: Disk>(
    alloc: Global,
    db: &Db,
    disk: &mut D,
    memo: &mut GiverMemo,
    needed: &Dependency<'_>,
    ends: &mut Vec<u32>,
) -> Result<(), CheckFault>
    requires asked { IsAskable D.Disk disk.old db.now }
    requires remembers { KnowsGiversOn D.Disk disk.old db.now memo.old }
    ensures told { OnOk result (IsTrue D.tells → HasKeptRows D.Disk disk.old db.now
        → ends.new.items ≡ ends.old.items ++ givers (packages_in D.Disk disk.old db.now) (needed_in needed.now)) }
    ensures remembered { KnowsGiversOn D.Disk disk.old db.now memo.new }
    ensures asks { CheckQuestion D.Disk disk.old disk.new db.now result }
{
    let key = Requirement::of(alloc, needed)?;
    if let Some(known) = memo.get(&key) {
        return push_all(ends, known);
    }
    let found = givers_by_name(alloc, db, disk, &mut memo.sources, needed)?;
    push_all(ends, &found)?;
    memo.put(key, found)?;
    Ok(())
}

/// Adds the numbers of the packages that meet a requirement of a package.
fn push_ends<D: Disk>(
    alloc: Global,
    db: &Db,
    disk: &mut D,
    memo: &mut GiverMemo,
    view: &View<'_>,
    ends: &mut Vec<u32>,
) -> Result<(), CheckFault>
    requires asked { IsAskable D.Disk disk.old db.now }
    requires remembers { KnowsGiversOn D.Disk disk.old db.now memo.old }
    ensures told { OnOk result (IsTrue D.tells → HasKeptRows D.Disk disk.old db.now
        → ends.new.items
        ≡ ends.old.items ++ flat_map (givers (packages_in D.Disk disk.old db.now)) (requirements view.now)) }
    ensures remembered { KnowsGiversOn D.Disk disk.old db.now memo.new }
    ensures asks { CheckQuestion D.Disk disk.old disk.new db.now result }
{
    let mut left = dependencies(view, REQUIRES);
    while let Some(needed) = left.next() {
        push_givers(alloc, db, disk, memo, &needed, ends)?;
    }
    Ok(())
}

/// Adds the numbers of the packages that meet a requirement of a number's package, and tells whether that package can
/// be read. Reads its blocks once.
fn push_ends_of<D: Disk>(
    alloc: Global,
    db: &Db,
    disk: &mut D,
    memo: &mut GiverMemo,
    number: u32,
    room: &mut Vec<u8>,
    ends: &mut Vec<u32>,
) -> Result<bool, CheckFault>
    requires asked { IsAskable D.Disk disk.old db.now }
    requires remembers { KnowsGiversOn D.Disk disk.old db.now memo.old }
    ensures good { IfOk result (λ good. IsTrue D.tells → good ≡ is_good_at (finite.get (packages_in D.Disk disk.old db.now) number)) }
    ensures told { OnOk result (IsTrue D.tells → HasKeptRows D.Disk disk.old db.now
        → ends.new.items ≡ ends.old.items ++ flat_map (givers (packages_in D.Disk disk.old db.now))
        (needs_at (finite.get (packages_in D.Disk disk.old db.now) number))) }
    ensures remembered { KnowsGiversOn D.Disk disk.old db.now memo.new }
    ensures asks { CheckQuestion D.Disk disk.old disk.new db.now result }
{
    match read_header(alloc, db, disk, number, room)? {
        Some(view) => {
            push_ends(alloc, db, disk, memo, &view, ends)?;
            Ok(true)
        }
        None => Ok(false),
    }
}

/// The numbers of the packages that meet a requirement of a number's package, rising, each once; nothing where that
/// package can't be read.
pub fn ends_of<D: Disk>(
    alloc: Global,
    db: &Db,
    disk: &mut D,
    memo: &mut GiverMemo,
    number: u32,
    room: &mut Vec<u8>,
) -> Result<Option<Vec<u32>>, CheckFault>
    requires asked { IsAskable D.Disk disk.old db.now }
    requires remembers { KnowsGiversOn D.Disk disk.old db.now memo.old }
    ensures good { IfOk result (λ found. IsTrue D.tells → is_some found ≡ is_good_at (finite.get (packages_in D.Disk disk.old db.now) number)) }
    ensures rising { IfOk result (λ found. IfSome found (λ ends. IsStrictlyIncreasing ends.items)) }
    ensures told { IfOk result (λ found. IfSome found (λ ends. IsTrue D.tells → HasKeptRows D.Disk disk.old db.now
        → (m : ℕ) → is_in m ends.items ≡ is_in m (flat_map (givers (packages_in D.Disk disk.old db.now))
        (needs_at (finite.get (packages_in D.Disk disk.old db.now) number))))) }
    ensures remembered { KnowsGiversOn D.Disk disk.old db.now memo.new }
    ensures asks { CheckQuestion D.Disk disk.old disk.new db.now result }
{
    let mut ends = Vec::new(alloc);
    let good = push_ends_of(alloc, db, disk, memo, number, room, &mut ends)?;
    if good {
        Ok(Some(each_once(ends)))
    } else {
        Ok(None)
    }
}
