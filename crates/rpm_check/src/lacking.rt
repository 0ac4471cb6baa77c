//! The requirements of one package that are lacking.

ghost use Rattle.std.specs.Prelude.{◌≡◌, ◌++◌, length, IsTrue, IfOk, OnOk};
ghost use Rattle.rpm_check.specs.Prelude.{CheckQuestion, HasKeptRows, is_met, is_passed_over, IsAskable, KnowsOn, lacks, needed_in, packages_in, requirements, unmet_in};

use crate::faults::CheckFault;
use crate::list::Unmet;
use crate::looking::is_met_by_name;
use crate::memo::{Memo, Requirement};
use rpm_db::Db;
use rpm_header::View;
use rpm_outside::Disk;
use rpm_tags::{Dependency, Tags, dependencies, numbers, texts_in};
use std::alloc::Global;

pub const REQUIRES: Tags = Tags {
    names: numbers::REQUIRENAME,
    flags: numbers::REQUIREFLAGS,
    versions: numbers::REQUIREVERSION,
};

/// Whether a requirement isn't looked at: it names a feature of rpm itself, or it is a rich dependency.
fn is_passed_over(name: &[u8]) -> bool
    ensures { result ≡ is_passed_over name.now }
{
    name.starts_with(b"rpmlib(") || name.starts_with(b"(")
}

/// Whether a requirement is met, which is looked up once.
fn is_met_once<D: Disk>(
    alloc: Global,
    db: &Db,
    disk: &mut D,
    memo: &mut Memo,
    needed: &Dependency<'_>,
) -> Result<bool, CheckFault>
    requires asked { IsAskable D.Disk disk.old db.now }
    requires remembers { KnowsOn D.Disk disk.old db.now memo.old }
    ensures told { IfOk result (λ met. IsTrue D.tells → HasKeptRows D.Disk disk.old db.now
        → met ≡ is_met (packages_in D.Disk disk.old db.now) (needed_in needed.now)) }
    ensures remembered { KnowsOn D.Disk disk.old db.now memo.new }
    ensures asks { CheckQuestion D.Disk disk.old disk.new db.now result }
{
    let key = Requirement::of(alloc, needed)?;
    if let Some(known) = memo.get(&key) {
        return Ok(known);
    }
    let found = is_met_by_name(alloc, db, disk, &mut memo.sources, needed)?;
    memo.put(key, found)?;
    Ok(found)
}

/// Whether a requirement is lacking.
pub fn lacks<D: Disk>(
    alloc: Global,
    db: &Db,
    disk: &mut D,
    memo: &mut Memo,
    needed: &Dependency<'_>,
) -> Result<bool, CheckFault>
    requires asked { IsAskable D.Disk disk.old db.now }
    requires remembers { KnowsOn D.Disk disk.old db.now memo.old }
    ensures told { IfOk result (λ b. IsTrue D.tells → HasKeptRows D.Disk disk.old db.now
        → b ≡ lacks (packages_in D.Disk disk.old db.now) (needed_in needed.now)) }
    ensures remembered { KnowsOn D.Disk disk.old db.now memo.new }
    ensures asks { CheckQuestion D.Disk disk.old disk.new db.now result }
{
    if is_passed_over(needed.name) {
        return Ok(false);
    }
    let met = is_met_once(alloc, db, disk, memo, needed)?;
    Ok(!met)
}

/// How many requirements a package has.
pub fn required_count(view: &View<'_>) -> u32
    ensures { result ≡ length (requirements view.now) }
{
    match texts_in(view, numbers::REQUIRENAME) {
        None => 0,
        Some(texts) => texts.count(),
    }
}

/// Adds the requirements of a package that are lacking.
pub fn push_lacking<D: Disk>(
    alloc: Global,
    db: &Db,
    disk: &mut D,
    memo: &mut Memo,
    number: u32,
    view: &View<'_>,
    found: &mut Vec<Unmet>,
) -> Result<(), CheckFault>
    requires asked { IsAskable D.Disk disk.old db.now }
    requires remembers { KnowsOn D.Disk disk.old db.now memo.old }
    ensures told { OnOk result (IsTrue D.tells → HasKeptRows D.Disk disk.old db.now
        → found.new.items ≡ found.old.items ++ unmet_in (lacks (packages_in D.Disk disk.old db.now)) number
        (requirements view.now) 0) }
    ensures remembered { KnowsOn D.Disk disk.old db.now memo.new }
    ensures asks { CheckQuestion D.Disk disk.old disk.new db.now result }
{
    let mut left = dependencies(view, REQUIRES);
    for place in 0..required_count(view) {
        let Some(needed) = left.next() else {
            return Ok(());
        };
        if lacks(alloc, db, disk, memo, &needed)? {
            found.push(Unmet { number, place })?;
        }
    }
    Ok(())
}
