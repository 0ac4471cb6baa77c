//! Requirements that are looked up, name by name.

ghost use Rattle.std.specs.Prelude.{◌≡◌, ◌==◌, false, IsTrue, IfOk, IfSome, slice_index};
ghost use Rattle.rpm_check.specs.Prelude.{AreOffered, CheckQuestion, FinMap, givers, HasKeptRows, is_met, IsAskable, KnowsNames, KnowsSources, nat_cmp, needed_in, Package, packages_in};

use crate::faults::CheckFault;
use crate::giving::givers;
use crate::hits::{any_hits, numbers_of_hits};
use crate::meeting::is_met;
use crate::names::Names;
use crate::offers::{Offer, is_path, offers_under};
use rpm_db::Db;
use rpm_outside::Disk;
use rpm_select::Recent;
use rpm_tags::Dependency;
use std::alloc::Global;

/// What is kept between requirements: the package that was read last for one, and the names that were looked up again.
#[derive(Drop)]
pub struct Sources {
    recent: Recent,
    names: Names,
}

impl Sources {
    pub fn new(alloc: Global) -> Sources
        ensures { (packages : FinMap nat_cmp Package) → KnowsSources packages result }
    {
        Sources {
            recent: Recent::new(),
            names: Names::new(alloc),
        }
    }
}

/// What the packages provide under a name, where that isn't a path, and is one that was looked up before: it is read
/// then, each package once, and isn't read again. It is taken out of the names.
fn offers_again<D: Disk>(
    alloc: Global,
    db: &Db,
    disk: &mut D,
    names: &mut Names,
    name: &[u8],
) -> Result<Option<Vec<Offer>>, CheckFault>
    requires asked { IsAskable D.Disk disk.old db.now }
    ensures told { IfOk result (λ found. IsTrue D.tells → HasKeptRows D.Disk disk.old db.now → KnowsNames (packages_in D.Disk disk.old db.now) names.old
        → AreOffered (packages_in D.Disk disk.old db.now) name.now found) }
    ensures plain { IfOk result (λ found. IfSome found (λ _. (slice_index name.now 0 == 47) ≡ false)) }
    ensures knows { IsTrue D.tells → HasKeptRows D.Disk disk.old db.now → KnowsNames (packages_in D.Disk disk.old db.now) names.old
        → KnowsNames (packages_in D.Disk disk.old db.now) names.new }
    ensures asks { CheckQuestion D.Disk disk.old disk.new db.now result }
{
    if is_path(name) {
        return Ok(None);
    }
    if let Some(offers) = names.take(name) {
        return Ok(Some(offers));
    }
    if !names.is_again(name) {
        return Ok(None);
    }
    let offers = offers_under(alloc, db, disk, name)?;
    Ok(Some(offers))
}

/// Whether a package meets a requirement, with the answers and faults of [`is_met`](crate::is_met). What the packages
/// provide under a name that was looked up before is read once.
pub fn is_met_by_name<D: Disk>(
    alloc: Global,
    db: &Db,
    disk: &mut D,
    sources: &mut Sources,
    needed: &Dependency<'_>,
) -> Result<bool, CheckFault>
    requires asked { IsAskable D.Disk disk.old db.now }
    ensures told { IfOk result (λ met. IsTrue D.tells → HasKeptRows D.Disk disk.old db.now
        → KnowsSources (packages_in D.Disk disk.old db.now) sources.old
        → met ≡ is_met (packages_in D.Disk disk.old db.now) (needed_in needed.now)) }
    ensures knows { IsTrue D.tells → HasKeptRows D.Disk disk.old db.now → KnowsSources (packages_in D.Disk disk.old db.now) sources.old
        → KnowsSources (packages_in D.Disk disk.old db.now) sources.new }
    ensures asks { CheckQuestion D.Disk disk.old disk.new db.now result }
{
    match offers_again(alloc, db, disk, &mut sources.names, needed.name)? {
        Some(offers) => {
            let met = any_hits(&offers, needed);
            sources.names.keep(alloc, needed.name, offers)?;
            Ok(met)
        }
        None => is_met(alloc, db, disk, &mut sources.recent, needed),
    }
}

/// The numbers of the packages that meet a requirement, with the answers and faults of [`givers`](crate::givers). What
/// the packages provide under a name that was looked up before is read once.
pub fn givers_by_name<D: Disk>(
    alloc: Global,
    db: &Db,
    disk: &mut D,
    sources: &mut Sources,
    needed: &Dependency<'_>,
) -> Result<Vec<u32>, CheckFault>
    requires asked { IsAskable D.Disk disk.old db.now }
    ensures told { IfOk result (λ numbers. IsTrue D.tells → HasKeptRows D.Disk disk.old db.now
        → KnowsSources (packages_in D.Disk disk.old db.now) sources.old
        → numbers.items ≡ givers (packages_in D.Disk disk.old db.now) (needed_in needed.now)) }
    ensures knows { IsTrue D.tells → HasKeptRows D.Disk disk.old db.now → KnowsSources (packages_in D.Disk disk.old db.now) sources.old
        → KnowsSources (packages_in D.Disk disk.old db.now) sources.new }
    ensures asks { CheckQuestion D.Disk disk.old disk.new db.now result }
{
    match offers_again(alloc, db, disk, &mut sources.names, needed.name)? {
        Some(offers) => {
            let numbers = numbers_of_hits(alloc, &offers, needed)?;
            sources.names.keep(alloc, needed.name, offers)?;
            Ok(numbers)
        }
        None => givers(alloc, db, disk, &mut sources.recent, needed),
    }
}
