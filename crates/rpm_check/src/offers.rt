//! What the packages provide under one name.

ghost use Rattle.std.specs.Prelude.{◌≡◌, ◌==◌, ◌++◌, IsTrue, IfOk, map, OnOk, Some, slice_index};
ghost use Rattle.rpm_check.specs.Prelude.{AreOffered, CheckQuestion, entry_in, flat_map, given_ranges, HasKeptRows, IsAskable, offer_in, packages_in, picks, ranges_beside};

use crate::faults::CheckFault;
use crate::kinds::sort_offers;
use rpm_db::Db;
use rpm_header::View;
use rpm_outside::Disk;
use rpm_select::{Picked, Picker, Selection};
use rpm_tags::{Tags, dependencies, numbers};
use rpm_version::Capability;
use std::alloc::{AllocError, Global};

const PROVIDES: Tags = Tags {
    names: numbers::PROVIDENAME,
    flags: numbers::PROVIDEFLAGS,
    versions: numbers::PROVIDEVERSION,
};

/// One provide of a name: the number of its package, and the range of versions that it has.
#[derive(Drop)]
pub struct Offer {
    pub number: u32,
    pub flags: u64,
    pub version: Vec<u8>,
}

/// Whether a name is that of a file: it begins with a slash.
pub fn is_path(name: &[u8]) -> bool
    ensures { result ≡ (slice_index name.now 0 == 47) }
{
    !name.is_empty() && name[0] == b'/'
}

/// Adds what a header provides under a name, as that of a number's package.
fn push_offers(
    alloc: Global,
    number: u32,
    view: &View<'_>,
    name: &[u8],
    offers: &mut Vec<Offer>,
) -> Result<(), AllocError>
    ensures { OnOk result (map offer_in offers.new.items ≡ map offer_in offers.old.items ++ ranges_beside number name.now view.now) }
{
    let mut left = dependencies(view, PROVIDES);
    while let Some(provided) = left.next() {
        if provided.name == name {
            let version = Vec::from_slice(alloc, provided.version)?;
            let flags = provided.flags;
            offers.push(Offer {
                number,
                flags,
                version,
            })?;
        }
    }
    Ok(())
}

/// Adds what a package that was picked provides under a name: nothing where it can't be read.
fn push_picked(
    alloc: Global,
    picked: &Picked,
    name: &[u8],
    offers: &mut Vec<Offer>,
) -> Result<(), AllocError>
    ensures { OnOk result (map offer_in offers.new.items ≡ map offer_in offers.old.items ++ given_ranges name.now (entry_in picked.now)) }
{
    match picked {
        Picked::Good { number, blob } => push_offers(alloc, *number, &blob.view(), name, offers),
        Picked::Bad { .. } => Ok(()),
    }
}

/// What the packages that a selection picks provide under a name, by rising number. Reads each of them once.
fn offers_picked<D: Disk>(
    alloc: Global,
    db: &Db,
    disk: &mut D,
    selection: &Selection<'_>,
    name: &[u8],
) -> Result<Vec<Offer>, CheckFault>
    requires asked { IsAskable D.Disk disk.old db.now }
    ensures told { IfOk result (λ found. IsTrue D.tells → HasKeptRows D.Disk disk.old db.now
        → map offer_in found.items ≡ flat_map (given_ranges name.now) (picks (packages_in D.Disk disk.old db.now) selection.now)) }
    ensures asks { CheckQuestion D.Disk disk.old disk.new db.now result }
{
    let mut picker = Picker::new(alloc, db, disk, selection)?;
    let mut found = Vec::new(alloc);
    let mut passed = 0;
    while let Some(next) = picker.next_after(alloc, db, disk, selection, passed)? {
        push_picked(alloc, &next, name, &mut found)?;
        passed = next.number();
        picker.take_back(next);
    }
    Ok(found)
}

/// What the packages provide under a name that isn't a path, in the order in which it is searched. Reads each that
/// provides it once.
pub fn offers_under<D: Disk>(
    alloc: Global,
    db: &Db,
    disk: &mut D,
    name: &[u8],
) -> Result<Vec<Offer>, CheckFault>
    requires asked { IsAskable D.Disk disk.old db.now }
    ensures told { IfOk result (λ found. IsTrue D.tells → HasKeptRows D.Disk disk.old db.now
        → AreOffered (packages_in D.Disk disk.old db.now) name.now (Some found)) }
    ensures asks { CheckQuestion D.Disk disk.old disk.new db.now result }
{
    let wanted = Capability::of_range(name, 0, &[]);
    let mut found = offers_picked(alloc, db, disk, &Selection::Provides(wanted), name)?;
    sort_offers(&mut found);
    Ok(found)
}
