//! The packages that an index has under the keys of a selection.

ghost use Rattle.std.specs.Prelude.{◌≡◌, ◌≢◌, ℕ, ◌++◌, ◌∷◌, [], IsTrue, false, map, Err, IfOk, IfErr, OnOk};
ghost use Rattle.rpm_select.specs.Prelude.{NumbersOfKey, AreWith, AsksIndex, DiskFault, HasIndex, HasRows, Idx, is_in, is_of_index, IsBrokenChain, IsStrictlyIncreasing, IsIndexKept, keys_asked, KeysCost, OnlyReadsFile, packages_in, rows};

use crate::asked::{Asked, keys_asked};
use crate::picked::PickFault;
use crate::selection::Selection;
use rpm_db::{Db, FindFault, Hits};
use rpm_outside::{Disk, File};
use std::alloc::{AllocError, Global};

/// Adds the numbers of hits.
#[tactic(auto, using(crate::proofs::Numbering::number_more, crate::proofs::Numbering::all_numbers))]
fn push_numbers(numbers: &mut Vec<u32>, hits: &Hits) -> Result<(), AllocError>
    ensures { OnOk result (numbers.new.items ≡ numbers.old.items ++ map (λ hit. hit.number) hits.now) }
{
    for i in 0..hits.len() {
        numbers.push(hits.at(i).number)?;
    }
    Ok(())
}

/// Adds the numbers of the hits of a key.
fn push_hits(numbers: &mut Vec<u32>, hits: &Hits) -> Result<(), PickFault>
    ensures adds { OnOk result (numbers.new.items ≡ numbers.old.items ++ map (λ hit. hit.number) hits.now) }
    ensures no_fault { result ≢ Err PickFault.DiskFault }
    ensures unbroken { IfErr result (λ fault. is_of_index fault ≡ false) }
{
    push_numbers(numbers, hits)?;
    Ok(())
}

/// Adds the numbers of the packages that have a key, each as often as it has it.
fn push_found<D: Disk>(
    alloc: Global,
    db: &Db,
    disk: &mut D,
    key: &Asked<'_>,
    numbers: &mut Vec<u32>,
) -> Result<(), PickFault>
    requires index { HasIndex D.Disk disk.old db.now }
    ensures adds { OnOk result (IsTrue D.tells → HasRows (packages_in D.Disk disk.old db.now) (D.files disk.old).idx
        → NumbersOfKey (rows (packages_in D.Disk disk.old db.now)) key.now numbers.old.items numbers.new.items) }
    ensures kept { IsIndexKept D.Disk disk.new db.now }
    ensures broken { IsTrue D.tells → IfErr result (IsBrokenChain (key.now ∷ []) (D.files disk.old).idx) }
    ensures lawful { IsTrue D.tells → HasRows (packages_in D.Disk disk.old db.now) (D.files disk.old).idx
        → IfErr result (λ fault. is_of_index fault ≡ false) }
    ensures cost { IsTrue D.tells → KeysCost (D.files disk.old).idx (key.now ∷ []) (D.bytes_read disk.old File.Idx) (D.bytes_read disk.new File.Idx) }
    ensures looks { OnlyReadsFile D.Disk Idx disk.old disk.new }
    ensures cause { DiskFault D.Disk (result ≡ Err PickFault.DiskFault) disk.old disk.new }
{
    match db.find(alloc, disk, key.kind(), key.bytes()) {
        Ok(hits) => push_hits(numbers, &hits),
        Err(FindFault::BadIndex { unit }) => Err(PickFault::BadIndex { unit }),
        Err(FindFault::DiskFault) => Err(PickFault::DiskFault),
        Err(FindFault::NoMemory) => Err(PickFault::NoMemory),
    }
}

/// The numbers of the packages that have one of some keys, as often as they have them.
fn found<D: Disk>(
    alloc: Global,
    db: &Db,
    disk: &mut D,
    keys: &[Asked<'_>],
) -> Result<Vec<u32>, PickFault>
    requires index { HasIndex D.Disk disk.old db.now }
    ensures with { IfOk result (λ numbers. IsTrue D.tells
        → HasRows (packages_in D.Disk disk.old db.now) (D.files disk.old).idx
        → AreWith (rows (packages_in D.Disk disk.old db.now)) keys.now numbers.items) }
    ensures kept { IsIndexKept D.Disk disk.new db.now }
    ensures broken { IsTrue D.tells → IfErr result (IsBrokenChain keys.now (D.files disk.old).idx) }
    ensures lawful { IsTrue D.tells → HasRows (packages_in D.Disk disk.old db.now) (D.files disk.old).idx
        → IfErr result (λ fault. is_of_index fault ≡ false) }
    ensures cost { IsTrue D.tells → KeysCost (D.files disk.old).idx keys.now (D.bytes_read disk.old File.Idx) (D.bytes_read disk.new File.Idx) }
    ensures looks { OnlyReadsFile D.Disk Idx disk.old disk.new }
    ensures cause { DiskFault D.Disk (result ≡ Err PickFault.DiskFault) disk.old disk.new }
{
    let mut numbers = Vec::new(alloc);
    let mut left = keys;
    while let [key, rest @ ..] = left {
        push_found(alloc, db, disk, key, &mut numbers)?;
        left = rest;
    }
    Ok(numbers)
}

/// Puts numbers in order, each once.
pub fn each_once(numbers: Vec<u32>) -> Vec<u32>
    ensures rising { IsStrictlyIncreasing result.items }
    ensures same { (n : ℕ) → is_in n result.items ≡ is_in n numbers.items }
{
    let mut numbers = numbers;
    numbers.sort_unstable();
    numbers.dedup();
    numbers
}

/// The numbers of the packages that have one of the keys of a selection, rising, each once.
///
/// Reads of `Hindex.db` 16 bytes and the records of its bucket for each key, and of `Packages.db` nothing.
pub fn numbers_asked<D: Disk>(
    alloc: Global,
    db: &Db,
    disk: &mut D,
    selection: &Selection<'_>,
) -> Result<Vec<u32>, PickFault>
    requires index { HasIndex D.Disk disk.old db.now }
    ensures rising { IfOk result (λ numbers. IsStrictlyIncreasing numbers.items) }
    ensures with { IfOk result (λ numbers. IsTrue D.tells
        → HasRows (packages_in D.Disk disk.old db.now) (D.files disk.old).idx
        → AreWith (rows (packages_in D.Disk disk.old db.now)) (keys_asked selection.now) numbers.items) }
    ensures asks { AsksIndex D.Disk (keys_asked selection.now) disk.old disk.new db.now result }
{
    let keys = keys_asked(alloc, selection)?;
    let numbers = found(alloc, db, disk, &keys)?;
    Ok(each_once(numbers))
}
