//! The packages that a question picks, one at a time.

ghost use Rattle.std.specs.Prelude.{◌≡◌, ◌<◌, IsTrue, IsOk, IfOk, IfSome, Ok, ◌+◌, ◌-◌, ◌≤◌, false};
ghost use Rattle.rpm_select.specs.Prelude.{above, AnyIs, AsksPackages, asks_index, AsksIndex, cost_after, packages_cost_to, upper_end, IsNext, IsStrictlyIncreasing, IsStoreKept, IsIndexKept, keys_asked, OnlyReads, NextIs, NextWithin, number_in, packages_in, picks, Pkg, reach, reach_after, reach_to, reaches, ReadsOwn, Serves, These, unindexed_reach};
ghost use Rattle.rpm_select.specs.Frame.{HasKeptRows};

use crate::asking::numbers_asked;
use crate::picked::{PickFault, Picked, pick};
use crate::reach::Reach;
use crate::selection::Selection;
use rpm_db::Db;
use rpm_outside::{Disk, File};
use std::alloc::Global;
use std::marker::Model;
use std::mem::replace;

/// The way through the packages that a selection picks: the numbers that it goes over. Contracts see these. It holds
/// four bytes for each number that an index gave, and nothing where no index is asked; and the room of a package that
/// was read, for the next one.
#[derive(Drop)]
pub struct Picker {
    reach: Reach,
    room: Vec<u8>,
}

impl Model for Picker {
    ghost use Rattle.rpm_select.specs.inner.Reaching.{reach_of, AreNumbersRising};
    ghost use Rattle.rpm_select.specs.Reach as model;

    ghost Value = { model.Reach };

    ghost view = { λ s. reach_of s.reach };

    ghost invariant = { λ s. AreNumbersRising s.reach };
}

/// Whether an index is asked: one is kept, and the selection has keys.
fn asks(db: &Db, selection: &Selection<'_>) -> bool
    ensures { result ≡ asks_index db.now selection.now }
{
    match selection {
        Selection::All | Selection::Pattern(_) | Selection::Number(_) => false,
        _ => db.is_indexed(),
    }
}

/// A picker that asked no index.
fn unasked(alloc: Global, selection: &Selection<'_>) -> Picker
    ensures { result ≡ unindexed_reach selection.now }
{
    let reach = match selection {
        Selection::Number(number) => Reach::One(*number),
        _ => Reach::All,
    };
    Picker {
        reach,
        room: Vec::new(alloc),
    }
}

/// A picker over the numbers that an index gave.
fn over(alloc: Global, numbers: Vec<u32>) -> Picker
    requires { IsStrictlyIncreasing numbers.items }
    ensures { result ≡ These numbers.items }
{
    Picker {
        reach: Reach::These(numbers),
        room: Vec::new(alloc),
    }
}

impl Picker {
    /// The least number above this one that is gone over. So many are supposed to be passed, and are supposed the next
    /// time.
    pub(crate) fn next_number(&self, db: &Db, n: u32, supposed: &mut usize) -> Option<u32>
        ensures { IsNext (reaches self.now db.now) n result }
    {
        self.reach.next_above(db, n, supposed)
    }

    /// Begins to go through the packages that a selection picks. The other calls are for the same selection, and the
    /// database in the same state.
    ///
    /// Where an index is kept and the selection has keys, the candidates are looked up: it reads of `Hindex.db` 16
    /// bytes and the records of its bucket for each key, of which there are at most four. Otherwise nothing is read,
    /// and it answers Ok. No package is read.
    ///
    /// # Errors
    ///
    /// - `BadIndex` only where an index is kept, the selection has keys, and the chain of the bucket of one of them
    ///   isn't well formed: the unit of its first fault. It never comes where the index holds the rows of the
    ///   packages.
    /// - `DiskFault` only where the disk's count of faults rose.
    /// - `NoMemory` where the keys, what is found of them or the numbers find no memory.
    pub fn new<D: Disk>(
        alloc: Global,
        db: &Db,
        disk: &mut D,
        selection: &Selection<'_>,
    ) -> Result<Picker, PickFault>
        requires keeps_index { IsIndexKept D.Disk disk.old db.now }
        requires runs { db.now.stopped ≡ false }
        ensures begins { asks_index db.now selection.now ≡ false → IsOk result }
        ensures plain { asks_index db.now selection.now ≡ false → result ≡ Ok (unindexed_reach selection.now) }
        ensures unread { asks_index db.now selection.now ≡ false → OnlyReads D.Disk Pkg 0 disk.old disk.new }
        ensures asks { AsksIndex D.Disk (keys_asked selection.now) disk.old disk.new db.now result }
        ensures reach { IfOk result (λ picker. IsTrue D.tells → HasKeptRows D.Disk disk.old db.now
            → picker ≡ reach (asks_index db.now selection.now) selection.now (packages_in D.Disk disk.old db.now)) }
        ensures serves { IfOk result (λ picker. IsTrue D.tells → HasKeptRows D.Disk disk.old db.now
            → Serves picker (packages_in D.Disk disk.old db.now) selection.now) }
    {
        if !asks(db, selection) {
            return Ok(unasked(alloc, selection));
        }
        let numbers = numbers_asked(alloc, db, disk, selection)?;
        Ok(over(alloc, numbers))
    }

    /// Takes back a package that was picked and isn't needed any more: the next one is read into its room.
    pub fn take_back(&mut self, picked: Picked)
        ensures { self.new ≡ self.old }
    {
        if let Picked::Good { blob, .. } = picked {
            self.room = blob.into_bytes();
        }
    }

    /// The package that is picked with the least number above n, if this is at most `last`.
    fn next_within<D: Disk>(
        &mut self,
        alloc: Global,
        db: &Db,
        disk: &mut D,
        selection: &Selection<'_>,
        n: u32,
        last: u32,
    ) -> Result<Option<Picked>, PickFault>
        requires keeps { IsStoreKept D.Disk disk.old db.now }
        requires runs { db.now.stopped ≡ false }
        requires order { n ≤ last }
        ensures told { IsTrue D.tells → Serves self.old (packages_in D.Disk disk.old db.now) selection.now
            → NextWithin last (above n (picks (packages_in D.Disk disk.old db.now) selection.now)) result }
        ensures same { self.new ≡ self.old }
        ensures reads { D.bytes_read disk.new File.Pkg ≤ D.bytes_read disk.old File.Pkg
            + (reach_to (upper_end last result) self.old db.now - reach_to n self.old db.now) }
        ensures rises { IfOk result (λ o. IfSome o (λ picked. n < number_in picked)) }
        ensures up_to { IfOk result (λ o. IfSome o (λ picked. number_in picked ≤ last)) }
        ensures asks { AsksPackages D.Disk (packages_cost_to (upper_end last result) db.now - packages_cost_to n db.now) disk.old disk.new db.now result }
        ensures own { ReadsOwn selection.now db.now (D.bytes_read disk.old File.Pkg) (D.bytes_read disk.new File.Pkg) }
    {
        let mut room = replace(&mut self.room, Vec::new(alloc));
        let mut passed = n;
        let mut supposed = 0;
        while let Some(next) = self.next_number(db, passed, &mut supposed) {
            if next > last {
                break;
            }
            match pick(alloc, db, disk, selection, next, &mut room) {
                Ok(None) => passed = next,
                Ok(Some(picked)) => return Ok(Some(picked)),
                Err(fault) => return Err(fault),
            }
        }
        Ok(None)
    }

    /// The package that is picked with the least number above n; None exactly where there is none.
    ///
    /// Reads the blocks of the numbers that it goes over above n, up to the one that is given or all of them, each
    /// once: those of the candidates where an index was asked, and where the selection is a number those of that
    /// number alone. Each header is looked at, whatever the index says. Holds one package at a time, and parses its
    /// header once: the blob that it gives needs no other.
    ///
    /// # Errors
    ///
    /// - `DiskFault` only where the disk's count of faults rose.
    /// - `NoMemory` where a package or a label finds no memory.
    /// - It doesn't answer `BadIndex`: the index was asked before.
    pub fn next_after<D: Disk>(
        &mut self,
        alloc: Global,
        db: &Db,
        disk: &mut D,
        selection: &Selection<'_>,
        n: u32,
    ) -> Result<Option<Picked>, PickFault>
        requires keeps { IsStoreKept D.Disk disk.old db.now }
        requires runs { db.now.stopped ≡ false }
        ensures told { IsTrue D.tells → Serves self.old (packages_in D.Disk disk.old db.now) selection.now
            → NextIs (above n (picks (packages_in D.Disk disk.old db.now) selection.now)) result }
        ensures same { self.new ≡ self.old }
        ensures reads { D.bytes_read disk.new File.Pkg ≤ D.bytes_read disk.old File.Pkg + reach_after n self.old db.now result }
        ensures rises { IfOk result (λ o. IfSome o (λ picked. n < number_in picked)) }
        ensures asks { AsksPackages D.Disk (cost_after n db.now result) disk.old disk.new db.now result }
        ensures own { ReadsOwn selection.now db.now (D.bytes_read disk.old File.Pkg) (D.bytes_read disk.new File.Pkg) }
    {
        self.next_within(alloc, db, disk, selection, n, u32::MAX)
    }

    /// Whether some number from 1 to n is picked.
    ///
    /// Reads the blocks of the numbers that it goes over from 1 to n, up to the first that is picked, each once, as
    /// `next_after` does.
    ///
    /// # Errors
    ///
    /// Those of `next_after`, with the same causes.
    pub fn any_to<D: Disk>(
        &mut self,
        alloc: Global,
        db: &Db,
        disk: &mut D,
        selection: &Selection<'_>,
        n: u32,
    ) -> Result<bool, PickFault>
        requires keeps { IsStoreKept D.Disk disk.old db.now }
        requires runs { db.now.stopped ≡ false }
        ensures told { IsTrue D.tells → Serves self.old (packages_in D.Disk disk.old db.now) selection.now
            → AnyIs (above 0 (picks (packages_in D.Disk disk.old db.now) selection.now)) n result }
        ensures same { self.new ≡ self.old }
        ensures reads { D.bytes_read disk.new File.Pkg ≤ D.bytes_read disk.old File.Pkg + reach_to n self.old db.now }
        ensures asks { AsksPackages D.Disk (packages_cost_to n db.now) disk.old disk.new db.now result }
        ensures own { ReadsOwn selection.now db.now (D.bytes_read disk.old File.Pkg) (D.bytes_read disk.new File.Pkg) }
    {
        match self.next_within(alloc, db, disk, selection, 0, n) {
            Ok(found) => Ok(found.is_some()),
            Err(fault) => Err(fault),
        }
    }
}
