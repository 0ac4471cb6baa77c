//! A change that is being worked out.

ghost use Rattle.std.specs.Prelude.{◌≡◌, ℕ, ◌+◌, ◌*◌, ◌/◌, ◌%◌, ◌^◌, ◌≤◌, ◌<◌, IsTrue, length, List, Result, OnOk, IfErr, Err};
ghost use Rattle.rpm_hindex.specs.Prelude.{IsUnchanged, CanBegin, CanGo, CanStart, contains, DropOfOne, DropsRows, get, IsOngoing, Grows, HasAdded, hash_of, Idx, is_kept, IsChainFault, IsDropFault, IsFaultOf, IsFaulty, IsHonest, HasBuckets, IsOther, nat_cmp, one_row, Puts, ReadsAtOr, ReadsChain, ReadsOr, record_units};

use crate::chain::{Extent, is_link};
use crate::faults::{FindFault, PrepareFault};
use crate::patches::{put_unit, unlink, with_word, words_of};
use crate::piece::RowRef;
use crate::records::{bucket_of, push_record, record_units};
use crate::row_search::{Start, find_row};
use crate::spots::Spot;
use rpm_outside::{Disk, word};
use std::alloc::Global;
use std::collections::{BTreeMap, BTreeSet};

/// The units that change, the records after all others, the places of the records that were dropped, and the numbers
/// of unit 1.
#[derive(Drop)]
pub struct Change {
    pub extent: Extent,
    pub units: BTreeMap<u32, [u8; 16]>,
    pub dropped: BTreeSet<u32>,
    pub tail: Vec<u8>,
    pub records: u32,
    pub live: u32,
}

/// The fault of a change that a fault of reading is.
pub fn prepare_fault(fault: FindFault) -> PrepareFault
    ensures other { IsOther result }
    ensures fault { (said : Result (List ℕ) ℕ) → IsFaultOf said fault → IsChainFault said result }
    ensures same { (result ≡ PrepareFault.DiskFault → fault ≡ FindFault.DiskFault)
        × (fault ≡ FindFault.DiskFault → result ≡ PrepareFault.DiskFault) }
{
    match fault {
        FindFault::BadIndex { unit } => PrepareFault::BadIndex { unit },
        FindFault::DiskFault => PrepareFault::DiskFault,
        FindFault::NoMemory => PrepareFault::NoMemory,
    }
}

/// Puts a place among those that are dropped.
fn put_dropped(dropped: &mut BTreeSet<u32>, at: u32) -> Result<(), PrepareFault>
    ensures put { OnOk result (DropOfOne (λ q. contains nat_cmp dropped.old q) (λ q. contains nat_cmp dropped.new q) at) }
    ensures memory { IfErr result (λ e. e ≡ PrepareFault.NoMemory) }
{
    dropped.insert(at).map_err(|_| PrepareFault::NoMemory)?;
    Ok(())
}

/// Lets a bucket's next row be looked for after this spot's record.
fn put_start(starts: &mut BTreeMap<u32, Start>, bucket: u32, spot: Spot) -> Result<(), PrepareFault>
    ensures put { OnOk result (Puts (λ b. get nat_cmp starts.old b) (λ b. get nat_cmp starts.new b) bucket
        (record { before = spot.before; at = spot.behind })) }
    ensures memory { IfErr result (λ e. e ≡ PrepareFault.NoMemory) }
{
    let start = Start {
        before: spot.before,
        at: spot.behind,
    };
    starts
        .insert(bucket, start)
        .map_err(|_| PrepareFault::NoMemory)?;
    Ok(())
}

impl Change {
    /// Nothing changes yet.
    pub fn new(alloc: Global, extent: Extent, records: u32, live: u32) -> Change
        requires { CanBegin extent records live }
        ensures go { CanGo result }
        ensures begins { IsUnchanged extent records live result }
    {
        Change {
            extent,
            units: BTreeMap::new(alloc),
            dropped: BTreeSet::new(alloc),
            tail: Vec::new(alloc),
            records,
            live,
        }
    }

    /// Drops a record of this row, or nothing where there is none.
    pub fn drop_row<D: Disk>(
        &mut self,
        alloc: Global,
        disk: &mut D,
        starts: &mut BTreeMap<u32, Start>,
        row: RowRef<'_>,
    ) -> Result<(), PrepareFault>
        requires go { CanGo self.old }
        requires short { length row.key.now < 2 ^ 28 }
        requires open { IsTrue D.tells → HasBuckets self.old.extent (D.files disk.old).idx }
        requires starts { CanStart D.Disk disk.old self.old.extent (is_kept (λ p. contains nat_cmp self.old.dropped p))
            (λ b. get nat_cmp starts.old b) }
        ensures keeps { OnOk result (IsOngoing self.old self.new) }
        ensures other { IfErr result (λ e. IsOther e) }
        ensures starts { OnOk result (CanStart D.Disk disk.old self.old.extent
            (is_kept (λ p. contains nat_cmp self.new.dropped p)) (λ b. get nat_cmp starts.new b)) }
        ensures dropped { OnOk result (IsTrue D.tells → DropsRows (D.files disk.old).idx
            (one_row row.entry.kind row.entry.key.now row.entry.number row.entry.place) self.old self.new) }
        ensures refused { IfErr result (λ e. IsTrue D.tells → IsDropFault (D.files disk.old).idx
            (one_row row.entry.kind row.entry.key.now row.entry.number row.entry.place) self.old e) }
        ensures cost { ReadsChain D.Disk self.old.extent (hash_of row.entry.kind row.entry.key.now % self.old.extent.buckets) disk.old disk.new }
        ensures reads { ReadsAtOr D.Disk Idx (result ≡ Err PrepareFault.DiskFault) disk.old disk.new }
    {
        let bucket = bucket_of(row.kind, row.key, self.extent.buckets);
        let found = match find_row(alloc, disk, self.extent, bucket, &self.dropped, starts, row) {
            Ok(found) => found,
            Err(fault) => return Err(prepare_fault(fault)),
        };
        let spot = match found.spot {
            Some(spot) => spot,
            None => return Ok(()),
        };
        let units = record_units(row.key.len() as u32);
        if self.records == 0 || self.live < units {
            return Err(PrepareFault::BadIndex { unit: 1 });
        }
        unlink(&mut self.units, &found.words, self.extent, bucket, spot)?;
        put_start(starts, bucket, spot)?;
        self.records -= 1;
        self.live -= units;
        put_dropped(&mut self.dropped, spot.at)
    }

    /// The first unit after all records, those that were added too.
    pub fn used(&self) -> u32
        requires go { CanGo self.now }
        ensures { result ≡ self.now.extent.used + length self.now.tail.items / 16 }
    {
        self.extent.used + (self.tail.len() / 16) as u32
    }

    /// Adds a record of this row.
    pub fn add_row<D: Disk>(&mut self, disk: &mut D, row: RowRef<'_>) -> Result<(), PrepareFault>
        requires go { CanGo self.old }
        requires kind { row.kind < 16 }
        requires short { length row.key.now < 2 ^ 28 }
        requires room { self.old.extent.used + length self.old.tail.items / 16 + record_units (length row.key.now) ≤ 2 ^ 28 }
        requires count { self.old.records < 2 * self.old.extent.buckets }
        requires open { IsTrue D.tells → HasBuckets self.old.extent (D.files disk.old).idx }
        ensures grows { OnOk result (Grows self.old self.new 1 (record_units (length row.entry.key.now))) }
        ensures other { IfErr result (λ e. IsOther e) }
        ensures added { OnOk result (IsTrue D.tells → HasAdded (D.files disk.old).idx
            (one_row row.entry.kind row.entry.key.now row.entry.number row.entry.place) self.old self.new) }
        ensures bad { IfErr result (λ e. IsTrue D.tells → IsHonest self.old (D.files disk.old).idx
            → IsFaulty self.old.extent.buckets (D.files disk.old).idx e) }
        ensures reads { ReadsOr D.Disk Idx 16 (result ≡ Err PrepareFault.DiskFault) disk.old disk.new }
    {
        let bucket = bucket_of(row.kind, row.key, self.extent.buckets);
        let words = words_of(&self.units, disk, bucket)?;
        let used = self.used();
        let next = word(&words, (bucket % 4) as usize);
        let extent = Extent {
            buckets: self.extent.buckets,
            used,
        };
        if !is_link(extent, next) {
            return Err(PrepareFault::BadIndex {
                unit: 2 + bucket as u64 / 4,
            });
        }
        let Ok(()) = push_record(&mut self.tail, next, row) else {
            return Err(PrepareFault::NoMemory);
        };
        self.records += 1;
        self.live += record_units(row.key.len() as u32);
        put_unit(
            &mut self.units,
            2 + bucket / 4,
            with_word(&words, bucket % 4, used),
        )
    }
}
