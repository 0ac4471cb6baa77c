//! Working out a change of the index.

ghost use Rattle.std.specs.Prelude.{◌≡◌, ℕ, ◌+◌, ◌*◌, ◌^◌, ◌≤◌, IsTrue, true, length, [], IfOk, IfErr, Err};
ghost use Rattle.rpm_hindex.specs.Prelude.{buckets_of, CanGo, CanWrite, chains_bytes, contains, HasUnitsFor, Idx, index_in, is_bucket_count, is_in_order, is_kept, IsFreshChange, IsHonest, HasBuckets, IsPrepared, IsStarted, IsUnprepared, IsWellFormed, KeepsIndexValue, nat_cmp, ReadsAtOr, records, StaysInPlace, StaysWithin, Units};

use crate::change::Change;
use crate::faults::PrepareFault;
use crate::index::Hindex;
use crate::kept_rows::drop_rows;
use crate::plan::{IndexPlan, add_rows, from_scratch, has_room, in_place};
use crate::records::{UNITS, index_units};
use crate::rows::{Rows, copy_of};
use rpm_outside::{Disk, word};
use std::alloc::Global;

impl Hindex {
    /// Whether the rows that the index holds, with these, surely need no more than 268435456 units in one made from
    /// scratch, by what unit 1 counts. Reads nothing.
    pub fn has_room_for(&self, adds: &Rows) -> bool
        ensures { result ≡ true → (file : Units) → KeepsIndexValue file self.now
            → IsWellFormed (buckets_of self.now.first) file
            → HasUnitsFor [] adds.now (records (buckets_of self.now.first) file) }
    {
        if adds.live() > UNITS {
            return false;
        }
        let records = word(&self.second, 1) as u64 + adds.len() as u64;
        let live = word(&self.second, 2) as u64 + adds.live();
        index_units(records, live) <= UNITS
    }

    /// No change yet.
    fn start(&self, alloc: Global) -> Change
        requires order { is_in_order self.now ≡ true }
        ensures go { CanGo result }
        ensures tail { length result.tail.items ≡ 0 }
        ensures count { is_bucket_count result.extent.buckets ≡ true }
        ensures fits { result.extent.used ≤ self.now.units }
        ensures buckets { result.extent.buckets ≡ buckets_of self.now.first }
        ensures dropped { (p : ℕ) → is_kept (λ q. contains nat_cmp result.dropped q) p ≡ true }
        ensures whole { (file : Units) → KeepsIndexValue file self.now → IsWellFormed (buckets_of self.now.first) file → IsStarted result file }
        ensures honest { (file : Units) → KeepsIndexValue file self.now → IsHonest result file }
        ensures fresh { (file : Units) → KeepsIndexValue file self.now → IsFreshChange result file }
        ensures open { (file : Units) → KeepsIndexValue file self.now → HasBuckets result.extent file }
    {
        let records = word(&self.second, 1);
        let live = word(&self.second, 2);
        Change::new(alloc, self.extent(), records, live)
    }

    /// Works out a change of the index, as `prepare` does, which is made in place only where so many units are enough.
    pub(crate) fn prepare_within<D: Disk>(
        &self,
        alloc: Global,
        disk: &mut D,
        drops: &Rows,
        adds: Rows,
        limit: u64,
    ) -> Result<IndexPlan, PrepareFault>
        requires limit { limit ≤ 2 ^ 28 }
        requires order { is_in_order self.now ≡ true }
        requires keeps { IsTrue D.tells → KeepsIndexValue (D.files disk.old).idx self.now }
        ensures can { IfOk result (λ plan. CanWrite self.now.units plan.work) }
        ensures prepared { IfOk result (λ plan. IsPrepared D.Disk disk.old self.now drops.now adds plan.work) }
        ensures refused { IfErr result (IsUnprepared D.Disk disk.old self.now drops.now adds) }
        ensures cost { IsTrue D.tells → IsWellFormed (buckets_of self.now.first) (D.files disk.old).idx
            → StaysWithin limit drops.now adds (buckets_of self.now.first) (D.files disk.old).idx
            → D.bytes_read disk.new Idx ≤ D.bytes_read disk.old Idx + chains_bytes
            (index_in (buckets_of self.now.first) (D.files disk.old).idx) drops.now + 16 * length adds }
        ensures reads { ReadsAtOr D.Disk Idx (result ≡ Err PrepareFault.DiskFault) disk.old disk.new }
    {
        let mut change = self.start(alloc);
        drop_rows(alloc, disk, &mut change, drops)?;
        if !has_room(&change, &adds, limit) {
            return from_scratch(alloc, disk, &change, adds);
        }
        add_rows(disk, &mut change, &adds)?;
        in_place(alloc, change)
    }

    /// Works out a change of the index: drops a record of each of these rows, where there is one, and then adds
    /// records. Writes nothing, and takes all memory that the change needs. Where the index is made from scratch, the
    /// added rows are freed as their records are made.
    ///
    /// Drops the last row first, and looks for each after the one of its bucket that was dropped before it; only
    /// where it isn't there, from the front of the chain as far as that one. So the rows of a package, which stand in
    /// their chains in the other order than it added them, are found in one pass: those of one bucket cost the
    /// records from its front to the last of them once, and not for each row.
    ///
    /// Reads of each dropped row's bucket 16 bytes, of the records on the way to the row's own 16 bytes each and the
    /// keys of those that have the row's number and place, and 16 bytes for each added row; and all chains, where the
    /// index must be made from scratch: where it would have more than two records a bucket, more than 268435456
    /// units, or more units without records than with. A fault of a chain after the row's record, or in a key that
    /// isn't read, isn't met, unless all chains are read. Where one is met, that chain is read anew from its front.
    ///
    /// # Errors
    ///
    /// - `BadIndex` only where `unit` is the first fault of a bucket's chain, or is 1, where unit 1 counts less than
    ///   the chains hold, and less than the change drops.
    /// - `IndexFull` where the rows after the change, made from scratch, need more than 268435456 units, and of a
    ///   well-formed file only there: `needed` of them.
    /// - `DiskFault` only where the disk's count of faults rose.
    /// - `NoMemory` where the change finds no memory, or the keys of the rows after it have 4 GiB.
    pub fn prepare_owned<D: Disk>(
        &self,
        alloc: Global,
        disk: &mut D,
        drops: &Rows,
        adds: Rows,
    ) -> Result<IndexPlan, PrepareFault>
        requires order { is_in_order self.now ≡ true }
        requires keeps { IsTrue D.tells → KeepsIndexValue (D.files disk.old).idx self.now }
        ensures can { IfOk result (λ plan. CanWrite self.now.units plan.work) }
        ensures prepared { IfOk result (λ plan. IsPrepared D.Disk disk.old self.now drops.now adds plan.work) }
        ensures refused { IfErr result (IsUnprepared D.Disk disk.old self.now drops.now adds) }
        ensures cost { IsTrue D.tells → IsWellFormed (buckets_of self.now.first) (D.files disk.old).idx
            → StaysInPlace drops.now adds (buckets_of self.now.first) (D.files disk.old).idx
            → D.bytes_read disk.new Idx ≤ D.bytes_read disk.old Idx + chains_bytes
            (index_in (buckets_of self.now.first) (D.files disk.old).idx) drops.now + 16 * length adds }
        ensures reads { ReadsAtOr D.Disk Idx (result ≡ Err PrepareFault.DiskFault) disk.old disk.new }
    {
        self.prepare_within(alloc, disk, drops, adds, UNITS)
    }

    /// Works out a change of the index, as `prepare_owned` does, of a copy of the added rows. It is for other
    /// programs: of the crates here the tests alone call it.
    ///
    /// # Errors
    ///
    /// Those of `prepare_owned`; `NoMemory` also where the copy finds no memory.
    pub fn prepare<D: Disk>(
        &self,
        alloc: Global,
        disk: &mut D,
        drops: &Rows,
        adds: &Rows,
    ) -> Result<IndexPlan, PrepareFault>
        requires order { is_in_order self.now ≡ true }
        requires keeps { IsTrue D.tells → KeepsIndexValue (D.files disk.old).idx self.now }
        ensures can { IfOk result (λ plan. CanWrite self.now.units plan.work) }
        ensures prepared { IfOk result (λ plan. IsPrepared D.Disk disk.old self.now drops.now adds.now plan.work) }
        ensures refused { IfErr result (IsUnprepared D.Disk disk.old self.now drops.now adds.now) }
        ensures cost { IsTrue D.tells → IsWellFormed (buckets_of self.now.first) (D.files disk.old).idx
            → StaysInPlace drops.now adds.now (buckets_of self.now.first) (D.files disk.old).idx
            → D.bytes_read disk.new Idx ≤ D.bytes_read disk.old Idx + chains_bytes
            (index_in (buckets_of self.now.first) (D.files disk.old).idx) drops.now + 16 * length adds.now }
        ensures reads { ReadsAtOr D.Disk Idx (result ≡ Err PrepareFault.DiskFault) disk.old disk.new }
    {
        let Ok(copy) = copy_of(alloc, adds) else {
            return Err(PrepareFault::NoMemory);
        };
        self.prepare_owned(alloc, disk, drops, copy)
    }
}
