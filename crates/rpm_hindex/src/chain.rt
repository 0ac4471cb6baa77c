//! The chain of a bucket.

ghost use Rattle.std.specs.Prelude.{◌≡◌, ℕ, ◌+◌, ◌%◌, ◌^◌, ◌≤◌, ◌<◌, IsTrue, true, length, map, List, IfOk, IfErr, OnOk, Err};
ghost use Rattle.rpm_hindex.specs.Prelude.{AddsHit, AreHits, AsOften, bucket_unit, buckets_of, CanRead, chain, ChainCosts, File, FindIs, follow, has_key, hash_of, Idx, Index, index_at, index_in, is_in_order, is_link, is_placed, IsFaultOf, IsNextUnit, IsRising, IsWellFormed, KeepsIndexValue, ReadsAtOr, ReadsChain, ReadsOr, records, Row, row_at, times_hit, unit_at, units_at, word};

use crate::faults::FindFault;
use crate::heads::{Met, meet};
use crate::hits::{Hit, Hits};
use crate::index::Hindex;
use crate::reads::read_unit;
use crate::records::{bucket_of, record_units};
use rpm_outside::{Disk, File, word};
use std::alloc::Global;

/// How many buckets an index has, and the first unit after its records.
#[derive(Clone, Copy)]
pub struct Extent {
    pub buckets: u32,
    pub used: u32,
}

/// The unit of a bucket's word, and the word.
#[derive(Clone, Copy)]
pub struct Bucket {
    pub words: [u8; 16],
    pub at: u32,
}

/// Whether a word is 0, or names a unit that can be a record's.
pub fn is_link(extent: Extent, at: u32) -> bool
    requires { extent.buckets ≤ 2 ^ 28 }
    ensures { (x : Index) → x.buckets ≡ extent.buckets → x.used ≡ extent.used → result ≡ is_link x at }
{
    at == 0 || 2 + extent.buckets / 4 <= at && at < extent.used
}

/// Whether a record with this first unit can be in a chain, its key aside.
pub fn is_placed(extent: Extent, at: u32, head: &[u8]) -> bool
    requires whole { length head.now ≡ 16 }
    requires few { extent.buckets ≤ 2 ^ 28 }
    ensures { (x : Index) → x.buckets ≡ extent.buckets → x.used ≡ extent.used → head.now ≡ x.unit at → result ≡ is_placed x at }
{
    let next = word(head, 0);
    let units = record_units(word(head, 1) % 268_435_456);
    is_link(extent, next) && next < at && at as u64 + units as u64 <= extent.used as u64
}

/// The word of a bucket.
pub fn read_bucket<D: Disk>(disk: &mut D, extent: Extent, bucket: u32) -> Result<Bucket, FindFault>
    requires bucket { bucket < extent.buckets }
    requires open { CanRead D.Disk disk.old extent }
    ensures words { IfOk result (λ b. IsTrue D.tells → b.words ≡ unit_at (D.files disk.old).idx (bucket_unit bucket)) }
    ensures word { IfOk result (λ b. IsTrue D.tells → (b.at ≡ (index_at D.Disk disk.old extent).head bucket)
        × (is_link (index_at D.Disk disk.old extent) b.at ≡ true)) }
    ensures linked { IfOk result (λ b. IsNextUnit extent.buckets extent.used b.at) }
    ensures fault { IfErr result (λ e. IsTrue D.tells → IsFaultOf (chain (index_at D.Disk disk.old extent) bucket) e) }
    ensures reads { ReadsOr D.Disk Idx 16 (result ≡ Err FindFault.DiskFault) disk.old disk.new }
{
    let unit = 2 + bucket as u64 / 4;
    let Ok(words) = read_unit(disk, unit) else {
        return Err(FindFault::DiskFault);
    };
    let at = word(&words, bucket as usize % 4);
    if !is_link(extent, at) {
        return Err(FindFault::BadIndex { unit });
    }
    Ok(Bucket { words, at })
}

/// Adds the hit of a record, where it has the key.
fn push_hit(hits: &mut Vec<Hit>, met: Met) -> Result<(), FindFault>
    ensures hits { OnOk result ((kind : ℕ) (key : List ℕ) (row : Row) → met.is_wanted ≡ has_key kind key row
        → row.number ≡ met.head.number → row.place ≡ met.head.place
        → AddsHit kind key row hits.old.items hits.new.items) }
    ensures memory { IfErr result (λ e. e ≡ FindFault.NoMemory) }
{
    if !met.is_wanted {
        return Ok(());
    }
    let hit = Hit {
        number: met.head.number,
        place: met.head.place,
    };
    let Ok(()) = hits.push(hit) else {
        return Err(FindFault::NoMemory);
    };
    Ok(())
}

/// The hits of a key in the chain from this unit on, in the order of the chain.
fn collect<D: Disk>(
    alloc: Global,
    disk: &mut D,
    extent: Extent,
    from: u32,
    kind: u8,
    key: &[u8],
) -> Result<Vec<Hit>, FindFault>
    requires some { 0 < extent.buckets }
    requires open { CanRead D.Disk disk.old extent }
    requires within { 0 < from → from < extent.used }
    ensures told { IsTrue D.tells → FindIs (λ places hits. AsOften kind key.now
        (map (row_at (unit_at (D.files disk.old).idx)) places) hits.items)
        (follow (index_at D.Disk disk.old extent) (hash_of kind key.now % extent.buckets) from from) result }
    ensures cost { IsTrue D.tells → ChainCosts (follow (index_at D.Disk disk.old extent)
        (hash_of kind key.now % extent.buckets) from from) (units_at (unit_at (D.files disk.old).idx))
        (D.bytes_read disk.old File.Idx) (D.bytes_read disk.new File.Idx) }
    ensures reads { ReadsAtOr D.Disk Idx (result ≡ Err FindFault.DiskFault) disk.old disk.new }
{
    let bucket = bucket_of(kind, key, extent.buckets);
    let mut hits = Vec::new(alloc);
    let mut buffer = Vec::new(alloc);
    let mut at = from;
    while at != 0 {
        let met = meet(disk, extent, bucket, at, kind, key, None, &mut buffer)?;
        push_hit(&mut hits, met)?;
        at = met.next;
    }
    Ok(hits)
}

/// The hits of a key, in the order of its bucket's chain.
fn gather<D: Disk>(
    alloc: Global,
    disk: &mut D,
    extent: Extent,
    kind: u8,
    key: &[u8],
) -> Result<Vec<Hit>, FindFault>
    requires some { 0 < extent.buckets }
    requires open { CanRead D.Disk disk.old extent }
    ensures told { IsTrue D.tells → FindIs (λ places hits. AsOften kind key.now
        (map (row_at (unit_at (D.files disk.old).idx)) places) hits.items)
        (chain (index_at D.Disk disk.old extent) (hash_of kind key.now % extent.buckets)) result }
    ensures cost { ReadsChain D.Disk extent (hash_of kind key.now % extent.buckets) disk.old disk.new }
    ensures reads { ReadsAtOr D.Disk Idx (result ≡ Err FindFault.DiskFault) disk.old disk.new }
{
    let bucket = bucket_of(kind, key, extent.buckets);
    let found = read_bucket(disk, extent, bucket)?;
    collect(alloc, disk, extent, found.at, kind, key)
}

/// The same hits, by rising number and place.
fn sorted(hits: Vec<Hit>) -> Hits
    ensures rising { IsRising result }
    ensures same { (hit : _) → times_hit hit result ≡ times_hit hit hits.items }
{
    let mut hits = hits;
    hits.sort_unstable();
    Hits { hits }
}

impl Hindex {
    /// How many buckets unit 0 tells of, and the first unit after the records.
    pub fn extent(&self) -> Extent
        ensures { result ≡ record { buckets = word 3 self.now.first; used = word 0 self.now.second } }
    {
        Extent {
            buckets: word(&self.first, 3),
            used: word(&self.second, 0),
        }
    }

    /// The packages that have a key, by rising number and place.
    ///
    /// Reads the unit of the bucket's word and the units of that bucket's records, each once. Takes memory for the
    /// longest key, and for the hits.
    ///
    /// # Errors
    ///
    /// - `BadIndex` exactly where the chain of the key's bucket isn't well formed: the unit of its first fault.
    /// - `DiskFault` only where the disk's count of faults rose.
    /// - `NoMemory` where a key or the hits find no memory.
    pub fn find<D: Disk>(
        &self,
        alloc: Global,
        disk: &mut D,
        kind: u8,
        key: &[u8],
    ) -> Result<Hits, FindFault>
        requires order { is_in_order self.now ≡ true }
        requires keeps { IsTrue D.tells → KeepsIndexValue (D.files disk.old).idx self.now }
        ensures kept { IsTrue D.tells → KeepsIndexValue (D.files disk.new).idx self.now }
        ensures told { IsTrue D.tells → FindIs (λ places hits. AreHits kind key.now
            (map (row_at (unit_at (D.files disk.old).idx)) places) hits)
            (chain (index_in (buckets_of self.now.first) (D.files disk.old).idx)
            (hash_of kind key.now % buckets_of self.now.first)) result }
        ensures rows { IfOk result (λ hits. IsTrue D.tells
            → IsWellFormed (buckets_of self.now.first) (D.files disk.old).idx
            → AreHits kind key.now (records (buckets_of self.now.first) (D.files disk.old).idx) hits) }
        ensures cost { IsTrue D.tells → ChainCosts
            (chain (index_in (buckets_of self.now.first) (D.files disk.old).idx)
            (hash_of kind key.now % buckets_of self.now.first)) (units_at (unit_at (D.files disk.old).idx))
            (D.bytes_read disk.old File.Idx + 16) (D.bytes_read disk.new File.Idx) }
        ensures reads { ReadsAtOr D.Disk Idx (result ≡ Err FindFault.DiskFault) disk.old disk.new }
    {
        let hits = gather(alloc, disk, self.extent(), kind, key)?;
        Ok(sorted(hits))
    }
}
