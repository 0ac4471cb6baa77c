//! What a change of the index will write.

ghost use Rattle.std.specs.Prelude.{◌≡◌, ℕ, ◌+◌, ◌*◌, ◌^◌, ◌≤◌, IsTrue, true, length, map, reverse, ◌++◌, OnOk, IfOk, IfErr, Err};
ghost use Rattle.rpm_hindex.specs.Prelude.{bucket_count, CanGo, CanRead, CanWrite, contains, first_record, Grows, HasAdded, Idx, index_at, index_of_change, is_kept, IsFaulty, IsHonest, IsDraftOf, HasBuckets, IsOther, IsScratchOf, IsStrictlySortedBy, IsTooLarge, IsWorkOf, kept_in, kept_of, keys, LeavesWhole, live_of, nat_cmp, patch_of, ReadsAtOr, ReadsOr, units_for};

use crate::chain::Extent;
use crate::change::{Change, prepare_fault};
use crate::faults::{PrepareFault, RewriteFault};
use crate::image::{Image, image_of};
use crate::kept_rows::push_chain;
use crate::piece::Piece;
use crate::rows::Rows;
use rpm_outside::{Disk, unit_of_words};
use std::alloc::{AllocError, Global};
use std::collections::{BTreeMap, BTreeSet};

/// A unit that changes.
#[derive(Clone, Copy)]
pub struct Patch {
    pub unit: u32,
    pub words: [u8; 16],
}

/// Units that change, by rising place, and the records after all others.
#[derive(Drop)]
pub struct Patches {
    pub units: Vec<Patch>,
    pub tail: Vec<u8>,
    pub used: u32,
    pub second: [u8; 16],
    pub buckets: u32,
}

/// How the change is written.
#[derive(Drop)]
pub enum Work {
    InPlace(Patches),
    Scratch(Image),
}

/// A change of the index, with all memory that it needs.
#[derive(Drop)]
pub struct IndexPlan {
    pub work: Work,
}

/// Adds a record of each of these rows.
pub fn add_rows<D: Disk>(disk: &mut D, change: &mut Change, rows: &Rows) -> Result<(), PrepareFault>
    requires go { CanGo change.old }
    requires none { length change.old.tail.items ≡ 0 }
    requires count { change.old.records + length rows.now ≤ 2 * change.old.extent.buckets }
    requires room { change.old.extent.used + live_of rows.now ≤ 2 ^ 28 }
    requires open { IsTrue D.tells → HasBuckets change.old.extent (D.files disk.old).idx }
    ensures grows { OnOk result (Grows change.old change.new (length rows.now) (live_of rows.now)) }
    ensures other { IfErr result (λ e. IsOther e) }
    ensures added { OnOk result (IsTrue D.tells → HasAdded (D.files disk.old).idx rows.now change.old change.new) }
    ensures bad { IfErr result (λ e. IsTrue D.tells → IsHonest change.old (D.files disk.old).idx
        → IsFaulty change.old.extent.buckets (D.files disk.old).idx e) }
    ensures reads { ReadsOr D.Disk Idx (16 * length rows.now) (result ≡ Err PrepareFault.DiskFault) disk.old disk.new }
{
    for i in 0..rows.len() {
        change.add_row(disk, rows.row(i))?;
    }
    Ok(())
}

/// Whether the chains can take these rows more, with at most so many units, so that no new index is due.
pub fn has_room(change: &Change, adds: &Rows, limit: u64) -> bool
    requires limit { limit ≤ 2 ^ 28 }
    requires go { CanGo change.now }
    requires none { length change.now.tail.items ≡ 0 }
    ensures least { change.now.records + length adds.now ≤ 2 * change.now.extent.buckets
        → change.now.extent.used + live_of adds.now ≤ limit
        → change.now.extent.used + live_of adds.now ≤ first_record change.now.extent.buckets + 2
        * (change.now.live + live_of adds.now) → result ≡ true }
    ensures count { result ≡ true → change.now.records + length adds.now ≤ 2 * change.now.extent.buckets }
    ensures room { result ≡ true → change.now.extent.used + live_of adds.now ≤ limit }
    ensures half { result ≡ true → change.now.extent.used ≤ first_record change.now.extent.buckets + 2 * change.now.live + live_of adds.now }
{
    let more = adds.live();
    let records = change.records as u64 + adds.len() as u64;
    let used = change.extent.used as u64 + more;
    let live = change.live as u64 + more;
    let first = 2 + change.extent.buckets as u64 / 4;
    records <= 2 * change.extent.buckets as u64 && used <= limit && used - first - live <= live
}

/// The pairs of a map, by rising key.
fn collected(
    alloc: Global,
    units: BTreeMap<u32, [u8; 16]>,
) -> Result<Vec<(u32, [u8; 16])>, AllocError>
    ensures { IfOk result (λ v. v.items ≡ units.entries) }
{
    units.into_iter().collect(alloc)
}

/// The units that change, in order.
fn patches_of(alloc: Global, units: BTreeMap<u32, [u8; 16]>) -> Result<Vec<Patch>, AllocError>
    ensures units { IfOk result (λ v. v.items ≡ map patch_of units.entries) }
    ensures ordered { IsStrictlySortedBy nat_cmp (keys units) }
{
    let _ = units.len();
    let pairs = collected(alloc, units)?;
    let mut patches = Vec::with_capacity(alloc, pairs.len())?;
    for k in 0..pairs.len() {
        let (unit, words) = pairs[k];
        patches.push(Patch { unit, words })?;
    }
    Ok(patches)
}

/// What is written in place.
pub fn in_place(alloc: Global, change: Change) -> Result<IndexPlan, PrepareFault>
    requires go { CanGo change }
    ensures made { IfOk result (λ plan. IsWorkOf change plan.work) }
    ensures ordered { IsStrictlySortedBy nat_cmp (keys change.units) }
    ensures can { IfOk result (λ plan. (units : ℕ) → change.extent.used ≤ units → CanWrite units plan.work) }
    ensures memory { IfErr result (λ e. e ≡ PrepareFault.NoMemory) }
{
    let used = change.used();
    let second = unit_of_words(used, change.records, change.live, 0);
    let Ok(units) = patches_of(alloc, change.units) else {
        return Err(PrepareFault::NoMemory);
    };
    Ok(IndexPlan {
        work: Work::InPlace(Patches {
            units,
            tail: change.tail,
            used: change.extent.used,
            second,
            buckets: change.extent.buckets,
        }),
    })
}

/// Adds all rows that the index keeps.
fn kept_rows<D: Disk>(
    alloc: Global,
    disk: &mut D,
    extent: Extent,
    dropped: &BTreeSet<u32>,
) -> Result<Piece, PrepareFault>
    requires open { CanRead D.Disk disk.old extent }
    ensures other { IfErr result (λ e. IsOther e) }
    ensures rows { IfOk result (λ rows. IsTrue D.tells
        → rows ≡ kept_of (index_at D.Disk disk.old extent) (is_kept (λ p. contains nat_cmp dropped.now p))) }
    ensures bad { IfErr result (λ e. IsTrue D.tells → IsFaulty extent.buckets (D.files disk.old).idx e) }
    ensures reads { ReadsAtOr D.Disk Idx (result ≡ Err PrepareFault.DiskFault) disk.old disk.new }
{
    let mut rows = Piece::new(alloc);
    let mut buffer = Vec::new(alloc);
    for bucket in 0..extent.buckets {
        if let Err(fault) = push_chain(disk, extent, bucket, dropped, &mut rows, &mut buffer) {
            return Err(prepare_fault(fault));
        }
    }
    Ok(rows)
}

/// The image of these rows, where the units that it needs are few enough.
fn scratch_of(alloc: Global, rows: Rows) -> Result<Image, PrepareFault>
    ensures fits { IfOk result (λ image. units_for rows ≤ 2 ^ 28) }
    ensures buckets { IfOk result (λ image. image.buckets ≡ bucket_count (length rows)) }
    ensures made { IfOk result (λ image. IsDraftOf rows (bucket_count (length rows)) image.bytes.items) }
    ensures full { IfErr result (IsTooLarge rows) }
{
    match image_of(alloc, rows) {
        Ok(image) => Ok(image),
        Err(RewriteFault::IndexFull { needed }) => Err(PrepareFault::IndexFull { needed }),
        Err(_) => Err(PrepareFault::NoMemory),
    }
}

/// The rows that are kept, and those that are added after them. Where none is kept, as in an import into a new
/// database, the added ones aren't copied.
fn kept_with(alloc: Global, kept: Piece, adds: Rows) -> Result<Rows, AllocError>
    ensures { IfOk result (λ rows. rows ≡ kept ++ adds) }
{
    if kept.len() == 0 {
        return Ok(adds);
    }
    let mut rows = Rows::of_piece(alloc, kept);
    rows.append(&adds)?;
    Ok(rows)
}

/// The image of the rows that are kept, and of those that are added after them.
fn image_with(alloc: Global, kept: Piece, adds: Rows) -> Result<Image, PrepareFault>
    ensures fits { IfOk result (λ image. units_for (kept ++ adds) ≤ 2 ^ 28) }
    ensures buckets { IfOk result (λ image. image.buckets ≡ bucket_count (length (kept ++ adds))) }
    ensures made { IfOk result (λ image. IsDraftOf (kept ++ adds) (bucket_count (length (kept ++ adds))) image.bytes.items) }
    ensures full { IfErr result (IsTooLarge (kept ++ adds)) }
{
    let Ok(rows) = kept_with(alloc, kept, adds) else {
        return Err(PrepareFault::NoMemory);
    };
    scratch_of(alloc, rows)
}

/// What is written from scratch. The kept rows are added from the last to the first, so that those of a chain stand
/// in it as they did.
pub fn from_scratch<D: Disk>(
    alloc: Global,
    disk: &mut D,
    change: &Change,
    adds: Rows,
) -> Result<IndexPlan, PrepareFault>
    requires open { CanRead D.Disk disk.old change.now.extent }
    ensures leaves { IfOk result (λ plan. LeavesWhole plan.work) }
    ensures full { IfErr result (λ e. IsTrue D.tells → IsTooLarge (reverse
        (kept_in (index_of_change change.now (D.files disk.old).idx) change.now) ++ adds) e) }
    ensures made { IfOk result (λ plan. IsTrue D.tells → IsScratchOf (reverse
        (kept_in (index_of_change change.now (D.files disk.old).idx) change.now) ++ adds) plan.work) }
    ensures bad { IfErr result (λ e. IsTrue D.tells → IsFaulty change.now.extent.buckets (D.files disk.old).idx e) }
    ensures reads { ReadsAtOr D.Disk Idx (result ≡ Err PrepareFault.DiskFault) disk.old disk.new }
{
    let mut kept = kept_rows(alloc, disk, change.extent, &change.dropped)?;
    kept.reverse();
    match image_with(alloc, kept, adds) {
        Ok(image) => Ok(IndexPlan {
            work: Work::Scratch(image),
        }),
        Err(PrepareFault::IndexFull { needed }) => Err(PrepareFault::IndexFull { needed }),
        Err(_) => Err(PrepareFault::NoMemory),
    }
}
