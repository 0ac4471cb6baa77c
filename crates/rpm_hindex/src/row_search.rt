//! A row's record in its bucket's chain.

ghost use Rattle.std.specs.Prelude.{◌≡◌, ℕ, ◌%◌, ◌<◌, IsTrue, List, IfOk, IfErr, Ok, Err, Some};
ghost use Rattle.rpm_hindex.specs.Prelude.{CanRead, CanStart, chain, contains, FindsFrom, FindsRow, get, hash_of, Idx, index_at, is_kept, IsFaultOf, IsNextUnit, IsOutsideIndex, IsPath, IsStart, nat_cmp, ReadsAtOr, ReadsChain, ReadsPath, row_with, StandsWithin, StandWithin};

use crate::chain::{Extent, read_bucket};
use crate::faults::FindFault;
use crate::heads::Head;
use crate::kept_rows::check_chain;
use crate::piece::RowRef;
use crate::spots::{Spot, find_spot};
use rpm_outside::Disk;
use std::alloc::Global;
use std::collections::{BTreeMap, BTreeSet};

/// Where the next row of a bucket is looked for first: after the last record that was dropped, and the kept record
/// before that one.
#[derive(Clone, Copy)]
pub struct Start {
    pub before: Option<Head>,
    pub at: u32,
}

/// The unit of a bucket's word, and the spot of a row in the bucket's chain, where it is there.
#[derive(Clone, Copy)]
pub struct Found {
    pub words: [u8; 16],
    pub spot: Option<Spot>,
}

/// The spot of a row in its bucket's chain, whose first record stands there: it is looked for after the start, and
/// then before it.
fn find_around<D: Disk>(
    alloc: Global,
    disk: &mut D,
    extent: Extent,
    bucket: u32,
    first: u32,
    dropped: &BTreeSet<u32>,
    start: Start,
    row: RowRef<'_>,
) -> Result<Option<Spot>, FindFault>
    requires some { 0 < extent.buckets }
    requires open { CanRead D.Disk disk.old extent }
    requires linked { IsNextUnit extent.buckets extent.used first }
    requires stands { StandsWithin extent.buckets extent.used start }
    requires start { IsTrue D.tells → (places : List ℕ)
        → IsPath (index_at D.Disk disk.old extent) bucket first places 0
        → IsStart (index_at D.Disk disk.old extent) bucket first
        (is_kept (λ p. contains nat_cmp dropped.now p)) start }
    requires bucket { hash_of row.kind row.key.now % extent.buckets ≡ bucket }
    ensures found { IfOk result (FindsFrom D.Disk disk.old extent bucket first 0
        (is_kept (λ p. contains nat_cmp dropped.now p))
        (row_with row.entry.kind row.entry.key.now row.entry.number row.entry.place)) }
    ensures fault { IfErr result (λ e. IsTrue D.tells → (places : List ℕ)
        → IsPath (index_at D.Disk disk.old extent) bucket first places 0 → IsOutsideIndex e) }
    ensures cost { ReadsPath D.Disk extent bucket first 0 disk.old disk.new }
    ensures reads { ReadsAtOr D.Disk Idx (result ≡ Err FindFault.DiskFault) disk.old disk.new }
{
    let found = find_spot(alloc, disk, extent, bucket, start.at, 0, dropped, row)?;
    match found {
        Some(spot) => Ok(Some(Spot {
            before: spot.before.or(start.before),
            at: spot.at,
            behind: spot.behind,
        })),
        None => find_spot(alloc, disk, extent, bucket, first, start.at, dropped, row),
    }
}

/// The spot of a row in its bucket's chain, whose first record stands there: from the bucket's start on, where there
/// is one.
fn find_from<D: Disk>(
    alloc: Global,
    disk: &mut D,
    extent: Extent,
    bucket: u32,
    first: u32,
    dropped: &BTreeSet<u32>,
    starts: &BTreeMap<u32, Start>,
    row: RowRef<'_>,
) -> Result<Option<Spot>, FindFault>
    requires some { 0 < extent.buckets }
    requires open { CanRead D.Disk disk.old extent }
    requires linked { IsNextUnit extent.buckets extent.used first }
    requires stand { StandWithin extent.buckets extent.used (λ b. get nat_cmp starts.now b) }
    requires starts { IsTrue D.tells → (places : List ℕ)
        → IsPath (index_at D.Disk disk.old extent) bucket first places 0 → (s : Start)
        → get nat_cmp starts.now bucket ≡ Some s
        → IsStart (index_at D.Disk disk.old extent) bucket first (is_kept (λ p. contains nat_cmp dropped.now p)) s }
    requires bucket { hash_of row.kind row.key.now % extent.buckets ≡ bucket }
    ensures found { IfOk result (FindsFrom D.Disk disk.old extent bucket first 0
        (is_kept (λ p. contains nat_cmp dropped.now p))
        (row_with row.entry.kind row.entry.key.now row.entry.number row.entry.place)) }
    ensures fault { IfErr result (λ e. IsTrue D.tells → (places : List ℕ)
        → IsPath (index_at D.Disk disk.old extent) bucket first places 0 → IsOutsideIndex e) }
    ensures cost { ReadsPath D.Disk extent bucket first 0 disk.old disk.new }
    ensures reads { ReadsAtOr D.Disk Idx (result ≡ Err FindFault.DiskFault) disk.old disk.new }
{
    match starts.get(&bucket) {
        Some(start) => find_around(alloc, disk, extent, bucket, first, dropped, *start, row),
        None => find_spot(alloc, disk, extent, bucket, first, 0, dropped, row),
    }
}

/// The first fault of a bucket's chain, which isn't well formed, as this unit tells. Reads the whole chain.
fn first_fault<D: Disk>(
    alloc: Global,
    disk: &mut D,
    extent: Extent,
    bucket: u32,
    unit: u64,
) -> FindFault
    requires bucket { bucket < extent.buckets }
    requires open { CanRead D.Disk disk.old extent }
    requires bad { IsTrue D.tells → (places : List ℕ) → chain (index_at D.Disk disk.old extent) bucket ≡ Ok places → ⊥ }
    ensures fault { IsTrue D.tells → IsFaultOf (chain (index_at D.Disk disk.old extent) bucket) result }
    ensures reads { ReadsAtOr D.Disk Idx (result ≡ FindFault.DiskFault) disk.old disk.new }
{
    match check_chain(alloc, disk, extent, bucket) {
        Ok(()) => FindFault::BadIndex { unit },
        Err(fault) => fault,
    }
}

/// The spot of a row in its bucket's chain. A fault that is told is the first of the chain.
pub fn find_row<D: Disk>(
    alloc: Global,
    disk: &mut D,
    extent: Extent,
    bucket: u32,
    dropped: &BTreeSet<u32>,
    starts: &BTreeMap<u32, Start>,
    row: RowRef<'_>,
) -> Result<Found, FindFault>
    requires bucket { bucket < extent.buckets }
    requires open { CanRead D.Disk disk.old extent }
    requires starts { CanStart D.Disk disk.old extent (is_kept (λ p. contains nat_cmp dropped.now p)) (λ b. get nat_cmp starts.now b) }
    requires mine { hash_of row.kind row.key.now % extent.buckets ≡ bucket }
    ensures found { IfOk result (FindsRow D.Disk disk.old extent bucket
        (is_kept (λ p. contains nat_cmp dropped.now p))
        (row_with row.entry.kind row.entry.key.now row.entry.number row.entry.place)) }
    ensures fault { IfErr result (λ e. IsTrue D.tells → IsFaultOf (chain (index_at D.Disk disk.old extent) bucket) e) }
    ensures cost { ReadsChain D.Disk extent bucket disk.old disk.new }
    ensures reads { ReadsAtOr D.Disk Idx (result ≡ Err FindFault.DiskFault) disk.old disk.new }
{
    let head = read_bucket(disk, extent, bucket)?;
    let words = head.words;
    match find_from(alloc, disk, extent, bucket, head.at, dropped, starts, row) {
        Ok(spot) => Ok(Found { words, spot }),
        Err(FindFault::BadIndex { unit }) => { Err(first_fault(alloc, disk, extent, bucket, unit)) }
        Err(fault) => Err(fault),
    }
}
