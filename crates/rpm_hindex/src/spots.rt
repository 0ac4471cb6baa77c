//! Where a row's record stands in its chain.

ghost use Rattle.std.specs.Prelude.{◌≡◌, ℕ, ◌%◌, ◌≤◌, ◌<◌, ◌&&◌, IsTrue, false, List, IfOk, IfErr, Err, Some, if◌then◌else◌};
ghost use Rattle.rpm_hindex.specs.Prelude.{CanRead, contains, FindsFrom, hash_of, Idx, index_at, is_kept, IsNextUnit, IsOutsideIndex, IsPath, nat_cmp, OnWay, PathCosts, ReadsAtOr, ReadsPath, row_with, SkipsTo};

use crate::chain::Extent;
use crate::faults::FindFault;
use crate::heads::{Head, Met, meet, read_head};
use crate::hits::Hit;
use crate::piece::RowRef;
use rpm_outside::Disk;
use std::alloc::Global;
use std::collections::BTreeSet;

/// A row's record, the kept record before it, and the first unit of the one after it, or 0.
#[derive(Clone, Copy)]
pub struct Spot {
    pub before: Option<Head>,
    pub at: u32,
    pub behind: u32,
}

/// The first unit of the first record from this one on that isn't dropped, or the unit as far as which it looks.
/// Reads no keys. A function of its own, as `meets_key` is.
#[inline(never)]
fn skip_dropped<D: Disk>(
    disk: &mut D,
    extent: Extent,
    from: u32,
    end: u32,
    dropped: &BTreeSet<u32>,
) -> Result<u32, FindFault>
    requires open { CanRead D.Disk disk.old extent }
    requires linked { IsNextUnit extent.buckets extent.used from }
    ensures linked { IfOk result (IsNextUnit extent.buckets extent.used) }
    ensures skips { IfOk result (λ to. IsTrue D.tells → (b : ℕ) (front : List ℕ)
        → IsPath (index_at D.Disk disk.old extent) b from front end
        → SkipsTo (index_at D.Disk disk.old extent) b end (is_kept (λ p. contains nat_cmp dropped.now p)) from to) }
    ensures fault { IfErr result (λ e. IsTrue D.tells → (b : ℕ) → OnWay (index_at D.Disk disk.old extent) b from end (IsOutsideIndex e)) }
    ensures cost { IsTrue D.tells → (b : ℕ)
        → PathCosts (index_at D.Disk disk.old extent) b from end (D.bytes_read disk.old Idx)
        (D.bytes_read disk.new Idx) }
    ensures reads { ReadsAtOr D.Disk Idx (result ≡ Err FindFault.DiskFault) disk.old disk.new }
{
    let mut at = from;
    while at > end && dropped.contains(&at) {
        let ahead = read_head(disk, extent, at)?;
        at = ahead.next;
    }
    Ok(at)
}

/// Whether a record is looked for, and isn't dropped.
fn is_hit(dropped: &BTreeSet<u32>, met: Met) -> bool
    ensures { result ≡ (met.is_wanted && is_kept (λ p. contains nat_cmp dropped.now p) met.head.at) }
{
    met.is_wanted && !dropped.contains(&met.head.at)
}

/// The last place that is dropped of those below a unit, or 0.
#[inline(never)]
fn last_dropped(dropped: &BTreeSet<u32>, end: u32) -> u32
    ensures { (p : ℕ) → result < p → p < end → contains nat_cmp dropped.now p ≡ false }
{
    match dropped.range(0..end).next_back() {
        Some(last) => *last,
        None => 0,
    }
}

/// The last place that is dropped as far as the next record on the way, where the one as far as this record is known.
/// Records on the way have ever lower places, so few of them have it looked for anew.
#[inline(always)]
fn dropped_to(dropped: &BTreeSet<u32>, last: u32, at: u32, next: u32) -> u32
    requires falls { next < at }
    requires last { (p : ℕ) → last < p → p ≤ at → contains nat_cmp dropped.now p ≡ false }
    ensures { (p : ℕ) → result < p → p ≤ next → contains nat_cmp dropped.now p ≡ false }
{
    if next < last {
        last_dropped(dropped, next + 1)
    } else {
        last
    }
}

/// The last record that isn't dropped, when one more was met. Of most a comparison tells that they aren't dropped.
#[inline(always)]
fn last_kept(dropped: &BTreeSet<u32>, last: u32, before: Option<Head>, head: Head) -> Option<Head>
    requires { last < head.at → contains nat_cmp dropped.now head.at ≡ false }
    ensures { result ≡ (if is_kept (λ p. contains nat_cmp dropped.now p) head.at then Some head else before) }
{
    if head.at <= last && dropped.contains(&head.at) {
        before
    } else {
        Some(head)
    }
}

/// The spot of a row in its bucket's chain from this unit on, as far as another. Reads the first units of the chain
/// to the row's record and of those after it that are dropped, and the keys of records that have the row's number and
/// place. So a chain that isn't well formed may have a spot too.
pub fn find_spot<D: Disk>(
    alloc: Global,
    disk: &mut D,
    extent: Extent,
    bucket: u32,
    from: u32,
    end: u32,
    dropped: &BTreeSet<u32>,
    row: RowRef<'_>,
) -> Result<Option<Spot>, FindFault>
    requires some { 0 < extent.buckets }
    requires open { CanRead D.Disk disk.old extent }
    requires linked { IsNextUnit extent.buckets extent.used from }
    requires bucket { hash_of row.kind row.key.now % extent.buckets ≡ bucket }
    ensures found { IfOk result (FindsFrom D.Disk disk.old extent bucket from end
        (is_kept (λ p. contains nat_cmp dropped.now p))
        (row_with row.entry.kind row.entry.key.now row.entry.number row.entry.place)) }
    ensures fault { IfErr result (λ e. IsTrue D.tells → OnWay (index_at D.Disk disk.old extent) bucket from end (IsOutsideIndex e)) }
    ensures cost { ReadsPath D.Disk extent bucket from end disk.old disk.new }
    ensures reads { ReadsAtOr D.Disk Idx (result ≡ Err FindFault.DiskFault) disk.old disk.new }
{
    let mut buffer = Vec::new(alloc);
    let mut before = None;
    let mut at = from;
    let mut last = u32::MAX;
    while at > end {
        let only = Some(Hit {
            number: row.number,
            place: row.place,
        });
        let met = meet(
            disk,
            extent,
            bucket,
            at,
            row.kind,
            row.key,
            only,
            &mut buffer,
        )?;
        if is_hit(dropped, met) {
            let behind = skip_dropped(disk, extent, met.next, end, dropped)?;
            return Ok(Some(Spot { before, at, behind }));
        }
        before = last_kept(dropped, last, before, met.head);
        last = dropped_to(dropped, last, at, met.next);
        at = met.next;
    }
    Ok(None)
}
