//! The rows of chains that a change keeps, and those that it drops.

ghost use Rattle.std.specs.Prelude.{◌≡◌, ◌+◌, ◌*◌, ◌/◌, ◌%◌, ◌^◌, ◌<◌, ◌++◌, ◌∷◌, [], IsTrue, true, map, IsOk, OnOk, IfErr, Err, if◌then◌else◌, ◌≤◌, false, length};
ghost use Rattle.rpm_hindex.specs.Prelude.{CanGo, CanRead, chain, chains_bytes, contains, DropsRows, filter, FindIs, follow, IsOngoing, HasFault, HasNoFault, Idx, index_at, index_in, is_kept, is_placed, is_sound, IsBad, IsBadFor, IsDropFault, IsFaultOf, IsFreshChange, IsRecordHead, IsHonest, IsNextUnit, HasBuckets, IsOther, IsWellFormed, nat_cmp, ReadsAtOr, ReadsOr, row_at, unit_at};

use crate::chain::{Extent, read_bucket};
use crate::change::{Change, prepare_fault};
use crate::faults::{FindFault, PrepareFault};
use crate::heads::{Ahead, Head, read_head};
use crate::piece::Piece;
use crate::reads::read_key_into;
use crate::records::bucket_of;
use crate::rows::Rows;
use rpm_outside::Disk;
use std::alloc::Global;
use std::collections::{BTreeMap, BTreeSet};

/// Reads the key of a record, whose first unit was read, into a buffer, and adds the record's row, if it is kept.
fn push_row<D: Disk>(
    disk: &mut D,
    extent: Extent,
    bucket: u32,
    head: Head,
    is_kept: bool,
    rows: &mut Piece,
    buffer: &mut Vec<u8>,
) -> Result<(), FindFault>
    requires some { 0 < extent.buckets }
    requires open { CanRead D.Disk disk.old extent }
    requires some_at { 0 < head.at }
    requires placed { IsTrue D.tells → is_placed (index_at D.Disk disk.old extent) head.at ≡ true }
    requires head { IsTrue D.tells → IsRecordHead (unit_at (D.files disk.old).idx) head }
    ensures row { OnOk result (IsTrue D.tells
        → rows.new ≡ (if is_kept then rows.old ++ row_at (unit_at (D.files disk.old).idx) head.at ∷ [] else
        rows.old)) }
    ensures sound { OnOk result (IsTrue D.tells → is_sound (index_at D.Disk disk.old extent) bucket head.at ≡ true) }
    ensures fault { IfErr result (λ e. IsTrue D.tells → IsFaultOf (follow (index_at D.Disk disk.old extent) bucket head.at head.at) e) }
    ensures reads { ReadsOr D.Disk Idx (16 * ((head.size % 2 ^ 28 + 15) / 16)) (result ≡ Err FindFault.DiskFault) disk.old disk.new }
{
    let length = head.size % 268_435_456;
    read_key_into(disk, head.at as u64 + 1, length, buffer)?;
    let kind = (head.size / 268_435_456) as u8;
    let key = &buffer[..length as usize];
    if bucket_of(kind, key, extent.buckets) != bucket {
        return Err(FindFault::BadIndex {
            unit: head.at as u64,
        });
    }
    if !is_kept {
        return Ok(());
    }
    let Ok(()) = rows.add(kind, key, head.number, head.place) else {
        return Err(FindFault::NoMemory);
    };
    Ok(())
}

/// Adds the rows of a bucket's chain from this unit on, but for those whose records are dropped.
fn push_from<D: Disk>(
    disk: &mut D,
    extent: Extent,
    bucket: u32,
    from: u32,
    dropped: &BTreeSet<u32>,
    rows: &mut Piece,
    buffer: &mut Vec<u8>,
) -> Result<(), FindFault>
    requires some { 0 < extent.buckets }
    requires open { CanRead D.Disk disk.old extent }
    requires linked { IsNextUnit extent.buckets extent.used from }
    ensures told { IsTrue D.tells → FindIs (λ places done. rows.new ≡ rows.old ++ map
        (row_at (unit_at (D.files disk.old).idx)) (filter (is_kept (λ p. contains nat_cmp dropped.now p)) places))
        (follow (index_at D.Disk disk.old extent) bucket from from) result }
    ensures reads { ReadsAtOr D.Disk Idx (result ≡ Err FindFault.DiskFault) disk.old disk.new }
{
    let mut at = from;
    while at != 0 {
        let Ahead { next, head } = read_head(disk, extent, at)?;
        let is_kept = !dropped.contains(&at);
        push_row(disk, extent, bucket, head, is_kept, rows, buffer)?;
        at = next;
    }
    Ok(())
}

/// Adds the rows of a bucket's chain, in its order, but for those whose records are dropped. Each record is read
/// once, its key into a buffer, which grows where it is too short.
pub fn push_chain<D: Disk>(
    disk: &mut D,
    extent: Extent,
    bucket: u32,
    dropped: &BTreeSet<u32>,
    rows: &mut Piece,
    buffer: &mut Vec<u8>,
) -> Result<(), FindFault>
    requires bucket { bucket < extent.buckets }
    requires open { CanRead D.Disk disk.old extent }
    ensures told { IsTrue D.tells → FindIs (λ places done. rows.new ≡ rows.old ++ map
        (row_at (unit_at (D.files disk.old).idx)) (filter (is_kept (λ p. contains nat_cmp dropped.now p)) places))
        (chain (index_at D.Disk disk.old extent) bucket) result }
    ensures reads { ReadsAtOr D.Disk Idx (result ≡ Err FindFault.DiskFault) disk.old disk.new }
{
    let found = read_bucket(disk, extent, bucket)?;
    push_from(disk, extent, bucket, found.at, dropped, rows, buffer)
}

/// Goes over a bucket's chain, and tells its first fault.
pub fn check_chain<D: Disk>(
    alloc: Global,
    disk: &mut D,
    extent: Extent,
    bucket: u32,
) -> Result<(), FindFault>
    requires bucket { bucket < extent.buckets }
    requires open { CanRead D.Disk disk.old extent }
    ensures none { OnOk result (IsTrue D.tells → IsOk (chain (index_at D.Disk disk.old extent) bucket)) }
    ensures fault { IfErr result (λ e. IsTrue D.tells → IsFaultOf (chain (index_at D.Disk disk.old extent) bucket) e) }
    ensures reads { ReadsAtOr D.Disk Idx (result ≡ Err FindFault.DiskFault) disk.old disk.new }
{
    let dropped = BTreeSet::new(alloc);
    let mut rows = Piece::new(alloc);
    let mut buffer = Vec::new(alloc);
    push_chain(disk, extent, bucket, &dropped, &mut rows, &mut buffer)
}

/// Drops a record of each of these rows, where there is one. The last row first: a package's rows stand in their
/// chains newest first, so that each is met at once after the one that was dropped before it.
fn drop_each<D: Disk>(
    alloc: Global,
    disk: &mut D,
    change: &mut Change,
    rows: &Rows,
) -> Result<(), PrepareFault>
    requires go { CanGo change.old }
    requires open { IsTrue D.tells → HasBuckets change.old.extent (D.files disk.old).idx }
    ensures keeps { OnOk result (IsOngoing change.old change.new) }
    ensures other { IfErr result (λ e. IsOther e) }
    ensures none { OnOk result (length rows.now ≡ 0 → change.new ≡ change.old) }
    ensures dropped { OnOk result (IsTrue D.tells → DropsRows (D.files disk.old).idx rows.now change.old change.new) }
    ensures refused { IfErr result (λ e. IsTrue D.tells → IsDropFault (D.files disk.old).idx rows.now change.old e) }
    ensures cost { IsTrue D.tells → IsWellFormed change.old.extent.buckets (D.files disk.old).idx
        → D.bytes_read disk.new Idx ≤ D.bytes_read disk.old Idx + chains_bytes
        (index_in change.old.extent.buckets (D.files disk.old).idx) rows.now }
    ensures reads { ReadsAtOr D.Disk Idx (result ≡ Err PrepareFault.DiskFault) disk.old disk.new }
{
    let mut starts = BTreeMap::new(alloc);
    let mut left = rows.len();
    while left > 0 {
        left -= 1;
        change.drop_row(alloc, disk, &mut starts, rows.row(left))?;
    }
    Ok(())
}

/// Goes over the chains of all buckets.
fn check_chains<D: Disk>(alloc: Global, disk: &mut D, extent: Extent) -> Result<(), FindFault>
    requires open { CanRead D.Disk disk.old extent }
    ensures none { OnOk result (IsTrue D.tells → HasNoFault (index_at D.Disk disk.old extent)) }
    ensures fault { IfErr result (λ e. IsTrue D.tells → HasFault (index_at D.Disk disk.old extent) e) }
    ensures reads { ReadsAtOr D.Disk Idx (result ≡ Err FindFault.DiskFault) disk.old disk.new }
{
    for bucket in 0..extent.buckets {
        check_chain(alloc, disk, extent, bucket)?;
    }
    Ok(())
}

/// Whether a fault says that unit 1 counts too little.
fn is_count_fault(fault: PrepareFault) -> bool
    ensures yes { result ≡ true → fault ≡ PrepareFault.BadIndex 1 }
    ensures no { result ≡ false → fault ≡ PrepareFault.BadIndex 1 → ⊥ }
{
    match fault {
        PrepareFault::BadIndex { unit } => unit == 1,
        _ => false,
    }
}

/// Drops a record of each of these rows, where there is one. That unit 1 counts too little is said only where no
/// chain has a fault: all are read then.
pub fn drop_rows<D: Disk>(
    alloc: Global,
    disk: &mut D,
    change: &mut Change,
    rows: &Rows,
) -> Result<(), PrepareFault>
    requires go { CanGo change.old }
    requires open { IsTrue D.tells → HasBuckets change.old.extent (D.files disk.old).idx }
    ensures keeps { OnOk result (IsOngoing change.old change.new) }
    ensures other { IfErr result (λ e. IsOther e) }
    ensures none { OnOk result (length rows.now ≡ 0 → change.new ≡ change.old) }
    ensures dropped { OnOk result (IsTrue D.tells → DropsRows (D.files disk.old).idx rows.now change.old change.new) }
    ensures bad { IfErr result (λ e. IsTrue D.tells → IsHonest change.old (D.files disk.old).idx
        → IsBad change.old.extent.buckets (D.files disk.old).idx e) }
    ensures counts { IfErr result (λ e. IsTrue D.tells → IsFreshChange change.old (D.files disk.old).idx
        → IsHonest change.old (D.files disk.old).idx
        → IsBadFor rows.now change.old.extent.buckets (D.files disk.old).idx e) }
    ensures cost { IsTrue D.tells → IsWellFormed change.old.extent.buckets (D.files disk.old).idx
        → IsHonest change.old (D.files disk.old).idx
        → D.bytes_read disk.new Idx ≤ D.bytes_read disk.old Idx + chains_bytes
        (index_in change.old.extent.buckets (D.files disk.old).idx) rows.now }
    ensures reads { ReadsAtOr D.Disk Idx (result ≡ Err PrepareFault.DiskFault) disk.old disk.new }
{
    let extent = change.extent;
    let Err(fault) = drop_each(alloc, disk, change, rows) else {
        return Ok(());
    };
    if !is_count_fault(fault) {
        return Err(fault);
    }
    match check_chains(alloc, disk, extent) {
        Ok(()) => Err(fault),
        Err(first) => Err(prepare_fault(first)),
    }
}
