//! The first unit of a record, and whether the record is looked for.

ghost use Rattle.std.specs.Prelude.{◌≡◌, ℕ, ◌+◌, ◌*◌, ◌/◌, ◌%◌, ◌^◌, ◌≤◌, ◌<◌, ◌⊎◌, IsTrue, true, false, length, IfOk, IfErr, Err, Some, None};
ghost use Rattle.rpm_hindex.specs.Prelude.{CanRead, FallsTo, follow, has_key, hash_of, Idx, index_at, is_placed, is_sound, is_wanted, IsRecordAhead, IsFaultOf, IsRecordHead, IsMet, length_at, ReadsAtOr, ReadsOr, row_at, unit_at, units_at};

use crate::chain::{Extent, is_placed};
use crate::faults::FindFault;
use crate::hits::Hit;
use crate::reads::{read_key_into, read_unit};
use crate::records::bucket_of;
use rpm_outside::{Disk, word};

/// Where a record stands, and the numbers of its first unit but for its next.
#[derive(Clone, Copy)]
pub struct Head {
    pub at: u32,
    pub size: u32,
    pub number: u32,
    pub place: u32,
}

/// The first unit of a record, as it was read.
#[derive(Clone, Copy)]
pub struct Ahead {
    pub next: u32,
    pub head: Head,
}

/// A record on the way through a chain, and whether it is looked for.
#[derive(Clone, Copy)]
pub struct Met {
    pub next: u32,
    pub head: Head,
    pub is_wanted: bool,
}

/// Reads the first unit of the record at a unit that a link names.
pub fn read_head<D: Disk>(disk: &mut D, extent: Extent, at: u32) -> Result<Ahead, FindFault>
    requires open { CanRead D.Disk disk.old extent }
    requires some_at { 0 < at }
    requires within { at < extent.used }
    ensures here { IfOk result (λ a. a.head.at ≡ at) }
    ensures next { IfOk result (λ a. FallsTo extent.buckets extent.used at a.next) }
    ensures ahead { IfOk result (λ a. IsTrue D.tells → IsRecordAhead (index_at D.Disk disk.old extent) at a) }
    ensures fault { IfErr result (λ e. IsTrue D.tells → (b : ℕ) → IsFaultOf (follow (index_at D.Disk disk.old extent) b at at) e) }
    ensures reads { ReadsOr D.Disk Idx 16 (result ≡ Err FindFault.DiskFault) disk.old disk.new }
{
    let Ok(unit) = read_unit(disk, at as u64) else {
        return Err(FindFault::DiskFault);
    };
    if !is_placed(extent, at, &unit) {
        return Err(FindFault::BadIndex { unit: at as u64 });
    }
    let head = Head {
        at,
        size: word(&unit, 1),
        number: word(&unit, 2),
        place: word(&unit, 3),
    };
    Ok(Ahead {
        next: word(&unit, 0),
        head,
    })
}

/// Whether two kinds and two keys are the same.
fn is_key(kind: u8, key: &[u8], other_kind: u8, other: &[u8]) -> bool
    ensures same { (number place : ℕ) → result ≡ has_key kind key.now (record { kind = other_kind; key = other.now; number = number; place = place }) }
    ensures hash { result ≡ true → hash_of other_kind other.now ≡ hash_of kind key.now }
{
    kind == other_kind && key == other
}

/// Whether a key is of this bucket, which is known where it is the key that is looked for.
fn is_of_bucket(kind: u8, key: &[u8], buckets: u32, bucket: u32, is_wanted: bool) -> bool
    requires some { 0 < buckets }
    requires wanted { is_wanted ≡ true → hash_of kind key.now % buckets ≡ bucket }
    ensures yes { result ≡ true → hash_of kind key.now % buckets ≡ bucket }
    ensures no { result ≡ false → hash_of kind key.now % buckets ≡ bucket → ⊥ }
{
    is_wanted || bucket_of(kind, key, buckets) == bucket
}

/// Reads the key of a record, whose first unit was read, into a buffer: whether it is this kind's key, which is of
/// the bucket. A function of its own, so that passing a record stays short.
#[inline(never)]
pub fn meets_key<D: Disk>(
    disk: &mut D,
    extent: Extent,
    bucket: u32,
    head: Head,
    kind: u8,
    key: &[u8],
    buffer: &mut Vec<u8>,
) -> Result<bool, FindFault>
    requires some { 0 < extent.buckets }
    requires open { CanRead D.Disk disk.old extent }
    requires some_at { 0 < head.at }
    requires placed { IsTrue D.tells → is_placed (index_at D.Disk disk.old extent) head.at ≡ true }
    requires head { IsTrue D.tells → IsRecordHead (unit_at (D.files disk.old).idx) head }
    requires bucket { hash_of kind key.now % extent.buckets ≡ bucket }
    ensures same { IfOk result (λ is. IsTrue D.tells → is ≡ has_key kind key.now (row_at (unit_at (D.files disk.old).idx) head.at)) }
    ensures sound { IfOk result (λ is. IsTrue D.tells → is_sound (index_at D.Disk disk.old extent) bucket head.at ≡ true) }
    ensures long { IfOk result (λ is. IsTrue D.tells → length (row_at (unit_at (D.files disk.old).idx) head.at).key
        ≡ length_at (unit_at (D.files disk.old).idx) head.at) }
    ensures fault { IfErr result (λ e. IsTrue D.tells → IsFaultOf (follow (index_at D.Disk disk.old extent) bucket head.at head.at) e) }
    ensures reads { ReadsOr D.Disk Idx (16 * ((head.size % 2 ^ 28 + 15) / 16)) (result ≡ Err FindFault.DiskFault) disk.old disk.new }
{
    let length = head.size % 268_435_456;
    read_key_into(disk, head.at as u64 + 1, length, buffer)?;
    let found_kind = (head.size / 268_435_456) as u8;
    let found = &buffer[..length as usize];
    let is_wanted = is_key(kind, key, found_kind, found);
    if !is_of_bucket(found_kind, found, extent.buckets, bucket, is_wanted) {
        return Err(FindFault::BadIndex {
            unit: head.at as u64,
        });
    }
    Ok(is_wanted)
}

/// Whether a record has the number and place that are looked for, where only one is.
fn may_be(head: Head, only: Option<Hit>) -> bool
    ensures yes { result ≡ true → (hit : Hit) → only ≡ Some hit → (hit.number ≡ head.number) × (hit.place ≡ head.place) }
    ensures no { result ≡ false → (hit : Hit) × (only ≡ Some hit) × (hit.number ≡ head.number → hit.place ≡ head.place → ⊥) }
{
    match only {
        Some(hit) => hit.number == head.number && hit.place == head.place,
        None => true,
    }
}

/// Reads the record at a unit that a link names, and its key only where the record has the number and place that are
/// looked for. Inlined, so that the walk for a key makes no such test.
#[inline(always)]
pub fn meet<D: Disk>(
    disk: &mut D,
    extent: Extent,
    bucket: u32,
    at: u32,
    kind: u8,
    key: &[u8],
    only: Option<Hit>,
    buffer: &mut Vec<u8>,
) -> Result<Met, FindFault>
    requires some { 0 < extent.buckets }
    requires open { CanRead D.Disk disk.old extent }
    requires some_at { 0 < at }
    requires within { at < extent.used }
    requires bucket { hash_of kind key.now % extent.buckets ≡ bucket }
    ensures here { IfOk result (λ m. m.head.at ≡ at) }
    ensures next { IfOk result (λ m. FallsTo extent.buckets extent.used at m.next) }
    ensures met { IfOk result (λ m. IsTrue D.tells → IsMet (index_at D.Disk disk.old extent) at (is_wanted kind key.now only) m) }
    ensures sound { IfOk result (λ m. IsTrue D.tells → (only ≡ None) ⊎ (m.is_wanted ≡ true)
        → is_sound (index_at D.Disk disk.old extent) bucket at ≡ true) }
    ensures fault { IfErr result (λ e. IsTrue D.tells → IsFaultOf (follow (index_at D.Disk disk.old extent) bucket at at) e) }
    ensures cost { IsTrue D.tells → is_sound (index_at D.Disk disk.old extent) bucket at ≡ true
        → D.bytes_read disk.new Idx ≤ D.bytes_read disk.old Idx + 16 * units_at (unit_at (D.files disk.old).idx) at }
    ensures reads { ReadsAtOr D.Disk Idx (result ≡ Err FindFault.DiskFault) disk.old disk.new }
{
    let Ahead { next, head } = read_head(disk, extent, at)?;
    if !may_be(head, only) {
        return Ok(Met {
            next,
            head,
            is_wanted: false,
        });
    }
    let is_wanted = meets_key(disk, extent, bucket, head, kind, key, buffer)?;
    Ok(Met {
        next,
        head,
        is_wanted,
    })
}
