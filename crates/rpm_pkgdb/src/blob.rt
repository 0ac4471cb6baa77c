//! The blocks of one blob.

ghost use Rattle.std.specs.Prelude.{◌≡◌, ◌≢◌, ℕ, ◌+◌, ◌-◌, ◌*◌, ◌/◌, ◌%◌, ◌^◌, ◌≤◌, ◌<◌, ◌++◌, IsTrue, true, false, length, take, drop, Err, OnOk, IfOk, IfErr};
ghost use Rattle.rpm_pkgdb.specs.Prelude.{AreParts, blob_in, bytes_of, checksum_holds, end_of, Files, frame_in, frame_of, is_framed, is_head, is_tail, IsFrame, IsOutsideBlob, Pkg, ReadsOr, unit_at, Units, units_of, word};
ghost use Rattle.rpm_pkgdb.specs.declared.blob.GetFault.TheVariants as faults;

use crate::checksum::sums;
use crate::slot::Slot;
use crate::units::{read_unit, read_units};
use rpm_outside::{Disk, Failed, word};
use std::alloc::AllocError;

/// Why a number has no blob to give.
#[derive(Clone, Copy, PartialEq, Eq)]
pub enum GetFault {
    /// No slot has the number.
    NoSuch,
    /// The framing of its blob is broken: the head's magic or number isn't right, the length is above 68157432 bytes
    /// or not that of the block count, or the tail's length or magic isn't right. The head's generation isn't
    /// compared.
    Bad,
    /// A call of the disk failed.
    DiskFault,
    /// There was no memory for the blob.
    NoMemory,
}

impl From<Failed> for GetFault {
    ghost from_gives = { λ _ e. e ≡ faults.DiskFault };

    fn from(_: Failed) -> GetFault {
        GetFault::DiskFault
    }
}

impl From<AllocError> for GetFault {
    ghost from_gives = { λ _ e. e ≡ faults.NoMemory };

    fn from(_: AllocError) -> GetFault {
        GetFault::NoMemory
    }
}

/// The blocks of a blob whose framing is right: the first unit, and the bytes of the others.
#[derive(Drop)]
pub struct Blocks {
    pub head: [u8; 16],
    pub rest: Vec<u8>,
}

/// A blob, and whether the checksum in its tail is the Adler-32 of its head, bytes and padding.
#[derive(Drop)]
pub struct Checked {
    pub blob: Vec<u8>,
    pub holds: bool,
}

/// `BlbS`.
pub const HEAD: u32 = 0x5362_6c42;

/// `BlbE`.
pub const TAIL: u32 = 0x4562_6c42;

/// Whether a blob of this number and so many blocks can begin with this unit.
#[tactic(auto, unfolding(crate::specs::Blobs::is_head))]
fn is_head(n: u32, count: u32, head: &[u8]) -> bool
    requires { length head.now ≡ 16 }
    ensures { result ≡ is_head n count head.now }
{
    let length = word(head, 3);
    word(head, 0) == HEAD
        && word(head, 1) == n
        && length <= 68_157_432
        && count == (length + 43) / 16
}

/// Whether these blocks end in the tail of a blob of so many bytes.
#[tactic(auto, unfolding(crate::specs::Blobs::is_tail))]
fn is_tail(size: u32, rest: &[u8]) -> bool
    requires { 12 ≤ length rest.now }
    ensures { result ≡ is_tail size rest.now }
{
    let tail = &rest[rest.len() - 12..];
    word(tail, 1) == size && word(tail, 2) == TAIL
}

/// Whether the stored checksum is that of head, bytes and padding.
fn is_checksum_right(head: &[u8], rest: &[u8]) -> bool
    requires { 12 ≤ length rest.now }
    ensures { result ≡ checksum_holds (record { head = head.now; rest = rest.now }) }
{
    let end = rest.len() - 12;
    let (a, b) = sums(1, 0, head);
    let (low, high) = sums(a, b, &rest[..end]);
    word(&rest[end..], 0) == high * 65_536 + low
}

impl Blocks {
    pub fn checksum_holds(&self) -> bool
        requires { 12 ≤ length self.now.rest.items }
        ensures { result ≡ checksum_holds (frame_in self.now) }
    {
        is_checksum_right(&self.head, &self.rest)
    }

    /// The bytes of the blob, without a copy.
    pub fn into_blob(self) -> Vec<u8>
        ensures { result.items ≡ blob_in (frame_in self) }
    {
        let size = word(&self.head, 3) as usize;
        let mut rest = self.rest;
        rest.truncate(size);
        rest
    }

    /// The bytes of the blob, without a copy, and whether the stored checksum is right.
    pub fn into_checked(self) -> Checked
        requires { 12 ≤ length self.rest.items }
        ensures blob { result.blob.items ≡ blob_in (frame_in self) }
        ensures holds { result.holds ≡ checksum_holds (frame_in self) }
    {
        let holds = self.checksum_holds();
        Checked {
            blob: self.into_blob(),
            holds,
        }
    }
}

/// Reads so many units into a vector, whatever it holds: its room is used again where it is enough, and let go first
/// where it isn't.
fn read_into<D: Disk>(disk: &mut D, at: u64, count: u32, room: Vec<u8>) -> Result<Vec<u8>, GetFault>
    requires { IsTrue D.tells → at + count ≤ length (D.files disk.old).pkg }
    ensures long { IfOk result (λ v. length v.items ≡ 16 * count) }
    ensures units { IfOk result (λ v. IsTrue D.tells → units_of v.items ≡ take count (drop at (D.files disk.old).pkg)) }
    ensures bytes { IfOk result (λ v. IsTrue D.tells → v.items ≡ bytes_of (take count (drop at (D.files disk.old).pkg))) }
    ensures outside { IfErr result (λ e. IsOutsideBlob e) }
    ensures reads { ReadsOr D.Disk Pkg (16 * count) (result ≡ Err GetFault.DiskFault) disk.old disk.new }
{
    let length = 16 * count as usize;
    let mut rest = room;
    if rest.capacity() < length {
        rest.clear();
        rest.shrink_to_fit();
    }
    rest.resize(length, 0)?;
    read_units(disk, at, &mut rest)?;
    Ok(rest)
}

/// The first unit, and the bytes after it.
fn parted(bytes: Vec<u8>) -> Blocks
    requires { 16 ≤ length bytes.items }
    ensures head { result.head ≡ take 16 bytes.items }
    ensures rest { result.rest.items ≡ drop 16 bytes.items }
{
    let mut head = [0u8; 16];
    head.copy_from_slice(&bytes[..16]);
    let mut rest = bytes;
    let long = rest.len() - 16;
    rest.copy_within(16.., 0);
    rest.truncate(long);
    Blocks { head, rest }
}

// So many blocks at most, 8 KiB, come with their head by one call.
const FEW: u32 = 512;

/// Reads the blocks of a number's slot: many of them once the head is there and right.
fn read_parts<D: Disk>(disk: &mut D, n: u32, slot: Slot, room: Vec<u8>) -> Result<Blocks, GetFault>
    requires within { IsTrue D.tells → end_of slot ≤ length (D.files disk.old).pkg }
    requires some { 0 < slot.count }
    ensures head { IfOk result (λ b. is_head n slot.count b.head ≡ true) }
    ensures long { IfOk result (λ b. length b.rest.items ≡ 16 * (slot.count - 1)) }
    ensures present { result ≢ Err GetFault.NoSuch }
    ensures parts { IsTrue D.tells → AreParts n slot (D.files disk.old).pkg result }
    ensures reads { ReadsOr D.Disk Pkg (16 * slot.count) (result ≡ Err GetFault.DiskFault) disk.old disk.new }
{
    if slot.count <= FEW {
        let bytes = read_into(disk, slot.offset as u64, slot.count, room)?;
        let blocks = parted(bytes);
        if !is_head(n, slot.count, &blocks.head) {
            return Err(GetFault::Bad);
        }
        return Ok(blocks);
    }
    let head = read_unit(disk, slot.offset as u64)?;
    if !is_head(n, slot.count, &head) {
        return Err(GetFault::Bad);
    }
    let rest = read_into(disk, slot.offset as u64 + 1, slot.count - 1, room)?;
    Ok(Blocks { head, rest })
}

/// Reads the blocks of a number's slot, each once, into a vector whose room is used again.
///
/// Where they are many the head comes first: a slot may name any number of blocks, and only a right head bounds them
/// by the greatest blob.
pub fn read_blocks<D: Disk>(
    disk: &mut D,
    n: u32,
    slot: Slot,
    room: Vec<u8>,
) -> Result<Blocks, GetFault>
    requires within { IsTrue D.tells → end_of slot ≤ length (D.files disk.old).pkg }
    requires some { IsTrue D.tells → 0 < slot.count }
    ensures framed { IfOk result (λ b. is_framed n slot.count (frame_in b) ≡ true) }
    ensures long { IfOk result (λ b. 12 ≤ length b.rest.items) }
    ensures told { IsTrue D.tells → IsFrame (frame_of n slot (D.files disk.old).pkg) result }
    ensures present { result ≢ Err GetFault.NoSuch }
    ensures reads { ReadsOr D.Disk Pkg (16 * slot.count) (result ≡ Err GetFault.DiskFault) disk.old disk.new }
{
    if slot.count == 0 {
        return Err(GetFault::Bad);
    }
    let blocks = read_parts(disk, n, slot, room)?;
    if !is_tail(word(&blocks.head, 3), &blocks.rest) {
        return Err(GetFault::Bad);
    }
    Ok(blocks)
}
