//! A blob that is put: its blocks, written beside the others, named by a slot, and then what it replaces becomes zeros.

ghost use Rattle.std.specs.Prelude.{◌≡◌, ℕ, ◌+◌, ◌-◌, ◌*◌, ◌/◌, ◌%◌, ◌^◌, ◌≤◌, ◌<◌, ◌++◌, IsTrue, length, take, drop, replicate, OnOk, IfSome};
ghost use Rattle.rpm_pkgdb.specs.Prelude.{adler, Anything, BlobPut, BlobTorn, blocks_for, CanPut, FieldPut, FieldTorn, Files, framed_blob, HasRoomFor, head_of, IsBlobPut, IsDurable, next_field, next_unit, padding, Pkg, pkg, with_units, Quiet, SameOutside, CrashLeavesFile, Store, summed_bytes, tail_of, unit_at, units_of, WhilePut, Writes};

use crate::checksum::sums;
use crate::plan::Target;
use crate::slot::Slot;
use crate::units::{
    blob_head, blob_tail, next_unit, slot_unit, sync_pkg, write_one, write_units, write_zeros,
};
use rpm_outside::{Disk, Failed};

/// The Adler-32 of a head, the bytes and zeros.
fn adler(head: &[u8], blob: &[u8], zeros: &[u8]) -> u32
    ensures { result ≡ adler (head.now ++ (blob.now ++ zeros.now)) }
{
    let (a, b) = sums(1, 0, head);
    let (c, d) = sums(a, b, blob);
    let (low, high) = sums(c, d, zeros);
    high * 65_536 + low
}

/// The last bytes of a blob, zeros, and the tail, up to an end.
fn last_bytes(rest: &[u8], tail: &[u8; 12], end: usize) -> [u8; 32]
    requires room { length rest.now + 12 ≤ end }
    requires end { end ≤ 32 }
    ensures { take end result ≡ (rest.now ++ replicate (end - 12 - length rest.now) 0) ++ tail.now }
{
    let mut last = [0u8; 32];
    last[..rest.len()].copy_from_slice(rest);
    last[end - 12..end].copy_from_slice(tail);
    last
}

/// What follows the last whole unit of a blob: its last bytes, zeros and the tail, in one unit or two; and how many
/// bytes they are.
fn last_units(head: &[u8; 16], blob: &[u8]) -> ([u8; 32], usize)
    requires { length blob.now ≤ 68157432 }
    ensures bytes { take result.1 result.0 ≡ (drop (16 * (length blob.now / 16)) blob.now ++ padding (length blob.now))
        ++ tail_of (adler (head.now ++ (blob.now ++ padding (length blob.now)))) (length blob.now) }
    ensures end { result.1 ≡ 16 * (blocks_for (length blob.now) - 1 - length blob.now / 16) }
    ensures some { 16 ≤ result.1 }
    ensures room { result.1 ≤ 32 }
{
    let rest = &blob[16 * (blob.len() / 16)..];
    let end = 16 * ((rest.len() + 27) / 16);
    let zeros = [0u8; 16];
    let sum = adler(head, blob, &zeros[..end - 12 - rest.len()]);
    let tail = blob_tail(sum, blob.len() as u32);
    (last_bytes(rest, &tail, end), end)
}

/// Writes whole units, or nothing where there are none.
fn write_some<D: Disk>(disk: &mut D, at: u64, bytes: &[u8]) -> Result<(), Failed>
    requires whole { length bytes.now % 16 ≡ 0 }
    requires room { at + length bytes.now / 16 ≤ 2 ^ 28 }
    requires inside { IsTrue D.tells → at ≤ length (D.files disk.old).pkg }
    ensures written { OnOk result (IsTrue D.tells → (D.files disk.new).pkg ≡ with_units at (units_of bytes.now) (D.files disk.old).pkg) }
    ensures writes { Writes D.Disk Pkg (SameOutside at (length bytes.now / 16)) 0 result disk.old disk.new }
{
    if bytes.is_empty() {
        return Ok(());
    }
    write_units(disk, at, bytes)
}

/// Writes the blocks of a blob, in at most three writes and without a copy of its bytes.
pub fn write_blob<D: Disk>(
    disk: &mut D,
    start: u32,
    number: u32,
    generation: u32,
    blob: &[u8],
) -> Result<(), Failed>
    requires few { length blob.now ≤ 68157432 }
    requires room { start + blocks_for (length blob.now) ≤ 2 ^ 28 }
    ensures written { OnOk result (IsTrue D.tells
        → (D.files disk.new).pkg ≡ with_units start (units_of (framed_blob number generation blob.now)) (D.files disk.old).pkg) }
    ensures writes { Writes D.Disk Pkg (SameOutside start (blocks_for (length blob.now))) 0 result disk.old disk.new }
{
    let head = blob_head(number, generation, blob.len() as u32);
    let whole = blob.len() / 16;
    let (last, end) = last_units(&head, blob);
    let at = start as u64 + 1;
    write_units(disk, start as u64, &head)?;
    write_some(disk, at, &blob[..16 * whole])?;
    write_units(disk, at + whole as u64, &last[..end])
}

/// Writes the number field, or nothing.
fn write_field<D: Disk>(disk: &mut D, next: Option<u32>) -> Result<(), Failed>
    ensures written { OnOk result (IsTrue D.tells → FieldPut next (D.files disk.old).pkg (D.files disk.new).pkg) }
    ensures bytes { OnOk result (IsTrue D.tells → IfSome next (λ n. unit_at (D.files disk.new).pkg 1 ≡ next_unit n)) }
    ensures writes { Writes D.Disk Pkg (FieldTorn next) 0 result disk.old disk.new }
{
    match next {
        None => Ok(()),
        Some(number) => write_units(disk, 1, &next_unit(number)),
    }
}

/// Writes a blob and the number field, and makes them durable.
fn write_first<D: Disk>(
    disk: &mut D,
    target: &Target,
    generation: u32,
    blob: &[u8],
) -> Result<(), Failed>
    requires few { length blob.now ≤ 68157432 }
    requires room { target.now.start + blocks_for (length blob.now) ≤ 2 ^ 28 }
    requires number { target.now.number < 4294967295 }
    ensures written { OnOk result (IsTrue D.tells
        → BlobPut target.now.start (units_of (framed_blob target.now.number generation blob.now)) (next_field target.now)
        (D.files disk.old).pkg (D.files disk.new).pkg) }
    ensures next { OnOk result (IsTrue D.tells → IfSome (next_field target.now) (λ n. unit_at (D.files disk.new).pkg 1 ≡ next_unit n)) }
    ensures durable { OnOk result (IsTrue D.tells → IsDurable D.Disk Pkg disk.new) }
    ensures writes { Writes D.Disk Pkg (BlobTorn target.now.start (blocks_for (length blob.now))
        (next_field target.now)) 0 result disk.old disk.new }
{
    write_blob(disk, target.start, target.number, generation, blob)?;
    write_field(disk, target.next_field())?;
    sync_pkg(disk)
}

/// Puts a blob, and makes the blocks of the slot zeros that it replaces.
pub fn put_blob<D: Disk>(
    disk: &mut D,
    target: &Target,
    generation: u32,
    old: Slot,
    blob: &[u8],
) -> Result<(), Failed>
    requires { HasRoomFor target.now old (length blob.now) }
    ensures put { OnOk result (IsTrue D.tells → IsBlobPut D.Disk disk.old disk.new target.now generation old blob.now) }
    ensures images { IsTrue D.tells → (value : Store) → CanPut value target.now generation old blob.now
        → Quiet D.Disk disk.old value → CrashLeavesFile D.Disk disk.old disk.new
        (WhilePut value target.now generation blob.now (pkg D.Disk disk.old)) }
    ensures writes { Writes D.Disk Pkg Anything 0 result disk.old disk.new }
{
    write_first(disk, target, generation, blob)?;
    write_one(disk, 2 + target.place as u64, &slot_unit(target.slot()))?;
    // Only now: until the slot is durable they are the package.
    write_zeros(disk, old.offset, old.count)
}
