//! Units: of the file, read, written and durable; of slot pages and heads of blobs, as bytes.

ghost use Rattle.std.specs.Prelude.{◌≡◌, ℕ, ◌+◌, ◌/◌, ◌%◌, ◌≤◌, ◌<◌, IsTrue, length, take, drop, OnOk, IfOk, ◌*◌, ◌^◌, ◌∷◌, []};
ghost use Rattle.rpm_pkgdb.specs.Prelude.{blank, bytes_of, Files, FitsAt, head_of, IsHeadUnit, IsSame, IsDurable, IsSlotUnit, next_unit, Pkg, with_units, ReadsOnly, SameOutside, tail_of, Torn, unit_at, Units, units_of, word, Writes};

use crate::blob::{HEAD, TAIL};
use crate::slot::{MAGIC, SLOT, Slot};
use rpm_outside::{Disk, Failed, File, bytes_of_word, unit_of_words};

/// Unit 1.
#[tactic(auto, using(crate::proofs::UnitWords::next_unit_words))]
pub fn next_unit(number: u32) -> [u8; 16]
    ensures word { word 0 result ≡ number }
    ensures bytes { result ≡ next_unit number }
{
    unit_of_words(number, 0, 0, 0)
}

/// The unit of a slot.
#[tactic(auto, using(crate::proofs::UnitWords::unit_words))]
pub fn slot_unit(slot: Slot) -> [u8; 16]
    ensures { IsSlotUnit result slot }
{
    unit_of_words(SLOT, slot.number, slot.offset, slot.count)
}

/// Unit 0.
#[tactic(auto, using(crate::proofs::UnitWords::unit_words))]
pub fn head_unit(generation: u32, pages: u32) -> [u8; 16]
    ensures { IsHeadUnit result generation pages }
{
    unit_of_words(MAGIC, 0, generation, pages)
}

/// The head of a blob of so many bytes.
#[tactic(auto, unfolding(crate::specs::Framing::head_of, rpm_outside::specs::Words::unit_of_words, rpm_outside::specs::Words::bytes_of_word))]
pub fn blob_head(number: u32, generation: u32, size: u32) -> [u8; 16]
    ensures { result ≡ head_of number generation size }
{
    unit_of_words(HEAD, number, generation, size)
}

/// The tail of a blob of so many bytes.
#[tactic(auto, unfolding(crate::specs::Framing::tail_of, rpm_outside::specs::Words::bytes_of_word))]
pub fn blob_tail(sum: u32, size: u32) -> [u8; 12]
    ensures { result ≡ tail_of sum size }
{
    let a = bytes_of_word(sum);
    let b = bytes_of_word(size);
    let c = bytes_of_word(TAIL);
    [
        a[0], a[1], a[2], a[3], b[0], b[1], b[2], b[3], c[0], c[1], c[2], c[3],
    ]
}

/// Reads units of Packages.db.
pub fn read_units<D: Disk>(disk: &mut D, unit: u64, into: &mut [u8]) -> Result<(), Failed>
    requires whole { length into.old % 16 ≡ 0 }
    requires within { IsTrue D.tells → unit + length into.old / 16 ≤ length (D.files disk.old).pkg }
    ensures units { OnOk result (IsTrue D.tells → units_of into.new ≡ take (length into.old / 16) (drop unit (D.files disk.old).pkg)) }
    ensures bytes { OnOk result (IsTrue D.tells → into.new ≡ bytes_of (take (length into.old / 16) (drop unit (D.files disk.old).pkg))) }
    ensures reads { ReadsOnly D.Disk Pkg (length into.old) result disk.old disk.new }
{
    disk.read_at(File::Pkg, unit, into)?;
    Ok(())
}

/// Unit k of these bytes.
pub fn unit_in(bytes: &[u8], k: usize) -> &[u8]
    requires { k < length bytes.now / 16 }
    ensures unit { result.now ≡ unit_at (units_of bytes.now) k }
    ensures whole { length result.now ≡ 16 }
{
    &bytes[16 * k..16 * k + 16]
}

/// Reads one unit.
pub fn read_unit<D: Disk>(disk: &mut D, at: u64) -> Result<[u8; 16], Failed>
    requires { IsTrue D.tells → at < length (D.files disk.old).pkg }
    ensures unit { IfOk result (λ unit. IsTrue D.tells → unit ≡ unit_at (D.files disk.old).pkg at) }
    ensures reads { ReadsOnly D.Disk Pkg 16 result disk.old disk.new }
{
    let mut unit = [0u8; 16];
    read_units(disk, at, &mut unit)?;
    Ok(unit)
}

/// Writes units of Packages.db.
pub fn write_units<D: Disk>(disk: &mut D, at: u64, bytes: &[u8]) -> Result<(), Failed>
    requires { FitsAt at bytes.now }
    ensures written { OnOk result (IsTrue D.tells → (D.files disk.new).pkg ≡ with_units at (units_of bytes.now) (D.files disk.old).pkg) }
    ensures writes { Writes D.Disk Pkg (Torn at (units_of bytes.now)) 0 result disk.old disk.new }
{
    disk.write_at(File::Pkg, at, bytes)
}

/// Makes Packages.db durable.
pub fn sync_pkg<D: Disk>(disk: &mut D) -> Result<(), Failed>
    ensures durable { OnOk result (IsTrue D.tells → IsDurable D.Disk Pkg disk.new) }
    ensures writes { Writes D.Disk Pkg IsSame 0 result disk.old disk.new }
{
    disk.sync(File::Pkg)
}

/// Writes one unit and makes the file durable.
pub fn write_one<D: Disk>(disk: &mut D, at: u64, unit: &[u8; 16]) -> Result<(), Failed>
    requires room { at < 2 ^ 28 }
    ensures written { OnOk result (IsTrue D.tells → (D.files disk.new).pkg ≡ with_units at (unit.now ∷ []) (D.files disk.old).pkg) }
    ensures durable { OnOk result (IsTrue D.tells → IsDurable D.Disk Pkg disk.new) }
    ensures writes { Writes D.Disk Pkg (Torn at (unit.now ∷ [])) 0 result disk.old disk.new }
{
    write_units(disk, at, unit)?;
    sync_pkg(disk)
}

/// Makes units zeros, a page in each write.
pub fn write_zeros<D: Disk>(disk: &mut D, at: u32, count: u32) -> Result<(), Failed>
    requires room { at + count ≤ 2 ^ 28 }
    ensures zeros { OnOk result (IsTrue D.tells → (i : ℕ) → at ≤ i → i < at + count → unit_at (D.files disk.new).pkg i ≡ blank) }
    ensures writes { Writes D.Disk Pkg (SameOutside at count) 0 result disk.old disk.new }
{
    if count == 0 {
        return Ok(());
    }
    let zeros = [0u8; 4096];
    let end = at + count;
    let mut next = at;
    while next < end {
        let some = (end - next).min(256);
        write_units(disk, next as u64, &zeros[..16 * some as usize])?;
        next += some;
    }
    Ok(())
}
