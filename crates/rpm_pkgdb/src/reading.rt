//! The slots of the pages, read piece by piece, in the order of the file, with what shows whether two of them meet.

ghost use Rattle.std.specs.Prelude.{◌≡◌, ℕ, ◌+◌, ◌-◌, ◌*◌, ◌^◌, ◌≤◌, ◌<◌, ◌∷◌, ◌++◌, [], true, length, IfOk, ◌/◌, ◌%◌, IsTrue, None};
ghost use Rattle.rpm_pkgdb.specs.Prelude.{slots_with, AreNumbered, ArePages, AreRead, Awaits, Files, is_used, IsInOrder, AreSlotsRead, own_reason, Pkg, ReadsOnly, slot_of, slot_units, units_of};
ghost use Rattle.rpm_pkgdb.specs.inner.Reading.{SlotsRead};

use crate::slot::{BLOCKS, Reason, SLOT, Slot, own_reason, slot_of};
use crate::units::{read_units, unit_in};
use rpm_outside::{Disk, Failed, word};
use std::alloc::{AllocError, Global};

/// Slots, and whether each used one comes before the next by number and by block.
#[derive(Drop)]
pub struct Rising {
    pub slots: Vec<Slot>,
    /// Pairs of a number and a place, of all used slots.
    pub pairs: Vec<(u32, u32)>,
    /// The place of the first free slot.
    pub free: Option<u32>,
    pub numbers_rise: bool,
    pub blocks_rise: bool,
    /// The least number that the next used slot may have.
    pub number: u64,
    /// The least block that the next used slot may have.
    pub block: u64,
}

/// Whether keys that rose so far still do.
#[inline(always)]
fn still_rise(rise: bool, end: u64, key: u32) -> bool
    ensures { result ≡ true → (rise ≡ true) × (end ≤ key) }
{
    rise && end <= key as u64
}

impl Rising {
    /// No slots, with room for those of so many pages: 20 bytes for each.
    pub fn before(alloc: Global, pages: u32) -> Result<Rising, AllocError>
        requires pages { ArePages pages }
        ensures none { IfOk result (λ r. r.slots.items ≡ []) }
        ensures order { IfOk result IsInOrder }
        ensures awaits { IfOk result (Awaits pages (256 * pages - 2)) }
    {
        let count = (256 * pages - 2) as usize;
        let slots = Vec::with_capacity(alloc, count)?;
        let pairs = Vec::with_capacity(alloc, count)?;
        Ok(Rising {
            slots,
            pairs,
            free: None,
            numbers_rise: true,
            blocks_rise: true,
            number: 1,
            block: 256 * pages as u64,
        })
    }

    /// Adds a used slot.
    #[inline(always)]
    pub fn push_used(&mut self, slot: Slot)
        requires used { is_used slot ≡ true }
        requires order { IsInOrder self.old }
        requires few { length self.old.slots.items < 2 ^ 28 }
        requires awaits { Awaits 0 (length self.old.slots.items + 1) self.old }
        ensures order { IsInOrder self.new }
        ensures slots { self.new.slots.items ≡ self.old.slots.items ++ slot ∷ [] }
        ensures awaits { (pages n : ℕ) → 256 * pages ≤ slot.offset → Awaits pages n self.old → Awaits pages n self.new }
    {
        let place = self.slots.len() as u32;
        self.slots.push_reserved(slot);
        self.numbers_rise = still_rise(self.numbers_rise, self.number, slot.number);
        self.blocks_rise = still_rise(self.blocks_rise, self.block, slot.offset);
        self.number = slot.number as u64 + 1;
        self.block = slot.offset as u64 + slot.count as u64;
        self.pairs.push_reserved((slot.number, place));
    }

    /// Adds a slot.
    #[inline(always)]
    pub fn push(&mut self, slot: Slot)
        requires order { IsInOrder self.old }
        requires few { length self.old.slots.items < 2 ^ 28 }
        requires awaits { Awaits 0 (length self.old.slots.items + 1) self.old }
        ensures order { IsInOrder self.new }
        ensures slots { self.new.slots.items ≡ self.old.slots.items ++ slot ∷ [] }
        ensures awaits { (pages n : ℕ) → (is_used slot ≡ true → 256 * pages ≤ slot.offset) → Awaits pages n self.old → Awaits pages n self.new }
    {
        if slot.offset != 0 {
            return self.push_used(slot);
        }
        let place = self.slots.len() as u32;
        self.slots.push_reserved(slot);
        self.free = self.free.or(Some(place));
    }
}

/// How many slots are read at a time.
const PIECE: u32 = 1024;

/// The slots before the first that isn't right by itself, and what is wrong with that one.
#[derive(Drop)]
pub struct Reading {
    pub rising: Rising,
    pub reason: Option<Reason>,
}

/// Whether this is a slot that comes after all so far by number and by block. It is used and right by itself then.
#[inline(always)]
#[tactic(auto, unfolding(crate::specs::Damages::own_reason))]
fn is_next(rising: &Rising, pages: u32, units: u64, unit: &[u8]) -> bool
    requires unit { length unit.now ≡ 16 }
    requires some { 1 ≤ pages }
    requires block { 256 * pages ≤ rising.now.block }
    requires number { 1 ≤ rising.now.number }
    ensures own { result ≡ true → own_reason pages units unit.now ≡ None }
    ensures used { result ≡ true → is_used (slot_of unit.now) ≡ true }
{
    let slot = slot_of(unit);
    word(unit, 0) == SLOT
        && rising.number <= slot.number as u64
        && slot.number != u32::MAX
        && rising.block <= slot.offset as u64
        && slot.count != 0
        && slot.offset as u64 + slot.count as u64 <= units.min(BLOCKS)
}

/// Adds the slot in a unit, or says what is wrong with it by itself.
///
/// One that comes next is most often met, and asked nothing else.
#[inline(always)]
fn add_unit(rising: &mut Rising, pages: u32, units: u64, unit: &[u8]) -> Option<Reason>
    requires unit { length unit.now ≡ 16 }
    requires pages { ArePages pages }
    requires few { length rising.old.slots.items < 2 ^ 28 }
    requires awaits { Awaits pages (length rising.old.slots.items + 1) rising.old }
    requires order { IsInOrder rising.old }
    ensures reason { result ≡ own_reason pages units unit.now }
    ensures slots { rising.new.slots.items ≡ slots_with rising.old.slots.items result (slot_of unit.now) }
    ensures numbered { AreNumbered rising.old.slots.items → AreNumbered rising.new.slots.items }
    ensures order { IsInOrder rising.new }
    ensures awaits { (n : ℕ) → Awaits pages n rising.old → Awaits pages n rising.new }
{
    if is_next(rising, pages, units, unit) {
        rising.push_used(slot_of(unit));
        return None;
    }
    let reason = own_reason(pages, units, unit);
    if reason.is_none() {
        rising.push(slot_of(unit));
    }
    reason
}

/// Adds the slots in these bytes.
fn add_own(rising: Rising, pages: u32, units: u64, bytes: &[u8]) -> Reading
    requires pages { ArePages pages }
    requires few { length rising.slots.items + length bytes.now / 16 ≤ 2 ^ 28 }
    requires awaits { Awaits pages (length rising.slots.items + length bytes.now / 16) rising }
    requires order { IsInOrder rising }
    requires numbered { AreNumbered rising.slots.items }
    ensures adds { SlotsRead pages units (units_of bytes.now) rising.slots.items result }
    ensures order { IsInOrder result.rising }
    ensures numbered { AreNumbered result.rising.slots.items }
    ensures awaits { (n : ℕ) → Awaits pages n rising → Awaits pages n result.rising }
{
    let mut rising = rising;
    for k in 0..bytes.len() / 16 {
        let reason = add_unit(&mut rising, pages, units, unit_in(bytes, k));
        if reason.is_some() {
            return Reading { rising, reason };
        }
    }
    Reading {
        rising,
        reason: None,
    }
}

/// Reads the next slots of the table into these bytes, and adds them.
fn read_piece<D: Disk>(
    disk: &mut D,
    rising: Rising,
    pages: u32,
    units: u64,
    bytes: &mut [u8],
) -> Result<Reading, Failed>
    requires pages { ArePages pages }
    requires whole { length bytes.old % 16 ≡ 0 }
    requires few { length rising.slots.items + length bytes.old / 16 ≤ 256 * pages - 2 }
    requires within { IsTrue D.tells → 256 * pages ≤ length (D.files disk.old).pkg }
    requires awaits { Awaits pages (length rising.slots.items + length bytes.old / 16) rising }
    requires order { IsInOrder rising }
    requires read { AreRead (IsTrue D.tells) pages units (slot_units pages (D.files disk.old).pkg) rising.slots.items }
    ensures read { IfOk result (λ r. AreSlotsRead (IsTrue D.tells) pages units (slot_units pages (D.files disk.old).pkg)
        (length rising.slots.items + length bytes.old / 16) r) }
    ensures order { IfOk result (λ r. IsInOrder r.rising) }
    ensures awaits { IfOk result (λ r. (n : ℕ) → Awaits pages n rising → Awaits pages n r.rising) }
    ensures reads { ReadsOnly D.Disk Pkg (length bytes.old) result disk.old disk.new }
{
    read_units(disk, 2 + rising.slots.len() as u64, bytes)?;
    Ok(add_own(rising, pages, units, bytes))
}

/// Reads the slots, where there are none yet and there is room for them.
pub fn read_pieces<D: Disk>(
    disk: &mut D,
    rising: Rising,
    pages: u32,
    units: u64,
) -> Result<Reading, Failed>
    requires pages { ArePages pages }
    requires within { IsTrue D.tells → 256 * pages ≤ length (D.files disk.old).pkg }
    requires empty { rising.slots.items ≡ [] }
    requires order { IsInOrder rising }
    requires awaits { Awaits pages (256 * pages - 2) rising }
    ensures read { IfOk result (λ r. AreSlotsRead (IsTrue D.tells) pages units (slot_units pages (D.files disk.old).pkg) (256 * pages - 2) r) }
    ensures order { IfOk result (λ r. IsInOrder r.rising) }
    ensures reads { ReadsOnly D.Disk Pkg (16 * (256 * pages - 2)) result disk.old disk.new }
{
    let count = 256 * pages - 2;
    let mut rising = rising;
    let mut buffer = [0u8; 16_384];
    for k in 0..(count + PIECE - 1) / PIECE {
        let more = PIECE.min(count - PIECE * k);
        let reading = read_piece(
            disk,
            rising,
            pages,
            units,
            &mut buffer[..16 * more as usize],
        )?;
        if reading.reason.is_some() {
            return Ok(reading);
        }
        rising = reading.rising;
    }
    Ok(Reading {
        rising,
        reason: None,
    })
}
