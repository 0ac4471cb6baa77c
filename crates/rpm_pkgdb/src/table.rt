//! The slots of the pages, each read once, and the first that meets an earlier one.

ghost use Rattle.std.specs.Prelude.{◌≡◌, ℕ, ◌<◌, None, MatchOption, OnOk, ◌+◌, ◌*◌, ◌^◌, ◌≤◌, ◌∷◌, ◌++◌, [], true, length, is_some, IfErr, ◌-◌, IsTrue, Err, IfOk};
ghost use Rattle.rpm_pkgdb.specs.Prelude.{MapWithOne, AreNumbered, ArePages, ArePairs, AreRight, AreKeysRising, AreRisingTo, AreSound, CanKeep, end_of, fault_of, Files, find_in, get, has_number, HasPlaces, is_used, IsTableIndexed, IsInOrder, IsKnown, IsLast, AreSlotsRead, list_any, first_shared_fault, slots_meet, nat_cmp, Pkg, ReadsOr, DamageIs, SaysHere, shared_fault, shared_reason, slots_in, slot_units, table_fault};

use crate::keys::{Order, numbers_if_apart};
use crate::numbers::Numbers;
use crate::reading::{Reading, Rising, read_pieces};
use crate::slot::{OpenFault, Reason, Slot, damage_at};
use rpm_outside::Disk;
use std::alloc::{AllocError, Global};
use std::collections::BTreeMap;

/// The end of the last range that begins before a block.
pub fn last_before(ranges: &BTreeMap<u32, u32>, block: u32) -> Option<u32>
    ensures { MatchOption result ((from : ℕ) → from < block → get nat_cmp ranges.now from ≡ None) (IsLast (λ q. get nat_cmp ranges.now q) block) }
{
    match ranges.range(0..block).next_back() {
        Some((_, end)) => Some(*end),
        None => None,
    }
}

/// Puts a value at a key that is new, or in the place of an old one.
pub fn put(map: &mut BTreeMap<u32, u32>, key: u32, value: u32) -> Result<(), AllocError>
    ensures { OnOk result (MapWithOne (λ q. get nat_cmp map.old q) (λ q. get nat_cmp map.new q) key value) }
{
    map.insert(key, value)?;
    Ok(())
}

/// The slots so far, with two maps of the used ones, so that a slot is compared with one neighbour and not with all
/// earlier ones.
#[derive(Drop)]
pub struct Opening {
    pub slots: Vec<Slot>,
    /// From a number to its slot's place.
    pub numbers: BTreeMap<u32, u32>,
    /// From a first block to the end of its range.
    pub ranges: BTreeMap<u32, u32>,
}

impl Opening {
    pub fn new(alloc: Global) -> Opening
        ensures known { IsKnown result }
        ensures slots { result.slots.items ≡ [] }
    {
        Opening {
            slots: Vec::new(alloc),
            numbers: BTreeMap::new(alloc),
            ranges: BTreeMap::new(alloc),
        }
    }

    /// Whether a used slot has this number.
    fn has_number(&self, number: u32) -> bool
        requires { IsKnown self.now }
        ensures { result ≡ list_any (has_number number) self.now.slots.items }
    {
        self.numbers.contains_key(&number)
    }

    /// Whether a slot's blocks meet those of a used slot.
    fn overlaps(&self, slot: Slot) -> bool
        requires known { IsKnown self.now }
        requires end { end_of slot ≤ 2 ^ 28 }
        ensures { result ≡ list_any (slots_meet slot) self.now.slots.items }
    {
        // The ranges so far are apart, so of those that begin before the slot's end only the last can reach into it.
        match last_before(&self.ranges, slot.offset + slot.count) {
            None => false,
            Some(end) => slot.offset < end,
        }
    }

    /// What is wrong with a slot beside the earlier ones.
    #[tactic(auto, unfolding(crate::specs::Damages::shared_reason))]
    fn shared_reason(&self, slot: Slot) -> Option<Reason>
        requires known { IsKnown self.now }
        requires end { is_used slot ≡ true → end_of slot ≤ 2 ^ 28 }
        ensures { result ≡ shared_reason self.now.slots.items slot }
    {
        if slot.offset == 0 {
            return None;
        }
        if self.has_number(slot.number) {
            return Some(Reason::SameNumber);
        }
        if self.overlaps(slot) {
            return Some(Reason::Overlap);
        }
        None
    }

    fn push(&mut self, slot: Slot) -> Result<(), AllocError>
        requires can { CanKeep self.old slot }
        requires fresh { shared_reason self.old.slots.items slot ≡ None }
        ensures known { OnOk result (IsKnown self.new) }
        ensures slots { OnOk result (self.new.slots.items ≡ self.old.slots.items ++ slot ∷ []) }
    {
        if slot.offset == 0 {
            self.slots.push(slot)?;
            return Ok(());
        }
        put(&mut self.numbers, slot.number, self.slots.len() as u32)?;
        put(&mut self.ranges, slot.offset, slot.offset + slot.count)?;
        self.slots.push(slot)?;
        Ok(())
    }

    /// Adds the next slot, or says what is wrong with it beside the earlier ones.
    pub fn add(&mut self, slot: Slot) -> Result<(), OpenFault>
        requires { CanKeep self.old slot }
        ensures known { OnOk result (IsKnown self.new) }
        ensures slots { OnOk result (self.new.slots.items ≡ self.old.slots.items ++ slot ∷ []) }
        ensures sound { OnOk result (shared_fault self.old.slots.items slot ≡ None) }
        ensures says { IfErr result (λ e. SaysHere e (shared_fault self.old.slots.items slot)) }
    {
        if let Some(reason) = self.shared_reason(slot) {
            let place = 2 + self.slots.len() as u64;
            return Err(OpenFault::Damaged(damage_at(place, reason)));
        }
        self.push(slot)?;
        Ok(())
    }
}

/// All slots, none of them damaged, and where the slot of each number is.
#[derive(Drop)]
pub struct Table {
    pub slots: Vec<Slot>,
    pub numbers: Numbers,
    /// The place of the first free slot, and the end where there is none.
    pub free_from: u32,
}

/// The numbers of slots with their places, or the first slot that meets an earlier one: each beside the earlier ones.
fn exact_numbers(alloc: Global, slots: &[Slot]) -> Result<Numbers, OpenFault>
    requires { AreRight slots.now }
    ensures places { IfOk result (λ numbers. HasPlaces (find_in numbers.pairs) slots.now) }
    ensures sound { OnOk result (first_shared_fault [] slots.now ≡ None) }
    ensures says { IfErr result (λ e. SaysHere e (first_shared_fault [] slots.now)) }
{
    let mut opening = Opening::new(alloc);
    for k in 0..slots.len() {
        opening.add(slots[k])?;
    }
    let numbers = Numbers::from_map(alloc, opening.numbers)?;
    Ok(numbers)
}

/// The numbers of slots with their places, or the first slot that shares its number or a block with an earlier one.
fn numbers_of(
    alloc: Global,
    slots: &[Slot],
    pairs: Vec<(u32, u32)>,
    numbers_rise: bool,
    blocks_rise: bool,
) -> Result<Numbers, OpenFault>
    requires right { AreRight slots.now }
    requires pairs { ArePairs Order.Number slots.now (length slots.now) pairs.items }
    requires numbers { numbers_rise ≡ true → (end : ℕ) × AreKeysRising Order.Number slots.now pairs.items (length pairs.items) end }
    requires blocks { blocks_rise ≡ true → (end : ℕ) × AreRisingTo slots.now (length slots.now) end }
    ensures places { IfOk result (λ numbers. HasPlaces (find_in numbers.pairs) slots.now) }
    ensures sound { OnOk result (first_shared_fault [] slots.now ≡ None) }
    ensures says { IfErr result (λ e. SaysHere e (first_shared_fault [] slots.now)) }
{
    match numbers_if_apart(alloc, slots, pairs, numbers_rise, blocks_rise)? {
        Some(numbers) => Ok(numbers),
        None => exact_numbers(alloc, slots),
    }
}

/// The table of slots that are right by themselves, or the first that meets an earlier one.
fn table_of(alloc: Global, rising: Rising) -> Result<Table, OpenFault>
    requires right { AreRight rising.slots.items }
    requires order { IsInOrder rising }
    ensures slots { IfOk result (λ t. t.slots.items ≡ rising.slots.items) }
    ensures indexed { IfOk result IsTableIndexed }
    ensures numbered { IfOk result (λ t. AreNumbered t.slots.items) }
    ensures sound { OnOk result (first_shared_fault [] rising.slots.items ≡ None) }
    ensures says { IfErr result (λ e. SaysHere e (first_shared_fault [] rising.slots.items)) }
{
    let Rising {
        slots,
        pairs,
        free,
        numbers_rise,
        blocks_rise,
        number: _,
        block: _,
    } = rising;
    let numbers = numbers_of(alloc, &slots, pairs, numbers_rise, blocks_rise)?;
    Ok(Table {
        free_from: free.unwrap_or(slots.len() as u32),
        slots,
        numbers,
    })
}

/// The table of slots that were read, or its first damage.
fn table_read(alloc: Global, reading: Reading) -> Result<Table, OpenFault>
    requires right { AreRight reading.rising.slots.items }
    requires order { IsInOrder reading.rising }
    ensures slots { IfOk result (λ t. t.slots.items ≡ reading.rising.slots.items) }
    ensures indexed { IfOk result IsTableIndexed }
    ensures numbered { IfOk result (λ t. AreNumbered t.slots.items) }
    ensures sound { OnOk result (fault_of reading ≡ None) }
    ensures all { OnOk result (reading.reason ≡ None) }
    ensures says { IfErr result (λ e. SaysHere e (fault_of reading)) }
{
    let reason = reading.reason;
    let table = table_of(alloc, reading.rising)?;
    match reason {
        Some(reason) => {
            let place = 2 + table.slots.len() as u64;
            Err(OpenFault::Damaged(damage_at(place, reason)))
        }
        None => Ok(table),
    }
}

/// Reads all slots.
pub fn read_table<D: Disk>(
    alloc: Global,
    disk: &mut D,
    pages: u32,
    units: u64,
) -> Result<Table, OpenFault>
    requires pages { ArePages pages }
    requires within { IsTrue D.tells → 256 * pages ≤ length (D.files disk.old).pkg }
    ensures indexed { IfOk result IsTableIndexed }
    ensures numbered { IfOk result (λ t. AreNumbered t.slots.items) }
    ensures count { IfOk result (λ t. length t.slots.items ≡ 256 * pages - 2) }
    ensures placed { IfOk result (λ t. AreSound pages (2 ^ 28) t.slots.items) }
    ensures slots { IfOk result (λ t. IsTrue D.tells → t.slots.items ≡ slots_in (slot_units pages (D.files disk.old).pkg)) }
    ensures sound { OnOk result (IsTrue D.tells → table_fault pages units (slot_units pages (D.files disk.old).pkg) ≡ None) }
    ensures says { IfErr result (λ e. IsTrue D.tells → DamageIs e (table_fault pages units (slot_units pages (D.files disk.old).pkg))) }
    ensures reads { ReadsOr D.Disk Pkg (16 * (256 * pages - 2)) (result ≡ Err OpenFault.DiskFault) disk.old disk.new }
{
    let rising = Rising::before(alloc, pages)?;
    let reading = read_pieces(disk, rising, pages, units)?;
    table_read(alloc, reading)
}
