//! A slot page that a plan adds: the ranges that stand in its way, and where they go.

ghost use Rattle.std.specs.Prelude.{◌≡◌, ◌≢◌, ℕ, List, ◌+◌, ◌*◌, ◌^◌, ◌≤◌, ◌<◌, ◌++◌, true, Some, Err, length, replicate, vec_len, MatchOption, OnOk, IfOk, slice_set};
ghost use Rattle.rpm_pkgdb.specs.Prelude.{AllMoved, AreAllUsed, AreBehind, CantMove, FitsNowhere, free, HasPlacesBefore, HoldsPage, IsFirstBefore, IsLeast, IsPlanning, IsRanged, moved_slot, NeedsPage, next_end, Slot, slot_at};

use crate::added_page::Move;
use crate::free_slots::FREE;
use crate::plan::PlanFault;
use crate::slot::Slot;
use crate::store::PkgDb;
use rpm_blocks::Used;
use std::alloc::{AllocError, Global};

/// What a put needs to add a slot page.
#[derive(Drop)]
pub struct Page {
    /// By rising old block.
    pub moves: Vec<Move>,
    /// The slots once the ranges are moved.
    pub slots: Vec<Slot>,
    /// Their ranges.
    pub used: Used,
}

/// The places of the used slots whose blocks begin before a block. Takes a step a slot.
fn places_before(alloc: Global, slots: &[Slot], end: u32) -> Result<Vec<u32>, AllocError>
    requires { length slots.now < 2 ^ 32 }
    ensures { IfOk result (λ places. HasPlacesBefore slots.now end places.items) }
{
    let mut places = Vec::new(alloc);
    for k in 0..slots.len() {
        let slot = slots[k];
        if slot.offset != 0 && slot.offset < end {
            places.push(k as u32)?;
        }
    }
    Ok(places)
}

/// The place of the first of the used ranges that begin before a block. Takes a step for each of these places.
fn first_before(slots: &[Slot], places: &[u32], end: u32) -> Option<u32>
    requires { HasPlacesBefore slots.now end places.now }
    ensures { MatchOption result (AreBehind slots.now end) (IsFirstBefore slots.now end) }
{
    let mut first: Option<u32> = None;
    let mut least = end;
    for i in 0..places.len() {
        let slot = at(slots, places[i]);
        if slot.offset != 0 && slot.offset < least {
            least = slot.offset;
            first = Some(places[i]);
        }
    }
    first
}

/// The slot at a place.
fn at(slots: &[Slot], place: u32) -> Slot
    requires { place < length slots.now }
    ensures { result ≡ slot_at slots.now place }
{
    slots[place as usize]
}

impl Page {
    /// Plans the move of a slot's blocks to the least free place from a block on.
    fn add_move(&mut self, place: u32, end: u32) -> Result<(), PlanFault>
        requires ranged { (pages : ℕ) × (256 * pages ≤ end) × IsRanged pages self.old }
        requires first { IsFirstBefore self.old.slots.items end place }
        ensures ranged { OnOk result ((pages : ℕ) → 256 * pages ≤ end → IsRanged pages self.old → IsRanged pages self.new) }
        ensures planning { OnOk result ((slots : List Slot) → IsPlanning slots end self.old → IsPlanning slots end self.new) }
        ensures moved { OnOk result ((to : ℕ) × (end ≤ to)
            × (self.new.slots.items ≡ slice_set self.old.slots.items place
            (moved_slot (slot_at self.old.slots.items place) to))) }
        ensures full { result ≡ Err PlanFault.StoreFull → FitsNowhere self.old.slots.items (slot_at self.old.slots.items place).count end }
        ensures kinds { result ≢ Err PlanFault.NumbersSpent }
    {
        let slot = at(&self.slots, place);
        let to = match self.used.first_fit(slot.count, end) {
            None => return Err(PlanFault::StoreFull),
            Some(to) => to,
        };
        self.used.reserve(1)?;
        self.moves.push(Move { place, to })?;
        self.used.insert(to, slot.count);
        self.used.remove(slot.offset);
        self.slots[place as usize] = Slot {
            number: slot.number,
            offset: to,
            count: slot.count,
        };
        Ok(())
    }
}

impl Page {
    /// Adds the free slots of the page, and makes room for one range more.
    fn add_slots(&mut self) -> Result<(), AllocError>
        ensures moves { self.new.moves ≡ self.old.moves }
        ensures slots { OnOk result (self.new.slots.items ≡ self.old.slots.items ++ replicate 256 free) }
        ensures ranges { self.new.used.ranges ≡ self.old.used.ranges }
        ensures room { OnOk result (1 ≤ self.new.used.spare) }
    {
        self.slots.extend_from_slice(&[FREE; 256])?;
        self.used.reserve(1)
    }

    /// The least block from one on at which so many are free.
    pub fn fit(&self, count: u32, from: u32) -> Option<u32>
        requires some { 1 ≤ count }
        requires ranged { (pages : ℕ) × IsRanged pages self.now }
        ensures { MatchOption result (FitsNowhere self.now.slots.items count from) (IsLeast self.now.slots.items count from) }
    {
        self.used.first_fit(count, from)
    }
}

impl PkgDb {
    /// The slots and their ranges as they are, copied, with room for a page more.
    fn page_of(&self, alloc: Global) -> Result<Page, AllocError>
        requires made { 1 ≤ self.now.pages }
        requires room { 1 ≤ self.now.spare }
        ensures slots { IfOk result (λ page. page.slots.items ≡ self.now.slots) }
        ensures none { IfOk result (λ page. vec_len page.moves ≡ 0) }
        ensures ranged { IfOk result (IsRanged self.now.pages) }
    {
        let Some(used) = &self.used else {
            unreachable!()
        };
        let mut slots = Vec::with_capacity(alloc, self.slots.len() + 256)?;
        slots.extend_from_slice(&self.slots)?;
        Ok(Page {
            moves: Vec::new(alloc),
            slots,
            used: used.copy_with_room(alloc, 257)?,
        })
    }

    /// Plans the moves that a slot page more asks for, one after the other by rising block, each to the least free
    /// place after it.
    fn plan_moves(&self, alloc: Global) -> Result<Page, PlanFault>
        requires made { 1 ≤ self.now.pages }
        requires room { 1 ≤ self.now.spare }
        ensures page { IfOk result (AllMoved self.now.slots (next_end self.now)) }
        ensures ranged { IfOk result (IsRanged self.now.pages) }
        ensures full { result ≡ Err PlanFault.StoreFull → CantMove self.now.slots (next_end self.now) }
        ensures kinds { result ≢ Err PlanFault.NumbersSpent }
    {
        let end = 256 * (self.pages + 1);
        let places = places_before(alloc, &self.slots, end)?;
        let mut page = self.page_of(alloc)?;
        while let Some(place) = first_before(&page.slots, &places, end) {
            page.add_move(place, end)?;
        }
        Ok(page)
    }

    /// Plans a slot page more.
    ///
    /// Takes a step a slot and a copy of the slots and of their ranges, and for each of the moves, which are at most
    /// 256, as many steps as there are moves.
    pub(crate) fn plan_page(&self, alloc: Global) -> Result<Page, PlanFault>
        requires made { 1 ≤ self.now.pages }
        requires room { 1 ≤ self.now.spare }
        requires all { AreAllUsed self.now.slots }
        ensures page { IfOk result (λ page. NeedsPage self.now true (Some page.moves.items) × HoldsPage self.now (Some page)) }
        ensures ranged { IfOk result (IsRanged (self.now.pages + 1)) }
        ensures full { result ≡ Err PlanFault.StoreFull → CantMove self.now.slots (next_end self.now) }
        ensures kinds { result ≢ Err PlanFault.NumbersSpent }
    {
        let _ = &self.slots;
        let mut page = self.plan_moves(alloc)?;
        page.add_slots()?;
        Ok(page)
    }
}
