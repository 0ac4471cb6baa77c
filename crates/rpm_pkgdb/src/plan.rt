//! Where a blob is to go, decided before anything is written.

ghost use Rattle.std.specs.Prelude.{◌≡◌, ◌≢◌, ◌↔◌, ℕ, ◌+◌, ◌*◌, ◌^◌, ◌≤◌, ◌<◌, true, false, None, Some, Err, length, MatchOption, IfSome, IsSome, OnOk, OnErr, IfOk, is_none};
ghost use Rattle.rpm_pkgdb.specs.Prelude.{AreAllUsed, AreUsedTo, field_after, FitsNowhere, has_number, HasMoreRoom, HasNoPlace, IsFirstFree, IsFor, IsStoreFull, IsLeast, IsPackageNumber, IsPlan, IsPlanned, IsTargetFor, next_field, next_number, slot_at, slot_for, slot_with};
ghost use Rattle.rpm_pkgdb.specs.declared.plan.PlanFault.TheVariants as faults;

use crate::page_plan::Page;
use crate::slot::Slot;
use crate::store::PkgDb;
use crate::used::make_room;
use std::alloc::{AllocError, AllocFailed, Global};

/// Number, slot and blocks of a blob.
#[derive(Clone, Copy)]
pub struct Target {
    pub(crate) number: u32,
    /// Of its slot.
    pub(crate) place: u32,
    /// The first block.
    pub(crate) start: u32,
    /// In bytes.
    pub(crate) length: u32,
    /// Whether no slot has the number yet.
    pub(crate) is_new: bool,
}

/// Where a blob of a length is to go.
#[derive(Drop)]
pub struct Plan {
    pub(crate) target: Target,
    /// A slot page that is added first.
    pub(crate) page: Option<Page>,
}

/// Why a blob can't be put.
#[derive(Clone, Copy, PartialEq, Eq)]
pub enum PlanFault {
    /// The next number is 4294967295, which no package can have.
    NumbersSpent,
    /// The blob, or a blob in the way of the slot page that is added for it, fits nowhere below 4 GiB.
    StoreFull,
    /// There was no memory for what the put needs.
    NoMemory,
}

impl From<AllocError> for PlanFault {
    ghost from_gives = { λ _ e. e ≡ faults.NoMemory };

    fn from(_: AllocError) -> PlanFault {
        PlanFault::NoMemory
    }
}

impl<T: Drop> From<AllocFailed<T>> for PlanFault {
    ghost from_gives = { λ _ e. e ≡ faults.NoMemory };

    fn from(_: AllocFailed<T>) -> PlanFault {
        PlanFault::NoMemory
    }
}

/// The first free slot, where those before a place are used. Takes a step for each slot from there up to it.
pub fn first_free(slots: &[Slot], from: u32) -> Option<u32>
    requires few { length slots.now < 2 ^ 32 }
    requires taken { AreUsedTo slots.now from }
    ensures { MatchOption result (AreAllUsed slots.now) (IsFirstFree slots.now) }
{
    for k in from as usize..slots.len() {
        if slots[k].offset == 0 {
            return Some(k as u32);
        }
    }
    None
}

impl PkgDb {
    /// Gathers the used ranges, where that wasn't done yet, and makes room for one put.
    fn prepare(&mut self, alloc: Global) -> Result<(), AllocError>
        ensures value { HasMoreRoom self.old self.new }
        ensures room { OnOk result (1 ≤ self.new.spare) }
        ensures err { OnErr result (self.new ≡ self.old) }
    {
        if self.spare >= 1 {
            return Ok(());
        }
        make_room(alloc, &mut self.used, &self.slots)?;
        self.numbers.reserve(1)?;
        self.spare = 1;
        Ok(())
    }

    /// The least block from one on at which so many are free.
    fn fit(&self, count: u32, from: u32) -> Option<u32>
        requires some { 1 ≤ count }
        requires room { 1 ≤ self.now.spare }
        ensures { MatchOption result (FitsNowhere self.now.slots count from) (IsLeast self.now.slots count from) }
    {
        match &self.used {
            None => unreachable!(),
            Some(used) => used.first_fit(count, from),
        }
    }

    /// Plans a blob into a slot that is there.
    fn plan_there(
        &self,
        number: u32,
        place: u32,
        size: u32,
        is_new: bool,
    ) -> Result<Plan, PlanFault>
        requires room { 1 ≤ self.now.spare }
        requires new { is_new ≡ true → (number ≡ next_number self.now) × IsFirstFree self.now.slots place }
        requires held { is_new ≡ false → has_number number (slot_at self.now.slots place) ≡ true }
        requires number { IsPackageNumber number }
        requires below { place < length self.now.slots }
        requires few { size ≤ 68157432 }
        ensures plan { IfOk result (IsPlan self.now) }
        ensures target { IfOk result (λ plan. IsTargetFor number size is_new plan.target) }
        ensures full { result ≡ Err PlanFault.StoreFull → IsStoreFull self.now is_new size }
        ensures kinds { result ≢ Err PlanFault.NumbersSpent }
    {
        match self.fit((size + 43) / 16, 256 * self.pages) {
            None => Err(PlanFault::StoreFull),
            Some(start) => Ok(Plan {
                target: Target {
                    number,
                    place,
                    start,
                    length: size,
                    is_new,
                },
                page: None,
            }),
        }
    }

    /// Plans a blob into the first slot of a page more.
    fn plan_behind(&self, alloc: Global, number: u32, length: u32) -> Result<Plan, PlanFault>
        requires made { 1 ≤ self.now.pages }
        requires room { 1 ≤ self.now.spare }
        requires all { AreAllUsed self.now.slots }
        requires next { number ≡ next_number self.now }
        requires number { IsPackageNumber number }
        requires few { length ≤ 68157432 }
        ensures plan { IfOk result (IsPlan self.now) }
        ensures target { IfOk result (λ plan. IsTargetFor number length true plan.target) }
        ensures full { result ≡ Err PlanFault.StoreFull → IsStoreFull self.now true length }
        ensures kinds { result ≢ Err PlanFault.NumbersSpent }
    {
        let _ = &self.slots;
        let page = self.plan_page(alloc)?;
        match page.fit((length + 43) / 16, 256 * (self.pages + 1)) {
            None => Err(PlanFault::StoreFull),
            Some(start) => Ok(Plan {
                target: Target {
                    number,
                    place: self.slots.len() as u32,
                    start,
                    length,
                    is_new: true,
                },
                page: Some(page),
            }),
        }
    }

    /// Plans a blob, once there is room for it.
    fn plan_ready(&self, alloc: Global, n: Option<u32>, length: u32) -> Result<Plan, PlanFault>
        requires made { 1 ≤ self.now.pages }
        requires room { 1 ≤ self.now.spare }
        requires held { IfSome n (λ m. IsSome (slot_with m self.now.slots)) }
        requires few { length ≤ 68157432 }
        requires left { n ≡ None → next_number self.now ≢ 4294967295 }
        ensures plan { IfOk result (IsPlan self.now) }
        ensures asked { IfOk result (λ plan. IsFor n length plan) }
        ensures full { result ≡ Err PlanFault.StoreFull → IsStoreFull self.now (is_none n) length }
        ensures kinds { result ≢ Err PlanFault.NumbersSpent }
    {
        if let Some(m) = n {
            return self.plan_there(m, self.slot_place(m).0, length, false);
        }
        let number = self.next_number();
        match first_free(&self.slots, self.free_from) {
            Some(place) => self.plan_there(number, place, length, true),
            None => self.plan_behind(alloc, number, length),
        }
    }

    /// Whether a new number is asked for and there is none.
    fn is_spent(&self, n: Option<u32>) -> bool
        ensures spent { result ≡ true → (n ≡ None) × (next_number self.now ≡ 4294967295) }
        ensures left { result ≡ false → n ≡ None → next_number self.now ≢ 4294967295 }
    {
        n.is_none() && self.next_number() == u32::MAX
    }
}

impl PkgDb {
    /// Decides where a blob of a length goes, under a number that is there or, for `None`, under a new one; and makes
    /// the room for it.
    ///
    /// The blob goes to the least free blocks after the slot pages, a new number to the first free slot. Nothing is
    /// read and nothing written. The first plan of a value gathers the used ranges, a step a slot where they rise in
    /// the order of the file, and else n log n, which is linear where they rise in a few runs; it takes 24 bytes a
    /// slot, and where they don't rise at most 12 more meanwhile. A later one takes two binary searches, a step for
    /// each gap that is too narrow, and for a new number a step for each used slot from the last one put on.
    ///
    /// A new number for which no slot is free asks for a slot page more. The blobs in its way are planned to move
    /// after it, by rising block, each to the least free place; then the new blob. This takes a step a slot to find
    /// them and a copy of the slots and of their ranges, 28 bytes a slot and 8 for each gap, until the put; and for
    /// each of them, which are at most 256, as many steps as there are of them, and the ranges after it move in
    /// memory. In a row of additions each so pays a 256th of it.
    ///
    /// # Errors
    ///
    /// - `NumbersSpent` exactly where a new number is asked for and the next one is 4294967295.
    /// - `StoreFull` exactly where it doesn't come, the blob or one that has to move fits nowhere below 4 GiB, and
    ///   there was memory.
    /// - `NoMemory` where the room finds no memory.
    ///
    /// The value is as it was then.
    pub fn plan(&mut self, alloc: Global, n: Option<u32>, length: u32) -> Result<Plan, PlanFault>
        requires made { 1 ≤ self.old.pages }
        requires held { IfSome n (λ m. IsSome (slot_with m self.old.slots)) }
        requires few { length ≤ 68157432 }
        ensures value { HasMoreRoom self.old self.new }
        ensures err { OnErr result (self.new ≡ self.old) }
        ensures planned { IfOk result (IsPlanned n length self.old self.new) }
        ensures spent { (result ≡ Err PlanFault.NumbersSpent) ↔ ((n ≡ None) × (next_number self.old ≡ 4294967295)) }
        ensures full { result ≡ Err PlanFault.StoreFull → HasNoPlace n length self.old }
    {
        if self.is_spent(n) {
            return Err(PlanFault::NumbersSpent);
        }
        let spare = self.spare;
        self.prepare(alloc)?;
        match self.plan_ready(alloc, n, length) {
            Ok(plan) => Ok(plan),
            Err(fault) => {
                self.spare = spare;
                Err(fault)
            }
        }
    }
}

impl Target {
    /// What becomes of the number field: for a new number it is the one after it.
    pub(crate) fn next_field(&self) -> Option<u32>
        requires { self.now.number < 4294967295 }
        ensures { result ≡ next_field self.now }
    {
        if self.is_new {
            Some(self.number + 1)
        } else {
            None
        }
    }

    /// The number field after the put.
    pub(crate) fn field_after(&self, field: u32) -> u32
        requires { self.now.number < 4294967295 }
        ensures { result ≡ field_after (next_field self.now) field }
    {
        match self.next_field() {
            None => field,
            Some(next) => next,
        }
    }

    /// The place before which all slots are used after the put, given one before it. A new number takes the first
    /// free slot.
    pub(crate) fn free_after(&self, from: u32) -> u32
        requires { self.now.place < 2 ^ 28 }
        ensures new { self.now.is_new ≡ true → result ≡ self.now.place + 1 }
        ensures held { self.now.is_new ≡ false → result ≡ from }
    {
        if self.is_new { self.place + 1 } else { from }
    }

    /// The slot of the blob.
    pub(crate) fn slot(&self) -> Slot
        requires { self.now.length ≤ 68157432 }
        ensures { result ≡ slot_for self.now }
    {
        Slot {
            number: self.number,
            offset: self.start,
            count: (self.length + 43) / 16,
        }
    }
}
