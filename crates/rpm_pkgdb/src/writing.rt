//! Putting and erasing a package, and raising the generation.

ghost use Rattle.std.specs.Prelude.{◌≡◌, ℕ, ◌+◌, ◌<◌, ◌≤◌, IsTrue, true, false, length, IsSome, OnOk, OnErr, IfOk};
ghost use Rattle.rpm_pkgdb.specs.Prelude.{MapWithOne, AfterPut, Anything, CanGrowBy, without_number, EraseCrashes, find_in, grown, has_number, HoldsPage, IsErased, IsPlan, IsPut, IsRaised, IsWritable, IsReplaced, IsTarget, KeepsStore, moves_of, moving_cost, Pkg, pkg, PutCrashes, Quiet, RaisesTo, SameOutside, slot_at, slot_with, stopped_store, CrashLeavesFile, with_put, with_generation, with_plan, with_spare, Writes};

use crate::free_slots::{FREE, free_slot};
use crate::new_blob::put_blob;
use crate::numbers::Numbers;
use crate::page_plan::Page;
use crate::plan::{Plan, Target};
use crate::slot::Slot;
use crate::store::{DiskFault, PkgDb};
use crate::units::{head_unit, write_one};
use crate::used::{forget, forget_slot, remember};
use rpm_outside::{Disk, Failed};

/// Adds a new number, which is above all others.
fn note_number(numbers: &mut Numbers, target: &Target)
    requires room { 1 ≤ numbers.old.room }
    requires above { target.now.is_new ≡ true → (m : ℕ) → IsSome (find_in numbers.old.pairs m) → m < target.now.number }
    ensures new { target.now.is_new ≡ true → MapWithOne (find_in numbers.old.pairs) (find_in numbers.new.pairs) target.now.number target.now.place }
    ensures held { target.now.is_new ≡ false → numbers.new.pairs ≡ numbers.old.pairs }
    ensures room { numbers.old.room ≤ numbers.new.room + 1 }
{
    if target.is_new {
        numbers.push(target.number, target.place);
    }
}

impl PkgDb {
    /// The slot that is replaced, and a free one for a new number.
    fn replaced(&self, target: &Target) -> Slot
        requires { target.now.is_new ≡ false → has_number target.now.number (slot_at self.now.slots target.now.place) ≡ true }
        ensures { IsReplaced self.now target.now result }
    {
        let _ = &self.slots;
        if target.is_new {
            return FREE;
        }
        self.slots[target.place as usize]
    }

    /// Notes in memory what a put wrote.
    fn note_put(&mut self, target: &Target, old: Slot)
        requires target { IsTarget self.old target.now }
        requires made { 1 ≤ self.old.pages }
        requires room { 1 ≤ self.old.spare }
        requires old { IsReplaced self.old target.now old }
        ensures value { self.new ≡ with_spare self.new.spare (with_put target.now self.old) }
        ensures spare { self.old.spare ≡ self.new.spare + 1 }
    {
        let slot = target.slot();
        self.slots[target.place as usize] = slot;
        self.field = target.field_after(self.field);
        self.free_from = target.free_after(self.free_from);
        note_number(&mut self.numbers, target);
        remember(&mut self.used, slot);
        forget_slot(&mut self.used, old);
        self.spare -= 1;
    }
}

impl PkgDb {
    /// Writes what a plan says.
    fn write_plan<D: Disk>(
        &self,
        disk: &mut D,
        plan: &Plan,
        old: Slot,
        blob: &[u8],
    ) -> Result<(), Failed>
        requires made { 1 ≤ self.now.pages }
        requires plan { IsPlan self.now plan.now }
        requires length { plan.now.target.length ≡ length blob.now }
        requires keeps { IsTrue D.tells → KeepsStore (pkg D.Disk disk.old) self.now }
        requires old { IsReplaced self.now plan.now.target old }
        ensures put { OnOk result (IsTrue D.tells
            → IsPut D.Disk disk.old disk.new self.now (with_plan plan.now self.now) plan.now.target blob.now) }
        ensures crashes { IsTrue D.tells → Quiet D.Disk disk.old self.now → PutCrashes D.Disk disk.old disk.new self.now plan.now.target blob.now }
        ensures writes { Writes D.Disk Pkg Anything (moving_cost self.now.slots (moves_of plan.now.page)) result disk.old disk.new }
    {
        self.grow(disk, &plan.page)?;
        put_blob(disk, &plan.target, self.generation, old, blob)
    }

    /// Notes in memory the slot page that was added, if one was.
    fn note_page(&mut self, page: Option<Page>)
        requires made { 1 ≤ self.old.pages }
        requires can { CanGrowBy self.old (moves_of page) }
        requires held { HoldsPage self.old page }
        ensures { self.new ≡ grown (moves_of page) self.old }
    {
        match page {
            None => {}
            Some(page) => {
                self.slots = page.slots;
                self.used = Some(page.used);
                self.pages += 1;
                self.free_from = 0;
            }
        }
    }
}

impl PkgDb {
    /// Puts a blob where a plan says, and answers its number.
    ///
    /// A slot page that the plan asks for is added first: the blobs in its way are moved, each durable before the
    /// slot that names it, and this before the next one; then the page is written and durable, and then unit 0. Then
    /// the blob is written into free blocks, with the number field where the number is new, and made durable; then its
    /// slot, and made durable; and then the blocks that it replaces become zeros. The blob isn't copied: five writes, one
    /// more for each page of zeros, and two syncs. Each block that moves is read once, nothing else is read, and no
    /// memory is taken. In memory the ranges after the new one move, which is none where it is the last.
    ///
    /// A crash at any moment leaves the packages from before, or those with this one, each with its blocks byte for
    /// byte: blocks that move are copies before a slot names them.
    ///
    /// # Errors
    ///
    /// `DiskFault` only where the disk's count of faults rose. The value is stopped then, and what is on the disk is
    /// one of the two.
    pub fn put<D: Disk>(&mut self, disk: &mut D, plan: Plan, blob: &[u8]) -> Result<u32, DiskFault>
        requires ready { IsWritable D.Disk disk.old self.old }
        requires room { 1 ≤ self.old.spare }
        requires plan { IsPlan self.old plan }
        requires length { plan.target.length ≡ length blob.now }
        ensures number { IfOk result (λ n. n ≡ plan.target.number) }
        ensures value { OnOk result (AfterPut plan (length blob.now) self.old self.new) }
        ensures err { OnErr result (self.new ≡ stopped_store self.old) }
        ensures put { OnOk result (IsTrue D.tells → IsPut D.Disk disk.old disk.new self.old self.new plan.target blob.now) }
        ensures crashes { IsTrue D.tells → Quiet D.Disk disk.old self.old → PutCrashes D.Disk disk.old disk.new self.old plan.target blob.now }
        ensures writes { Writes D.Disk Pkg Anything (moving_cost self.old.slots (moves_of plan.page)) result disk.old disk.new }
    {
        let old = self.replaced(&plan.target);
        let Ok(()) = self.write_plan(disk, &plan, old, blob) else {
            self.stopped = true;
            return Err(DiskFault);
        };
        let Plan { target, page } = plan;
        self.note_page(page);
        self.note_put(&target, old);
        Ok(target.number)
    }
}

impl PkgDb {
    /// Erases a package.
    ///
    /// Its slot is set free, and once that is durable its blocks become zeros. Writes one unit and the blocks, a page
    /// at a time, and syncs once; reads nothing and takes no memory. The pairs of greater numbers move in memory.
    ///
    /// A crash at any moment leaves the packages from before, or those without this one, each with its blocks byte
    /// for byte.
    ///
    /// # Errors
    ///
    /// `DiskFault` only where the disk's count of faults rose. The value is stopped then, and what is on the disk is
    /// one of the two.
    pub fn erase<D: Disk>(&mut self, disk: &mut D, n: u32) -> Result<(), DiskFault>
        requires going { self.old.is_stopped ≡ false }
        requires keeps { IsTrue D.tells → KeepsStore (pkg D.Disk disk.old) self.old }
        requires held { IsSome (slot_with n self.old.slots) }
        ensures ok { OnOk result (self.new ≡ without_number n self.old) }
        ensures err { OnErr result (self.new ≡ stopped_store self.old) }
        ensures erased { OnOk result (IsTrue D.tells → IsErased D.Disk disk.old disk.new self.old self.new n) }
        ensures crashes { IsTrue D.tells → Quiet D.Disk disk.old self.old → EraseCrashes D.Disk disk.old disk.new self.old n }
        ensures writes { Writes D.Disk Pkg Anything 0 result disk.old disk.new }
    {
        let (place, slot) = self.slot_place(n);
        let Ok(()) = free_slot(disk, place, slot) else {
            self.stopped = true;
            return Err(DiskFault);
        };
        self.slots[place as usize] = FREE;
        self.free_from = self.free_from.min(place);
        self.numbers.remove(n);
        forget(&mut self.used, slot.offset);
        Ok(())
    }
}

impl PkgDb {
    /// Adds one to the generation.
    ///
    /// Writes unit 0 alone and syncs; reads nothing and takes no memory. Packages and their numbers stay, byte for
    /// byte, also in what a crash leaves, which has the generation from before or the new one.
    ///
    /// # Errors
    ///
    /// `DiskFault` only where the disk's count of faults rose. The value is stopped then.
    pub fn raise<D: Disk>(&mut self, disk: &mut D) -> Result<(), DiskFault>
        requires ready { IsWritable D.Disk disk.old self.old }
        requires room { self.old.generation < 4294967295 }
        ensures ok { OnOk result (self.new ≡ with_generation (self.old.generation + 1) self.old) }
        ensures err { OnErr result (self.new ≡ stopped_store self.old) }
        ensures raised { OnOk result (IsTrue D.tells → IsRaised D.Disk disk.old disk.new self.old self.new) }
        ensures images { IsTrue D.tells → Quiet D.Disk disk.old self.old → CrashLeavesFile D.Disk disk.old disk.new
            (RaisesTo self.old (self.old.generation + 1) (pkg D.Disk disk.old)) }
        ensures writes { Writes D.Disk Pkg (SameOutside 0 1) 0 result disk.old disk.new }
    {
        let generation = self.generation + 1;
        let Ok(()) = write_one(disk, 0, &head_unit(generation, self.pages)) else {
            self.stopped = true;
            return Err(DiskFault);
        };
        self.generation = generation;
        Ok(())
    }
}
