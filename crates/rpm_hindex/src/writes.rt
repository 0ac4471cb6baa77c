//! Writing the index.

ghost use Rattle.std.specs.Prelude.{◌≡◌, ℕ, ◌+◌, ◌/◌, ◌%◌, ◌^◌, ◌≤◌, ◌<◌, ◌∷◌, [], List, IsTrue, true, length, max, OnOk, IfErr, Err};
ghost use Rattle.rpm_hindex.specs.Prelude.{AddsPadded, file_after, after_tail, after_units, ArePadded, ArePatches, blank, buckets_after, CanWrite, Idx, index_in, is_current, is_ordered, IsAfter, IsChanged, IsIndexFull, IsPaddedPlan, IsPlanFor, IsRebuildRefused, IsRebuiltIndex, IsSealed, IsDurable, IsWellFormed, KeepsIndexValue, IsDurableAs, LeavesOrder, patch_at, with_units, records, Row, SameRows, SameSeal, seal_unit, SealedOrSame, units_for, VoidOrSame, VoidOrSameSeal, Writes, WritesOr, WritesPadded};

use crate::faults::{IndexDiskFault, RewriteFault};
use crate::image::{Image, check_room, image_of};
use crate::index::{Hindex, MAGIC};
use crate::parts::{write_image, write_synced, write_units};
use crate::plan::{IndexPlan, Patch, Patches, Work};
use crate::records::first_unit;
use crate::rows::{Rows, copy_of};
use rpm_outside::{Disk, unit_of_words};
use std::alloc::Global;

/// Writes one unit after unit 0.
fn write_patch<D: Disk>(disk: &mut D, patch: Patch) -> Result<(), IndexDiskFault>
    requires behind { 1 ≤ patch.unit }
    requires room { patch.unit < 2 ^ 28 }
    ensures written { OnOk result (IsTrue D.tells → (D.files disk.new).idx ≡ with_units patch.unit (patch.words ∷ []) (D.files disk.old).idx) }
    ensures writes { Writes D.Disk Idx SameSeal 0 result disk.old disk.new }
{
    write_units(disk, patch.unit as u64, &patch.words)
}

/// Writes the units that change.
fn write_patches<D: Disk>(disk: &mut D, patches: &[Patch]) -> Result<(), IndexDiskFault>
    requires { (k : ℕ) → k < length patches.now → (1 ≤ (patch_at patches.now k).unit) × ((patch_at patches.now k).unit < 2 ^ 28) }
    ensures written { OnOk result (IsTrue D.tells → (D.files disk.new).idx ≡ after_units patches.now (D.files disk.old).idx) }
    ensures writes { Writes D.Disk Idx SameSeal 0 result disk.old disk.new }
{
    for k in 0..patches.len() {
        write_patch(disk, patches[k])?;
    }
    Ok(())
}

/// Writes the records after all others.
fn write_tail<D: Disk>(disk: &mut D, used: u32, tail: &[u8]) -> Result<(), IndexDiskFault>
    requires behind { 1 ≤ used }
    requires whole { length tail.now % 16 ≡ 0 }
    requires room { used + length tail.now / 16 ≤ 2 ^ 28 }
    ensures written { OnOk result (IsTrue D.tells → (D.files disk.new).idx ≡ after_tail used tail.now (D.files disk.old).idx) }
    ensures writes { Writes D.Disk Idx SameSeal 0 result disk.old disk.new }
{
    if tail.is_empty() {
        return Ok(());
    }
    write_units(disk, used as u64, tail)
}

impl Hindex {
    /// Makes the first unit zeros, and makes the file durable: the index isn't sealed then. Takes no memory and reads
    /// nothing.
    ///
    /// # Errors
    ///
    /// `IndexDiskFault` only where the disk's count of faults rose. What the value keeps is then no more said of the
    /// file.
    pub fn void<D: Disk>(&mut self, disk: &mut D) -> Result<(), IndexDiskFault>
        requires keeps { IsTrue D.tells → KeepsIndexValue (D.files disk.old).idx self.old }
        ensures state { OnOk result (self.new ≡ record { first = blank; second = self.old.second; units = max self.old.units 1; pending = 0 }) }
        ensures left { OnOk result (IsDurableAs D.Disk disk.new self.new (with_units 0 (blank ∷ []) (D.files disk.old).idx)) }
        ensures writes { Writes D.Disk Idx VoidOrSame 0 result disk.old disk.new }
    {
        write_synced(disk, 0, &[0; 16])?;
        self.first = [0; 16];
        self.units = self.units.max(1);
        self.pending = 0;
        Ok(())
    }

    /// Seals an index that was written, and makes the file durable. Takes no memory and reads nothing.
    ///
    /// # Errors
    ///
    /// `IndexDiskFault` only where the disk's count of faults rose. What the value keeps is then no more said of the
    /// file.
    pub fn seal<D: Disk>(&mut self, disk: &mut D, generation: u32) -> Result<(), IndexDiskFault>
        requires written { 0 < self.old.pending }
        requires keeps { IsTrue D.tells → KeepsIndexValue (D.files disk.old).idx self.old }
        ensures state { OnOk result (self.new ≡ record {
          first = seal_unit generation self.old.pending;
          second = self.old.second;
          units = self.old.units;
          pending = 0;
        }) }
        ensures left { OnOk result (IsDurableAs D.Disk disk.new self.new (with_units 0 (seal_unit generation self.old.pending ∷ []) (D.files disk.old).idx)) }
        ensures current { OnOk result (is_ordered self.old.pending self.old.second self.old.units ≡ true → is_current generation self.new ≡ true) }
        ensures whole { OnOk result (IsTrue D.tells → IsWellFormed self.old.pending (D.files disk.old).idx
            → IsWellFormed self.old.pending (D.files disk.new).idx) }
        ensures records { OnOk result (IsTrue D.tells → IsWellFormed self.old.pending (D.files disk.old).idx
            → records self.old.pending (D.files disk.new).idx ≡ records self.old.pending (D.files disk.old).idx) }
        ensures padded { OnOk result (IsTrue D.tells → IsWellFormed self.old.pending (D.files disk.old).idx → AddsPadded
            (index_in self.old.pending (D.files disk.old).idx) (index_in self.old.pending (D.files disk.new).idx)) }
        ensures whichever { IsTrue D.tells → IsWellFormed self.old.pending (D.files disk.old).idx
            → IsSealed generation self.old.pending (D.files disk.old).idx
            (with_units 0 (seal_unit generation self.old.pending ∷ []) (D.files disk.old).idx) }
        ensures writes { Writes D.Disk Idx (SealedOrSame (seal_unit generation self.old.pending)) 0 result disk.old disk.new }
    {
        let first = unit_of_words(MAGIC, 2, generation, self.pending);
        write_synced(disk, 0, &first)?;
        self.first = first;
        self.pending = 0;
        Ok(())
    }

    /// Makes the first unit zeros, writes an index of these rows from scratch, and makes the file durable. The index isn't
    /// sealed then. No unit of it is dead: it has as many as `index_units` says.
    ///
    /// Reads nothing. All memory is taken before the first write: that of the image, with its 4 bytes a bucket. The rows
    /// are freed as their records are made, and the records as they are written, so that little more than one of the
    /// two is held at any moment. Records go out in writes of 64 KiB, the last first, and the time is linear in the rows.
    ///
    /// # Errors
    ///
    /// - `IndexFull` exactly where the rows need more than 268435456 units.
    /// - `DiskFault` only where the disk's count of faults rose. What the value keeps is then no more said of the file.
    /// - `NoMemory` where the index finds no memory. After this and `IndexFull` nothing was called or changed.
    pub fn rewrite_owned<D: Disk>(
        &mut self,
        alloc: Global,
        disk: &mut D,
        rows: Rows,
    ) -> Result<(), RewriteFault>
        requires keeps { IsTrue D.tells → KeepsIndexValue (D.files disk.old).idx self.old }
        ensures full { IsIndexFull (units_for rows) result }
        ensures value { OnOk result (IsRebuiltIndex rows self.new) }
        ensures grows { OnOk result (self.new.units ≤ max self.old.units (units_for rows)) }
        ensures ordered { OnOk result (is_ordered self.new.pending self.new.second self.new.units ≡ true) }
        ensures kept { OnOk result (IsTrue D.tells → KeepsIndexValue (D.files disk.new).idx self.new) }
        ensures whole { OnOk result (IsTrue D.tells → IsWellFormed self.new.pending (D.files disk.new).idx) }
        ensures rows { OnOk result (IsTrue D.tells → SameRows rows (records self.new.pending (D.files disk.new).idx)) }
        ensures padded { OnOk result (IsTrue D.tells → ArePadded (index_in self.new.pending (D.files disk.new).idx)) }
        ensures durable { OnOk result (IsTrue D.tells → IsDurable D.Disk Idx disk.new) }
        ensures refused { IfErr result (λ e. IsRebuildRefused e → (self.new ≡ self.old) × (disk.new ≡ disk.old)) }
        ensures writes { WritesOr D.Disk Idx VoidOrSame 0 (result ≡ Err RewriteFault.DiskFault) disk.old disk.new }
    {
        let image = image_of(alloc, rows)?;
        let Ok(()) = self.replace(disk, image) else {
            return Err(RewriteFault::DiskFault);
        };
        Ok(())
    }

    /// Writes an index of these rows from scratch, as `rewrite_owned` does, of a copy of the rows. It is for other programs: of
    /// the crates here the tests alone call it.
    ///
    /// # Errors
    ///
    /// Those of `rewrite_owned`; `NoMemory` also where the copy finds no memory.
    pub fn rewrite<D: Disk>(
        &mut self,
        alloc: Global,
        disk: &mut D,
        rows: &Rows,
    ) -> Result<(), RewriteFault>
        requires keeps { IsTrue D.tells → KeepsIndexValue (D.files disk.old).idx self.old }
        ensures full { IsIndexFull (units_for rows.now) result }
        ensures value { OnOk result (IsRebuiltIndex rows.now self.new) }
        ensures grows { OnOk result (self.new.units ≤ max self.old.units (units_for rows.now)) }
        ensures ordered { OnOk result (is_ordered self.new.pending self.new.second self.new.units ≡ true) }
        ensures kept { OnOk result (IsTrue D.tells → KeepsIndexValue (D.files disk.new).idx self.new) }
        ensures whole { OnOk result (IsTrue D.tells → IsWellFormed self.new.pending (D.files disk.new).idx) }
        ensures rows { OnOk result (IsTrue D.tells → SameRows rows.now (records self.new.pending (D.files disk.new).idx)) }
        ensures padded { OnOk result (IsTrue D.tells → ArePadded (index_in self.new.pending (D.files disk.new).idx)) }
        ensures durable { OnOk result (IsTrue D.tells → IsDurable D.Disk Idx disk.new) }
        ensures refused { IfErr result (λ e. IsRebuildRefused e → (self.new ≡ self.old) × (disk.new ≡ disk.old)) }
        ensures writes { WritesOr D.Disk Idx VoidOrSame 0 (result ≡ Err RewriteFault.DiskFault) disk.old disk.new }
    {
        check_room(rows)?;
        let Ok(copy) = copy_of(alloc, rows) else {
            return Err(RewriteFault::NoMemory);
        };
        self.rewrite_owned(alloc, disk, copy)
    }

    /// Makes the first unit zeros, writes units 1 to the end, and makes the file durable.
    fn replace<D: Disk>(&mut self, disk: &mut D, image: Image) -> Result<(), IndexDiskFault>
        requires can { CanWrite self.old.units (Work.Scratch image) }
        requires keeps { IsTrue D.tells → KeepsIndexValue (D.files disk.old).idx self.old }
        ensures value { OnOk result (IsAfter self.old self.new (Work.Scratch image)) }
        ensures voided { OnOk result (self.new.first ≡ blank) }
        ensures left { OnOk result (IsDurableAs D.Disk disk.new self.new (file_after (Work.Scratch image) (D.files disk.old).idx)) }
        ensures writes { Writes D.Disk Idx VoidOrSame 0 result disk.old disk.new }
    {
        self.void(disk)?;
        let second = first_unit(&image.bytes);
        let units = 1 + image.bytes.len() as u64 / 16;
        write_image(disk, image.bytes)?;
        self.second = second;
        self.units = self.units.max(units);
        self.pending = image.buckets;
        Ok(())
    }

    /// Writes units that change, records after all others, and unit 1, and makes the file durable.
    fn patch<D: Disk>(&mut self, disk: &mut D, patches: &Patches) -> Result<(), IndexDiskFault>
        requires patches { ArePatches self.old.units patches.now }
        requires keeps { IsTrue D.tells → KeepsIndexValue (D.files disk.old).idx self.old }
        ensures value { OnOk result (IsAfter self.old self.new (Work.InPlace patches.now)) }
        ensures left { OnOk result (IsDurableAs D.Disk disk.new self.new (file_after (Work.InPlace patches.now) (D.files disk.old).idx)) }
        ensures writes { Writes D.Disk Idx SameSeal 0 result disk.old disk.new }
    {
        write_tail(disk, patches.used, &patches.tail)?;
        write_patches(disk, &patches.units)?;
        write_synced(disk, 1, &patches.second)?;
        self.second = patches.second;
        self.units = self
            .units
            .max(patches.used as u64 + patches.tail.len() as u64 / 16);
        self.pending = patches.buckets;
        Ok(())
    }

    /// Writes a change, and makes the file durable. The index isn't sealed then. Takes no memory and reads nothing.
    ///
    /// In place, all new records are one write, and then each unit that changes is one. From scratch, records go out in
    /// writes of 64 KiB, the last first, and each is freed when it is written.
    ///
    /// # Errors
    ///
    /// `IndexDiskFault` only where the disk's count of faults rose. What the value keeps is then no more said of the
    /// file.
    pub fn apply<D: Disk>(&mut self, disk: &mut D, plan: IndexPlan) -> Result<(), IndexDiskFault>
        requires plan { CanWrite self.old.units plan.work }
        requires keeps { IsTrue D.tells → KeepsIndexValue (D.files disk.old).idx self.old }
        ensures value { OnOk result (IsAfter self.old self.new plan.work) }
        ensures ordered { OnOk result (LeavesOrder plan.work → is_ordered self.new.pending self.new.second self.new.units ≡ true) }
        ensures left { OnOk result (IsDurableAs D.Disk disk.new self.new (file_after plan.work (D.files disk.old).idx)) }
        ensures rows { OnOk result (IsTrue D.tells → (drops adds : List Row) (buckets : ℕ)
            → IsPlanFor drops adds buckets (D.files disk.old).idx plan.work
            → IsChanged drops adds (records buckets (D.files disk.old).idx) (buckets_after plan.work)
            (D.files disk.new).idx) }
        ensures padded { OnOk result (IsTrue D.tells → (buckets : ℕ)
            → IsPaddedPlan buckets (D.files disk.old).idx plan.work
            → WritesPadded plan.work (index_in buckets (D.files disk.old).idx)
            (index_in (buckets_after plan.work) (D.files disk.new).idx)) }
        ensures writes { Writes D.Disk Idx VoidOrSameSeal 0 result disk.old disk.new }
    {
        match plan.work {
            Work::InPlace(patches) => self.patch(disk, &patches),
            Work::Scratch(image) => self.replace(disk, image),
        }
    }
}
