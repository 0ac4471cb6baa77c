//! Slots that are set free, and pages of free slots.

ghost use Rattle.std.specs.Prelude.{◌+◌, ◌^◌, ◌≤◌, IsTrue, OnOk, ◌≡◌, ℕ, ◌*◌, ◌<◌, length};
ghost use Rattle.rpm_pkgdb.specs.Prelude.{Anything, StoreBeforeOrAfter, end_of, Files, free, HasSlot, IsDurable, IsSlotFreed, IsSlotUnit, Pkg, pkg, Quiet, SameOutside, CrashLeavesFile, Store, unit_at, with_free, Writes};

use crate::slot::Slot;
use crate::units::{slot_unit, sync_pkg, write_one, write_units, write_zeros};
use rpm_outside::{Disk, Failed, copy_units};

/// A free slot.
pub const FREE: Slot = Slot {
    number: 0,
    offset: 0,
    count: 0,
};

/// Sets a slot free, and makes its blocks zeros.
pub fn free_slot<D: Disk>(disk: &mut D, place: u32, slot: Slot) -> Result<(), Failed>
    requires room { place + 3 ≤ 2 ^ 28 }
    requires end { end_of slot ≤ 2 ^ 28 }
    ensures freed { OnOk result (IsTrue D.tells → IsSlotFreed D.Disk disk.old disk.new place slot) }
    ensures images { IsTrue D.tells → (value : Store) → HasSlot value place slot → Quiet D.Disk disk.old value
        → CrashLeavesFile D.Disk disk.old disk.new (StoreBeforeOrAfter value (with_free place value) (pkg D.Disk disk.old)) }
    ensures writes { Writes D.Disk Pkg Anything 0 result disk.old disk.new }
{
    write_one(disk, 2 + place as u64, &slot_unit(FREE))?;
    // Only now: until the slot is durable they are the package.
    write_zeros(disk, slot.offset, slot.count)
}

/// Writes free slots in one write, at most a page of them, and makes them durable.
pub fn write_free_slots<D: Disk>(disk: &mut D, at: u32, count: u32) -> Result<(), Failed>
    requires some { 1 ≤ count }
    requires few { count ≤ 256 }
    requires room { at + count ≤ 2 ^ 28 }
    ensures slots { OnOk result (IsTrue D.tells → (i : ℕ) → at ≤ i → i < at + count → IsSlotUnit (unit_at (D.files disk.new).pkg i) free) }
    ensures long { OnOk result (IsTrue D.tells → at + count ≤ length (D.files disk.new).pkg) }
    ensures durable { OnOk result (IsTrue D.tells → IsDurable D.Disk Pkg disk.new) }
    ensures writes { Writes D.Disk Pkg (SameOutside at count) 0 result disk.old disk.new }
{
    let units = [slot_unit(FREE); 256];
    let mut page = [0u8; 4096];
    copy_units(&units, &mut page);
    write_units(disk, at as u64, &page[..16 * count as usize])?;
    sync_pkg(disk)
}
