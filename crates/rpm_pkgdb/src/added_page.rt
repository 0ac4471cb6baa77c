//! One slot page more: blocks are moved out of its way, and it is written.

ghost use Rattle.std.specs.Prelude.{◌≡◌, ℕ, ◌+◌, ◌*◌, ◌^◌, ◌≤◌, ◌<◌, ◌⊎◌, IsTrue, length, OnOk, Some};
ghost use Rattle.rpm_pkgdb.specs.Prelude.{Anything, AreBlocksMoved, AreMoved, StoreBeforeOrAfter, CanAdd, CanGrowBy, CanGrowFrom, CanMove, CanMoveAll, end_of, Files, IsGrown, IsMovable, IsPageAdded, IsDurable, KeepsStore, move_at, moves_of, moving_cost, NoShorter, Pkg, pkg, Quiet, SameOutside, slot_at, RepresentsBlobs, CrashLeavesFile, Store, unit_at, WhileMoved, with_page, Writes};

use crate::free_slots::write_free_slots;
use crate::page_plan::Page;
use crate::slot::Slot;
use crate::store::PkgDb;
use crate::units::{
    head_unit, read_units, slot_unit, sync_pkg, write_one, write_units, write_zeros,
};
use rpm_outside::{Disk, Failed};

/// Copies units to a range that is apart, a page at a time.
pub fn copy_blocks<D: Disk>(disk: &mut D, from: u32, to: u32, count: u32) -> Result<(), Failed>
    requires ends { to + count ≤ 2 ^ 28 }
    requires room { from + count ≤ 2 ^ 28 }
    requires apart { (to + count ≤ from) ⊎ (from + count ≤ to) }
    requires within { IsTrue D.tells → from + count ≤ length (D.files disk.old).pkg }
    ensures copied { OnOk result (IsTrue D.tells → (i : ℕ) → i < count
        → unit_at (D.files disk.new).pkg (to + i) ≡ unit_at (D.files disk.old).pkg (from + i)) }
    ensures long { OnOk result (IsTrue D.tells → 0 < count → to + count ≤ length (D.files disk.new).pkg) }
    ensures durable { OnOk result (IsTrue D.tells → IsDurable D.Disk Pkg disk.new) }
    ensures writes { Writes D.Disk Pkg (SameOutside to count) (16 * count) result disk.old disk.new }
{
    let mut page = [0u8; 4096];
    let mut done = 0;
    while done < count {
        let some = (count - done).min(256);
        let part = &mut page[..16 * some as usize];
        read_units(disk, from as u64 + done as u64, part)?;
        write_units(disk, to as u64 + done as u64, part)?;
        done += some;
    }
    sync_pkg(disk)
}

/// Moves the blocks of a slot, and makes the old ones zeros from a block on: those before it become a slot page.
pub fn move_blocks<D: Disk>(
    disk: &mut D,
    place: u32,
    old: Slot,
    to: u32,
    zeros_from: u32,
) -> Result<(), Failed>
    requires place { place + 3 ≤ 2 ^ 28 }
    requires end { end_of old ≤ 2 ^ 28 }
    requires room { to + old.count ≤ 2 ^ 28 }
    requires apart { (to + old.count ≤ old.offset) ⊎ (end_of old ≤ to) }
    requires within { IsTrue D.tells → end_of old ≤ length (pkg D.Disk disk.old) }
    ensures moved { OnOk result (IsTrue D.tells → AreBlocksMoved D.Disk disk.old disk.new place old to zeros_from) }
    ensures images { IsTrue D.tells → (value : Store) → CanMove value place old to → Quiet D.Disk disk.old value
        → CrashLeavesFile D.Disk disk.old disk.new (WhileMoved value place old to (pkg D.Disk disk.old)) }
    ensures writes { Writes D.Disk Pkg NoShorter (16 * old.count) result disk.old disk.new }
{
    let end = old.offset + old.count;
    let at = old.offset.max(zeros_from).min(end);
    let slot = Slot {
        number: old.number,
        offset: to,
        count: old.count,
    };
    copy_blocks(disk, old.offset, to, old.count)?;
    write_one(disk, 2 + place as u64, &slot_unit(slot))?;
    // Only now: until the slot is durable they are the package.
    write_zeros(disk, at, end - at)
}

/// A move of a slot's blocks.
#[derive(Clone, Copy)]
pub struct Move {
    /// Of the slot.
    pub place: u32,
    /// The new first block.
    pub to: u32,
}

/// Moves the blocks of several slots, each once the one before is durable.
pub fn move_all<D: Disk>(
    disk: &mut D,
    slots: &[Slot],
    moves: &[Move],
    zeros_from: u32,
) -> Result<(), Failed>
    requires movable { (i : ℕ) → i < length moves.now → IsMovable slots.now (move_at moves.now i) }
    requires within { IsTrue D.tells → (i : ℕ) → i < length moves.now
        → end_of (slot_at slots.now (move_at moves.now i).place) ≤ length (pkg D.Disk disk.old) }
    ensures moved { OnOk result (IsTrue D.tells → AreMoved D.Disk disk.old disk.new slots.now moves.now moves.now zeros_from) }
    ensures images { IsTrue D.tells → (value : Store) → CanMoveAll slots.now moves.now value
        → Quiet D.Disk disk.old value
        → CrashLeavesFile D.Disk disk.old disk.new (RepresentsBlobs value (pkg D.Disk disk.old)) }
    ensures writes { Writes D.Disk Pkg NoShorter (moving_cost slots.now (Some moves.now)) result disk.old disk.new }
{
    for k in 0..moves.len() {
        let next = moves[k];
        let old = slots[next.place as usize];
        move_blocks(disk, next.place, old, next.to, zeros_from)?;
    }
    Ok(())
}

/// Adds a slot page, in which no blob has blocks.
pub fn add_page<D: Disk>(disk: &mut D, generation: u32, pages: u32) -> Result<(), Failed>
    requires { 256 * (pages + 1) ≤ 2 ^ 28 }
    ensures added { OnOk result (IsTrue D.tells → IsPageAdded D.Disk disk.old disk.new generation pages) }
    ensures images { IsTrue D.tells → (value : Store) → CanGrowFrom generation pages value
        → Quiet D.Disk disk.old value → CrashLeavesFile D.Disk disk.old disk.new
        (StoreBeforeOrAfter value (with_page value) (pkg D.Disk disk.old)) }
    ensures writes { Writes D.Disk Pkg Anything 0 result disk.old disk.new }
{
    write_free_slots(disk, 256 * pages, 256)?;
    write_one(disk, 0, &head_unit(generation, pages + 1))
}

impl PkgDb {
    /// Moves blobs out of the way of a slot page, and adds it.
    fn grow_by<D: Disk>(&self, disk: &mut D, moves: &[Move]) -> Result<(), Failed>
        requires made { 1 ≤ self.now.pages }
        requires can { CanAdd self.now moves.now }
        requires keeps { IsTrue D.tells → KeepsStore (pkg D.Disk disk.old) self.now }
        ensures grown { OnOk result (IsTrue D.tells → IsGrown D.Disk disk.old disk.new self.now (Some moves.now)) }
        ensures images { IsTrue D.tells → Quiet D.Disk disk.old self.now
            → CrashLeavesFile D.Disk disk.old disk.new (RepresentsBlobs self.now (pkg D.Disk disk.old)) }
        ensures writes { Writes D.Disk Pkg Anything (moving_cost self.now.slots (Some moves.now)) result disk.old disk.new }
    {
        move_all(disk, &self.slots, moves, 256 * (self.pages + 1))?;
        add_page(disk, self.generation, self.pages)
    }

    /// Adds the slot page of a plan, if it has one.
    pub(crate) fn grow<D: Disk>(&self, disk: &mut D, page: &Option<Page>) -> Result<(), Failed>
        requires made { 1 ≤ self.now.pages }
        requires can { CanGrowBy self.now (moves_of page.now) }
        requires keeps { IsTrue D.tells → KeepsStore (pkg D.Disk disk.old) self.now }
        ensures grown { OnOk result (IsTrue D.tells → IsGrown D.Disk disk.old disk.new self.now (moves_of page.now)) }
        ensures images { IsTrue D.tells → Quiet D.Disk disk.old self.now
            → CrashLeavesFile D.Disk disk.old disk.new (RepresentsBlobs self.now (pkg D.Disk disk.old)) }
        ensures writes { Writes D.Disk Pkg Anything (moving_cost self.now.slots (moves_of page.now)) result disk.old disk.new }
    {
        match page {
            None => Ok(()),
            Some(page) => self.grow_by(disk, &page.moves),
        }
    }
}
