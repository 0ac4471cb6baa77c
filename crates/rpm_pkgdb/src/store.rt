//! The store in Packages.db.

ghost use Rattle.std.specs.Prelude.{◌≡◌, ◌+◌, ◌-◌, ◌*◌, ◌/◌, ◌^◌, ◌≤◌, ◌<◌, ◌==◌, IsTrue, length, max, None, Some, Ok, Err, IfOk, IfErr, IsSome, is_some, not};
ghost use Rattle.rpm_pkgdb.specs.Prelude.{blank_store, is_nonzero, list_any, blobs, end_of, without_number, HasSlot, head_reason, in_file, IsNextFound, IsPackageNumber, KeepsStore, next_number, opening_cost, OpenIs, Pkg, ReadsOr, slot_with, store, store_of_pages, unit_at, with_free, word};

use crate::numbers::Numbers;
use crate::slot::{BLOCKS, MAGIC, OpenFault, Reason, Slot, damage_at};
use crate::table::read_table;
use crate::units::read_unit;
use rpm_blocks::Used;
use rpm_outside::{Disk, File, word};
use std::alloc::Global;
use std::marker::Model;

/// A call of the disk failed in a writing call.
#[derive(Clone, Copy, PartialEq, Eq)]
pub struct DiskFault;

/// The head and the slots of a `Packages.db`, read once.
///
/// The blobs stay in the file: each call that takes the disk takes the one that the value was opened on, as long as
/// that file says what the value keeps. In memory a value has 12 bytes a slot and 8 more a package; and 24 more a
/// slot once a change was planned.
#[derive(Drop)]
pub struct PkgDb {
    pub(crate) generation: u32,
    pub(crate) pages: u32,
    pub(crate) field: u32,
    pub(crate) slots: Vec<Slot>,
    pub(crate) numbers: Numbers,
    pub(crate) used: Option<Used>,
    /// No slot before this one is free, so that a run of puts doesn't look at the used ones again each time.
    pub(crate) free_from: u32,
    /// How many used ranges still find room without memory.
    pub(crate) spare: u32,
    pub(crate) stopped: bool,
}

impl Model for PkgDb {
    ghost use Rattle.rpm_pkgdb.specs.Store.{Store};

    ghost Value = { Store };

    ghost use Rattle.rpm_pkgdb.specs.inner.Keeping.{IsValueSound};

    ghost view = { λ s. record {
      generation = s.generation;
      pages = s.pages;
      field = s.field;
      slots = s.slots.items;
      spare = s.spare;
      is_stopped = s.stopped;
    } };

    ghost invariant = { IsValueSound };
}

/// Whether all bytes are zero.
fn is_zeros(unit: &[u8]) -> bool
    ensures { result ≡ not (list_any is_nonzero unit.now) }
{
    !unit.iter().any(|b| *b != 0)
}

/// What is wrong with unit 0.
#[tactic(auto, unfolding(crate::specs::Damages::head_reason))]
fn head_reason(units: u64, head: &[u8]) -> Option<Reason>
    requires { length head.now ≡ 16 }
    ensures { result ≡ head_reason units head.now }
{
    if word(head, 0) != MAGIC {
        return Some(Reason::BadMagic);
    }
    if word(head, 1) != 0 {
        return Some(Reason::BadVersion);
    }
    let pages = word(head, 3);
    let end = 256 * pages as u64;
    if pages == 0 || end > units || end > BLOCKS {
        return Some(Reason::BadPages);
    }
    None
}

impl PkgDb {
    /// A blank file's, with room for the slots of a first page.
    fn blank(alloc: Global) -> Result<PkgDb, OpenFault>
        ensures blank { IfOk result (λ db. db ≡ blank_store) }
        ensures err { IfErr result (λ e. e ≡ OpenFault.NoMemory) }
    {
        let slots = Vec::with_capacity(alloc, 254)?;
        Ok(PkgDb {
            generation: 0,
            pages: 0,
            field: 1,
            slots,
            numbers: Numbers::new(alloc),
            used: None,
            free_from: 0,
            spare: 0,
            stopped: false,
        })
    }

    /// Reads the head and all slots. Nothing is written.
    ///
    /// A file without units, or whose unit 0 is all zeros, is blank: a store of no pages and no packages, whose next
    /// number is 1.
    ///
    /// Reads 4096 bytes a page, each byte once, in pieces of 16 KiB up to the first slot that is damaged by itself;
    /// and at most unit 0 where the file is blank or its head is damaged. Room for the slots is taken first: 20 bytes
    /// a slot for as long as the value lives, and while opening at most 12 more.
    ///
    /// Each used slot is compared with the next by number and by first block, which shows that no two of them meet:
    /// as they are read, where they rise, as additions leave them, and else once they are put in order, by what
    /// doesn't rise alone. This takes n log n whatever stands in them, and is linear where they rise in a few runs,
    /// as slot pages leave them, which move the first packages after the others. Where that doesn't show it, two
    /// ordered maps find the first damage, which takes about ten times as long.
    ///
    /// No package has the number 0.
    ///
    /// # Errors
    ///
    /// - `Damaged` exactly where the file isn't a store: its first damage.
    /// - `DiskFault` only where the disk's count of faults rose.
    /// - `NoMemory` where the slots, or what compares them, find no memory; also where a slot is damaged.
    pub fn open<D: Disk>(alloc: Global, disk: &mut D) -> Result<PkgDb, OpenFault>
        ensures store { IsTrue D.tells → OpenIs (store (D.files disk.old).pkg) result }
        ensures kept { IfOk result (λ db. IsTrue D.tells → KeepsStore (D.files disk.new).pkg db) }
        ensures from_one { IfOk result (λ db. slot_with 0 db.slots ≡ None) }
        ensures fresh { IfOk result (λ db. db ≡ in_file db) }
        ensures cost { IsTrue D.tells → D.bytes_read disk.new File.Pkg ≤ D.bytes_read disk.old File.Pkg + opening_cost (D.files disk.old).pkg }
        ensures reads { ReadsOr D.Disk Pkg (2 ^ 32) (result ≡ Err OpenFault.DiskFault) disk.old disk.new }
    {
        let units = disk.len(File::Pkg)?;
        if units == 0 {
            return PkgDb::blank(alloc);
        }
        let head = read_unit(disk, 0)?;
        if is_zeros(&head) {
            return PkgDb::blank(alloc);
        }
        if let Some(reason) = head_reason(units, &head) {
            return Err(OpenFault::Damaged(damage_at(0, reason)));
        }
        PkgDb::read_made(alloc, disk, units, &head)
    }

    /// Reads what follows unit 0.
    fn read_made<D: Disk>(
        alloc: Global,
        disk: &mut D,
        units: u64,
        head: &[u8],
    ) -> Result<PkgDb, OpenFault>
        requires whole { length head.now ≡ 16 }
        requires in_order { head_reason units head.now ≡ None }
        requires units { IsTrue D.tells → units ≡ length (D.files disk.old).pkg }
        requires head { IsTrue D.tells → head.now ≡ unit_at (D.files disk.old).pkg 0 }
        ensures store { IsTrue D.tells → OpenIs (store_of_pages (word 3 head.now) (D.files disk.old).pkg) result }
        ensures from_one { IfOk result (λ db. slot_with 0 db.slots ≡ None) }
        ensures fresh { IfOk result (λ db. db ≡ in_file db) }
        ensures reads { ReadsOr D.Disk Pkg (4096 * word 3 head.now - 16) (result ≡ Err OpenFault.DiskFault) disk.old disk.new }
    {
        let pages = word(head, 3);
        let next = read_unit(disk, 1)?;
        let table = read_table(alloc, disk, pages, units)?;
        Ok(PkgDb {
            generation: word(head, 2),
            pages,
            field: word(&next, 0),
            slots: table.slots,
            numbers: table.numbers,
            used: None,
            free_from: table.free_from,
            spare: 0,
            stopped: false,
        })
    }

    /// Whether no database was made yet: the file is blank.
    pub fn is_blank(&self) -> bool
        ensures { result ≡ (self.now.pages == 0) }
    {
        self.pages == 0
    }

    /// Whether a writing call answered a disk fault. What is on the disk isn't known then: it is opened again.
    pub fn is_stopped(&self) -> bool
        ensures { result ≡ self.now.is_stopped }
    {
        self.stopped
    }

    /// The generation in unit 0; 0 of a blank file. No package of any value has the number 0.
    pub fn generation(&self) -> u32
        ensures value { result ≡ self.now.generation }
        ensures from_one { slot_with 0 self.now.slots ≡ None }
    {
        self.generation
    }

    /// How many slot pages there are; 0 in a blank file. It is for other programs: no crate here calls it.
    pub fn pages(&self) -> u32
        ensures { result ≡ self.now.pages }
    {
        self.pages
    }

    /// Whether a slot has this number. Takes log n steps.
    pub fn holds(&self, n: u32) -> bool
        ensures { result ≡ is_some (slot_with n self.now.slots) }
    {
        self.slot_of(n).is_some()
    }

    /// The slot of a number.
    pub(crate) fn slot_of(&self, n: u32) -> Option<Slot>
        ensures { result ≡ slot_with n self.now.slots }
    {
        match self.numbers.place_of(n) {
            None => None,
            Some(place) => Some(self.slots[place as usize]),
        }
    }

    /// The place of a number's slot, and the slot.
    pub(crate) fn slot_place(&self, n: u32) -> (u32, Slot)
        requires { IsSome (slot_with n self.now.slots) }
        ensures slot { HasSlot self.now result.0 result.1 }
        ensures number { result.1.number ≡ n }
        ensures package { IsPackageNumber n }
        ensures found { slot_with n self.now.slots ≡ Some result.1 }
        ensures erased { with_free result.0 self.now ≡ without_number n self.now }
        ensures room { result.0 + 3 ≤ 2 ^ 28 }
        ensures end { end_of result.1 ≤ 2 ^ 28 }
    {
        let Some(place) = self.numbers.place_of(n) else {
            unreachable!()
        };
        (place, self.slots[place as usize])
    }

    /// The number of the next package: the greater of the field in unit 1 and one above the greatest number of a
    /// slot. A field that fell after is so passed over and is no damage (own).
    pub fn next_number(&self) -> u32
        ensures { result ≡ next_number self.now }
    {
        let _ = &self.slots;
        match self.numbers.greatest() {
            None => self.field.max(1),
            Some(n) => self.field.max(n + 1),
        }
    }

    /// The least number above this one that a slot has, and `None` where there is none. Takes log n steps.
    pub fn next_above(&self, n: u32) -> Option<u32>
        ensures { IsNextFound (λ m. slot_with m self.now.slots) n result }
    {
        self.numbers.above(n)
    }
}
