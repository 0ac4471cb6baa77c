//! Making a database.

ghost use Rattle.std.specs.Prelude.{◌≡◌, ◌+◌, ◌≤◌, IsTrue, false, vec_len, vec_capacity, ◌++◌, replicate, OnOk, OnErr};
ghost use Rattle.rpm_pkgdb.specs.Prelude.{free, IsFirstPage, IsMadeNew, IsDurable, KeepsStore, made_new, MakesTo, next_unit, Pkg, pkg, Quiet, SameOutside, stopped_store, CrashLeavesFile, Store, unit_at, Writes};

use crate::free_slots::{FREE, write_free_slots};
use crate::slot::Slot;
use crate::store::{DiskFault, PkgDb};
use crate::units::{head_unit, next_unit, write_one, write_units};
use rpm_outside::{Disk, Failed};

/// Writes the next number 1 and free slots, and makes them durable.
fn write_first_page<D: Disk>(disk: &mut D) -> Result<(), Failed>
    ensures page { OnOk result (IsTrue D.tells → IsFirstPage (pkg D.Disk disk.new)) }
    ensures durable { OnOk result (IsTrue D.tells → IsDurable D.Disk Pkg disk.new) }
    ensures writes { Writes D.Disk Pkg (SameOutside 1 255) 0 result disk.old disk.new }
{
    write_units(disk, 1, &next_unit(1))?;
    write_free_slots(disk, 2, 254)
}

/// Writes a database of one page.
fn write_new<D: Disk>(disk: &mut D) -> Result<(), Failed>
    ensures next { OnOk result (IsTrue D.tells → unit_at (pkg D.Disk disk.new) 1 ≡ next_unit 1) }
    ensures keeps { OnOk result (IsTrue D.tells → (value : Store) → KeepsStore (pkg D.Disk disk.new) (made_new value)) }
    ensures quiet { OnOk result (IsTrue D.tells → (value : Store) → Quiet D.Disk disk.new (made_new value)) }
    ensures images { IsTrue D.tells → (value : Store) → value.pages ≡ 0 → Quiet D.Disk disk.old value → CrashLeavesFile D.Disk disk.old disk.new MakesTo }
    ensures writes { Writes D.Disk Pkg (SameOutside 0 256) 0 result disk.old disk.new }
{
    write_first_page(disk)?;
    write_one(disk, 0, &head_unit(1, 1))
}

/// Adds free slots, for which there is room.
pub fn add_free(slots: &mut Vec<Slot>, more: u32)
    requires { vec_len slots.old + more ≤ vec_capacity slots.old }
    ensures items { slots.new.items ≡ slots.old.items ++ replicate more free }
    ensures capacity { vec_capacity slots.old ≤ vec_capacity slots.new }
{
    for _ in 0..more {
        match slots.push(FREE) {
            Ok(()) => {}
            Err(_) => unreachable!(),
        }
    }
}

impl PkgDb {
    /// Makes a database of one slot page, generation 1 and next number 1, in a blank file.
    ///
    /// Writes the page but for unit 0 and syncs, then unit 0 and syncs, and nothing after the page. Reads nothing and
    /// takes no memory: opening a blank file made the room. A crash at any moment leaves a blank file or that
    /// database.
    ///
    /// # Errors
    ///
    /// `DiskFault` only where the disk's count of faults rose. The value is stopped then.
    pub fn make<D: Disk>(&mut self, disk: &mut D) -> Result<(), DiskFault>
        requires going { self.old.is_stopped ≡ false }
        requires keeps { IsTrue D.tells → KeepsStore (pkg D.Disk disk.old) self.old }
        requires blank { self.old.pages ≡ 0 }
        ensures ok { OnOk result (self.new ≡ made_new self.old) }
        ensures err { OnErr result (self.new ≡ stopped_store self.old) }
        ensures made { OnOk result (IsTrue D.tells → IsMadeNew D.Disk disk.old disk.new self.new) }
        ensures images { IsTrue D.tells → Quiet D.Disk disk.old self.old → CrashLeavesFile D.Disk disk.old disk.new MakesTo }
        ensures writes { Writes D.Disk Pkg (SameOutside 0 256) 0 result disk.old disk.new }
    {
        let Ok(()) = write_new(disk) else {
            self.stopped = true;
            return Err(DiskFault);
        };
        self.generation = 1;
        self.pages = 1;
        self.field = 1;
        add_free(&mut self.slots, 254);
        Ok(())
    }
}
