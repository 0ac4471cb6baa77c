//! What is held of a file.

ghost use Rattle.std.specs.Prelude.{◌≡◌, ◌≢◌, ◌⊎◌, ℕ, ◌+◌, ◌-◌, ◌/◌, ◌%◌, ◌<◌, ◌≤◌, ◌^◌, None, length, OnOk, OnErr, IsTrue};
ghost use Rattle.rpm_outside.specs.Files.{FitsAt, Units, units_of, with_units};
ghost use Rattle.rpm_group.specs.Held.{held_at, IsHeldBelow, laid_units};
ghost use Rattle.rpm_group.specs.inner.Holding.{HoldsUnits, SameHeld, LaysOver};
ghost use Rattle.rpm_group.specs.inner.HeldUnits.{AreHeld};

use crate::scan::next_absent;
use crate::table::{Table, add_pages, copy_held, hold};
use std::alloc::{AllocError, Global};

/// The held units of a file, and the end of the last.
#[derive(Drop)]
pub struct Pages {
    pub table: Table,
    pub end: u64,
    ghost small: { end ≤ 2 ^ 28 },
    ghost past: { IsHeldBelow table.items end },
    ghost last: { 0 < end → held_at table.items (end - 1) ≢ None },
}

impl Pages {
    /// Nothing is held.
    pub fn new(alloc: Global) -> Pages
        ensures { (file : Units) → laid_units result.table.items result.end file ≡ file }
    {
        Pages {
            table: Vec::new(alloc),
            end: 0,
        }
    }

    /// Holds units from this one on.
    ///
    /// # Errors
    ///
    /// `AllocError` where memory is wanting. What is held is then as it was.
    pub fn hold(&mut self, alloc: Global, unit: u64, bytes: &[u8]) -> Result<(), AllocError>
        requires { FitsAt unit bytes.now }
        ensures ok { OnOk result ((file : Units) → laid_units self.new.table.items self.new.end file
            ≡ with_units unit (units_of bytes.now) (laid_units self.old.table.items self.old.end file)) }
        ensures err { OnErr result ((file : Units) → laid_units self.new.table.items self.new.end file ≡ laid_units self.old.table.items self.old.end file) }
    {
        let end = unit + bytes.len() as u64 / 16;
        hold_all(alloc, &mut self.table, unit as usize, bytes)?;
        self.end = self.end.max(end);
        Ok(())
    }

    /// Copies a unit over another, if there is one to be copied, as in most reads, and it is held.
    pub fn copy_held(&self, unit: u64, into: &mut [u8]) -> bool
        requires { length into.old % 16 ≡ 0 }
        ensures within { IsTrue result → unit + length into.old / 16 ≤ self.now.end }
        ensures held { IsTrue result → AreHeld self.now.table.items unit (unit + length into.old / 16) }
        ensures lays { IsTrue result → LaysOver unit self.now.table.items into.old into.new }
    {
        let count = into.len() as u64 / 16;
        unit <= self.end && count <= self.end - unit && copy_held(&self.table, unit as usize, into)
    }

    /// Whether all of so many units from this one on are held.
    pub fn covers(&self, unit: u64, count: u64) -> bool
        ensures within { IsTrue result → unit + count ≤ self.now.end }
        ensures held { IsTrue result → AreHeld self.now.table.items unit (unit + count) }
        ensures all { unit + count ≤ self.now.end → AreHeld self.now.table.items unit (unit + count) → IsTrue result }
    {
        if unit > self.end || count > self.end - unit {
            return false;
        }
        let end = (unit + count) as usize;
        next_absent(&self.table, unit as usize, end) == end
    }
}

/// Adds the pages of these units, and holds the units.
fn hold_all(alloc: Global, table: &mut Table, unit: usize, bytes: &[u8]) -> Result<(), AllocError>
    requires whole { length bytes.now % 16 ≡ 0 }
    requires room { unit + length bytes.now / 16 ≤ 2 ^ 28 }
    ensures ok { OnOk result (HoldsUnits unit bytes.now table.old.items table.new.items) }
    ensures err { OnErr result (SameHeld table.old.items table.new.items) }
{
    let end = unit + bytes.len() / 16;
    add_pages(alloc, table, unit / 256, (end + 255) / 256)?;
    hold(table, unit, bytes);
    Ok(())
}
