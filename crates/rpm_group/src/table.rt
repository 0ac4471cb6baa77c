//! The pages of a file by number. A page that isn't there holds nothing.
//!
//! A table in two levels, as a page table of an operating system: leaves of 256 pages by number, 1 MiB of the file
//! each, and in each its pages. It finds a page without a comparison, and goes through them in order. A leaf of which
//! nothing is held costs 24 bytes.

ghost use Rattle.std.specs.Prelude.{◌≡◌, ℕ, ◌+◌, ◌-◌, ◌*◌, ◌/◌, ◌%◌, ◌<◌, ◌≤◌, ◌^◌, true, None, length, is_some, OnOk, MatchOption, IsTrue};
ghost use Rattle.rpm_group.specs.Prelude.{AreHeld, AreThere, held_at, HoldsUnits, in_page, KeepsPages, LaysOver, page_at, SameHeld, SamePages};

use crate::leaf::{Leaf, add, hold as hold_in_leaf};
use crate::page::Page;
use std::alloc::{AllocError, Global};

pub type Table = Vec<Leaf>;

/// Adds leaves without pages, so that there are so many.
fn lengthen(alloc: Global, table: &mut Table, count: usize) -> Result<(), AllocError>
    ensures same { SamePages table.old.items table.new.items }
    ensures long { OnOk result (count ≤ length table.new.items) }
{
    for _k in table.len()..count {
        table.push(Vec::new(alloc))?;
    }
    Ok(())
}

/// Adds an empty page where there is none.
fn add_page(alloc: Global, table: &mut Table, q: usize) -> Result<(), AllocError>
    ensures same { SameHeld table.old.items table.new.items }
    ensures pages { KeepsPages table.old.items table.new.items }
    ensures there { OnOk result (is_some (page_at table.new.items q) ≡ true) }
{
    lengthen(alloc, table, q / 256 + 1)?;
    add(alloc, &mut table[q / 256], q % 256)
}

/// Adds the pages from the first one on that aren't there. Nothing else is held then than before, whatever the answer.
pub fn add_pages(
    alloc: Global,
    table: &mut Table,
    first: usize,
    end: usize,
) -> Result<(), AllocError>
    ensures same { SameHeld table.old.items table.new.items }
    ensures there { OnOk result (AreThere first end table.new.items) }
{
    for q in first..end {
        add_page(alloc, table, q)?;
    }
    Ok(())
}

/// Holds units of one page.
fn hold_in(table: &mut Table, q: usize, at: usize, bytes: &[u8])
    requires there { is_some (page_at table.old.items q) ≡ true }
    requires whole { length bytes.now % 16 ≡ 0 }
    requires within { at + length bytes.now / 16 ≤ 256 }
    ensures holds { HoldsUnits (256 * q + at) bytes.now table.old.items table.new.items }
    ensures pages { KeepsPages table.old.items table.new.items }
{
    if q / 256 < table.len() {
        hold_in_leaf(&mut table[q / 256], q % 256, at, bytes);
    }
}

/// Holds units from this one on, whose pages are there.
pub fn hold(table: &mut Table, unit: usize, bytes: &[u8])
    requires whole { length bytes.now % 16 ≡ 0 }
    requires room { unit + length bytes.now / 16 ≤ 2 ^ 28 }
    requires there { AreThere (unit / 256) ((unit + length bytes.now / 16 + 255) / 256) table.old.items }
    ensures { HoldsUnits unit bytes.now table.old.items table.new.items }
{
    let count = bytes.len() / 16;
    let mut done = 0;
    while done < count {
        let q = (unit + done) / 256;
        let at = (unit + done) % 256;
        let n = (256 - at).min(count - done);
        hold_in(table, q, at, &bytes[16 * done..16 * (done + n)]);
        done += n;
    }
}

/// The page of a number, if it is there.
pub fn page_of(table: &Table, q: usize) -> Option<&Page>
    ensures { MatchOption result ((k : ℕ) → k < 256 → held_at table.now.items (256 * q + k) ≡ None) (λ page. (k : ℕ)
        → k < 256 → held_at table.now.items (256 * q + k) ≡ in_page page.now k) }
{
    if q / 256 >= table.len() {
        return None;
    }
    let leaf = &table[q / 256];
    if q % 256 >= leaf.len() {
        return None;
    }
    match &leaf[q % 256] {
        Some(page) => Some(page),
        None => None,
    }
}

/// How many pages from this one on aren't there, as far as a look at its leaf or at itself tells: none where it is
/// there.
pub fn absent(table: &Table, q: usize) -> usize
    ensures most { result ≤ 256 }
    ensures none { (i : ℕ) → 256 * q ≤ i → i < 256 * (q + result) → held_at table.now.items i ≡ None }
{
    if q / 256 >= table.len() || table[q / 256].is_empty() {
        return 256 - q % 256;
    }
    match page_of(table, q) {
        Some(_) => 0,
        None => 1,
    }
}

/// Copies a unit over another, if there is one to be copied and it is held.
pub fn copy_held(table: &Table, unit: usize, into: &mut [u8]) -> bool
    requires whole { length into.old % 16 ≡ 0 }
    requires room { unit + length into.old / 16 < 2 ^ 64 }
    ensures held { IsTrue result → AreHeld table.now.items unit (unit + length into.old / 16) }
    ensures lays { IsTrue result → LaysOver unit table.now.items into.old into.new }
{
    match page_of(table, unit / 256) {
        Some(page) => page.copy_held(unit % 256, into),
        None => false,
    }
}

/// Copies the held ones of these units of one page over others.
fn lay_in(table: &Table, q: usize, at: usize, into: &mut [u8])
    requires whole { length into.old % 16 ≡ 0 }
    requires within { at + length into.old / 16 ≤ 256 }
    ensures { LaysOver (256 * q + at) table.now.items into.old into.new }
{
    match page_of(table, q) {
        Some(page) => page.lay(at, into),
        None => {}
    }
}

/// Copies the held ones of the units from this one on over others. A function of its own, so that a read of what
/// isn't held stays short.
#[inline(never)]
pub fn lay(table: &Table, unit: usize, into: &mut [u8])
    requires whole { length into.old % 16 ≡ 0 }
    requires room { unit + length into.old / 16 < 2 ^ 64 }
    ensures { LaysOver unit table.now.items into.old into.new }
{
    let count = into.len() / 16;
    let mut done = 0;
    while done < count {
        let q = (unit + done) / 256;
        let at = (unit + done) % 256;
        let n = (256 - at).min(count - done);
        lay_in(table, q, at, &mut into[16 * done..16 * (done + n)]);
        done += n;
    }
}
