//! The runs of held units, in order.

ghost use Rattle.std.specs.Prelude.{◌≡◌, ℕ, ◌+◌, ◌-◌, ◌*◌, ◌/◌, ◌%◌, ◌<◌, ◌≤◌, ◌^◌, false, not, None};
ghost use Rattle.rpm_group.specs.Prelude.{begins_run, count_below, is_held, IsNextPlace};

use crate::table::{Table, absent, page_of};

/// The first of these units of one page that is held or isn't, or the end.
fn next_in(table: &Table, q: usize, from: usize, end: usize, held: bool) -> usize
    requires ordered { from ≤ end }
    requires within { end ≤ 256 }
    requires place { 256 * q + end < 2 ^ 64 }
    ensures from { from ≤ result }
    ensures end { result ≤ end }
    ensures between { (k : ℕ) → from ≤ k → k < result → is_held table.now.items (256 * q + k) ≡ not held }
    ensures found { result < end → is_held table.now.items (256 * q + result) ≡ held }
{
    match page_of(table, q) {
        Some(page) => page.next(from, end, held),
        None => { if held { end } else { from } }
    }
}

/// The first of these units that isn't in an absent page, or the end, where held ones are looked for. Of a large file
/// few leaves are there.
fn skip_absent(table: &Table, from: usize, end: usize, held: bool) -> usize
    requires ordered { from ≤ end }
    requires small { end ≤ 2 ^ 28 }
    ensures from { from ≤ result }
    ensures end { result ≤ end }
    ensures between { (i : ℕ) → from ≤ i → i < result → is_held table.now.items i ≡ not held }
{
    if !held {
        return from;
    }
    let mut q = from / 256;
    while 256 * q < end {
        let gap = absent(table, q);
        if gap == 0 {
            return (256 * q).max(from);
        }
        q += gap;
    }
    end
}

/// The first unit from this one on that is held or isn't, or the end, page by page.
pub fn next_unit(table: &Table, from: usize, end: usize, held: bool) -> usize
    requires ordered { from ≤ end }
    requires small { end ≤ 2 ^ 28 }
    ensures { IsNextPlace (is_held table.now.items) held from end result }
{
    let mut at = skip_absent(table, from, end, held);
    while at < end {
        let q = at / 256;
        let stop = (end - 256 * q).min(256);
        let next = next_in(table, q, at % 256, stop, held);
        if next < stop {
            return 256 * q + next;
        }
        at = skip_absent(table, 256 * q + stop, end, held);
    }
    end
}

/// The first unit from this one on that isn't held, or the end. A function of its own, so that a read past all that
/// is held stays short.
#[inline(never)]
pub fn next_absent(table: &Table, from: usize, end: usize) -> usize
    requires ordered { from ≤ end }
    requires small { end ≤ 2 ^ 28 }
    ensures { IsNextPlace (is_held table.now.items) false from end result }
{
    next_unit(table, from, end, false)
}

/// How many runs of held units there are, and how many units.
#[derive(Clone, Copy, PartialEq, Eq)]
pub struct Held {
    pub runs: u64,
    pub units: u64,
}

/// Counts the runs of held units, and the units. It looks at each mark of the pages that are there.
pub fn extent(table: &Table, end: usize) -> Held
    requires small { end ≤ 2 ^ 28 }
    ensures runs { result.runs ≡ count_below (begins_run table.now.items) end }
    ensures units { result.units ≡ count_below (is_held table.now.items) end }
    ensures bound { result.runs + result.units ≤ 2 * end }
{
    let mut so_far = Held { runs: 0, units: 0 };
    let mut at = 0;
    while at < end {
        let first = next_unit(table, at, end, true);
        let stop = next_unit(table, first, end, false);
        if first < stop {
            so_far = Held {
                runs: so_far.runs + 1,
                units: so_far.units + (stop - first) as u64,
            };
        }
        at = stop;
    }
    so_far
}
