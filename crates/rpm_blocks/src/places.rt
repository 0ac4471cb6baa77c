//! Places in a rising vector of ranges.

ghost use Rattle.std.specs.Prelude.{◌≡◌, ◌+◌, ◌<◌, ◌≤◌, vec_len, vec_capacity};
ghost use Rattle.std.specs.List.{insert};
ghost use Rattle.rpm_blocks.specs.Blocks.{AreApart};
ghost use Rattle.rpm_blocks.specs.inner.Places.{IsPlace};

use super::Range;

/// How many ranges begin below the block: all, if the last does, and else a binary search finds it.
#[inline]
pub fn place(ranges: &[Range], block: u32) -> usize
    requires { AreApart 0 ranges.now }
    ensures { IsPlace ranges.now block result }
{
    match ranges.last() {
        Some(last) if last.start < block => ranges.len(),
        _ => place_by_search(ranges, block),
    }
}

// How many ranges begin below the block, by a binary search.
#[inline(never)]
fn place_by_search(ranges: &[Range], block: u32) -> usize
    requires { AreApart 0 ranges.now }
    ensures { IsPlace ranges.now block result }
{
    ranges.partition_point(|range| range.start < block)
}

/// Puts a range in at a place, where there is room for it. None moves where the place is the end.
#[inline]
pub fn put(ranges: &mut Vec<Range>, at: usize, range: Range)
    requires place { at ≤ vec_len ranges.old }
    requires room { vec_len ranges.old < vec_capacity ranges.old }
    ensures items { ranges.new.items ≡ insert ranges.old.items at range }
    ensures len { vec_len ranges.new ≡ vec_len ranges.old + 1 }
    ensures capacity { vec_capacity ranges.new ≡ vec_capacity ranges.old }
{
    if at == ranges.len() {
        ranges.push_reserved(range);
        return;
    }
    put_between(ranges, at, range);
}

// Puts a range in before those from its place on, which move.
#[inline(never)]
fn put_between(ranges: &mut Vec<Range>, at: usize, range: Range)
    requires place { at ≤ vec_len ranges.old }
    requires room { vec_len ranges.old < vec_capacity ranges.old }
    ensures items { ranges.new.items ≡ insert ranges.old.items at range }
    ensures len { vec_len ranges.new ≡ vec_len ranges.old + 1 }
    ensures capacity { vec_capacity ranges.new ≡ vec_capacity ranges.old }
{
    match ranges.insert(at, range) {
        Ok(()) => {}
        Err(_) => unreachable!(),
    }
}
