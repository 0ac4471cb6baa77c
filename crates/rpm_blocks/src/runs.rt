//! Runs: ranges that do not touch each other.

ghost use Rattle.std.specs.Prelude.{◌≡◌, ℕ, ◌+◌, ◌<◌, ◌≤◌, ◌↔◌, ◌∷◌, vec_len, vec_capacity, IsTrue, false};
ghost use Rattle.rpm_blocks.specs.declared.Range.{Range};
ghost use Rattle.rpm_blocks.specs.Blocks.{end_of_range, block_limit, Has, IsUnused, IsFree, IsRange, AreApart, IsLeastFit};
ghost use Rattle.rpm_blocks.specs.inner.Places.{IsGap, HaveSameBlocks};

use super::Range;
use super::places::{place, put};

// No range ends past this block: a file has at most 4 GiB, in blocks of 16 bytes.
const BLOCK_LIMIT: u32 = 268_435_456;

/// Adds the blocks of a range that shares none with the runs.
#[inline]
pub fn join(runs: &mut Vec<Range>, range: Range)
    requires apart { AreApart 1 runs.old.items }
    requires range { IsRange range }
    requires free { IsFree runs.old.items range }
    requires room { vec_len runs.old < vec_capacity runs.old }
    ensures apart { AreApart 1 runs.new.items }
    ensures same { HaveSameBlocks (range ∷ runs.old.items) runs.new.items }
    ensures len { vec_len runs.new ≤ vec_len runs.old + 1 }
    ensures capacity { vec_capacity runs.new ≡ vec_capacity runs.old }
{
    if !extend_last(runs, range) {
        join_between(runs, range);
    }
}

// Adds them where they lie, to the runs that they touch.
#[inline(never)]
fn join_between(runs: &mut Vec<Range>, range: Range)
    requires apart { AreApart 1 runs.old.items }
    requires range { IsRange range }
    requires free { IsFree runs.old.items range }
    requires room { vec_len runs.old < vec_capacity runs.old }
    ensures apart { AreApart 1 runs.new.items }
    ensures same { HaveSameBlocks (range ∷ runs.old.items) runs.new.items }
    ensures len { vec_len runs.new ≤ vec_len runs.old + 1 }
    ensures capacity { vec_capacity runs.new ≡ vec_capacity runs.old }
{
    let at = place(runs, range.start);
    let (at, joined) = join_below(runs, at, range);
    let whole = join_above(runs, at, joined);
    put(runs, at, whole);
}

// Adds a range to the last run, if it begins where that ends, as in a file without gaps. Says whether it did.
#[inline]
fn extend_last(runs: &mut Vec<Range>, range: Range) -> bool
    requires apart { AreApart 1 runs.old.items }
    requires range { IsRange range }
    ensures apart { AreApart 1 runs.new.items }
    ensures same { IsTrue result → HaveSameBlocks (range ∷ runs.old.items) runs.new.items }
    ensures not { result ≡ false → runs.new.items ≡ runs.old.items }
    ensures len { vec_len runs.new ≡ vec_len runs.old }
    ensures capacity { vec_capacity runs.new ≡ vec_capacity runs.old }
{
    if runs.is_empty() {
        return false;
    }
    let last = runs.len() - 1;
    if runs[last].end() != range.start {
        return false;
    }
    runs[last].count += range.count;
    true
}

// Takes out the run that ends where the range begins, and answers both as one range, with its place.
fn join_below(runs: &mut Vec<Range>, at: usize, range: Range) -> (usize, Range)
    requires apart { AreApart 1 runs.old.items }
    requires range { IsRange range }
    requires gap { IsGap 0 0 runs.old.items range at }
    ensures apart { AreApart 1 runs.new.items }
    ensures range { IsRange result.1 }
    ensures gap { IsGap 1 0 runs.new.items result.1 result.0 }
    ensures same { HaveSameBlocks (range ∷ runs.old.items) (result.1 ∷ runs.new.items) }
    ensures len { vec_len runs.new ≤ vec_len runs.old }
    ensures capacity { vec_capacity runs.new ≡ vec_capacity runs.old }
{
    if at == 0 || runs[at - 1].end() != range.start {
        return (at, range);
    }
    let run = runs.remove(at - 1);
    let joined = Range {
        start: run.start,
        count: run.count + range.count,
    };
    (at - 1, joined)
}

// Takes out the run that begins where the range ends, and answers both as one range.
fn join_above(runs: &mut Vec<Range>, at: usize, range: Range) -> Range
    requires apart { AreApart 1 runs.old.items }
    requires range { IsRange range }
    requires gap { IsGap 1 0 runs.old.items range at }
    ensures apart { AreApart 1 runs.new.items }
    ensures range { IsRange result }
    ensures gap { IsGap 1 1 runs.new.items result at }
    ensures same { HaveSameBlocks (range ∷ runs.old.items) (result ∷ runs.new.items) }
    ensures len { vec_len runs.new ≤ vec_len runs.old }
    ensures capacity { vec_capacity runs.new ≡ vec_capacity runs.old }
{
    if at == runs.len() || runs[at].start != range.end() {
        return range;
    }
    let run = runs.remove(at);
    Range {
        start: range.start,
        count: range.count + run.count,
    }
}

/// Takes the blocks of a range, all of which lie in the runs, out of them.
pub fn cut(runs: &mut Vec<Range>, range: Range)
    requires apart { AreApart 1 runs.old.items }
    requires range { IsRange range }
    requires used { (block : ℕ) → Has range block → ¬ IsUnused runs.old.items block }
    requires room { vec_len runs.old < vec_capacity runs.old }
    ensures apart { AreApart 1 runs.new.items }
    ensures free { IsFree runs.new.items range }
    ensures same { HaveSameBlocks runs.old.items (range ∷ runs.new.items) }
    ensures len { vec_len runs.new ≤ vec_len runs.old + 1 }
    ensures capacity { vec_capacity runs.new ≡ vec_capacity runs.old }
{
    let (at, run) = take_run(runs, range);
    let above = Range {
        start: range.end(),
        count: run.end() - range.end(),
    };
    let below = Range {
        start: run.start,
        count: range.start - run.start,
    };
    put_part(runs, at, above);
    put_part(runs, at, below);
}

// Takes out the run that has the blocks of a range, and answers it with its place.
fn take_run(runs: &mut Vec<Range>, range: Range) -> (usize, Range)
    requires apart { AreApart 1 runs.old.items }
    requires range { IsRange range }
    requires used { (block : ℕ) → Has range block → ¬ IsUnused runs.old.items block }
    ensures apart { AreApart 1 runs.new.items }
    ensures range { IsRange result.1 }
    ensures starts { result.1.start ≤ range.start }
    ensures ends { end_of_range range ≤ end_of_range result.1 }
    ensures gap { IsGap 1 1 runs.new.items result.1 result.0 }
    ensures same { HaveSameBlocks runs.old.items (result.1 ∷ runs.new.items) }
    ensures len { vec_len runs.new + 1 ≡ vec_len runs.old }
    ensures capacity { vec_capacity runs.new ≡ vec_capacity runs.old }
{
    let at = place(runs, range.start + 1) - 1;
    let run = runs.remove(at);
    (at, run)
}

// Puts a range in at its place, if it has a block.
fn put_part(runs: &mut Vec<Range>, at: usize, part: Range)
    requires apart { AreApart 1 runs.old.items }
    requires bounded { end_of_range part ≤ block_limit }
    requires gap { IsGap 1 1 runs.old.items part at }
    requires room { vec_len runs.old < vec_capacity runs.old }
    ensures apart { AreApart 1 runs.new.items }
    ensures same { HaveSameBlocks (part ∷ runs.old.items) runs.new.items }
    ensures gap { (r : Range) → IsGap 1 1 runs.old.items r at → end_of_range r + 1 ≤ part.start → IsGap 1 1 runs.new.items r at }
    ensures len { vec_len runs.new ≤ vec_len runs.old + 1 }
    ensures capacity { vec_capacity runs.new ≡ vec_capacity runs.old }
{
    if part.count > 0 {
        put(runs, at, part);
    }
}

/// The least block from `from` on at which `count` blocks lie in no run and end by the limit.
pub fn least_fit(runs: &[Range], count: u32, from: u32) -> Option<u32>
    requires filled { 1 ≤ count }
    requires apart { AreApart 1 runs.now }
    ensures { IsLeastFit runs.now count from result }
{
    let mut block = from;
    for run in runs {
        if is_wide_enough(block, run.start, count) {
            return Some(block);
        }
        block = block.max(run.end());
    }
    if is_wide_enough(block, BLOCK_LIMIT, count) {
        Some(block)
    } else {
        None
    }
}

// So many blocks fit between the two. The blocks may end above what a `u32` has.
fn is_wide_enough(block: u32, end: u32, count: u32) -> bool
    ensures { IsTrue result ↔ (block + count ≤ end) }
{
    block <= end && count <= end - block
}
