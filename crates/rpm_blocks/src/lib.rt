//! Where a blob goes in `Packages.db`: the least block at which it fits.
//!
//! The file is a row of blocks of 16 bytes, at most 268,435,456 of them (4 GiB), a limit of this database.
//! A set `Used` keeps which ranges of blocks are used, and finds the first gap that is wide enough.
//!
//! Beside the ranges, as they were inserted, the set keeps their runs: ranges that touch are one run. A search
//! steps over runs and not over ranges, so it costs next to nothing in a file that has no gaps.
#![tactic(auto)]

ghost use Rattle.std.specs.Prelude.{◌≡◌, ◌+◌, ◌^◌, ◌<◌, ◌≤◌, [], OnOk, OnErr, IfOk, IsOk, SomeIndex};
ghost use Rattle.rpm_blocks.specs.Blocks.{Blocks, range, range_at, end_of_range, block_limit, IsFree, AreApart, IsLeastFit, with_range, without};

mod places;
mod runs;

use places::{place, put};
use runs::{cut, join, least_fit};
use std::alloc::{AllocError, Global};
use std::marker::Model;

/// A range of blocks: the first, and how many there are.
#[derive(Clone, Copy)]
pub struct Range {
    pub start: u32,
    pub count: u32,
}

impl Range {
    // The block after the last.
    fn end(self) -> u32
        requires { end_of_range self < 2 ^ 32 }
        ensures { result ≡ end_of_range self }
    {
        self.start + self.count
    }
}

/// The used ranges of blocks of a file.
///
/// Contracts see a `Blocks`: the list of the ranges, which rise and do not meet, and `spare`, the number of ranges that
/// may still be inserted before memory is asked for.
#[derive(Drop)]
pub struct Used {
    ranges: Vec<Range>,
    runs: Vec<Range>,
    spare: u32,
}

impl Model for Used {
    ghost use Rattle.rpm_blocks.specs.Blocks.{Blocks};

    ghost Value = { Blocks };

    ghost use Rattle.rpm_blocks.specs.inner.Sound.{IsUsedSound};

    ghost view = { λ u. record { ranges = u.ranges.items; spare = u.spare } };

    ghost invariant = { IsUsedSound };
}

impl Used {
    /// An empty set. Takes no memory.
    pub fn new(alloc: Global) -> Used
        ensures { result ≡ record { ranges = []; spare = 0 } }
    {
        Used {
            ranges: Vec::new(alloc),
            runs: Vec::new(alloc),
            spare: 0,
        }
    }

    /// Makes room for so many further ranges.
    ///
    /// `Err` where memory is refused, which leaves the set as it was; it never comes where the room is there.
    /// Takes 8 bytes for each range, and twice as many for the runs that later removals may split. Where
    /// memory is asked for, all are copied, which is seldom, since it grows by doubling.
    pub fn reserve(&mut self, more: u32) -> Result<(), AllocError>
        ensures ranges { self.new.ranges ≡ self.old.ranges }
        ensures ok { OnOk result (more ≤ self.new.spare) }
        ensures kept { self.old.spare ≤ self.new.spare }
        ensures there { more ≤ self.old.spare → IsOk result }
        ensures err { OnErr result (self.new ≡ self.old) }
    {
        if more <= self.spare {
            return Ok(());
        }
        let ranges = self.ranges.len();
        self.ranges.reserve(more as usize)?;
        self.runs.reserve(2 * more as usize + ranges)?;
        self.spare = more;
        Ok(())
    }

    /// The same ranges, with room for so many more.
    ///
    /// `Err` where memory is refused. Takes 16 bytes for each range, 8 for each run and 24 for each further range,
    /// and copies ranges and runs: no search is made.
    pub fn copy_with_room(&self, alloc: Global, more: u32) -> Result<Used, AllocError>
        ensures { IfOk result (λ used. used ≡ record { ranges = self.now.ranges; spare = more }) }
    {
        let count = self.ranges.len();
        let mut ranges = Vec::with_capacity(alloc, count + more as usize)?;
        ranges.extend_from_slice(&self.ranges)?;
        let mut runs = Vec::with_capacity(alloc, self.runs.len() + 2 * more as usize + count)?;
        runs.extend_from_slice(&self.runs)?;
        Ok(Used {
            ranges,
            runs,
            spare: more,
        })
    }

    /// Adds a range, which meets no other. Takes no memory.
    ///
    /// Asks for room, for a block at least, for an end at or below the limit, and that no block of it is used.
    /// Two binary searches, and the ranges and runs above it move: neither, where it is after the last.
    #[inline]
    pub fn insert(&mut self, start: u32, count: u32)
        requires room { 1 ≤ self.old.spare }
        requires filled { 1 ≤ count }
        requires bounded { start + count ≤ block_limit }
        requires free { IsFree self.old.ranges (range start count) }
        ensures ranges { self.new.ranges ≡ with_range (range start count) self.old.ranges }
        ensures spare { self.new.spare + 1 ≡ self.old.spare }
        ensures apart { AreApart 0 self.new.ranges }
    {
        let range = Range { start, count };
        let at = place(&self.ranges, start);
        put(&mut self.ranges, at, range);
        join(&mut self.runs, range);
        self.spare -= 1;
    }

    /// Takes out the range that begins at `start`. As many ranges may be inserted after it as before.
    ///
    /// Asks that a range begins there. Two binary searches, and the ranges and runs above it move.
    /// Takes no memory.
    pub fn remove(&mut self, start: u32)
        requires { SomeIndex self.old.ranges (λ i. (range_at self.old.ranges i).start ≡ start) }
        ensures ranges { self.new.ranges ≡ without start self.old.ranges }
        ensures spare { self.new.spare ≡ self.old.spare }
        ensures apart { AreApart 0 self.new.ranges }
    {
        let at = place(&self.ranges, start);
        let range = self.ranges.remove(at);
        cut(&mut self.runs, range);
    }

    /// The least block from `from` on at which `count` blocks are free and end by the limit, and `None`
    /// where there is none.
    ///
    /// Asks for a block at least. A binary search for the last run that begins below `from`, and then a step
    /// for each run from there up to the place: one, where no gap lies between. Takes no memory.
    pub fn first_fit(&self, count: u32, from: u32) -> Option<u32>
        requires { 1 ≤ count }
        ensures least { IsLeastFit self.now.ranges count from result }
        ensures apart { AreApart 0 self.now.ranges }
    {
        let first = place(&self.runs, from).saturating_sub(1);
        least_fit(&self.runs[first..], count, from)
    }
}
