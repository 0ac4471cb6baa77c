//! A shelf in memory.

ghost use Rattle.std.specs.Prelude.{◌≡◌, ℕ, ◌^◌, ◌<◌, ◌≤◌, [], true, Some, None, drop, length, IsSome, MatchOption, OnOk, OnErr};
ghost use Rattle.rpm_outside.specs.Prelude.{bytes_at, bytes_in, empty, insert, left_in, paths_of, SameReads, shelf_absences, shelf_failing, shelf_faults, shelf_most, shelf_paths, shelf_reads, shelf_rest, ShelfDoes};

use crate::{Absent, Failed, Shelf};
use std::alloc::{AllocError, Global};

/// Bytes under a path.
#[derive(Drop)]
struct Item {
    path: String,
    bytes: Vec<u8>,
}

/// The item that is open, and how many of its bytes were taken.
#[derive(Clone, Copy)]
struct Opened {
    item: usize,
    at: usize,
}

/// A shelf that holds what was put into it, and can be told to fail.
#[derive(Drop)]
pub struct MemShelf {
    alloc: Global,
    // The newest first.
    items: Vec<Item>,
    opened: Option<Opened>,
    // How many bytes more than one a read takes at most.
    more: u32,
    failing: Option<u64>,
    reads: u64,
    absences: u64,
    faults: u64,
}

/// The place of the newest item under a path.
fn place_of(items: &[Item], path: &str) -> Option<usize>
    ensures { MatchOption result (bytes_at (paths_of items.now) path.now ≡ None) (λ i. IsSome (bytes_in items.now i)
        × (bytes_in items.now i ≡ bytes_at (paths_of items.now) path.now)) }
{
    for (i, item) in items.iter().enumerate() {
        if path == item.path.as_str() {
            return Some(i);
        }
    }
    None
}

/// What is left of an item, which is nothing past its end.
fn left_of(item: &Item, at: usize) -> &[u8]
    ensures { result.now ≡ drop at item.now.bytes.items }
{
    if at < item.bytes.len() {
        &item.bytes[at..]
    } else {
        &[]
    }
}

/// What is left of the open item.
fn left_in(items: &[Item], opened: Opened) -> Option<&[u8]>
    ensures { MatchOption result (left_in items.now opened ≡ None) (λ left. left_in items.now opened ≡ Some left.now) }
{
    if opened.item < items.len() {
        Some(left_of(&items[opened.item], opened.at))
    } else {
        None
    }
}

impl MemShelf {
    /// An empty shelf, on which nothing is open.
    pub fn new(alloc: Global) -> MemShelf
        ensures paths { shelf_paths result ≡ empty }
        ensures rest { shelf_rest result ≡ None }
        ensures most { shelf_most result ≡ 2 ^ 32 }
        ensures failing { shelf_failing result ≡ None }
        ensures reads { shelf_reads result ≡ 0 }
        ensures absences { shelf_absences result ≡ 0 }
        ensures faults { shelf_faults result ≡ 0 }
    {
        MemShelf {
            alloc,
            items: Vec::new(alloc),
            opened: None,
            more: u32::MAX,
            failing: None,
            reads: 0,
            absences: 0,
            faults: 0,
        }
    }

    /// Puts a copy of these bytes under a path, in place of what was there. What is open stays open.
    ///
    /// # Errors
    ///
    /// `AllocError` where memory is wanting. The shelf is then as it was.
    pub fn put(&mut self, path: &str, bytes: &[u8]) -> Result<(), AllocError>
        ensures put { OnOk result (shelf_paths self.new ≡ insert (shelf_paths self.old) path.now bytes.now) }
        ensures err { OnErr result (shelf_paths self.new ≡ shelf_paths self.old) }
        ensures rest { shelf_rest self.new ≡ shelf_rest self.old }
        ensures most { shelf_most self.new ≡ shelf_most self.old }
        ensures failing { shelf_failing self.new ≡ shelf_failing self.old }
        ensures reads { SameReads self.old self.new }
    {
        let item = Item {
            path: String::from_str(self.alloc, path)?,
            bytes: bytes.to_vec(self.alloc)?,
        };
        self.items.insert(0, item)?;
        if let Some(opened) = self.opened {
            self.opened = Some(Opened {
                item: opened.item.saturating_add(1),
                at: opened.at,
            });
        }
        Ok(())
    }

    /// Lets each later read take no more bytes than so many.
    pub fn at_most(&mut self, bytes: u32)
        requires { 0 < bytes }
        ensures most { shelf_most self.new ≡ bytes }
        ensures paths { shelf_paths self.new ≡ shelf_paths self.old }
        ensures rest { shelf_rest self.new ≡ shelf_rest self.old }
        ensures failing { shelf_failing self.new ≡ shelf_failing self.old }
        ensures reads { SameReads self.old self.new }
    {
        self.more = bytes - 1;
    }

    /// Lets one read fail, and no other. The reads are counted from 1.
    pub fn fail_read(&mut self, read: u64)
        ensures failing { shelf_failing self.new ≡ Some read }
        ensures most { shelf_most self.new ≡ shelf_most self.old }
        ensures paths { shelf_paths self.new ≡ shelf_paths self.old }
        ensures rest { shelf_rest self.new ≡ shelf_rest self.old }
        ensures reads { SameReads self.old self.new }
    {
        self.failing = Some(read);
    }

    /// How many opens found nothing.
    pub fn absences(&self) -> u64
        ensures { result ≡ shelf_absences self.now }
    {
        self.absences
    }

    /// How many reads failed.
    pub fn faults(&self) -> u64
        ensures { result ≡ shelf_faults self.now }
    {
        self.faults
    }
}

impl Shelf for MemShelf {
    ghost tells = { true };

    ghost paths = { shelf_paths };

    ghost rest = { shelf_rest };

    ghost absences = { λ s. s.absences };

    ghost faults = { λ s. s.faults };

    ghost outcome = { ShelfDoes };

    fn open(&mut self, path: &str) -> Result<(), Absent> {
        match place_of(&self.items, path) {
            Some(item) => {
                self.opened = Some(Opened { item, at: 0 });
                Ok(())
            }
            None => {
                self.opened = None;
                self.absences = self.absences.saturating_add(1);
                Err(Absent)
            }
        }
    }

    fn read(&mut self, into: &mut [u8]) -> Result<usize, Failed> {
        self.reads = self.reads.saturating_add(1);
        if self.failing.is_some_and(|read| read == self.reads) {
            self.faults = self.faults.saturating_add(1);
            return Err(Failed);
        }
        let Some(opened) = self.opened else {
            return Ok(0);
        };
        let Some(left) = left_in(&self.items, opened) else {
            return Ok(0);
        };
        let count = left.len().min(into.len()).min(self.more as usize + 1);
        into[..count].copy_from_slice(&left[..count]);
        self.opened = Some(Opened {
            item: opened.item,
            at: opened.at + count,
        });
        Ok(count)
    }
}
