//! The order of the classes, each known by its number.

ghost use Rattle.std.specs.Prelude.{◌≡◌, ℕ, ◌<◌, ◌≤◌, IfOk, OnOk, Contains, true, false, [], length, replicate, slice_index, slice_index_or, slice_set};
ghost use Rattle.rpm_graph.specs.Prelude.{AreFalling, AreOthersPlaced, ArePlaced, IsEdge, IsBegun, IsFirstUnlisted, IsListedNow, IsListing, IsReadyOrWaits, IsUnderway, listed_at, row_lists};

use crate::rows::{empty_rows, push_link};
use std::alloc::{AllocError, Global};
use std::collections::BTreeSet;
use std::mem;

#[derive(Drop)]
pub struct Listing {
    pub checked: Vec<usize>,
    pub waiting: Vec<Vec<usize>>,
    pub listed: Vec<bool>,
    pub ready: BTreeSet<(u32, usize)>,
}

impl Listing {
    // A listing of so many classes that has listed none.
    pub fn new(alloc: Global, count: usize) -> Result<Listing, AllocError>
        ensures { IfOk result (λ s. IsBegun count s) }
    {
        Ok(Listing {
            checked: vec![in alloc; 0; count]?,
            waiting: empty_rows(alloc, count)?,
            listed: vec![in alloc; false; count]?,
            ready: BTreeSet::new(alloc),
        })
    }

    // Puts a class among those that are ready, or with those that wait for another one.
    pub fn settle(
        &mut self,
        class: usize,
        ends: &[Vec<usize>],
        leasts: &[u32],
    ) -> Result<(), AllocError>
        requires underway { IsUnderway (row_lists ends.now) leasts.now self.old }
        requires falls { AreFalling (row_lists ends.now) }
        requires inside { class < length ends.now }
        requires sized { length leasts.now ≡ length ends.now }
        requires unlisted { listed_at self.old.listed.items class ≡ false }
        ensures underway { OnOk result (IsUnderway (row_lists ends.now) leasts.now self.new) }
        ensures same { OnOk result (self.new.listed.items ≡ self.old.listed.items) }
        ensures keeps { OnOk result ((c : ℕ) → IsReadyOrWaits leasts.now self.old c → IsReadyOrWaits leasts.now self.new c) }
        ensures placed { OnOk result (IsReadyOrWaits leasts.now self.new class) }
    {
        let row: &[usize] = &ends[class];
        let at = first_unlisted(row, &self.listed, self.checked[class]);
        self.checked[class] = at;
        if at < row.len() {
            push_link(&mut self.waiting, row[at], class)?;
        } else {
            self.ready.insert((leasts[class], class))?;
        }
        Ok(())
    }

    // Lists a class, and takes those that waited for it.
    pub fn mark(&mut self, alloc: Global, class: usize) -> Vec<usize>
        requires waiting { class < length self.old.waiting.items }
        requires listed { class < length self.old.listed.items }
        ensures listed { IsListedNow class self.old self.new }
        ensures row { result.items ≡ slice_index_or (row_lists self.old.waiting.items) class [] }
    {
        self.listed[class] = true;
        mem::replace(&mut self.waiting[class], Vec::new(alloc))
    }

    // Lists a class that is ready, and settles those that waited for it.
    pub fn list(
        &mut self,
        alloc: Global,
        class: usize,
        ends: &[Vec<usize>],
        leasts: &[u32],
    ) -> Result<(), AllocError>
        requires underway { IsUnderway (row_lists ends.now) leasts.now self.old }
        requires falls { AreFalling (row_lists ends.now) }
        requires inside { class < length ends.now }
        requires sized { length leasts.now ≡ length ends.now }
        requires unlisted { listed_at self.old.listed.items class ≡ false }
        requires ends_listed { (d : ℕ) → IsEdge (row_lists ends.now) class d → listed_at self.old.listed.items d ≡ true }
        requires taken { (n : ℕ) → Contains self.old.ready.keys (n, class) → ⊥ }
        requires placed { AreOthersPlaced (length ends.now) class leasts.now self.old }
        ensures underway { OnOk result (IsUnderway (row_lists ends.now) leasts.now self.new) }
        ensures listed { OnOk result (self.new.listed.items ≡ slice_set self.old.listed.items class true) }
        ensures placed { OnOk result (ArePlaced (length ends.now) leasts.now self.new) }
    {
        let waited = self.mark(alloc, class);
        for other in &waited {
            self.settle(*other, ends, leasts)?;
        }
        Ok(())
    }
}

// A listing that has listed nothing, with each class in its place.
fn begin(alloc: Global, ends: &[Vec<usize>], leasts: &[u32]) -> Result<Listing, AllocError>
    requires falls { AreFalling (row_lists ends.now) }
    requires sized { length leasts.now ≡ length ends.now }
    ensures underway { IfOk result (λ s. IsUnderway (row_lists ends.now) leasts.now s) }
    ensures listed { IfOk result (λ s. s.listed.items ≡ replicate (length ends.now) false) }
    ensures placed { IfOk result (λ s. ArePlaced (length ends.now) leasts.now s) }
{
    let mut listing = Listing::new(alloc, ends.len())?;
    for class in 0..ends.len() {
        listing.settle(class, ends, leasts)?;
    }
    Ok(listing)
}

// The classes, in order.
//
// Kahn's algorithm with an ordered set of the classes that are ready. A class waits for one of its ends at a time, so
// that each end is looked at once, and once more for each time that the class waits.
pub fn list_classes(
    alloc: Global,
    ends: &[Vec<usize>],
    leasts: &[u32],
) -> Result<Vec<usize>, AllocError>
    requires falls { AreFalling (row_lists ends.now) }
    requires sized { length leasts.now ≡ length ends.now }
    ensures { IfOk result (λ order. IsListing (row_lists ends.now) leasts.now order.items) }
{
    let mut listing = begin(alloc, ends, leasts)?;
    let mut order = Vec::with_capacity(alloc, ends.len())?;
    while let Some(first) = listing.ready.pop_first() {
        let class = first.1;
        order.push(class)?;
        listing.list(alloc, class, ends, leasts)?;
    }
    Ok(order)
}

// The first place of the row, from there on, of a class that isn't listed, or the end of the row.
fn first_unlisted(row: &[usize], listed: &[bool], from: usize) -> usize
    requires within { (i : ℕ) → i < length row.now → slice_index row.now i < length listed.now }
    requires inside { from ≤ length row.now }
    ensures { IsFirstUnlisted row.now listed.now from result }
{
    let mut at = from;
    while at < row.len() {
        if !listed[row[at]] {
            break;
        }
        at += 1;
    }
    at
}
