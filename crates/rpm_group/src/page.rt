//! 256 units of a file, of which some are held.

ghost use Rattle.std.specs.Prelude.{◌≡◌, ◌⊎◌, ℕ, ◌+◌, ◌*◌, ◌/◌, ◌%◌, ◌<◌, ◌≤◌, true, false, None, Some, length, nat_lt, not, slice_index_or, unwrap_or, IfOk, is_some, IsTrue};
ghost use Rattle.rpm_group.specs.Prelude.{in_marked, in_page, is_marked, PageWrote, unit_in};

use std::alloc::{AllocError, Global};

// No more bytes than that are copied unit by unit.
const FEW_BYTES: usize = 64;

/// The units of a page, with a mark for each that is held, or none where all are: so most pages of a large transaction.
/// What isn't held means nothing.
#[derive(Drop)]
pub struct Page {
    pub bytes: [u8; 4096],
    pub marks: Option<Box<[bool; 256]>>,
}

/// A page of which nothing is held.
///
/// # Errors
///
/// `AllocError` where its marks find no memory.
pub fn empty_page(alloc: Global) -> Result<Page, AllocError>
    ensures { IfOk result (λ page. (k : ℕ) → in_page page k ≡ None) }
{
    Ok(Page {
        bytes: [0; 4096],
        marks: Some(Box::new(alloc, [false; 256])?),
    })
}

/// Sets so many marks from this one on.
fn mark(marks: &mut [bool], from: usize, end: usize)
    requires ordered { from ≤ end }
    requires within { end ≤ length marks.old }
    ensures inside { (k : ℕ) → from ≤ k → k < end → slice_index_or marks.new k false ≡ true }
    ensures outside { (k : ℕ) → (k < from) ⊎ (end ≤ k) → slice_index_or marks.new k false ≡ slice_index_or marks.old k false }
{
    for k in from..end {
        marks[k] = true;
    }
}

// Of no more marks than that each is looked at by itself.
const FEW: usize = 8;

/// The first of these marks that is so, or the end. That none of many is so is seen many marks at a time.
fn next_mark(marks: &[bool], from: usize, end: usize, held: bool) -> usize
    requires ordered { from ≤ end }
    requires within { end ≤ length marks.now }
    ensures from { from ≤ result }
    ensures end { result ≤ end }
    ensures between { (k : ℕ) → from ≤ k → k < result → slice_index_or marks.now k false ≡ not held }
    ensures found { result < end → slice_index_or marks.now result false ≡ held }
{
    if end - from > FEW && !marks[from..end].contains(&held) {
        return end;
    }
    for k in from..end {
        if marks[k] == held {
            return k;
        }
    }
    end
}

/// Whether all are marked. Most that are not lack the first mark or the last.
fn are_all(marks: &[bool]) -> bool
    requires { length marks.now ≡ 256 }
    ensures { IsTrue result → (k : ℕ) → slice_index_or marks.now k false ≡ nat_lt k 256 }
{
    if !marks[0] || !marks[255] || marks.contains(&false) {
        return false;
    }
    true
}

/// Copies the marked ones of these units of a page over others, many of them in one piece where all of them are marked.
fn lay_marked(bytes: &[u8], marks: &[bool], at: usize, into: &mut [u8])
    requires bytes { length bytes.now ≡ 4096 }
    requires marks { length marks.now ≡ 256 }
    requires whole { length into.old % 16 ≡ 0 }
    requires within { at + length into.old / 16 ≤ 256 }
    ensures { (k : ℕ) → k < length into.old / 16 → unit_in into.new k ≡ unwrap_or (in_marked marks.now bytes.now (at + k)) (unit_in into.old k) }
{
    let end = at + into.len() / 16;
    if into.len() <= FEW_BYTES || marks[at..end].contains(&false) {
        lay_some(bytes, marks, at, into);
        return;
    }
    into.copy_from_slice(&bytes[16 * at..16 * end]);
}

/// Copies the marked ones of these units of a page over others, one by one.
fn lay_some(bytes: &[u8], marks: &[bool], at: usize, into: &mut [u8])
    requires bytes { length bytes.now ≡ 4096 }
    requires marks { length marks.now ≡ 256 }
    requires whole { length into.old % 16 ≡ 0 }
    requires within { at + length into.old / 16 ≤ 256 }
    ensures { (k : ℕ) → k < length into.old / 16 → unit_in into.new k ≡ unwrap_or (in_marked marks.now bytes.now (at + k)) (unit_in into.old k) }
{
    for k in 0..into.len() / 16 {
        let from = 16 * (at + k);
        if marks[at + k] {
            into[16 * k..16 * k + 16].copy_from_slice(&bytes[from..from + 16]);
        }
    }
}

impl Page {
    /// Marks units from this one on as held, and tells whether all units are.
    fn mark(&mut self, at: usize, end: usize) -> bool
        requires ordered { at ≤ end }
        requires within { end ≤ 256 }
        ensures bytes { self.new.bytes ≡ self.old.bytes }
        ensures inside { (k : ℕ) → at ≤ k → k < end → is_marked self.new.marks k ≡ true }
        ensures outside { (k : ℕ) → (k < at) ⊎ (end ≤ k) → is_marked self.new.marks k ≡ is_marked self.old.marks k }
        ensures all { IsTrue result → (k : ℕ) → is_marked self.new.marks k ≡ nat_lt k 256 }
    {
        match &mut self.marks {
            Some(marks) => {
                mark(&mut marks[..], at, end);
                are_all(&marks[..])
            }
            None => true,
        }
    }

    /// Holds units from this one on. It takes no memory, and lets the marks go where all units are held then.
    pub fn hold(&mut self, at: usize, bytes: &[u8])
        requires whole { length bytes.now % 16 ≡ 0 }
        requires within { at + length bytes.now / 16 ≤ 256 }
        ensures { PageWrote at bytes.now self.old self.new }
    {
        let end = at + bytes.len() / 16;
        self.bytes[16 * at..16 * end].copy_from_slice(bytes);
        if self.mark(at, end) {
            self.marks = None;
        }
    }

    /// Whether a unit is held.
    #[inline(always)]
    fn holds(&self, at: usize) -> bool
        requires { at < 256 }
        ensures { result ≡ is_marked self.now.marks at }
    {
        match &self.marks {
            Some(marks) => marks[at],
            None => true,
        }
    }

    /// Copies a unit over another, if there is one to be copied and it is held.
    pub fn copy_held(&self, at: usize, into: &mut [u8]) -> bool
        requires whole { length into.old % 16 ≡ 0 }
        requires at { at < 256 }
        ensures within { IsTrue result → at + length into.old / 16 ≤ 256 }
        ensures units { IsTrue result → (k : ℕ) → k < length into.old / 16 → in_page self.now (at + k) ≡ Some (unit_in into.new k) }
    {
        if into.len() != 16 || !self.holds(at) {
            return false;
        }
        into.copy_from_slice(&self.bytes[16 * at..16 * at + 16]);
        true
    }

    /// Copies the held ones of these units over others.
    pub fn lay(&self, at: usize, into: &mut [u8])
        requires whole { length into.old % 16 ≡ 0 }
        requires within { at + length into.old / 16 ≤ 256 }
        ensures { (k : ℕ) → k < length into.old / 16 → unit_in into.new k ≡ unwrap_or (in_page self.now (at + k)) (unit_in into.old k) }
    {
        match &self.marks {
            Some(marks) => lay_marked(&self.bytes, &marks[..], at, into),
            None => {
                let end = at + into.len() / 16;
                into.copy_from_slice(&self.bytes[16 * at..16 * end]);
            }
        }
    }

    /// The first of these units that is held or isn't, or the end.
    pub fn next(&self, from: usize, end: usize, held: bool) -> usize
        requires ordered { from ≤ end }
        requires within { end ≤ 256 }
        ensures from { from ≤ result }
        ensures end { result ≤ end }
        ensures between { (k : ℕ) → from ≤ k → k < result → is_some (in_page self.now k) ≡ not held }
        ensures found { result < end → is_some (in_page self.now result) ≡ held }
    {
        match &self.marks {
            Some(marks) => next_mark(&marks[..], from, end, held),
            None => { if held { from } else { end } }
        }
    }
}
