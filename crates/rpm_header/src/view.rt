//! A header that was checked, over its own bytes.

ghost use Rattle.std.specs.Prelude.{◌≡◌, ℕ, ◌+◌, ◌*◌, ◌≤◌, ◌<◌, length, map, Some, None, Ok, IfOk, take, slice_get};
ghost use Rattle.rpm_header.specs.Prelude.{entries, fault_at, Header, header, header_of, IsCutAsSaid, IsOwn, IsBlobSound, last_of, max_blob, max_entries};

use crate::bytes::u32_at;
use crate::ends::{TextEnds, ZeroSums};
use crate::entry::{Entry, entry_at};
use crate::form::HeaderFault;
use crate::index::{MAX_DATA, MAX_ENTRIES, fault_at, section_of};
use std::marker::Model;

/// A header in which no entry has a fault. It borrows the header's bytes. Contracts see it as a
/// `Header`: its own bytes and its entries.
#[derive(Drop)]
pub struct View<'a> {
    blob: &'a [u8],
    count: u32,
}

impl<'a> Model for View<'a> {
    ghost Value = { Header };

    ghost view = { λ s. record { blob = s.blob.now; entries = entries s.count s.blob.now } };

    ghost invariant = { λ s. IsBlobSound s.count s.blob.now };
}

impl<'a> View<'a> {
    /// Reads the header with which these bytes begin. Bytes after it are let pass: the header's
    /// own are the first ones. Takes no memory. Reads each entry of the index once, the data after its last zero
    /// byte and its last 192 bytes once and, for each entry of more texts than these have zeros, each byte of these
    /// texts once, 64 at a time. Where
    /// entries share their data and texts of four times its length were read, it counts the zeros of the data
    /// once, and reads from then on at most a 4,095th of the data for each entry.
    ///
    /// # Errors
    ///
    /// The first fault, in the order that `HeaderFault` gives.
    #[tactic(auto, unfolding(crate::specs::Header::header))]
    pub fn parse(blob: &'a [u8]) -> Result<View<'a>, HeaderFault>
        ensures value { result ≡ header blob.now }
        ensures own { IfOk result (λ view. take (length view.blob) blob.now ≡ view.blob) }
    {
        if blob.len() < 8 {
            return Err(HeaderFault::Short);
        }
        let il = u32_at(blob, 0);
        if il > MAX_ENTRIES {
            return Err(HeaderFault::TooManyEntries);
        }
        let dl = u32_at(blob, 4);
        if dl > MAX_DATA {
            return Err(HeaderFault::TooMuchData);
        }
        let whole = 8 + 16 * il as usize + dl as usize;
        if blob.len() < whole {
            return Err(HeaderFault::Short);
        }
        View::checked(il, &blob[..whole])
    }

    /// The header whose own bytes these are, as an earlier [`parse`](View::parse) of them found it. They aren't
    /// checked again: it reads four of them.
    pub fn of_checked(blob: &'a [u8]) -> View<'a>
        requires { IsOwn blob.now }
        ensures { header blob.now ≡ Ok result }
    {
        View {
            blob,
            count: u32_at(blob, 0),
        }
    }

    fn checked(il: u32, blob: &'a [u8]) -> Result<View<'a>, HeaderFault>
        requires { IsCutAsSaid il blob.now }
        ensures { result ≡ header_of il blob.now }
    {
        let mut ends = TextEnds::new(section_of(il, blob));
        for i in 0..il {
            if ends.is_spent() {
                return View::checked_with_sums(il, blob, i);
            }
            if let Some(fault) = fault_at(il, blob, i, &mut ends) {
                return Err(fault);
            }
        }
        Ok(View { blob, count: il })
    }

    /// The same, where the entries in front of a place have no fault. A function of its own, as its
    /// stack holds an array of 16 KiB.
    #[cold]
    #[inline(never)]
    fn checked_with_sums(il: u32, blob: &'a [u8], from: u32) -> Result<View<'a>, HeaderFault>
        requires cut { IsCutAsSaid il blob.now }
        requires earlier { (k : ℕ) → k < from → fault_at il blob.now k ≡ None }
        ensures { result ≡ header_of il blob.now }
    {
        let sums = ZeroSums::new(section_of(il, blob));
        let mut ends = TextEnds::with_sums(&sums);
        for i in from..il {
            if let Some(fault) = fault_at(il, blob, i, &mut ends) {
                return Err(fault);
            }
        }
        Ok(View { blob, count: il })
    }

    /// The header's own bytes, from its two lengths to the end of its data, without what followed
    /// them: at most 68,157,432. Read again, they give this header again.
    pub fn blob(&self) -> &'a [u8]
        ensures value { result.now ≡ self.now.blob }
        ensures small { length result.now ≤ max_blob }
        ensures again { header result.now ≡ Ok self.now }
    {
        self.blob
    }

    /// The number of entries, at most 65,535. A region's entry counts as any other.
    pub fn entries(&self) -> u32
        ensures value { result ≡ length self.now.entries }
        ensures few { result ≤ max_entries }
    {
        self.count
    }

    /// The entry at place i of the index, from 0. Reads the 16 bytes of the index entry.
    pub fn entry(&self, i: u32) -> Entry<'a>
        requires { i < length self.now.entries }
        ensures { slice_get self.now.entries i ≡ Some result }
    {
        entry_at(self.count, self.blob, i)
    }

    fn tag_at(&self, i: u32) -> u32
        requires { i < length self.now.entries }
        ensures { slice_get (map (λ e. e.tag) self.now.entries) i ≡ Some result }
    {
        u32_at(self.blob, 8 + 16 * i as usize)
    }

    /// The last entry of a tag, which counts where several have it; None exactly where no entry has
    /// it. Goes over the index from the back and reads the 4 bytes of each tag, then the 16 bytes
    /// of the entry that it finds.
    pub fn find(&self, tag: u32) -> Option<Entry<'a>>
        ensures { result ≡ last_of tag self.now.entries }
    {
        // In a view of its own the place of the bytes stays in a register from entry to entry.
        let view = View {
            blob: self.blob,
            count: self.count,
        };
        for i in (0..view.entries()).rev() {
            if view.tag_at(i) == tag {
                return Some(view.entry(i));
            }
        }
        None
    }
}
