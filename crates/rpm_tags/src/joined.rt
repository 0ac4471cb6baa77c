//! A text that is joined from parts.

ghost use Rattle.std.specs.Prelude.{◌≡◌, ℕ, ◌+◌, ◌≤◌, ◌<◌, ◌∷◌, ◌++◌, [], length, decimal, slice_get};
ghost use Rattle.rpm_tags.specs.Prelude.{concat, max_data, option_copied};

use crate::digits::{Digits, digits_in};
use std::marker::Model;

#[derive(Clone, Copy)]
enum TextPart<'a> {
    Text(&'a [u8]),
    Number(Digits),
}

/// A text in at most 9 parts, which are the text where they stand one after the other. Contracts
/// see it as the list of the parts. A part is borrowed from the header, but for the digits of a
/// number, which lie here: so a computed text is never copied.
#[derive(Drop)]
pub struct Joined<'a> {
    parts: [TextPart<'a>; 9],
    count: u32,
    len: u32,
}

impl<'a> Model for Joined<'a> {
    ghost use Rattle.std.specs.Prelude.{List, ℕ};
    ghost use Rattle.rpm_tags.specs.inner.Parts.{parts_of, IsInParts};

    ghost Value = { List (List ℕ) };

    ghost view = { λ s. parts_of s.count s.parts };

    ghost invariant = { λ s. IsInParts s.count s.len s.parts };
}

impl<'a> Joined<'a> {
    /// The length of the whole text in bytes. Reads no part.
    pub fn len(&self) -> u32
        ensures { result ≡ length (concat self.now) }
    {
        self.len
    }

    /// The part at place k, from 0; None exactly where there are no more parts than k. A part may
    /// be empty.
    pub fn part(&self, k: u32) -> Option<&[u8]>
        ensures value { option_copied result ≡ slice_get self.now k }
        ensures few { length self.now ≤ 9 }
    {
        if k >= self.count {
            return None;
        }
        match &self.parts[k as usize] {
            TextPart::Text(text) => Some(text),
            TextPart::Number(digits) => Some(digits.bytes()),
        }
    }

    /// A text with no part.
    pub(crate) fn empty() -> Joined<'a>
        ensures { result ≡ [] }
    {
        Joined {
            parts: [TextPart::Text(b""); 9],
            count: 0,
            len: 0,
        }
    }

    /// Puts a text after it.
    pub(crate) fn push(&mut self, text: &'a [u8])
        requires room { length self.old < 9 }
        requires short { length text.now ≤ max_data }
        ensures { self.new ≡ self.old ++ text.now ∷ [] }
    {
        self.parts[self.count as usize] = TextPart::Text(text);
        self.count += 1;
        self.len += text.len() as u32;
    }

    /// Puts the digits of a number after it.
    pub(crate) fn push_number(&mut self, number: u64)
        requires { length self.old < 9 }
        ensures { self.new ≡ self.old ++ decimal number ∷ [] }
    {
        let digits = digits_in(number);
        self.parts[self.count as usize] = TextPart::Number(digits);
        self.count += 1;
        self.len += 20 - digits.start as u32;
    }

    /// A text as it is.
    pub(crate) fn one(text: &'a [u8]) -> Joined<'a>
        requires { length text.now ≤ max_data }
        ensures { concat result ≡ text.now }
    {
        let mut joined = Joined::empty();
        joined.push(text);
        joined
    }

    /// A text and one after it.
    pub(crate) fn two(text: &'a [u8], more: &'a [u8]) -> Joined<'a>
        requires first { length text.now ≤ max_data }
        requires second { length more.now ≤ max_data }
        ensures { concat result ≡ text.now ++ more.now }
    {
        let mut joined = Joined::empty();
        joined.push(text);
        joined.push(more);
        joined
    }

    /// The same text.
    pub(crate) fn same(&self) -> Joined<'a>
        ensures { result ≡ self.now }
    {
        Joined {
            parts: self.parts,
            count: self.count,
            len: self.len,
        }
    }
}
