//! The words of a command line.

ghost use Rattle.std.specs.Prelude.{◌≡◌, ℕ, ◌<◌, [], ◌∷◌, ◌++◌, Some, length, slice_get, OnOk, OnErr, List, ◌^◌, map, string_bytes};
ghost use Rattle.rpm_words.specs.Prelude.{bytes_from, word_at};

use std::alloc::{AllocError, Global};
use std::marker::Model;

/// A place in a word.
#[derive(Clone, Copy, PartialEq, Eq)]
pub struct Span {
    /// The word.
    pub word: u32,
    /// The byte of the word.
    pub from: u32,
}

/// The words of a command line, the program's name first.
#[derive(Drop)]
pub struct Words {
    alloc: Global,
    items: Vec<String>,
}

impl Model for Words {
    ghost Value = { List (List ℕ) };

    ghost view = { λ s. map string_bytes s.items.items };

    ghost invariant = { λ s. length s.items.items < 2 ^ 32 };
}

impl Words {
    /// No words yet.
    pub fn new(alloc: Global) -> Words
        ensures { result ≡ [] }
    {
        Words {
            alloc,
            items: Vec::new(alloc),
        }
    }

    /// Adds a copy of a word after the others.
    ///
    /// # Errors
    ///
    /// `AllocError` where memory is wanting. The words are then as they were.
    pub fn push(&mut self, word: &str) -> Result<(), AllocError>
        requires { length self.old < 4294967295 }
        ensures ok { OnOk result (self.new ≡ self.old ++ word.now ∷ []) }
        ensures err { OnErr result (self.new ≡ self.old) }
    {
        let copy = String::from_str(self.alloc, word)?;
        self.items.push(copy)?;
        Ok(())
    }

    /// How many words there are.
    pub fn len(&self) -> u32
        ensures { result ≡ length self.now }
    {
        self.items.len() as u32
    }

    /// The word at place i, from 0.
    pub fn word(&self, i: u32) -> &str
        requires { i < length self.now }
        ensures { slice_get self.now i ≡ Some result.now }
    {
        self.items[i as usize].as_str()
    }

    /// The word at place i, from 0, or the empty text where there are no more than i words.
    pub fn text_at(&self, i: u32) -> &str
        ensures { result.now ≡ word_at self.now i }
    {
        if i < self.len() { self.word(i) } else { "" }
    }

    /// The bytes of a word from a place on; none where there is no such word, or no such place in it.
    pub fn bytes_from(&self, span: Span) -> &[u8]
        ensures { result.now ≡ bytes_from self.now span }
    {
        let bytes = self.text_at(span.word).as_bytes();
        let from = span.from as usize;
        if from < bytes.len() {
            &bytes[from..]
        } else {
            b""
        }
    }
}
