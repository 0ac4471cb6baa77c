//! The texts that a part of a bracket prints as they are.

ghost use Rattle.std.specs.Prelude.{◌≡◌, ℕ, ◌<◌, ◌++◌, List, length, slice_get};
ghost use Rattle.std.specs.Iterator.{YieldsFirstBy};
ghost use Rattle.rpm_qfeval.specs.Prelude.{or_none, Writes};

use crate::pieces::put_joined;
use rpm_outside::{Failed, Sink, put_all};
use rpm_tags::{FileIter, Files, TextIter, Texts};
use std::marker::Model;

/// What has texts to print, which an `L` reads in turn: a tag of class Text, or the files of a package,
/// whose paths are texts in two pieces.
pub trait Source<L> {
    /// A text as it is read.
    type Text;

    /// All texts.
    ghost all: { Self → List (List ℕ) };

    /// The texts that are left.
    ghost left: { L → List (List ℕ) };

    /// The bytes of a text.
    ghost bytes: { Self.Text → List ℕ };

    /// The first of the texts that are left, which then isn't left.
    fn next(from: &mut L) -> Option<Self::Text>
        ensures { YieldsFirstBy bytes left from.old result from.new };

    /// Puts a text that was read.
    fn put<O: Sink>(sink: &mut O, text: Self::Text) -> Result<(), Failed>
        ensures { Writes O.Sink sink.old sink.new (bytes text) result };

    /// Puts the text at place i, read from the first one on.
    fn put_at<O: Sink>(&self, sink: &mut O, i: u32) -> Result<(), Failed>
        requires { i < length (all self.now) }
        ensures { Writes O.Sink sink.old sink.new (or_none (slice_get (all self.now) i)) result };
}

impl<'a> Source<TextIter<'a>> for Texts<'a> {
    type Text = &'a [u8];

    ghost all = { λ s. s };

    ghost left = { λ s. s };

    ghost bytes = { λ text. text.now };

    #[inline(always)]
    fn next(from: &mut TextIter<'a>) -> Option<&'a [u8]> {
        from.next()
    }

    #[inline(always)]
    fn put<O: Sink>(sink: &mut O, text: &'a [u8]) -> Result<(), Failed> {
        // Where there are many, most are empty.
        if text.is_empty() {
            return Ok(());
        }
        put_all(sink, text)
    }

    fn put_at<O: Sink>(&self, sink: &mut O, i: u32) -> Result<(), Failed> {
        put_all(sink, self.text(i))
    }
}

impl<'v, 'a> Source<FileIter<'v, 'a>> for &'v Files<'a> {
    type Text = (&'a [u8], &'a [u8]);

    ghost all = { λ s. s.now };

    ghost left = { λ s. s };

    ghost bytes = { λ path. path.0.now ++ path.1.now };

    #[inline(always)]
    fn next(from: &mut FileIter<'v, 'a>) -> Option<(&'a [u8], &'a [u8])> {
        from.next_path()
    }

    #[inline(always)]
    fn put<O: Sink>(sink: &mut O, path: (&'a [u8], &'a [u8])) -> Result<(), Failed> {
        put_all(sink, path.0)?;
        put_all(sink, path.1)
    }

    fn put_at<O: Sink>(&self, sink: &mut O, i: u32) -> Result<(), Failed> {
        put_joined(sink, &self.path(i))
    }
}

/// The texts of a source, of which each round prints the one at its place as it is. Contracts see it as
/// the list of them, without how far they were read. Where rounds go from one to the next, a round over
/// a tag costs some 40 instructions and the bytes of its text.
#[derive(Drop)]
pub struct PlainTexts<S: Source<L>, L> {
    all: S,
    count: u32,
    // Those that are left, and how many were read.
    left: L,
    place: u32,
}

impl<S: Source<L>, L> Model for PlainTexts<S, L> {
    ghost use Rattle.std.specs.Prelude.{List, ℕ};
    ghost use Rattle.rpm_qfeval.specs.inner.Reached.{IsReached};

    ghost Value = { List (List ℕ) };

    ghost view = { λ s. S.all s.all };

    ghost invariant = { λ s. IsReached (S.all s.all) (S.left s.left) s.count s.place };
}

impl<S: Source<L>, L> PlainTexts<S, L> {
    /// All texts of a source, how many they are, and what reads them in turn, from the first one on.
    pub fn new(all: S, count: u32, left: L) -> PlainTexts<S, L>
        requires count { count ≡ length (S.all all) }
        requires left { S.left left ≡ S.all all }
        ensures { result ≡ S.all all }
    {
        PlainTexts {
            all,
            count,
            left,
            place: 0,
        }
    }

    pub fn count(&self) -> u32
        ensures { result ≡ length self.now }
    {
        self.count
    }

    /// Puts the text of a round, read from the first one on.
    #[cold]
    #[inline(never)]
    fn put_again<O: Sink>(&self, sink: &mut O, round: u32) -> Result<(), Failed>
        ensures { Writes O.Sink sink.old sink.new (or_none (slice_get self.now round)) result }
    {
        if round >= self.count {
            return put_all(sink, b"(none)");
        }
        self.all.put_at(sink, round)
    }

    /// Puts the text of a round. Each element of a bracket comes by here, so the call is no call.
    #[inline(always)]
    pub fn put<O: Sink>(&mut self, sink: &mut O, round: u32) -> Result<(), Failed>
        ensures puts { Writes O.Sink sink.old sink.new (or_none (slice_get self.old round)) result }
        ensures same { self.new ≡ self.old }
    {
        if self.place != round {
            return self.put_again(sink, round);
        }
        match S::next(&mut self.left) {
            None => put_all(sink, b"(none)"),
            Some(text) => {
                self.place += 1;
                S::put(sink, text)
            }
        }
    }
}
