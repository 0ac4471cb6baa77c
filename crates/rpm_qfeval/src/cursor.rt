//! The texts of a value, for rounds that go from one to the next.

ghost use Rattle.std.specs.Prelude.{◌≡◌, ℕ, ◌+◌, IfSome};
ghost use Rattle.rpm_qfeval.specs.Prelude.{class_of, element_text, Elements, IsReadTo, TextList, Writes};
ghost use Rattle.rpm_tags.specs.declared.values.Class.TheVariants as Class;

use crate::elements::{put_element, put_stored_text, put_text};
use rpm_header::PlacesRoom;
use rpm_outside::{Failed, Sink};
use rpm_qfparse::TagPart;
use rpm_tags::{Class, Joined, TagValue, TextIter, Texts, ValueTexts};
use std::marker::Model;

/// The text at a place, and those after it.
#[derive(Drop)]
struct Walk<T, I> {
    present: Option<T>,
    left: I,
}

/// Texts that stand in the header, or are put together.
#[derive(Drop)]
enum Ahead<'v, 'a> {
    Stored(Walk<&'a [u8], TextIter<'a>>),
    Joined(Walk<Joined<'a>, ValueTexts<'v, 'a>>),
}

impl<'v, 'a> Ahead<'v, 'a> {
    /// Goes to the next place.
    fn step(&mut self)
        ensures { (all : Elements) (place : ℕ) → IsReadTo all self.old place → IsReadTo all self.new (place + 1) }
    {
        match self {
            Ahead::Stored(walk) => walk.present = walk.left.next(),
            Ahead::Joined(walk) => walk.present = walk.left.next(),
        }
    }
}

/// A value of texts, with a place among them up to which they were read. Contracts see it as the value
/// alone. Of texts that stand in the header a round costs a few steps and the bytes of its text.
#[derive(Drop)]
pub struct Cursor<'v, 'a> {
    value: &'v TagValue<'a>,
    ahead: Ahead<'v, 'a>,
    place: u32,
}

impl<'v, 'a> Model for Cursor<'v, 'a> {
    ghost Value = { Elements };

    ghost view = { λ s. s.value.now };

    ghost invariant = { λ s. IsReadTo s.value.now s.ahead s.place };
}

impl<'v, 'a> Cursor<'v, 'a> {
    /// Reads the first text. The texts that stand in the header are given where the value is these.
    pub fn new(
        value: &'v TagValue<'a>,
        stored: Option<Texts<'a>>,
        room: Option<&'v mut PlacesRoom>,
    ) -> Cursor<'v, 'a>
        requires texts { class_of value.now ≡ Class.Text }
        requires stored { IfSome stored (λ texts. value.now ≡ TextList texts) }
        ensures { result ≡ value.now }
    {
        let ahead = match stored {
            Some(texts) => {
                let mut left = texts.iter();
                Ahead::Stored(Walk {
                    present: left.next(),
                    left,
                })
            }
            None => {
                let mut left = value.texts(room);
                Ahead::Joined(Walk {
                    present: left.next(),
                    left,
                })
            }
        };
        Cursor {
            value,
            ahead,
            place: 0,
        }
    }

    /// Reads the texts up to a place.
    fn go_to(&mut self, place: u32)
        ensures { self.new ≡ self.old }
    {
        while self.place < place {
            self.ahead.step();
            self.place += 1;
        }
    }

    /// Puts the text at a place. Over places that rise each text is read once.
    pub fn put<O: Sink>(&mut self, sink: &mut O, part: &TagPart, place: u32) -> Result<(), Failed>
        ensures puts { Writes O.Sink sink.old sink.new (element_text part.now self.old place) result }
        ensures same { self.new ≡ self.old }
    {
        self.go_to(place);
        if self.place == place {
            match &self.ahead {
                Ahead::Stored(walk) => {
                    if let Some(text) = walk.present {
                        return put_stored_text(sink, part, self.value, text);
                    }
                }
                Ahead::Joined(walk) => {
                    if let Some(text) = &walk.present {
                        return put_text(sink, part, self.value.count(), text);
                    }
                }
            }
        }
        put_element(sink, part, self.value, place)
    }
}
