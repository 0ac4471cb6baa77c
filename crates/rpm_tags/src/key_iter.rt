//! The keys by which a package is found.

ghost use Rattle.std.specs.Prelude.{◌≡◌, ℕ, ◌+◌, ◌^◌, ◌<◌, ◌∷◌, [], map, MatchOption, List};
ghost use Rattle.rpm_tags.specs.Prelude.{code_and_tag, item_count, key_bytes, key_list, keys, keys_left, KeysHavePlaces, list_or_empty, number_key, placed_keys, YieldsFirstBy};

use crate::kind::Kind;
use crate::numbers;
use crate::stored::{NumberIter, Numbers, TextIter, Texts, numbers_in, texts_in};
use rpm_header::View;
use std::marker::Model;

#[derive(Drop)]
enum KeyBytes<'a> {
    Text(&'a [u8]),
    Number([u8; 8]),
}

/// A key: a text that is borrowed from the header, or a number. Contracts see it as its bytes.
#[derive(Drop)]
pub struct Key<'a> {
    bytes: KeyBytes<'a>,
}

impl<'a> Model for Key<'a> {
    ghost Value = { List ℕ };

    ghost view = { λ s. key_bytes s.bytes };
}

impl<'a> Key<'a> {
    /// A text's key.
    pub fn text(text: &'a [u8]) -> Key<'a>
        ensures { result ≡ text.now }
    {
        Key {
            bytes: KeyBytes::Text(text),
        }
    }

    /// A number's key.
    pub fn number(number: u64) -> Key<'a>
        ensures { result ≡ number_key number }
    {
        Key {
            bytes: KeyBytes::Number(number.to_be_bytes()),
        }
    }

    /// Its bytes: those of the text, or the eight of the number, the highest first.
    pub fn bytes(&self) -> &[u8]
        ensures { result.now ≡ self.now }
    {
        match &self.bytes {
            KeyBytes::Text(text) => text,
            KeyBytes::Number(bytes) => bytes,
        }
    }
}

#[derive(Drop)]
enum KeySource<'a> {
    Nothing,
    Texts(TextIter<'a>),
    Numbers(NumberIter<'a>),
}

impl<'a> KeySource<'a> {
    fn texts(texts: Option<Texts<'a>>) -> KeySource<'a>
        ensures value { keys_left result ≡ list_or_empty texts.entry }
        ensures few { KeysHavePlaces result 0 }
    {
        match texts {
            None => KeySource::Nothing,
            Some(texts) => {
                let _ = texts.count();
                KeySource::Texts(texts.iter())
            }
        }
    }

    fn numbers(numbers: Option<Numbers<'a>>) -> KeySource<'a>
        ensures value { keys_left result ≡ map number_key (list_or_empty numbers.entry) }
        ensures few { KeysHavePlaces result 0 }
    {
        match numbers {
            None => KeySource::Nothing,
            Some(numbers) => {
                let _ = numbers.count();
                KeySource::Numbers(numbers.in_order())
            }
        }
    }

    /// The elements of the kind's tag, where it is of the class that the kind has.
    fn of(kind: Kind, view: &View<'a>) -> KeySource<'a>
        ensures value { keys_left result ≡ key_list kind view.now }
        ensures few { KeysHavePlaces result 0 }
    {
        let tag = tag_of_kind(kind);
        match kind {
            Kind::Installtid => KeySource::numbers(numbers_in(view, tag)),
            _ => KeySource::texts(texts_in(view, tag)),
        }
    }

    fn take_next(&mut self) -> Option<Key<'a>>
        ensures { MatchOption result
            ((keys_left self.old ≡ []) × (keys_left self.new ≡ []))
            (λ key. keys_left self.old ≡ key ∷ keys_left self.new) }
    {
        match self {
            KeySource::Nothing => None,
            KeySource::Texts(texts) => Some(Key::text(texts.next()?)),
            KeySource::Numbers(numbers) => Some(Key::number(numbers.next()?)),
        }
    }
}

/// The keys of one kind that are left, each with its place among the elements of the tag, from 0.
/// Contracts see it as the list of these pairs. A step reads the bytes of its key once.
#[derive(Drop)]
pub struct KeyIter<'a> {
    source: KeySource<'a>,
    place: u32,
}

impl<'a> Model for KeyIter<'a> {
    ghost Value = { List (List ℕ × ℕ) };

    ghost view = { λ s. placed_keys (keys_left s.source) s.place };

    ghost invariant = { λ s. KeysHavePlaces s.source s.place };
}

impl<'a> Iterator for KeyIter<'a> {
    type Item = (Key<'a>, u32);

    ghost next_gives = { YieldsFirstBy (λ x. (x.0, x.1)) (λ s. s) };

    ghost remaining = { item_count (λ s. s) };

    fn next(&mut self) -> Option<(Key<'a>, u32)> {
        let key = self.source.take_next()?;
        let place = self.place;
        self.place += 1;
        Some((key, place))
    }
}

/// The tag whose elements are the keys of a kind.
fn tag_of_kind(kind: Kind) -> u32
    ensures { result ≡ (code_and_tag kind).1 }
{
    match kind {
        Kind::Name => numbers::NAME,
        Kind::Basenames => numbers::BASENAMES,
        Kind::Group => numbers::GROUP,
        Kind::Providename => numbers::PROVIDENAME,
        Kind::Requirename => numbers::REQUIRENAME,
        Kind::Conflictname => numbers::CONFLICTNAME,
        Kind::Obsoletename => numbers::OBSOLETENAME,
        Kind::Triggername => numbers::TRIGGERNAME,
        Kind::Dirnames => numbers::DIRNAMES,
        Kind::Installtid => numbers::INSTALLTID,
        Kind::Recommendname => numbers::RECOMMENDNAME,
    }
}

/// The keys of a kind in a header, in order: each element of the kind's tag, with its place from 0. For Installtid
/// the elements are numbers, and a tag that isn't of class Number has no key; for each other kind they are texts, and
/// a tag that isn't of class Text has none. A tag that is missing has none. A look-up in the header; going through
/// the keys reads each of their bytes once.
pub fn keys<'a>(kind: Kind, view: &View<'a>) -> KeyIter<'a>
    ensures { result ≡ keys kind view.now }
{
    KeyIter {
        source: KeySource::of(kind, view),
        place: 0,
    }
}
