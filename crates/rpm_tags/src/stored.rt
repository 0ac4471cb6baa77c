//! The elements of one entry, by their class.

ghost use Rattle.std.specs.Prelude.{◌≡◌, ℕ, ◌<◌, ◌≤◌, length, Some, slice_get, All, IfSome, take};
ghost use Rattle.rpm_tags.specs.Prelude.{elements, first_number, first_text, item_count, max_data, numbers_in, option_copied, option_map, stored_value, stored_elements, texts_in, YieldsFirst, YieldsFirstRef};

use rpm_header::{Entry, EntryTexts, Form, PlacesRoom, TextPlaces, View};
use std::marker::Model;

/// The numbers of an entry, unsigned. Contracts see it as the list of them.
#[derive(Drop)]
pub struct Numbers<'a> {
    entry: Entry<'a>,
}

impl<'a> Model for Numbers<'a> {
    ghost use Rattle.std.specs.Prelude.{List, ℕ};
    ghost use Rattle.rpm_header.specs.Header.{numbers_of};
    ghost use Rattle.rpm_tags.specs.inner.Rows.{KeepsNumbers};

    ghost Value = { List ℕ };

    ghost view = { λ s. numbers_of s.entry.values };

    ghost invariant = { λ s. KeepsNumbers s.entry };
}

impl<'a> Numbers<'a> {
    pub fn count(&self) -> u32
        ensures value { result ≡ length self.now }
        ensures some { 0 < result }
    {
        self.entry.count()
    }

    /// The number at place i.
    pub fn number(&self, i: u32) -> u64
        requires { i < length self.now }
        ensures { slice_get self.now i ≡ Some result }
    {
        let _ = self.entry.count();
        self.entry.number(i)
    }

    /// All numbers in order.
    pub fn in_order(self) -> NumberIter<'a>
        ensures { result ≡ self.entry }
    {
        NumberIter {
            all: self,
            place: 0,
        }
    }
}

/// The numbers that are left.
#[derive(Drop)]
pub struct NumberIter<'a> {
    all: Numbers<'a>,
    place: u32,
}

impl<'a> Model for NumberIter<'a> {
    ghost use Rattle.std.specs.Prelude.{List, ℕ, ◌≤◌, drop, length};

    ghost Value = { List ℕ };

    ghost view = { λ s. drop s.place s.all };

    ghost invariant = { λ s. s.place ≤ length s.all };
}

impl<'a> Iterator for NumberIter<'a> {
    type Item = u64;

    ghost next_gives = { YieldsFirst (λ s. s) };

    ghost remaining = { item_count (λ s. s) };

    fn next(&mut self) -> Option<u64> {
        if self.place == self.all.count() {
            return None;
        }
        let number = self.all.number(self.place);
        self.place += 1;
        Some(number)
    }
}

/// The texts of an entry that count. Contracts see it as the list of them.
#[derive(Drop)]
pub struct Texts<'a> {
    entry: Entry<'a>,
    // All of the entry's texts, but 1 of an I18n.
    count: u32,
}

impl<'a> Model for Texts<'a> {
    ghost use Rattle.std.specs.Prelude.{List, ℕ, take};
    ghost use Rattle.rpm_header.specs.Header.{texts_of};
    ghost use Rattle.rpm_tags.specs.inner.Rows.{KeepsTexts};

    ghost Value = { List (List ℕ) };

    ghost view = { λ s. take s.count (texts_of s.entry.values) };

    ghost invariant = { λ s. KeepsTexts s.count s.entry };
}

impl<'a> Texts<'a> {
    pub fn count(&self) -> u32
        ensures value { result ≡ length self.now }
        ensures some { 0 < result }
    {
        self.count
    }

    /// The text at place i. Reads the bytes of all texts up to its end.
    pub fn text(&self, i: u32) -> &'a [u8]
        requires { i < length self.now }
        ensures value { slice_get self.now i ≡ Some result.now }
        ensures short { length result.now ≤ max_data }
    {
        let _ = self.entry.count();
        self.entry.text(i)
    }

    /// The first so many of them.
    pub fn first(self, count: u32) -> Texts<'a>
        requires some { 0 < count }
        requires within { count ≤ length self }
        ensures { result ≡ take count self.entry }
    {
        Texts {
            entry: self.entry,
            count,
        }
    }

    /// The texts by place, to be read in any order. Reads their bytes twice at most, and keeps in the
    /// room what it learns of where they stand.
    pub fn places<'p>(&self, room: &'p mut PlacesRoom) -> TextPlaces<'p, 'a>
        ensures { result ≡ self.now }
    {
        let _ = self.entry.count();
        self.entry.places(self.count, room)
    }

    /// All texts in order. Going through them reads each byte once.
    pub fn iter(&self) -> TextIter<'a>
        ensures value { result ≡ self.now }
        ensures short { All (λ text. length text ≤ max_data) self.now }
    {
        let _ = self.entry.count();
        TextIter {
            texts: self.entry.first_texts(self.count),
        }
    }
}

/// The texts that are left.
#[derive(Drop)]
pub struct TextIter<'a> {
    texts: EntryTexts<'a>,
}

impl<'a> Model for TextIter<'a> {
    ghost use Rattle.std.specs.Prelude.{List, ℕ};

    ghost Value = { List (List ℕ) };

    ghost view = { λ s. s.texts };
}

impl<'a> Iterator for TextIter<'a> {
    type Item = &'a [u8];

    ghost next_gives = { YieldsFirstRef (λ s. s) };

    ghost remaining = { item_count (λ s. s) };

    fn next(&mut self) -> Option<&'a [u8]> {
        self.texts.next()
    }
}

/// The elements of an entry of a header.
#[derive(Drop)]
pub enum Stored<'a> {
    Numbers(Numbers<'a>),
    Texts(Texts<'a>),
    Blob(&'a [u8]),
}

/// The elements of an entry, by its form; None of a `Null`.
fn elements(entry: Entry<'_>) -> Option<Stored<'_>>
    ensures { option_map stored_elements result ≡ elements entry.entry }
{
    let count = entry.count();
    match entry.form() {
        Form::Null => None,
        Form::Bin => Some(Stored::Blob(entry.bytes())),
        Form::Text | Form::Texts => Some(Stored::Texts(Texts { entry, count })),
        Form::I18n => Some(Stored::Texts(Texts { entry, count: 1 })),
        _ => Some(Stored::Numbers(Numbers { entry })),
    }
}

/// The elements of a tag's last entry; None where it has none or is a `Null`.
#[tactic(auto, unfolding(crate::specs::Value::stored_value))]
pub fn find_stored<'a>(view: &View<'a>, tag: u32) -> Option<Stored<'a>>
    ensures { option_map stored_elements result ≡ stored_value view.now tag }
{
    elements(view.find(tag)?)
}

/// The texts of a tag, where it is of class Text.
#[tactic(auto, unfolding(crate::specs::Value::texts_in))]
pub fn texts_in<'a>(view: &View<'a>, tag: u32) -> Option<Texts<'a>>
    ensures { result ≡ texts_in view.now tag }
{
    match find_stored(view, tag) {
        Some(Stored::Texts(texts)) => Some(texts),
        _ => None,
    }
}

/// The numbers of a tag, where it is of class Number.
#[tactic(auto, unfolding(crate::specs::Value::numbers_in))]
pub fn numbers_in<'a>(view: &View<'a>, tag: u32) -> Option<Numbers<'a>>
    ensures { result ≡ numbers_in view.now tag }
{
    match find_stored(view, tag) {
        Some(Stored::Numbers(numbers)) => Some(numbers),
        _ => None,
    }
}

/// The first text of a tag, where it is of class Text.
#[tactic(auto, unfolding(crate::specs::Value::first_text))]
pub fn first_text<'a>(view: &View<'a>, tag: u32) -> Option<&'a [u8]>
    ensures value { option_copied result ≡ first_text view.now tag }
    ensures short { IfSome result (λ text. length text.now ≤ max_data) }
{
    let texts = texts_in(view, tag)?;
    let _ = texts.count();
    Some(texts.text(0))
}

/// The first number of a tag, where it is of class Number.
#[tactic(auto, unfolding(crate::specs::Value::first_number))]
pub fn first_number(view: &View<'_>, tag: u32) -> Option<u64>
    ensures { result ≡ first_number view.now tag }
{
    let numbers = numbers_in(view, tag)?;
    let _ = numbers.count();
    Some(numbers.number(0))
}
