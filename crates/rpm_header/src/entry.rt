//! One entry of a header, and its elements.

ghost use Rattle.std.specs.Prelude.{◌≡◌, ◌≢◌, ℕ, ◌+◌, ◌*◌, ◌≤◌, ◌<◌, length, IsTrue, Some, slice_get, take, drop, None, List, true};
ghost use Rattle.rpm_header.specs.Prelude.{are_ended, entry_bytes, bin_bytes, entry_of, form_fault, has_numbers, has_texts, HasElements, index_entry, IsInside, IsBlobSound, IsStored, IsEntryWhole, Item, item_at, item_count, numbers_of, section_of, texts, texts_of, values, YieldsFirstRef};

use crate::bytes::{next_text, text_of, texts_end, u16_at, u32_at, u64_at};
use crate::form::Form;
use crate::index::{IndexEntry, alignment, form_of, has_texts, index_entry_at, section_of};
use crate::places::{PlacesRoom, TextPlaces};
use std::marker::Model;

/// One entry of a header: a tag, and elements that borrow the header's bytes. Contracts see it as
/// an `Item`. Its bytes were checked once, when the header was read, so each reader below is total
/// where its `requires` holds, and checks nothing.
#[derive(Drop)]
pub struct Entry<'a> {
    tag: u32,
    form: Form,
    count: u32,
    // The data from the entry's offset on; of a `Null`, whose offset means nothing, all of the
    // data.
    bytes: &'a [u8],
}

impl<'a> Model for Entry<'a> {
    ghost Value = { Item };

    ghost view = { λ s. record {
      tag = s.tag;
      form = s.form;
      count = s.count;
      values = values s.form s.count s.bytes.now;
    } };

    ghost invariant = { λ s. IsInside s.form s.count s.bytes.now };
}

impl<'a> Entry<'a> {
    /// The tag, any number.
    pub fn tag(&self) -> u32
        ensures { result ≡ self.now.tag }
    {
        self.tag
    }

    /// The form, which says of which class the elements are: none, numbers, texts or bytes.
    pub fn form(&self) -> Form
        ensures value { result ≡ self.now.form }
        ensures whole { IsEntryWhole self.now }
    {
        self.form
    }

    /// The number of elements, at least 1: of numbers, of texts, or of the bytes of a `Bin`. Of a
    /// `Null`, which has no elements, it is the number that the header stores, any number.
    pub fn count(&self) -> u32
        ensures value { result ≡ self.now.count }
        ensures whole { IsEntryWhole self.now }
    {
        self.count
    }

    /// The number at place i, unsigned whatever its form. Reads the bytes of this number alone.
    pub fn number(&self, i: u32) -> u64
        requires numbers { IsTrue (has_numbers self.now.form) }
        requires below { i < self.now.count }
        ensures { slice_get (numbers_of self.now.values) i ≡ Some result }
    {
        let at = i as usize;
        match self.form {
            Form::Int16 => u16_at(self.bytes, at * 2) as u64,
            Form::Int32 => u32_at(self.bytes, at * 4) as u64,
            Form::Int64 => u64_at(self.bytes, at * 8),
            _ => self.bytes[at] as u64,
        }
    }

    /// The text at place i, without its zero byte, borrowed from the header. Reads the bytes of all
    /// texts up to its end, so that a loop over places reads the first texts again and again: go
    /// over `texts` there.
    pub fn text(&self, i: u32) -> &'a [u8]
        requires texts { IsTrue (has_texts self.now.form) }
        requires below { i < self.now.count }
        ensures { slice_get (texts_of self.now.values) i ≡ Some result.now }
    {
        text_of(self.count, self.bytes, i)
    }

    /// All texts in order, each as `text` gives it. Going through them reads each byte once.
    pub fn texts(&self) -> EntryTexts<'a>
        requires { IsTrue (has_texts self.now.form) }
        ensures { result ≡ texts_of self.now.values }
    {
        EntryTexts {
            left: self.count,
            bytes: self.bytes,
        }
    }

    /// The first so many texts in order. Going through them reads each byte of them once.
    pub fn first_texts(&self, first: u32) -> EntryTexts<'a>
        requires texts { IsTrue (has_texts self.now.form) }
        requires within { first ≤ self.now.count }
        ensures { result ≡ take first (texts_of self.now.values) }
    {
        EntryTexts {
            left: first,
            bytes: self.bytes,
        }
    }

    /// The first so many texts by place, to be read in any order. Reads their bytes twice at most,
    /// and keeps in the room what it learns of where they stand.
    pub fn places<'p>(&self, first: u32, room: &'p mut PlacesRoom) -> TextPlaces<'p, 'a>
        requires texts { IsTrue (has_texts self.now.form) }
        requires within { first ≤ self.now.count }
        ensures { result ≡ take first (texts_of self.now.values) }
    {
        TextPlaces::new(first, self.bytes, room)
    }

    /// The bytes of a `Bin`, borrowed from the header. Reads none of them.
    pub fn bytes(&self) -> &'a [u8]
        requires { self.now.form ≡ Form.Bin }
        ensures { result.now ≡ bin_bytes self.now.values }
    {
        &self.bytes[..self.count as usize]
    }

    /// The bytes of the elements as the header stores them, texts with their zero bytes. Reads the bytes of texts once.
    pub(crate) fn stored(&self) -> &'a [u8]
        requires { self.now.form ≢ Form.Null }
        ensures value { result.now ≡ entry_bytes self.now }
        ensures again { IsStored self.now }
    {
        stored_of(self.tag, self.form, self.count, self.bytes)
    }
}

/// The texts of an entry that are left, without their zero bytes and borrowed from the header.
/// Contracts see it as the list of these texts. A step reads the bytes of its text once.
#[derive(Drop)]
pub struct EntryTexts<'a> {
    left: u32,
    bytes: &'a [u8],
}

impl<'a> Model for EntryTexts<'a> {
    ghost Value = { List (List ℕ) };

    ghost view = { λ s. texts s.left s.bytes.now };

    ghost invariant = { λ s. are_ended s.left s.bytes.now ≡ true };
}

impl<'a> Iterator for EntryTexts<'a> {
    type Item = &'a [u8];

    ghost next_gives = { YieldsFirstRef (λ s. s) };

    ghost remaining = { item_count (λ s. s) };

    fn next(&mut self) -> Option<&'a [u8]> {
        if self.left == 0 {
            return None;
        }
        let (text, others) = next_text(self.bytes);
        self.left -= 1;
        self.bytes = others;
        Some(text)
    }
}

/// The bytes of so many elements of an entry, with which these bytes begin.
fn stored_of<'a>(tag: u32, form: Form, count: u32, bytes: &'a [u8]) -> &'a [u8]
    requires inside { IsInside form count bytes.now }
    requires elements { form ≢ Form.Null }
    ensures value { result.now ≡ entry_bytes (item_at tag form count bytes.now) }
    ensures again { IsStored (item_at tag form count bytes.now) }
{
    let end = if has_texts(form) {
        texts_end(count, bytes)
    } else {
        count as usize * alignment(form) as usize
    };
    &bytes[..end]
}

/// The data from the offset of an entry without a fault on; of a `Null`, whose offset means
/// nothing, all of the data.
fn elements_of<'a>(form: Form, i: u32, entry: IndexEntry, section: &'a [u8]) -> &'a [u8]
    requires { form_fault (Some form) i entry section.now ≡ None }
    ensures room { HasElements form entry.count result.now }
    ensures few { length result.now ≤ length section.now }
    ensures elements { values form entry.count result.now ≡ values form entry.count (drop entry.offset section.now) }
{
    if form == Form::Null {
        section
    } else {
        &section[entry.offset as usize..]
    }
}

/// Entry i of a header in which none has a fault. Reads the 16 bytes of its index entry, and none
/// of its data.
pub fn entry_at<'a>(il: u32, blob: &'a [u8], i: u32) -> Entry<'a>
    requires below { i < il }
    requires sound { IsBlobSound il blob.now }
    ensures { result ≡ entry_of (index_entry il blob.now i) (section_of il blob.now) }
{
    let entry = index_entry_at(blob, 8 + 16 * i as usize);
    let section = section_of(il, blob);
    match form_of(entry.kind) {
        None => unreachable!(),
        Some(form) => Entry {
            tag: entry.tag,
            form,
            count: entry.count,
            bytes: elements_of(form, i, entry, section),
        },
    }
}
