//! The value of a tag in a header.

ghost use Rattle.std.specs.Prelude.{◌≡◌, ℕ, ◌<◌, IsTrue, Some, slice_get};
ghost use Rattle.rpm_tags.specs.Prelude.{blob_elements, class_of, concat, count_of, Elements, number_list, source_elements, text_list, value};

use crate::files::{Files, files_in};
use crate::joined::Joined;
use crate::labels::{evr, label};
use crate::numbers::{ARCH, EPOCH};
use crate::stored::{Stored, find_stored, first_number, first_text};
use crate::tag::Tag;
use crate::texts::ValueTexts;
use rpm_header::{PlacesRoom, View};
use std::marker::Model;

/// What the elements of a value are.
#[derive(Clone, Copy, PartialEq, Eq)]
pub enum Class {
    /// Numbers, unsigned.
    Number,
    /// Texts, without their zero bytes.
    Text,
    /// Bytes, which are one element.
    Blob,
}

#[derive(Drop)]
enum Source<'a> {
    Stored(Stored<'a>),
    Joined(Joined<'a>),
    Files(Files<'a>),
    Number(u64),
}

/// The value of a tag in a header: elements of one class, at least one, that are borrowed from the
/// header. Contracts see it as the list of the elements.
#[derive(Drop)]
pub struct TagValue<'a> {
    source: Source<'a>,
}

impl<'a> Model for TagValue<'a> {
    ghost Value = { Elements };

    ghost view = { λ s. source_elements s.source };
}

impl<'a> TagValue<'a> {
    /// What its elements are.
    pub fn class(&self) -> Class
        ensures { result ≡ class_of self.now }
    {
        match &self.source {
            Source::Stored(Stored::Numbers(_)) | Source::Number(_) => Class::Number,
            Source::Stored(Stored::Texts(_)) | Source::Joined(_) | Source::Files(_) => Class::Text,
            Source::Stored(Stored::Blob(_)) => Class::Blob,
        }
    }

    /// The number of elements, at least 1. A blob is one.
    pub fn count(&self) -> u32
        ensures value { result ≡ count_of self.now }
        ensures some { 0 < result }
    {
        match &self.source {
            Source::Stored(Stored::Numbers(numbers)) => numbers.count(),
            Source::Stored(Stored::Texts(texts)) => texts.count(),
            Source::Files(files) => files.count(),
            _ => 1,
        }
    }

    /// The number at place i, unsigned. Reads the bytes of this number alone.
    pub fn number(&self, i: u32) -> u64
        requires class { class_of self.now ≡ Class.Number }
        requires below { i < count_of self.now }
        ensures { slice_get (number_list self.now) i ≡ Some result }
    {
        match &self.source {
            Source::Stored(Stored::Numbers(numbers)) => numbers.number(i),
            Source::Number(number) => *number,
            _ => unreachable!(),
        }
    }

    /// The text at place i, whose parts joined are the text. Reads the bytes of all texts up to its
    /// end, for FILENAMES those of the names and of the directories up to its own, so that a loop
    /// over places reads the first texts again and again: go over `texts` there.
    pub fn text(&self, i: u32) -> Joined<'a>
        requires class { class_of self.now ≡ Class.Text }
        requires below { i < count_of self.now }
        ensures { slice_get (text_list self.now) i ≡ Some (concat result) }
    {
        match &self.source {
            Source::Stored(Stored::Texts(texts)) => Joined::one(texts.text(i)),
            Source::Joined(joined) => joined.same(),
            Source::Files(files) => files.path(i),
            _ => unreachable!(),
        }
    }

    /// Whether `texts` needs room: it is FILENAMES, and its files ask more than 16 times for
    /// directories that were passed and aren't kept. Reads each index of a directory once.
    pub fn needs_room(&self) -> bool
        ensures texts { IsTrue result → class_of self.now ≡ Class.Text }
        ensures many { IsTrue result → 16 < count_of self.now }
    {
        match &self.source {
            Source::Files(files) => files.need_room(),
            _ => false,
        }
    }

    /// All texts in order, each as `text` gives it. Going through them reads each byte of a stored
    /// text once. Of FILENAMES it reads each name once, and each directory once where files ask for
    /// new directories in order and for earlier ones not long after: the furthest one and 16 others
    /// are kept. For any other directory it looks in the room where it begins and ends. Of fewer than
    /// 262,144 directories, up to the last that a file asks for, the room has that; of more it has it
    /// nearly, and 257 bytes at most are read for each of both, however long the directory is. The
    /// first time all of them are read twice at most.
    ///
    /// How many files a header of 64 MiB can have that each ask for a directory far from the others:
    /// with indexes of four bytes, which may be names and directories at once, 16.8 million; with
    /// indexes of two bytes and the zero byte of a name besides, 22.4 million; indexes of one byte
    /// name 256 directories, for 44.7 million files. The README has what such headers cost.
    ///
    /// Without room a directory that was passed and isn't kept is read from the first one on. Where
    /// `needs_room` says no, that is 16 times at most.
    pub fn texts<'v>(&'v self, room: Option<&'v mut PlacesRoom>) -> ValueTexts<'v, 'a>
        requires { class_of self.now ≡ Class.Text }
        ensures { result ≡ text_list self.now }
    {
        if let Source::Files(files) = &self.source {
            return ValueTexts::files(files.iter(room));
        }
        match &self.source {
            Source::Stored(Stored::Texts(texts)) => ValueTexts::stored(texts.iter()),
            Source::Joined(joined) => ValueTexts::joined(joined.same()),
            _ => unreachable!(),
        }
    }

    /// The bytes of a blob, borrowed from the header. Reads none of them.
    pub fn blob(&self) -> &'a [u8]
        requires { class_of self.now ≡ Class.Blob }
        ensures { result.now ≡ blob_elements self.now }
    {
        match &self.source {
            Source::Stored(Stored::Blob(bytes)) => bytes,
            _ => unreachable!(),
        }
    }
}

/// The value of a tag in a header; None where it is missing. Of several entries of a stored tag the
/// last counts, and an entry of the form `Null` is none; of an `I18n` the first text alone counts;
/// a `Bin` is one blob. `number` is what `Dbinstance` gives: the number of the package.
///
/// A computed tag is present where what it is made of is: the texts need their names, versions and
/// releases to be of class Text, EPOCHNUM and DBINSTANCE always are, and FILENAMES needs DIRNAMES,
/// DIRINDEXES and BASENAMES of their classes, an index for each name and a directory for each
/// index. An epoch counts where it is of class Number, an architecture where it is of class Text.
///
/// At most five look-ups in the header, each of which goes over its index; FILENAMES reads each
/// index of a directory once. No text is copied.
pub fn value<'a>(view: &View<'a>, number: u32, tag: Tag) -> Option<TagValue<'a>>
    ensures { result ≡ value view.now number tag }
{
    let source = match tag {
        Tag::Stored(tag) => Source::Stored(find_stored(view, tag)?),
        Tag::Nvr => Source::Joined(label(view, None, None)?),
        Tag::Nvra => Source::Joined(label(view, None, first_text(view, ARCH))?),
        Tag::Evr => Source::Joined(evr(view)?),
        Tag::Nevra => Source::Joined(label(
            view,
            first_number(view, EPOCH),
            first_text(view, ARCH),
        )?),
        Tag::Epochnum => Source::Number(first_number(view, EPOCH).unwrap_or(0)),
        Tag::Filenames => Source::Files(files_in(view)?),
        Tag::Dbinstance => Source::Number(number as u64),
    };
    Some(TagValue { source })
}
