//! The values of the tags of a bracket, which are kept for its rounds.

ghost use Rattle.std.specs.Prelude.{◌≡◌};
ghost use Rattle.rpm_qfeval.specs.Prelude.{AreValues, count_of, Found, found_text, IsColumn, IsValue, option_map, value, Writes};

use crate::cursor::Cursor;
use crate::elements::{put_none, put_value};
use crate::ready::{Ready, is_ready};
use arrayvec::ArrayVec;
use rpm_header::{PlacesRoom, View};
use rpm_outside::{Failed, Sink};
use rpm_qfparse::{Part, Parts, Role, Tag, TagPart};
use rpm_tags::{Class, TagValue, texts_in, value};
use std::marker::Model;

/// Of how many tags of a bracket the values are kept: more than two for each tag that has a name, one
/// for its elements in turn and one for the first.
pub const MOST: usize = 192;

/// What a bracket asks for: the elements of a tag in turn, or the first one in each round.
#[derive(Clone, Copy, PartialEq, Eq)]
pub struct Asked {
    pub tag: Tag,
    pub first: bool,
}

/// What is asked for, and its value.
#[derive(Drop)]
pub struct Found<'a> {
    pub asked: Asked,
    pub value: Option<TagValue<'a>>,
}

/// What is asked for with its value, and where this is of texts, how far they were read. Contracts see
/// it without that.
#[derive(Drop)]
pub struct Column<'v, 'a> {
    found: &'v Found<'a>,
    texts: Option<Cursor<'v, 'a>>,
}

impl<'v, 'a> Model for Column<'v, 'a> {
    ghost Value = { Found };

    ghost view = { λ s. s.found.now };

    ghost invariant = { λ s. IsColumn s.found.now s.texts };
}

/// The texts of what was found, where it is of texts.
fn texts_of<'v, 'a>(
    found: &'v Found<'a>,
    view: &View<'a>,
    number: u32,
    room: Option<&'v mut PlacesRoom>,
) -> Option<Cursor<'v, 'a>>
    requires { IsValue view.now number found.now }
    ensures { IsColumn found.now result }
{
    let value = found.value.as_ref()?;
    if value.class() != Class::Text {
        return None;
    }
    let stored = match found.asked.tag {
        Tag::Stored(tag) => texts_in(view, tag),
        _ => None,
    };
    Some(Cursor::new(value, stored, room))
}

/// Puts what was found by the role of a tag, in a round.
fn put_found<O: Sink>(
    sink: &mut O,
    part: &TagPart,
    found: &Found<'_>,
    round: u32,
) -> Result<(), Failed>
    ensures { Writes O.Sink sink.old sink.new (found_text part.now round found.now.value) result }
{
    match &found.value {
        None => put_none(sink, part),
        Some(value) => put_value(sink, part, value, round),
    }
}

impl<'v, 'a> Column<'v, 'a> {
    /// The column of a value, at its first text.
    pub fn new(
        found: &'v Found<'a>,
        view: &View<'a>,
        number: u32,
        room: Option<&'v mut PlacesRoom>,
    ) -> Column<'v, 'a>
        requires { IsValue view.now number found.now }
        ensures { result ≡ found.now }
    {
        let texts = texts_of(found, view, number, room);
        Column { found, texts }
    }

    /// What is asked for.
    pub fn asked(&self) -> Asked
        ensures { result ≡ self.now.asked }
    {
        self.found.asked
    }

    /// How many elements the value has.
    pub fn count(&self) -> Option<u32>
        ensures { result ≡ option_map count_of self.now.value }
    {
        Some(self.found.value.as_ref()?.count())
    }

    /// Puts the value by the role of a tag, in a round.
    pub fn put<O: Sink>(&mut self, sink: &mut O, part: &TagPart, round: u32) -> Result<(), Failed>
        ensures puts { Writes O.Sink sink.old sink.new (found_text part.now round self.old.value) result }
        ensures same { self.new ≡ self.old }
    {
        let place = match part.role {
            Role::Element => round,
            Role::First => 0,
            Role::Count => return put_found(sink, part, self.found, round),
        };
        match &mut self.texts {
            None => put_found(sink, part, self.found, round),
            Some(texts) => texts.put(sink, part, place),
        }
    }
}

impl Asked {
    /// What a tag of a format asks for.
    pub fn by(part: &TagPart) -> Asked
        ensures { result.tag ≡ part.now.tag }
    {
        Asked {
            tag: part.tag,
            first: part.role == Role::First,
        }
    }

    /// What a condition asks for.
    pub fn of(tag: Tag) -> Asked
        ensures { result.tag ≡ tag }
    {
        Asked { tag, first: false }
    }
}

type AllAsked = ArrayVec<Option<Asked>, MOST>;

/// Adds what a part asks for.
#[cycle(naming)]
fn add_asked_by(all: &mut AllAsked, part: &Part) {
    match part {
        Part::Text(_) | Part::Bracket(_) => {}
        Part::Tag(part) => add_asked(all, Asked::by(part)),
        Part::Condition(tag, first, second) => {
            add_asked(all, Asked::of(*tag));
            add_all_asked(all, first);
            add_all_asked(all, second);
        }
    }
}

/// Adds what parts ask for.
#[cycle(naming)]
fn add_all_asked(all: &mut AllAsked, parts: &Parts) {
    for i in 0..parts.len() {
        add_asked_by(all, parts.at(i));
    }
}

/// Adds what isn't there, where there is room.
fn add_asked(all: &mut AllAsked, asked: Asked) {
    if !all.is_full() && !all.as_slice().contains(&Some(asked)) {
        all.push(Some(asked));
    }
}

/// Whether the parts of a bracket ask for more than what stands ready of them.
pub fn ask_more(inner: &Parts, ready: &[Ready<'_, '_>]) -> bool {
    for i in 0..inner.len() {
        if !is_ready(ready, i) && !matches!(inner.at(i), Part::Text(_)) {
            return true;
        }
    }
    false
}

/// What the parts of a bracket ask for besides what stands ready, as much as there is room for.
pub fn asked_in(inner: &Parts, ready: &[Ready<'_, '_>]) -> AllAsked {
    let mut all = ArrayVec::new();
    for i in 0..inner.len() {
        if !is_ready(ready, i) {
            add_asked_by(&mut all, inner.at(i));
        }
    }
    all
}

/// Whether the paths of files are asked for in turn.
#[cycle(asking)]
pub fn ask_for_paths(parts: &Parts) -> bool {
    for i in 0..parts.len() {
        let asks = match parts.at(i) {
            Part::Text(_) | Part::Bracket(_) => false,
            Part::Tag(part) => Asked::by(part) == Asked::of(Tag::Filenames),
            Part::Condition(_, first, second) => ask_for_paths(first) || ask_for_paths(second),
        };
        if asks {
            return true;
        }
    }
    false
}

/// Adds the values of what is asked for, as far as there is room.
pub fn look_up<'a, const N: usize>(
    found: &mut ArrayVec<Option<Found<'a>>, N>,
    all: &[Option<Asked>],
    view: &View<'a>,
    number: u32,
)
    requires { AreValues view.now number found.old.items }
    ensures { AreValues view.now number found.new.items }
{
    for asked in all {
        if let Some(asked) = asked {
            if !found.is_full() {
                let value = value(view, number, asked.tag);
                found.push(Some(Found {
                    asked: *asked,
                    value,
                }));
            }
        }
    }
}

/// The room for directories, where it is for this.
fn room_for<'v>(asked: Asked, room: &mut Option<&'v mut PlacesRoom>) -> Option<&'v mut PlacesRoom> {
    if asked.tag == Tag::Filenames && !asked.first {
        room.take()
    } else {
        None
    }
}

/// Adds the columns of values, as far as there is room for them. Of them the paths of files, in one
/// column alone, get the room for directories.
pub fn add_columns<'v, 'a, const N: usize>(
    columns: &mut ArrayVec<Option<Column<'v, 'a>>, N>,
    found: &'v [Option<Found<'a>>],
    view: &View<'a>,
    number: u32,
    room: Option<&'v mut PlacesRoom>,
)
    requires columns { AreValues view.now number columns.old.items }
    requires found { AreValues view.now number found.now }
    ensures { AreValues view.now number columns.new.items }
{
    let mut room = room;
    for found in found {
        if let Some(found) = found {
            if !columns.is_full() {
                let own = room_for(found.asked, &mut room);
                columns.push(Some(Column::new(found, view, number, own)));
            }
        }
    }
}
