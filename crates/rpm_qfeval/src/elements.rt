//! An element of a value is put as its formatter shows it.

ghost use Rattle.std.specs.Prelude.{decimal, None};
ghost use Rattle.rpm_qfeval.specs.Prelude.{blob_text, concat, count_of, element_text, in_width, number_text, or_none, tag_text, text_text, value_text, Writes};
ghost use Rattle.rpm_qfeval.specs.Dates as dates;

use crate::dates::{date, day};
use crate::digits::digits_in;
use crate::flags::{DEPFLAGS, FFLAGS, letters};
use crate::modes::{fstate, perms};
use crate::pieces::put_padded;
use crate::shown::Shown;
use itoa::Buffer as Decimal;
use rpm_header::View;
use rpm_outside::{Failed, Sink, put_all};
use rpm_qfparse::{Role, Show, TagPart};
use rpm_tags::{Class, Joined, TagValue, value};

/// Puts bytes in the width of a tag.
pub fn put_plain<O: Sink>(sink: &mut O, part: &TagPart, text: &[u8]) -> Result<(), Failed>
    ensures { Writes O.Sink sink.old sink.new (in_width part.now text.now) result }
{
    if part.width == 0 {
        return put_all(sink, text);
    }
    put_padded(sink, part.left, part.width, &Shown::Plain(text))
}

fn put_decimal<O: Sink>(sink: &mut O, part: &TagPart, number: u64) -> Result<(), Failed>
    ensures { Writes O.Sink sink.old sink.new (in_width part.now (decimal number)) result }
{
    let mut digits = Decimal::new();
    put_plain(sink, part, digits.format(number).as_bytes())
}

fn put_day<O: Sink>(sink: &mut O, part: &TagPart, number: u64) -> Result<(), Failed>
    ensures { Writes O.Sink sink.old sink.new (in_width part.now (dates.day number)) result }
{
    match u32::try_from(number) {
        Ok(second) => put_plain(sink, part, &day(second)),
        Err(_) => put_plain(sink, part, b"(not a date)"),
    }
}

fn put_date<O: Sink>(sink: &mut O, part: &TagPart, number: u64) -> Result<(), Failed>
    ensures { Writes O.Sink sink.old sink.new (in_width part.now (dates.date number)) result }
{
    match u32::try_from(number) {
        Ok(second) => put_plain(sink, part, &date(second)),
        Err(_) => put_plain(sink, part, b"(not a date)"),
    }
}

/// Puts a number of a value that has so many elements.
pub fn put_number<O: Sink>(
    sink: &mut O,
    part: &TagPart,
    count: u32,
    number: u64,
) -> Result<(), Failed>
    ensures { Writes O.Sink sink.old sink.new (in_width part.now (number_text part.now.show count number)) result }
{
    match part.show {
        Show::Plain | Show::Shescape => put_decimal(sink, part, number),
        Show::Hex => put_plain(sink, part, digits_in(number, 16).as_slice()),
        Show::Octal => put_plain(sink, part, digits_in(number, 8).as_slice()),
        Show::Perms => put_plain(sink, part, &perms(number)),
        Show::Depflags => put_plain(sink, part, letters(&DEPFLAGS, number).as_slice()),
        Show::Fflags => put_plain(sink, part, letters(&FFLAGS, number).as_slice()),
        Show::Fstate => put_plain(sink, part, fstate(number)),
        Show::Day => put_day(sink, part, number),
        Show::Date => put_date(sink, part, number),
        Show::Base64 => put_plain(sink, part, b"(not a blob)"),
        Show::Arraysize => put_decimal(sink, part, count as u64),
    }
}

/// Puts a text of a value that has so many elements.
pub fn put_text<O: Sink>(
    sink: &mut O,
    part: &TagPart,
    count: u32,
    text: &Joined<'_>,
) -> Result<(), Failed>
    ensures { Writes O.Sink sink.old sink.new (in_width part.now (text_text part.now.show count (concat text.now))) result }
{
    match part.show {
        Show::Plain => put_padded(sink, part.left, part.width, &Shown::Joined(text)),
        Show::Shescape => put_padded(sink, part.left, part.width, &Shown::Quoted(text)),
        Show::Base64 => put_plain(sink, part, b"(not a blob)"),
        Show::Arraysize => put_decimal(sink, part, count as u64),
        _ => put_plain(sink, part, b"(not a number)"),
    }
}

/// Puts a text of a value, whose bytes stand side by side.
pub fn put_stored_text<O: Sink>(
    sink: &mut O,
    part: &TagPart,
    value: &TagValue<'_>,
    text: &[u8],
) -> Result<(), Failed>
    ensures { Writes O.Sink sink.old sink.new (in_width part.now (text_text part.now.show (count_of value.now) text.now)) result }
{
    match part.show {
        Show::Plain => put_plain(sink, part, text),
        Show::Shescape => put_padded(sink, part.left, part.width, &Shown::QuotedBytes(text)),
        Show::Base64 => put_plain(sink, part, b"(not a blob)"),
        Show::Arraysize => put_decimal(sink, part, value.count() as u64),
        _ => put_plain(sink, part, b"(not a number)"),
    }
}

/// Puts a blob, which is the only element of its value.
pub fn put_blob<O: Sink>(sink: &mut O, part: &TagPart, bytes: &[u8]) -> Result<(), Failed>
    ensures { Writes O.Sink sink.old sink.new (in_width part.now (blob_text part.now.show bytes.now)) result }
{
    match part.show {
        Show::Plain => put_padded(sink, part.left, part.width, &Shown::Hex(bytes)),
        Show::Shescape => put_padded(sink, part.left, part.width, &Shown::QuotedHex(bytes)),
        Show::Base64 => put_padded(sink, part.left, part.width, &Shown::Base64(bytes)),
        Show::Arraysize => put_plain(sink, part, b"1"),
        _ => put_plain(sink, part, b"(not a number)"),
    }
}

/// Puts what stands for an element that isn't there.
pub fn put_none<O: Sink>(sink: &mut O, part: &TagPart) -> Result<(), Failed>
    ensures { Writes O.Sink sink.old sink.new (in_width part.now (or_none None)) result }
{
    put_plain(sink, part, b"(none)")
}

/// Puts the element of a value at a place, which is looked for from the first one on where it is a
/// text.
pub fn put_element<O: Sink>(
    sink: &mut O,
    part: &TagPart,
    value: &TagValue<'_>,
    place: u32,
) -> Result<(), Failed>
    ensures { Writes O.Sink sink.old sink.new (element_text part.now value.now place) result }
{
    let count = value.count();
    if place >= count {
        return put_none(sink, part);
    }
    match value.class() {
        Class::Number => put_number(sink, part, count, value.number(place)),
        Class::Text => put_text(sink, part, count, &value.text(place)),
        Class::Blob => put_blob(sink, part, value.blob()),
    }
}

/// Puts a value by the role of its tag, in a round.
pub fn put_value<O: Sink>(
    sink: &mut O,
    part: &TagPart,
    value: &TagValue<'_>,
    round: u32,
) -> Result<(), Failed>
    ensures { Writes O.Sink sink.old sink.new (in_width part.now (value_text part.now.role part.now.show round value.now)) result }
{
    match part.role {
        Role::Element => put_element(sink, part, value, round),
        Role::First => put_element(sink, part, value, 0),
        Role::Count => {
            let count = value.count();
            put_number(sink, part, count, count as u64)
        }
    }
}

/// Puts a tag in a round, whose value is looked up.
pub fn put_looked_up<O: Sink>(
    sink: &mut O,
    part: &TagPart,
    view: &View<'_>,
    number: u32,
    round: u32,
) -> Result<(), Failed>
    ensures { Writes O.Sink sink.old sink.new (tag_text view.now number round part.now) result }
{
    match value(view, number, part.tag) {
        None => put_none(sink, part),
        Some(found) => put_value(sink, part, &found, round),
    }
}
