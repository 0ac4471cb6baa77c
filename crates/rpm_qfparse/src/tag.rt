//! A tag of a format, after its percent.

ghost use Rattle.std.specs.Prelude.{◌≡◌, ◌==◌, ◌+◌, ◌≤◌, ◌<◌, length, true, nat_eq, IfSome};
ghost use Rattle.rpm_qfparse.specs.Prelude.{bare_cut, bare_name, bare_part, bare_reading, bare_rows, begins, formatter, ForSome, name_and_show, named_tag, option_map, pointwise, position, role, show_in, show_of, side, split_once, tag_inside, tag_part, width_in};

use crate::fault::{Fault, FormatKind};
use crate::tree::{Role, Show, TagPart};
use rpm_tags::{Tag, tag_of};

// The greatest width in bytes.
const MAX_WIDTH: u32 = 4096;

// A formatter and its name.
struct Row(Show, &'static str);

// The names of the formatters, which are rpm's.
const SHOWS: [Row; 12] = [
    Row(Show::Plain, "string"),
    Row(Show::Hex, "hex"),
    Row(Show::Octal, "octal"),
    Row(Show::Perms, "perms"),
    Row(Show::Depflags, "depflags"),
    Row(Show::Fflags, "fflags"),
    Row(Show::Fstate, "fstate"),
    Row(Show::Day, "day"),
    Row(Show::Date, "date"),
    Row(Show::Shescape, "shescape"),
    Row(Show::Base64, "base64"),
    Row(Show::Arraysize, "arraysize"),
];

pub(crate) fn begins(byte: u8, text: &[u8]) -> bool
    ensures value { result ≡ begins byte text.now }
    ensures some { result ≡ true → 0 < length text.now }
{
    match text {
        [] => false,
        [first, ..] => *first == byte,
    }
}

fn position(byte: u8, text: &[u8]) -> Option<usize>
    ensures value { result ≡ position (λ b. b == byte) text.now }
    ensures within { IfSome result (λ i. i < length text.now) }
{
    text.iter().position(|b| *b == byte)
}

/// What stands before and after the first such byte.
pub(crate) fn split_once(byte: u8, text: &[u8]) -> Option<(&[u8], &[u8])>
    ensures value { option_map (λ p. (p.0.now, p.1.now)) result ≡ split_once byte text.now }
    ensures within { IfSome result (λ p. length p.0.now + length p.1.now + 1 ≡ length text.now) }
{
    let at = position(byte, text)?;
    Some((&text[..at], &text[at + 1..]))
}

/// Whether a `-` stands in front, and what follows it.
fn side(text: &[u8]) -> (bool, &[u8])
    ensures { (result.0, result.1.now) ≡ side text.now }
{
    if begins(b'-', text) {
        (true, &text[1..])
    } else {
        (false, text)
    }
}

/// The number of the digits in front, and what follows them.
#[tactic(auto, unfolding(crate::proofs::Widths::number_from, crate::proofs::Widths::after_digits))]
fn width(text: &[u8]) -> Result<(u32, &[u8]), Fault<'_>>
    ensures { bare_reading result ≡ width_in text.now }
{
    let mut number = 0;
    let mut rest = text;
    while let [digit @ b'0'..=b'9', behind @ ..] = rest {
        number = 10 * number + (*digit - b'0') as u32;
        if number > MAX_WIDTH {
            return Err(Fault::new(FormatKind::WidthTooLarge, text));
        }
        rest = behind;
    }
    Ok((number, rest))
}

/// Which elements are asked for, and what follows the sign for it.
fn role(text: &[u8]) -> (Role, &[u8])
    ensures { (result.0, result.1.now) ≡ role text.now }
{
    if begins(b'=', text) {
        (Role::First, &text[1..])
    } else if begins(b'#', text) {
        (Role::Count, &text[1..])
    } else {
        (Role::Element, text)
    }
}

/// The tag of a name that stands at a place.
pub(crate) fn named<'a>(name: &[u8], place: &'a [u8]) -> Result<Tag, Fault<'a>>
    ensures { bare_part result ≡ named_tag name.now place.now }
{
    if name.is_empty() {
        return Err(Fault::new(FormatKind::EmptyTag, place));
    }
    tag_of(name).ok_or(Fault::new(FormatKind::UnknownTag, place))
}

fn has_name(row: &Row, name: &[u8]) -> bool
    ensures { result ≡ pointwise nat_eq name.now row.now.1.now }
{
    name == row.1.as_bytes()
}

fn show_in(rows: &[Row], name: &[u8]) -> Option<Show>
    ensures { result ≡ show_in (bare_rows rows.now) name.now }
{
    for row in rows {
        if has_name(row, name) {
            return Some(row.0);
        }
    }
    None
}

fn show_of(name: &[u8]) -> Option<Show>
    ensures { result ≡ show_of name.now }
{
    show_in(&SHOWS, name)
}

/// The name of a tag, and what stands after the first colon.
fn name_and_show(inside: &[u8]) -> (&[u8], Option<&[u8]>)
    ensures value { bare_cut result ≡ name_and_show inside.now }
    ensures within { IfSome result.1 (λ _. length result.0.now < length inside.now) }
{
    match split_once(b':', inside) {
        None => (inside, None),
        Some((name, show)) => (name, Some(show)),
    }
}

/// The formatter of a name that stands so far after a place, where there is one.
fn formatter<'a>(name: Option<&[u8]>, far: usize, place: &'a [u8]) -> Result<Show, Fault<'a>>
    requires { ForSome name (λ _. far ≤ length place.now) }
    ensures { bare_part result ≡ formatter (bare_name name.entry) far place.now }
{
    let Some(name) = name else {
        return Ok(Show::Plain);
    };
    show_of(name).ok_or(Fault::new(FormatKind::UnknownFormatter, &place[far..]))
}

/// What stands between the braces of a tag, and begins at a place.
fn tag_inside<'a>(
    left: bool,
    width: u32,
    role: Role,
    inside: &[u8],
    place: &'a [u8],
) -> Result<TagPart, Fault<'a>>
    requires { length inside.now ≤ length place.now }
    ensures { bare_part result ≡ tag_inside left width role inside.now place.now }
{
    let (name, show) = name_and_show(inside);
    let tag = named(name, place)?;
    let show = formatter(show, name.len() + 1, place)?;
    Ok(TagPart {
        tag,
        role,
        left,
        width,
        show,
    })
}

/// A tag after its percent, and what follows its brace.
#[tactic(auto, unfolding(crate::specs::Tag::tag_part))]
pub(crate) fn tag_part(text: &[u8]) -> Result<(TagPart, &[u8]), Fault<'_>>
    ensures { bare_reading result ≡ tag_part text.now }
{
    let (left, text) = side(text);
    let (width, text) = width(text)?;
    if !begins(b'{', text) {
        return Err(Fault::new(FormatKind::MissingOpen, text));
    }
    let (role, place) = role(&text[1..]);
    match split_once(b'}', place) {
        None => Err(Fault::new(FormatKind::MissingClose, &place[place.len()..])),
        Some((inside, rest)) => match tag_inside(left, width, role, inside, place) {
            Ok(part) => Ok((part, rest)),
            Err(fault) => Err(fault),
        },
    }
}
