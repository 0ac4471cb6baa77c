//! Tags are asked for, in a bracket from the columns of its tags.

ghost use Rattle.std.specs.Prelude.{◌≡◌, ◌<◌, length, true, IfSome};
ghost use Rattle.rpm_qfeval.specs.Prelude.{AreValues, count_of, IsOfTag, is_present, option_map, tag_text, value, Writes};

use crate::columns::{Asked, Column};
use crate::elements::put_looked_up;
use rpm_header::View;
use rpm_outside::{Failed, Sink};
use rpm_qfparse::{Tag, TagPart};
use rpm_tags::value;

/// Whether the column of what is asked for is at a place.
#[inline(always)]
fn is_at(columns: &[Option<Column<'_, '_>>], k: usize, asked: Asked) -> bool
    ensures within { result ≡ true → k < length columns.now }
    ensures tag { result ≡ true → IsOfTag columns.now k asked.tag }
{
    if k >= columns.len() {
        return false;
    }
    match &columns[k] {
        None => false,
        Some(column) => column.asked() == asked,
    }
}

/// Where the column of what is asked for is, of all columns.
#[cold]
#[inline(never)]
fn find(columns: &[Option<Column<'_, '_>>], asked: Asked) -> Option<usize>
    ensures within { IfSome result (λ k. k < length columns.now) }
    ensures tag { IfSome result (λ k. IsOfTag columns.now k asked.tag) }
{
    for k in 0..columns.len() {
        if is_at(columns, k, asked) {
            return Some(k);
        }
    }
    None
}

/// Where the column of what is asked for is. It is looked for at a place first, which becomes the one
/// after it: the parts of a bracket ask for its columns in their order. Each element of a bracket
/// comes by here.
#[inline(always)]
fn place_of(columns: &[Option<Column<'_, '_>>], next: &mut usize, asked: Asked) -> Option<usize>
    ensures within { IfSome result (λ k. k < length columns.now) }
    ensures tag { IfSome result (λ k. IsOfTag columns.now k asked.tag) }
{
    let first = *next;
    if is_at(columns, first, asked) {
        *next = first + 1;
        return Some(first);
    }
    let k = find(columns, asked)?;
    *next = k + 1;
    Some(k)
}

/// How many elements a tag has, where it is present.
pub fn count(
    columns: &[Option<Column<'_, '_>>],
    next: &mut usize,
    view: &View<'_>,
    number: u32,
    tag: Tag,
) -> Option<u32>
    requires { AreValues view.now number columns.now }
    ensures { result ≡ option_map count_of (value view.now number tag) }
{
    if let Some(k) = place_of(columns, next, Asked::of(tag)) {
        if let Some(column) = &columns[k] {
            return column.count();
        }
    }
    Some(value(view, number, tag)?.count())
}

/// Whether a tag is present.
pub fn is_present(
    columns: &[Option<Column<'_, '_>>],
    next: &mut usize,
    view: &View<'_>,
    number: u32,
    tag: Tag,
) -> bool
    requires { AreValues view.now number columns.now }
    ensures { result ≡ is_present view.now number tag }
{
    count(columns, next, view, number, tag).is_some()
}

/// Puts a tag in a round.
pub fn put_tag<O: Sink>(
    sink: &mut O,
    part: &TagPart,
    view: &View<'_>,
    number: u32,
    columns: &mut [Option<Column<'_, '_>>],
    next: &mut usize,
    round: u32,
) -> Result<(), Failed>
    requires { AreValues view.now number columns.old }
    ensures puts { Writes O.Sink sink.old sink.new (tag_text view.now number round part.now) result }
    ensures same { columns.new ≡ columns.old }
{
    if let Some(k) = place_of(columns, next, Asked::by(part)) {
        if let Some(column) = &mut columns[k] {
            return column.put(sink, part, round);
        }
    }
    put_looked_up(sink, part, view, number, round)
}
