//! How many rounds a bracket has, and the first bracket whose tags disagree on it.

ghost use Rattle.std.specs.Prelude.{◌≡◌, ℕ, ◌≤◌, length, false, None, slice_get, IfSome};
ghost use Rattle.rpm_qfeval.specs.Prelude.{AreValues, counts, different, direct, Header, part_sizes, sizes, StandReady, StandsReady};

use crate::columns::Column;
use crate::lookup::{count, is_present};
use crate::ready::Ready;
use rpm_header::View;
use rpm_qfparse::{Part, Parts, Role};

/// How many elements a part has, where it is a tag that is present and whose elements are printed.
fn direct(
    part: &Part,
    columns: &[Option<Column<'_, '_>>],
    view: &View<'_>,
    number: u32,
) -> Option<u32>
    requires { AreValues view.now number columns.now }
    ensures { result ≡ direct view.now number part.now }
{
    match part {
        Part::Tag(tag) => match tag.role {
            Role::Element => count(columns, &mut 0, view, number, tag.tag),
            _ => None,
        },
        _ => None,
    }
}

/// The same of the part of a bracket at a place, by what stands ready of it, or as of any other.
fn direct_at(
    part: &Part,
    i: usize,
    columns: &[Option<Column<'_, '_>>],
    ready: &[Ready<'_, '_>],
    view: &View<'_>,
    number: u32,
) -> Option<u32>
    requires told { AreValues view.now number columns.now }
    requires plain { IfSome (slice_get ready.now i) (StandsReady view.now number part.now) }
    ensures { result ≡ direct view.now number part.now }
{
    if i < ready.len() {
        match &ready[i] {
            Ready::Texts(texts) => return Some(texts.count()),
            Ready::Numbers(numbers) => return Some(numbers.count()),
            Ready::Paths(paths) => return Some(paths.count()),
            Ready::Missing => return None,
            Ready::Other => {}
        }
    }
    direct(part, columns, view, number)
}

/// How many rounds a bracket has; None where none of its tags is present.
pub fn count_rounds(
    inner: &Parts,
    columns: &[Option<Column<'_, '_>>],
    ready: &[Ready<'_, '_>],
    view: &View<'_>,
    number: u32,
) -> Option<u32>
    requires told { AreValues view.now number columns.now }
    requires ready { StandReady view.now number inner.now ready.now }
    ensures { result ≡ slice_get (counts view.now number inner.now) 0 }
{
    for i in 0..inner.len() {
        if let Some(count) = direct_at(inner.at(i), i, columns, ready, view, number) {
            return Some(count);
        }
    }
    None
}

/// Whether a part is a tag whose elements are printed.
fn is_element(part: &Part) -> bool
    ensures { result ≡ false → (header : Header) (number : ℕ) → direct header number part.now ≡ None }
{
    match part {
        Part::Tag(tag) => match tag.role {
            Role::Element => true,
            _ => false,
        },
        _ => false,
    }
}

/// How many tags of a bracket have their elements printed.
fn elements_in(inner: &Parts) -> usize
    ensures { (header : Header) (number : ℕ) → length (counts header number inner.now) ≤ result }
{
    let mut seen = 0;
    for i in 0..inner.len() {
        if is_element(inner.at(i)) {
            seen += 1;
        }
    }
    seen
}

/// The first count of a bracket, and the first other one. Each tag is looked up where it stands, if
/// there are several.
fn different(inner: &Parts, view: &View<'_>, number: u32) -> Option<(u32, u32)>
    ensures { result ≡ different (counts view.now number inner.now) }
{
    if elements_in(inner) <= 1 {
        return None;
    }
    let mut seen = None;
    for i in 0..inner.len() {
        if let Some(count) = direct(inner.at(i), &[], view, number) {
            let first = seen.unwrap_or(count);
            if count != first {
                return Some((first, count));
            }
            seen = Some(first);
        }
    }
    None
}

/// The counts that differ in a part.
#[cycle(sizing)]
fn part_sizes(part: &Part, view: &View<'_>, number: u32) -> Option<(u32, u32)>
    ensures { result ≡ part_sizes view.now number part.now }
{
    match part {
        Part::Text(_) | Part::Tag(_) => None,
        Part::Bracket(inner) => different(inner, view, number),
        Part::Condition(tag, first, second) => {
            if is_present(&[], &mut 0, view, number, *tag) {
                sizes(first, view, number)
            } else {
                sizes(second, view, number)
            }
        }
    }
}

/// The counts that differ of the first bracket with such counts that would be printed.
#[cycle(sizing)]
pub fn sizes(parts: &Parts, view: &View<'_>, number: u32) -> Option<(u32, u32)>
    ensures { result ≡ sizes view.now number parts.now }
{
    for i in 0..parts.len() {
        if let Some(found) = part_sizes(parts.at(i), view, number) {
            return Some(found);
        }
    }
    None
}
