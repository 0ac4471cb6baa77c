//! The parts of a format are put, one after the other.

ghost use Rattle.std.specs.Prelude.{◌≤◌, true, false};
ghost use Rattle.rpm_qfeval.specs.Prelude.{AreFiles, AreProper, bracket_bytes, bytes, option_copied, part_bytes, PartIsProper, StandReady, Writes};

use crate::columns::{
    Asked, Column, Found, MOST, add_columns, ask_for_paths, ask_more, asked_in, look_up,
};
use crate::elements::put_looked_up;
use crate::inside::put_over;
use crate::lookup::is_present;
use crate::ready::{Ready, make_ready};
use arrayvec::ArrayVec;
use rpm_header::{PlacesRoom, View};
use rpm_outside::{Failed, Sink, put_all};
use rpm_qfparse::{Part, Parts};
use rpm_tags::{Files, files_in};

/// A bracket with so many columns. It is kept apart for each number, so that the memory of more columns
/// isn't paid for. Places of directories are kept where there is room for them.
#[inline(never)]
fn put_with<O: Sink, const N: usize>(
    sink: &mut O,
    inner: &Parts,
    view: &View<'_>,
    number: u32,
    asked: &[Option<Asked>],
    ready: &mut [Ready<'_, '_>],
    room: Option<&mut PlacesRoom>,
) -> Result<(), Failed>
    requires room { N ≤ 4096 }
    requires ready { StandReady view.now number inner.now ready.old }
    requires proper { AreProper true inner.now }
    ensures { Writes O.Sink sink.old sink.new (bracket_bytes view.now number inner.now) result }
{
    let mut found: ArrayVec<Option<Found<'_>>, N> = ArrayVec::new();
    look_up(&mut found, asked, view, number);
    let mut columns: ArrayVec<Option<Column<'_, '_>>, N> = ArrayVec::new();
    add_columns(&mut columns, found.as_slice(), view, number, room);
    put_over(sink, inner, view, number, columns.as_mut_slice(), ready)
}

/// A bracket that asks for more than what stands ready. A call pays for the memory of its columns, so
/// there are few where few serve.
#[inline(never)]
fn put_asked<O: Sink>(
    sink: &mut O,
    inner: &Parts,
    view: &View<'_>,
    number: u32,
    ready: &mut [Ready<'_, '_>],
    room: Option<&mut PlacesRoom>,
) -> Result<(), Failed>
    requires ready { StandReady view.now number inner.now ready.old }
    requires proper { AreProper true inner.now }
    ensures { Writes O.Sink sink.old sink.new (bracket_bytes view.now number inner.now) result }
{
    let asked = asked_in(inner, ready);
    let asked = asked.as_slice();
    match asked.len() {
        0..=2 => put_with::<O, 2>(sink, inner, view, number, asked, ready, room),
        3 | 4 => put_with::<O, 4>(sink, inner, view, number, asked, ready, room),
        5..=16 => put_with::<O, 16>(sink, inner, view, number, asked, ready, room),
        _ => put_with::<O, MOST>(sink, inner, view, number, asked, ready, room),
    }
}

/// A bracket with room for so many parts that stand ready.
#[inline(never)]
fn put_prepared<O: Sink, const R: usize>(
    sink: &mut O,
    inner: &Parts,
    view: &View<'_>,
    number: u32,
    files: Option<&Files<'_>>,
    room: Option<&mut PlacesRoom>,
) -> Result<(), Failed>
    requires places { R ≤ 4096 }
    requires files { AreFiles view.now number (option_copied files) }
    requires proper { AreProper true inner.now }
    ensures { Writes O.Sink sink.old sink.new (bracket_bytes view.now number inner.now) result }
{
    let mut ready: ArrayVec<Ready<'_, '_>, R> = ArrayVec::new();
    make_ready(&mut ready, inner, view, number, files);
    let ready = ready.as_mut_slice();
    if ask_more(inner, ready) {
        put_asked(sink, inner, view, number, ready, room)
    } else {
        put_over(sink, inner, view, number, &mut [], ready)
    }
}

/// A bracket with room for the places of directories, which costs 1 MiB of zeros.
#[cold]
#[inline(never)]
fn put_far<O: Sink>(sink: &mut O, inner: &Parts, view: &View<'_>, number: u32) -> Result<(), Failed>
    requires proper { AreProper true inner.now }
    ensures { Writes O.Sink sink.old sink.new (bracket_bytes view.now number inner.now) result }
{
    let mut room = PlacesRoom::new();
    put_prepared::<O, MOST>(sink, inner, view, number, None, Some(&mut room))
}

/// A bracket over the paths of files that don't go back often, where they are asked for.
fn put_near<O: Sink>(
    sink: &mut O,
    inner: &Parts,
    view: &View<'_>,
    number: u32,
    files: Option<&Files<'_>>,
) -> Result<(), Failed>
    requires files { AreFiles view.now number (option_copied files) }
    requires proper { AreProper true inner.now }
    ensures { Writes O.Sink sink.old sink.new (bracket_bytes view.now number inner.now) result }
{
    match inner.len() {
        0..=3 => put_prepared::<O, 3>(sink, inner, view, number, files, None),
        4..=8 => put_prepared::<O, 8>(sink, inner, view, number, files, None),
        9..=32 => put_prepared::<O, 32>(sink, inner, view, number, files, None),
        _ => put_prepared::<O, MOST>(sink, inner, view, number, files, None),
    }
}

/// A bracket.
fn put_bracket<O: Sink>(
    sink: &mut O,
    inner: &Parts,
    view: &View<'_>,
    number: u32,
) -> Result<(), Failed>
    requires { AreProper true inner.now }
    ensures { Writes O.Sink sink.old sink.new (bracket_bytes view.now number inner.now) result }
{
    if !ask_for_paths(inner) {
        return put_near(sink, inner, view, number, None);
    }
    match files_in(view) {
        None => put_near(sink, inner, view, number, None),
        Some(files) => {
            if files.need_room() {
                put_far(sink, inner, view, number)
            } else {
                put_near(sink, inner, view, number, Some(&files))
            }
        }
    }
}

/// A part outside of brackets.
#[cycle(writing)]
fn put_part<O: Sink>(sink: &mut O, part: &Part, view: &View<'_>, number: u32) -> Result<(), Failed>
    requires { PartIsProper false part.now }
    ensures { Writes O.Sink sink.old sink.new (part_bytes view.now number 0 part.now) result }
{
    match part {
        Part::Text(text) => put_all(sink, text.as_slice()),
        Part::Tag(tag) => put_looked_up(sink, tag, view, number, 0),
        Part::Bracket(inner) => put_bracket(sink, inner, view, number),
        Part::Condition(tag, first, second) => {
            if is_present(&[], &mut 0, view, number, *tag) {
                put_parts(sink, first, view, number)
            } else {
                put_parts(sink, second, view, number)
            }
        }
    }
}

/// Parts outside of brackets.
#[cycle(writing)]
#[tactic(auto, using(crate::proofs::ProperParts::part_is_proper))]
pub fn put_parts<O: Sink>(
    sink: &mut O,
    parts: &Parts,
    view: &View<'_>,
    number: u32,
) -> Result<(), Failed>
    requires { AreProper false parts.now }
    ensures { Writes O.Sink sink.old sink.new (bytes view.now number 0 parts.now) result }
{
    for i in 0..parts.len() {
        put_part(sink, parts.at(i), view, number)?;
    }
    Ok(())
}
