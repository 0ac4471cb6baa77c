//! A bracket is put over the columns of its tags, round by round.

ghost use Rattle.std.specs.Prelude.{◌≡◌, ◌∷◌, [], true, IfSome, slice_get};
ghost use Rattle.rpm_qfeval.specs.Prelude.{AreProper, AreValues, bracket_bytes, bytes, part_bytes, PartIsProper, rounds, StandReady, StandsReady, Writes};

use crate::columns::Column;
use crate::lookup::{is_present, put_tag};
use crate::ready::{Ready, put_number_of};
use crate::sizes::count_rounds;
use rpm_header::View;
use rpm_outside::{Failed, Sink, put_all};
use rpm_qfparse::{Part, Parts};

/// A part of a bracket of which nothing stands ready, in a round.
#[cycle(inside)]
fn put_inner_part<O: Sink>(
    sink: &mut O,
    part: &Part,
    view: &View<'_>,
    number: u32,
    columns: &mut [Option<Column<'_, '_>>],
    next: &mut usize,
    round: u32,
) -> Result<(), Failed>
    requires told { AreValues view.now number columns.old }
    requires proper { PartIsProper true part.now }
    ensures puts { Writes O.Sink sink.old sink.new (part_bytes view.now number round part.now) result }
    ensures columns { columns.new ≡ columns.old }
{
    match part {
        Part::Text(text) => put_all(sink, text.as_slice()),
        Part::Tag(tag) => put_tag(sink, tag, view, number, columns, next, round),
        Part::Bracket(_) => unreachable!(),
        Part::Condition(tag, first, second) => {
            if is_present(columns, next, view, number, *tag) {
                put_round(sink, first, view, number, columns, &mut [], next, round)
            } else {
                put_round(sink, second, view, number, columns, &mut [], next, round)
            }
        }
    }
}

/// The part of a bracket at a place, in a round: by what stands ready of it, or as any other.
#[cycle(inside)]
#[inline(always)]
fn put_part_at<O: Sink>(
    sink: &mut O,
    part: &Part,
    i: usize,
    view: &View<'_>,
    number: u32,
    columns: &mut [Option<Column<'_, '_>>],
    ready: &mut [Ready<'_, '_>],
    next: &mut usize,
    round: u32,
) -> Result<(), Failed>
    requires told { AreValues view.now number columns.old }
    requires plain { IfSome (slice_get ready.old i) (StandsReady view.now number part.now) }
    requires proper { PartIsProper true part.now }
    ensures puts { Writes O.Sink sink.old sink.new (part_bytes view.now number round part.now) result }
    ensures columns { columns.new ≡ columns.old }
    ensures ready { ready.new ≡ ready.old }
{
    if i < ready.len() {
        match &mut ready[i] {
            Ready::Texts(texts) => return texts.put(sink, round),
            Ready::Numbers(numbers) => return put_number_of(sink, numbers, round),
            Ready::Paths(paths) => return paths.put(sink, round),
            Ready::Missing => return put_all(sink, b"(none)"),
            Ready::Other => {}
        }
    }
    // Most parts between tags are texts, which are put without a call.
    if let Part::Text(text) = part {
        return put_all(sink, text.as_slice());
    }
    put_inner_part(sink, part, view, number, columns, next, round)
}

/// The parts of a bracket in a round, or those of a condition in it, of which nothing stands ready.
#[cycle(inside)]
#[inline(always)]
#[tactic(auto, using(crate::proofs::ProperParts::part_is_proper))]
fn put_round<O: Sink>(
    sink: &mut O,
    inner: &Parts,
    view: &View<'_>,
    number: u32,
    columns: &mut [Option<Column<'_, '_>>],
    ready: &mut [Ready<'_, '_>],
    next: &mut usize,
    round: u32,
) -> Result<(), Failed>
    requires told { AreValues view.now number columns.old }
    requires ready { StandReady view.now number inner.now ready.old }
    requires proper { AreProper true inner.now }
    ensures puts { Writes O.Sink sink.old sink.new (bytes view.now number round inner.now) result }
    ensures columns { columns.new ≡ columns.old }
    ensures ready { ready.new ≡ ready.old }
{
    for i in 0..inner.len() {
        put_part_at(
            sink,
            inner.at(i),
            i,
            view,
            number,
            columns,
            ready,
            next,
            round,
        )?;
    }
    Ok(())
}

/// So many rounds of a bracket.
fn put_rounds<O: Sink>(
    sink: &mut O,
    inner: &Parts,
    view: &View<'_>,
    number: u32,
    columns: &mut [Option<Column<'_, '_>>],
    ready: &mut [Ready<'_, '_>],
    count: u32,
) -> Result<(), Failed>
    requires told { AreValues view.now number columns.old }
    requires ready { StandReady view.now number inner.now ready.old }
    requires proper { AreProper true inner.now }
    ensures { Writes O.Sink sink.old sink.new (rounds (count ∷ []) (λ i. bytes view.now number i inner.now)) result }
{
    let mut next = 0;
    for round in 0..count {
        put_round(sink, inner, view, number, columns, ready, &mut next, round)?;
    }
    Ok(())
}

/// A bracket over the columns of its tags.
pub fn put_over<O: Sink>(
    sink: &mut O,
    inner: &Parts,
    view: &View<'_>,
    number: u32,
    columns: &mut [Option<Column<'_, '_>>],
    ready: &mut [Ready<'_, '_>],
) -> Result<(), Failed>
    requires told { AreValues view.now number columns.old }
    requires ready { StandReady view.now number inner.now ready.old }
    requires proper { AreProper true inner.now }
    ensures { Writes O.Sink sink.old sink.new (bracket_bytes view.now number inner.now) result }
{
    match count_rounds(inner, columns, ready, view, number) {
        None => put_all(sink, b"(none)\n"),
        Some(count) => put_rounds(sink, inner, view, number, columns, ready, count),
    }
}
