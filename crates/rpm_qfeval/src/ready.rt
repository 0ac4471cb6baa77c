//! The parts of a bracket that print texts or numbers of the header as they are.

ghost use Rattle.std.specs.Prelude.{◌≡◌, [], map, decimal, slice_get};
ghost use Rattle.rpm_qfeval.specs.Prelude.{AreFiles, option_copied, or_none, StandReady, StandsReady, Writes};
ghost use Rattle.rpm_qfparse.specs.declared.tree.Part.TheVariants as part;

use crate::plain_texts::PlainTexts;
use arrayvec::ArrayVec;
use itoa::Buffer as Decimal;
use rpm_header::View;
use rpm_outside::{Failed, Sink, put_all};
use rpm_qfparse::{Part, Parts, Role, Show, Tag, TagPart};
use rpm_tags::{FileIter, Files, Numbers, TextIter, Texts, numbers_in, texts_in, value};

/// What stands ready of a part of a bracket: what it prints as it is, of which each round has the one
/// at its place; `(none)` of a tag that the header doesn't have; nothing of any other part.
#[derive(Drop, Default)]
pub enum Ready<'v, 'a> {
    #[default]
    Other,
    Missing,
    Texts(PlainTexts<Texts<'a>, TextIter<'a>>),
    Numbers(Numbers<'a>),
    Paths(PlainTexts<&'v Files<'a>, FileIter<'v, 'a>>),
}

/// Whether something stands ready at a place.
pub fn is_ready(ready: &[Ready<'_, '_>], i: usize) -> bool {
    i < ready.len() && !matches!(&ready[i], Ready::Other)
}

/// Puts the number of a round. Where counts differ nothing is printed, so each round has its number.
pub fn put_number_of<O: Sink>(sink: &mut O, numbers: &Numbers<'_>, round: u32) -> Result<(), Failed>
    ensures { Writes O.Sink sink.old sink.new (or_none (slice_get (map decimal numbers.now) round)) result }
{
    if round >= numbers.count() {
        return put_all(sink, b"(none)");
    }
    let mut digits = Decimal::new();
    put_all(sink, digits.format(numbers.number(round)).as_bytes())
}

/// What stands ready of a tag. The paths of files are those that are given.
fn ready_tag<'v, 'a>(
    tag: &TagPart,
    view: &View<'a>,
    number: u32,
    files: Option<&'v Files<'a>>,
) -> Ready<'v, 'a>
    requires { AreFiles view.now number (option_copied files) }
    ensures { StandsReady view.now number (part.Tag tag.now) result }
{
    if tag.role != Role::Element || tag.show != Show::Plain || tag.width != 0 {
        return Ready::Other;
    }
    if let Tag::Stored(stored) = tag.tag {
        if let Some(texts) = texts_in(view, stored) {
            let count = texts.count();
            let left = texts.iter();
            return Ready::Texts(PlainTexts::new(texts, count, left));
        }
        if let Some(numbers) = numbers_in(view, stored) {
            return Ready::Numbers(numbers);
        }
    }
    if let Tag::Filenames = tag.tag {
        if let Some(files) = files {
            return Ready::Paths(PlainTexts::new(files, files.count(), files.iter(None)));
        }
    }
    match value(view, number, tag.tag) {
        None => Ready::Missing,
        Some(_) => Ready::Other,
    }
}

/// What stands ready of a part.
fn ready_part<'v, 'a>(
    part: &Part,
    view: &View<'a>,
    number: u32,
    files: Option<&'v Files<'a>>,
) -> Ready<'v, 'a>
    requires { AreFiles view.now number (option_copied files) }
    ensures { StandsReady view.now number part.now result }
{
    match part {
        Part::Tag(tag) => ready_tag(tag, view, number, files),
        _ => Ready::Other,
    }
}

/// Adds what stands ready of the parts of a bracket, from the first one on and as far as there is room.
pub fn make_ready<'v, 'a, const R: usize>(
    ready: &mut ArrayVec<Ready<'v, 'a>, R>,
    inner: &Parts,
    view: &View<'a>,
    number: u32,
    files: Option<&'v Files<'a>>,
)
    requires none { ready.old.items ≡ [] }
    requires files { AreFiles view.now number (option_copied files) }
    ensures { StandReady view.now number inner.now ready.new.items }
{
    for i in 0..inner.len().min(R) {
        ready.push(ready_part(inner.at(i), view, number, files));
    }
}
