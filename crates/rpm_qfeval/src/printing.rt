//! A format is printed.

ghost use Rattle.std.specs.Prelude.{◌≡◌, ℕ, ◌+◌, ◌%◌, ◌≤◌, [], codes, slice_index_or};
ghost use Rattle.rpm_qfeval.specs.Prelude.{day_number, day_of, ending, eval_ending, HasDate, meaning, month_of, Prints, weekday_name, weekday_names, year_of};

use crate::sizes::sizes;
use crate::writing::put_parts;
use rpm_header::View;
use rpm_outside::{Failed, Sink};
use rpm_qfparse::Format;
use std::alloc::Global;

/// Why a format wasn't printed, or not the whole of it, by a call that takes no memory.
#[derive(Clone, Copy, Debug, PartialEq, Eq)]
pub enum DirectFault {
    /// The tags of a bracket have different numbers of elements: that of the first one that is
    /// present, and the first later one that differs.
    SizesDiffer { first: u32, second: u32 },
    /// The sink failed.
    OutFault,
}

/// Why a format wasn't printed, or not the whole of it.
#[derive(Clone, Copy, Debug, PartialEq, Eq)]
pub enum EvalFault {
    /// As `DirectFault` says it.
    SizesDiffer { first: u32, second: u32 },
    /// The sink failed.
    OutFault,
    /// Memory was wanting. No call answers it so far, since none takes memory.
    NoMemory,
}

/// Prints what a format says of a header and of the number of its package. Takes no memory.
///
/// A tag prints its first element, in a bracket that of the present round, and `(none)` where there
/// is none; after `=` the first one in each round, and after `#` how many there are. A width pads
/// with spaces in front, or with `-` after, and cuts nothing. A bracket is printed once for each
/// element of the tags that stand in it, but for those after `=` or `#` and those in conditions;
/// where none of them is present it prints `(none)` and a newline. A condition prints its first
/// branch where the header has the tag, else its second.
///
/// The rules are those of rpm's documentation of query formats; `docs/FORMATS.md` has them whole,
/// with the choices that are own.
///
/// # Errors
///
/// `SizesDiffer` exactly where the tags of a bracket that would be printed have different numbers of
/// elements, with those of the first such bracket; nothing is written then. `OutFault` where the sink
/// failed. It then has the first of the bytes, or none.
///
/// Goes over the format once for the brackets and once to print. A bracket keeps the value of each of
/// its tags, and goes through the texts of each once, so that n rounds of k tags cost n times k, however
/// many they are. A padded text is measured before it is put. The sink gets each piece of the text in a
/// call of its own: give one with a buffer, as `Buffered`, where a call costs much.
///
/// Up to 3, 8, 32 and 192 parts a bracket takes 2, 5, 18 and 108 KiB of the stack for what stands ready, and
/// where parts ask for more, up to 2, 4, 16 and 192 tags of these, 6, 9, 25 and 260 KiB besides, where a tag
/// after `=` counts apart; 1 MiB more where the files of `FILENAMES` go back often. These are the sizes of
/// arrays, whatever the format. A tag for which an array has no place would be looked up in each round;
/// there is none in a format that was read, which has at most two for each of the 89 tags with a name.
#[tactic(auto, using(crate::proofs::DateLaw::date_is_day, crate::proofs::CivilLaw::is_civil, crate::proofs::CivilLaw::weekday_is))]
pub fn print_direct<O: Sink>(
    format: &Format,
    view: &View<'_>,
    number: u32,
    sink: &mut O,
) -> Result<(), DirectFault>
    ensures prints { Prints O.Sink (meaning view.now number format.now) sink.old sink.new (ending result) }

    // The number of the date that is printed of a day is that of the day.
    ensures dates { (day : ℕ) → day_number (year_of day) (month_of day) (day_of day) ≡ day }

    // Up to the last day whose seconds have 32 bits, that date is one of the calendar: its month has the day.
    ensures civil { (day : ℕ) → day ≤ 49710 → HasDate day }

    // Day 0 is a Thursday, and the days of the week follow one another.
    ensures weekdays { (day : ℕ) → weekday_name day ≡ slice_index_or weekday_names ((day + 3) % 7) [] }
    ensures first { weekday_name 0 ≡ codes "Thu" }
{
    if let Some((first, second)) = sizes(format.parts(), view, number) {
        return Err(DirectFault::SizesDiffer { first, second });
    }
    match put_parts(sink, format.parts(), view, number) {
        Ok(()) => Ok(()),
        Err(Failed) => Err(DirectFault::OutFault),
    }
}

/// Prints as `print_direct` does, with the same answers, for other programs: no crate here calls it. Takes no
/// memory either, though it is given an allocator.
///
/// # Errors
///
/// Those of `print_direct`. `NoMemory` is never answered.
pub fn print<O: Sink>(
    alloc: Global,
    format: &Format,
    view: &View<'_>,
    number: u32,
    sink: &mut O,
) -> Result<(), EvalFault>
    ensures { Prints O.Sink (meaning view.now number format.now) sink.old sink.new (eval_ending result) }
{
    let _ = alloc;
    match print_direct(format, view, number, sink) {
        Ok(()) => Ok(()),
        Err(DirectFault::SizesDiffer { first, second }) => {
            Err(EvalFault::SizesDiffer { first, second })
        }
        Err(DirectFault::OutFault) => Err(EvalFault::OutFault),
    }
}
