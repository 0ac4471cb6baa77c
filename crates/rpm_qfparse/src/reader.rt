//! Reading a format.

ghost use Rattle.std.specs.Prelude.{◌≡◌, ◌≢◌, ℕ, ◌≤◌, ◌<◌, List, [], Result, Ok, Err, IfOk, IfErr, MatchResult, false};
ghost use Rattle.rpm_qfparse.specs.Prelude.{Branches, format, FormatFault, Gives, IsFormat, IsProper, Meets, NoMemory, Reads, Tree};
ghost use Rattle.rpm_qfparse.specs.declared.moves.Context.TheVariants as context;

use crate::draft::Draft;
use crate::fault::{FormatFault, FormatKind, Stop};
use crate::moves::{Context, Move, close, move_at, second_follows};
use crate::tree::{Format, Part, Parts};
use std::alloc::Global;

// The greatest length of a format in bytes.
const MAX_LENGTH: u32 = 65536;

/// The branches of a condition, after the first brace, and what follows its last bar. Within so
/// many conditions, this one not counted.
#[cycle(reading)]
fn branches(
    alloc: Global,
    in_bracket: bool,
    depth: u32,
    text: &[u8],
) -> Result<((Parts, Parts), &[u8]), Stop<'_>>
    requires { depth < 16 }
    ensures { Meets (Branches in_bracket depth text.now) result }
{
    let (first, rest) = read(alloc, Context::Branch, in_bracket, depth + 1, text)?;
    let (more, rest) = second_follows(rest)?;
    if more {
        let (second, rest) = read(alloc, Context::Branch, in_bracket, depth + 1, rest)?;
        let rest = close(rest)?;
        Ok(((first, second), rest))
    } else {
        Ok(((first, Parts::new(alloc)), rest))
    }
}

/// The parts up to the end of a context, and what follows it.
#[cycle(reading)]
fn read(
    alloc: Global,
    context: Context,
    in_bracket: bool,
    depth: u32,
    text: &[u8],
) -> Result<(Parts, &[u8]), Stop<'_>>
    requires { depth ≤ 16 }
    ensures { Meets (Gives context in_bracket depth text.now) result }
{
    let mut draft = Draft::new(alloc);
    let mut rest = text;
    loop {
        match move_at(context, in_bracket, depth, rest) {
            Move::Ends(behind) => return Ok((draft.finish()?, behind)),
            Move::Stops(fault) => return Err(Stop::Fault(fault)),
            Move::Literal(byte, behind) => {
                draft.push_byte(byte)?;
                rest = behind;
            }
            Move::Shows(part, behind) => {
                draft.push(Part::Tag(part))?;
                rest = behind;
            }
            Move::Opens(inner) => {
                let (parts, behind) = read(alloc, Context::Bracket, true, depth, inner)?;
                draft.push(Part::Bracket(parts))?;
                rest = behind;
            }
            Move::Asks(tag, inner) => {
                let ((first, second), behind) = branches(alloc, in_bracket, depth, inner)?;
                draft.push(Part::Condition(tag, first, second))?;
                rest = behind;
            }
        }
    }
}

/// Reads a format of at most 65,536 bytes.
///
/// A backslash and one of `abfnrtv` stand for that control byte, and with any other byte for that
/// byte; at the end of the text it stands for itself. `%%` is a percent. `%{NAME}` is a tag; in
/// front of its brace may stand a `-` and a width up to 4,096, after the brace a `=` or a `#`, and
/// after the name a `:` with the name of a formatter. `[` and `]` hold a bracket, in which no other
/// one may stand. `%|NAME?{` begins a condition; its first branch goes up to a `}`, then a second one
/// may follow between `:{` and `}`, and a bar ends it. Conditions may stand in each other, 16 deep. All
/// other bytes stand for themselves.
///
/// The language is that of rpm's query formats; the limits and the places of faults are own.
///
/// # Errors
///
/// The first fault from the left, at the place that `FormatKind` gives for it; `NoMemory`, at 0,
/// where memory is wanting. Of one tag the faults are looked for in this order: width, `{`, `}`, name,
/// formatter; of a condition: depth, `?`, name, `{`.
///
/// Takes time and memory in the length of the text: what stands between the braces of a tag, and the
/// name of a condition, is looked at a few times, all else once. The bracket and the branches that are
/// open are calls within each other, at most 17 of them.
#[tactic(auto, using(crate::proofs::Law::format_is, crate::proofs::Law::format_only, crate::proofs::Law::format_whole))]
pub fn parse(alloc: Global, text: &[u8]) -> Result<Format, FormatFault>
    ensures format { MatchResult result (λ tree. format text.now ≡ Ok tree) (λ fault. fault.kind ≢ NoMemory → format text.now ≡ Err fault) }
    ensures memory { IfErr result (λ fault. fault.kind ≡ NoMemory → fault.at ≡ 0) }
    ensures proper { IfOk result (IsProper false 0) }

    // The rules of the language give each text one tree or one fault, and never both. A tree has the whole text in it.
    ensures some { (s : List ℕ) → IsFormat s (format s) }
    ensures only { (s : List ℕ) (r : Result Tree FormatFault) → IsFormat s r → r ≡ format s }
    ensures whole { (s rest : List ℕ) (tree : Tree) → Reads context.Top false 0 s tree rest → rest ≡ [] }
{
    if text.len() > MAX_LENGTH as usize {
        return Err(FormatFault {
            kind: FormatKind::TooLong,
            at: MAX_LENGTH,
        });
    }
    match read(alloc, Context::Top, false, 0, text) {
        Ok((parts, _)) => Ok(Format::new(parts)),
        Err(Stop::Memory) => Err(FormatFault {
            kind: FormatKind::NoMemory,
            at: 0,
        }),
        Err(Stop::Fault(fault)) => Err(FormatFault {
            kind: fault.kind,
            at: (text.len() - fault.rest.len()) as u32,
        }),
    }
}
