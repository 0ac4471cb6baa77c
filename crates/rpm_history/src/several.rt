//! Several command lines on one disk, one after the other.

ghost use Rattle.std.specs.Prelude.{◌≡◌, ℕ, List, [], length, IsTrue, IfOk, OnErr, OnOk};
ghost use Rattle.rpm_history.specs.Prelude.{AllRowsFit, AllStand, AreLawfulDatabases, between, calls_of, Cuts, FromOneOf, HasState, images, InTurn, InTurnBefore, IsAhead, LeadsByLines, CrashLeaves, LineIs, LineStays, next, RiseWithin, RowsFit, RepresentsState, State, TellsLines};

use rpm_effects::Outcome;
use rpm_outside::{Disk, Shelf, Sink};
use rpm_tool::run;
use rpm_words::Words;
use std::alloc::{AllocError, Global};

/// A command line, and the moment at which it is run, in seconds since 1970.
#[derive(Drop)]
pub struct Line<'a> {
    pub words: &'a Words,
    pub moment: u32,
}

/// Does several command lines, one after the other, as [`run`] does each.
///
/// Where each image of the disk is lawful at first, after the lines each is lawful, and represents a state to which
/// they lead from that of one of the first images: with the changes of each line that was done, and without those of
/// each that was refused; those of one after which the disk failed are all made, or none. A crash at any moment
/// leaves a lawful image that represents the state before the line that it ends, or after it, so with the changes of
/// each line that was done by then. So what is said goes on from one list of lines to the next. Where the rows of the
/// packages fit into an index at first they do after each line, whatever stops it.
///
/// Each line is answered as `run` answers it on what the lines before it left. The numbers that lines which were done
/// gave to new packages rise, and so no such number is given twice: where the next number is at first that of the
/// number field, as in a database that `--initdb` began. The shelf matters to lines that read package files alone.
///
/// # Errors
///
/// `AllocError` where there is no memory for the outcomes. No line is done then.
pub fn run_each<D: Disk, S: Shelf, O: Sink, E: Sink>(
    alloc: Global,
    lines: &[Line<'_>],
    disk: D,
    shelf: &mut S,
    out: &mut O,
    err: &mut E,
) -> (Result<Vec<Outcome>, AllocError>, D)
    ensures all { IfOk result.0 (λ outcomes. length outcomes.items ≡ length lines.now) }
    ensures none { OnErr result.0 (result.1 ≡ disk) }
    ensures leads { IfOk result.0 (λ outcomes. IsTrue D.tells → TellsLines S.tells lines.now
        → AreLawfulDatabases (images D.Disk disk) → AllStand (FromOneOf (images D.Disk disk)
        (LeadsByLines (S.paths shelf.old) (calls_of lines.now outcomes.items))) (images D.Disk result.1)) }
    ensures cuts { IfOk result.0 (λ outcomes. IsTrue D.tells → TellsLines S.tells lines.now
        → AreLawfulDatabases (images D.Disk disk) → CrashLeaves D.Disk disk result.1
        (RepresentsState (FromOneOf (images D.Disk disk) (Cuts (S.paths shelf.old) (calls_of lines.now outcomes.items))))) }
    ensures fits { OnOk result.0 (IsTrue D.tells → TellsLines S.tells lines.now → AreLawfulDatabases (images D.Disk disk)
        → AllRowsFit (images D.Disk disk) → CrashLeaves D.Disk disk result.1 RowsFit) }

    // Each answer is that of `run` to its line, on what the lines before it left.
    ensures ran { IfOk result.0 (λ outcomes. (given : List ℕ)
        × InTurn (LineIs D.Disk S.Shelf O.Sink E.Sink (S.paths shelf.old)) (calls_of lines.now outcomes.items)
        (between disk shelf.old out.old err.old []) (between result.1 shelf.new out.new err.new given)) }

    // No acknowledged change is lost, not by a crash within a later line: what a crash leaves after the line stands
    // for the state with all its changes, or one to which lines behind it lead from there.
    ensures kept { IfOk result.0 (λ outcomes. IsTrue D.tells → TellsLines S.tells lines.now
        → AreLawfulDatabases (images D.Disk disk) → (given : List ℕ)
        × InTurnBefore (LineStays D.Disk S.Shelf O.Sink E.Sink (S.paths shelf.old)) (calls_of lines.now outcomes.items)
        (between disk shelf.old out.old err.old []) (between result.1 shelf.new out.new err.new given)) }

    // The files represent a state to which the lines lead, also where they aren't lawful: it is for the next line to
    // go on with.
    ensures states { IfOk result.0 (λ outcomes. IsTrue D.tells → TellsLines S.tells lines.now → (s : State)
        → HasState s (D.files disk) → (t : State) × HasState t (D.files result.1) × LeadsByLines (S.paths shelf.old)
        (calls_of lines.now outcomes.items) s t) }

    // The numbers that the lines which were done gave to new packages rise: none is given twice. Whatever a crash
    // leaves after the lines, the next number is above all of them.
    ensures numbers { IfOk result.0 (λ outcomes. IsTrue D.tells → TellsLines S.tells lines.now → (from : ℕ)
        → AllStand (λ t. IsAhead t × RiseWithin from [] (next t)) (images D.Disk disk) → (given : List ℕ)
        → InTurn (LineIs D.Disk S.Shelf O.Sink E.Sink (S.paths shelf.old)) (calls_of lines.now outcomes.items)
        (between disk shelf.old out.old err.old []) (between result.1 shelf.new out.new err.new given)
        → AllStand (λ t. IsAhead t × RiseWithin from given (next t)) (images D.Disk result.1)) }
{
    let Ok(outcomes) = Vec::with_capacity(alloc, lines.len()) else {
        return (Err(AllocError), disk);
    };
    let mut outcomes = outcomes;
    let mut disk = disk;
    for line in lines {
        let (outcome, left) = run(alloc, line.words, disk, shelf, out, err, line.moment);
        disk = left;
        outcomes.push_reserved(outcome);
    }
    (Ok(outcomes), disk)
}
