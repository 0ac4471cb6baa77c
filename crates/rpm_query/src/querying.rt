//! `AnswersPlain` and `AnswersKeyed` of the theorem: the queries of an opened database.

ghost use Rattle.std.specs.Prelude.{◌≡◌, ◌≢◌, ◌+◌, ◌<◌, ◌≤◌, ℕ, [], ◌∷◌, if◌then◌else◌, false, true, map, IsTrue};
ghost use Rattle.rpm_query.specs.Prelude.{argument_part, argument_reach, before_others, packages_cost, DiskFault, EndHands, Everything, HasKeptRows, idle, parts_in_turn, is_foreign, is_indexed, is_of_opening, IsAskable, IsOfChains, OnlyReads, packages_in, packages_part, OnlyReadsIndexed, picks, Pkg, pkg_read, prints_packages, reach_sum, reached_by, shown_outputs, step_by, word_at, CommandProgress};
ghost use Rattle.rpm_select.specs.declared.selection.Selection.TheVariants as question;

use crate::answering::answer;
use crate::printing::{begin_unasked, print_above};
use rpm_command::Request;
use rpm_db::Db;
use rpm_effects::Why;
use rpm_outside::{Buffered, Disk, File, Sink};
use rpm_qfparse::Format;
use rpm_select::{Recent, Selection};
use rpm_words::{Ask, Words};
use std::alloc::Global;

/// Writes each package above a number out for an export, or else prints what the format says of it.
pub fn query_all<D: Disk, O: Sink + Drop, E: Sink + Drop>(
    alloc: Global,
    db: &Db,
    disk: &mut D,
    after: u32,
    request: Request,
    format: &Format,
    out: &mut Buffered<O>,
    err: &mut Buffered<E>,
) -> Why
    requires asked { IsAskable D.Disk disk.old db.now }
    requires prints { prints_packages request ≡ true }
    ensures went { IsTrue D.tells → HasKeptRows D.Disk disk.old db.now
        → CommandProgress (before_others (packages_part (step_by request format.now 0) after (picks (packages_in D.Disk disk.old db.now)
        question.All)) idle) result (shown_outputs O.Sink E.Sink out.old err.old) (shown_outputs O.Sink E.Sink out.new err.new)
        (λ for. pkg_read D.Disk disk.new ≤ pkg_read D.Disk disk.old + reached_by (Everything ∷ []) db.now for) }
    ensures done { is_foreign result ≡ false }
    ensures opened { is_of_opening result ≡ false }
    ensures looks { OnlyReads D.Disk Pkg (packages_cost db.now) disk.old disk.new }
    ensures disk { DiskFault D.Disk (result ≡ Why.DiskFault) disk.old disk.new }
    ensures unbroken { (unit : ℕ) → result ≢ Why.BadIndex unit }
    ensures hands { EndHands O.Sink E.Sink result out.old err.old out.new err.new }
{
    let picker = begin_unasked(alloc, db, disk, &Selection::All);
    match print_above(
        alloc,
        &picker,
        &mut Recent::new(),
        db,
        disk,
        &Selection::All,
        after,
        request,
        format,
        out,
        err,
    ) {
        Ok(printed) if printed.fails => Why::Failed(1),
        Ok(_) => Why::Done,
        Err(halt) => Why::from(halt),
    }
}

/// How many arguments failed, with one more.
pub fn count(failed: u32, fails: bool) -> u32
    requires { failed < 4294967295 }
    ensures { result ≡ failed + (if fails then 1 else 0) }
{
    if fails { failed + 1 } else { failed }
}

/// Prints what each argument picks, one after the other. Of the packages that were read the last one and the longest are
/// held, so that arguments of the same package needn't read it again.
pub fn query_each<D: Disk, O: Sink + Drop, E: Sink + Drop>(
    alloc: Global,
    db: &Db,
    disk: &mut D,
    words: &Words,
    ask: &Ask,
    format: &Format,
    out: &mut Buffered<O>,
    err: &mut Buffered<E>,
) -> Why
    requires asked { IsAskable D.Disk disk.old db.now }
    ensures went { IsTrue D.tells → HasKeptRows D.Disk disk.old db.now
        → CommandProgress (parts_in_turn (argument_part format.now (packages_in D.Disk disk.old db.now) ask.now.chosen ask.now.after) 0
        (map (word_at words.now) ask.now.arguments)) result (shown_outputs O.Sink E.Sink out.old err.old)
        (shown_outputs O.Sink E.Sink out.new err.new) (λ for. pkg_read D.Disk disk.new ≤ pkg_read D.Disk disk.old + reached_by
        (map (argument_reach (is_indexed db.now) (packages_in D.Disk disk.old db.now) ask.now.chosen)
        (map (word_at words.now) ask.now.arguments)) db.now for) }
    ensures done { is_foreign result ≡ false }
    ensures opened { is_of_opening result ≡ false }
    ensures reads { IsTrue D.tells → HasKeptRows D.Disk disk.old db.now
        → pkg_read D.Disk disk.new ≤ pkg_read D.Disk disk.old + reach_sum
        (map (argument_reach (is_indexed db.now) (packages_in D.Disk disk.old db.now) ask.now.chosen)
        (map (word_at words.now) ask.now.arguments)) db.now }
    ensures bad_index { IsTrue D.tells → IsOfChains ask.now.chosen (map (word_at words.now) ask.now.arguments) (D.files disk.old).idx result }
    ensures looks { OnlyReadsIndexed D.Disk (is_indexed db.now) disk.old disk.new }
    ensures disk { DiskFault D.Disk (result ≡ Why.DiskFault) disk.old disk.new }
    ensures hands { EndHands O.Sink E.Sink result out.old err.old out.new err.new }
{
    let mut recent = Recent::with_longest();
    let mut failed = 0u32;
    for k in 0..ask.arguments() {
        let text = words.text_at(ask.argument(k));
        match answer(
            alloc,
            &mut recent,
            db,
            disk,
            ask.chosen(),
            text,
            ask.after(),
            format,
            out,
            err,
        ) {
            Ok(fails) => failed = count(failed, fails),
            Err(halt) => return Why::from(halt),
        }
    }
    if failed == 0 {
        Why::Done
    } else {
        Why::Failed(failed)
    }
}
