//! One argument of a query.

ghost use Rattle.std.specs.Prelude.{◌≡◌, ◌+◌, ◌≤◌, ℕ, IsTrue, Err, IfOk, IfErr};
ghost use Rattle.rpm_query.specs.Prelude.{above, argument_part, argument_reach, packages_cost_to, DiskFault, HaltHands, HasKeptRows, is_indexed, is_some_of, IsAskable, IsOfChain, IsOfPrint, IsOfRead, lent, OnlyReads, packages_in, PartIs, OnlyReadsIndexed, picks, Pkg, pkg_read, question_of, reach_all, reach_to, ReadsOf, Recalls, Serves, shown_outputs};

use crate::missing::put_missing_part;
use crate::printing::print_above;
use rpm_command::Request;
use rpm_db::Db;
use rpm_effects::{Halt, halt_of_pick};
use rpm_outside::{Buffered, Disk, File, Sink};
use rpm_qfparse::Format;
use rpm_select::{Capability, Picker, Recent, Selection};
use rpm_words::{Chosen, number_of};
use std::alloc::Global;

/// The question that an argument is.
fn question_of<'a>(chosen: Chosen, text: &'a str) -> Option<Selection<'a>>
    ensures { result ≡ question_of chosen text.entry }
{
    match chosen {
        Chosen::Label => Some(Selection::Label(text)),
        Chosen::All => Some(Selection::Pattern(text)),
        Chosen::Path => Some(Selection::Path(text)),
        Chosen::Group => Some(Selection::Group(text)),
        Chosen::Package => None,
        Chosen::Provides => match Capability::read(text) {
            Ok(capability) => Some(Selection::Provides(capability)),
            Err(_) => None,
        },
        Chosen::Requires => match Capability::read(text) {
            Ok(capability) => Some(Selection::Requires(capability)),
            Err(_) => None,
        },
        Chosen::Conflicts => match Capability::read(text) {
            Ok(capability) => Some(Selection::Conflicts(capability)),
            Err(_) => None,
        },
        Chosen::Obsoletes => match Capability::read(text) {
            Ok(capability) => Some(Selection::Obsoletes(capability)),
            Err(_) => None,
        },
        Chosen::Trigger => Some(Selection::Trigger(text)),
        Chosen::Number => match number_of(text) {
            Some(number) => Some(Selection::Number(number)),
            None => None,
        },
        Chosen::Directory => Some(Selection::Directory(text)),
        Chosen::Tid => match number_of(text) {
            Some(number) => Some(Selection::Tid(number)),
            None => None,
        },
        Chosen::Recommends => match Capability::read(text) {
            Ok(capability) => Some(Selection::Recommends(capability)),
            Err(_) => None,
        },
    }
}

/// Whether a question picks packages, where it's known whether it picks some above a number. Where it doesn't, those up
/// to the number are read.
fn is_any_picked<D: Disk>(
    alloc: Global,
    picker: &mut Picker,
    db: &Db,
    disk: &mut D,
    selection: &Selection<'_>,
    after: u32,
    some: bool,
) -> Result<bool, Halt>
    requires asked { IsAskable D.Disk disk.old db.now }
    ensures told { IsTrue D.tells → Serves picker.old (packages_in D.Disk disk.old db.now) selection.now
        → some ≡ is_some_of (above after (picks (packages_in D.Disk disk.old db.now) selection.now))
        → IfOk result (λ any. any ≡ is_some_of (picks (packages_in D.Disk disk.old db.now) selection.now)) }
    ensures reads { pkg_read D.Disk disk.new ≤ pkg_read D.Disk disk.old + reach_to after picker.old db.now }
    ensures looks { OnlyReads D.Disk Pkg (packages_cost_to after db.now) disk.old disk.new }
    ensures disk { DiskFault D.Disk (result ≡ Err Halt.DiskFault) disk.old disk.new }
    ensures class { IfErr result IsOfRead }
{
    if some {
        return Ok(true);
    }
    if after == 0 {
        return Ok(false);
    }
    match picker.any_to(alloc, db, disk, selection, after) {
        Ok(any) => Ok(any),
        Err(fault) => Err(halt_of_pick(fault)),
    }
}

/// Prints what an argument picks, or the line that it picks nothing. Says whether the argument fails.
///
/// Reads the blocks of each package once, those above `after` before what is printed of the next ones, and the others
/// last. What is held of those above isn't read again.
pub fn answer<D: Disk, O: Sink + Drop, E: Sink + Drop>(
    alloc: Global,
    recent: &mut Recent,
    db: &Db,
    disk: &mut D,
    chosen: Chosen,
    text: &str,
    after: u32,
    format: &Format,
    out: &mut Buffered<O>,
    err: &mut Buffered<E>,
) -> Result<bool, Halt>
    requires asked { IsAskable D.Disk disk.old db.now }
    ensures went { IsTrue D.tells → HasKeptRows D.Disk disk.old db.now → Recalls (packages_in D.Disk disk.old db.now) recent.old → (j : ℕ)
        → PartIs (argument_part format.now (packages_in D.Disk disk.old db.now) chosen after j text.now) result
        (shown_outputs O.Sink E.Sink out.old err.old) (shown_outputs O.Sink E.Sink out.new err.new)
        (ReadsOf j (argument_reach (is_indexed db.now) (packages_in D.Disk disk.old db.now) chosen text.now) db.now
        (pkg_read D.Disk disk.old) (pkg_read D.Disk disk.new)) }
    ensures reads { IsTrue D.tells → HasKeptRows D.Disk disk.old db.now
        → pkg_read D.Disk disk.new ≤ pkg_read D.Disk disk.old + reach_all
        (argument_reach (is_indexed db.now) (packages_in D.Disk disk.old db.now) chosen text.now) db.now }
    ensures recalls { IsTrue D.tells → Recalls (packages_in D.Disk disk.old db.now) recent.old
        → Recalls (packages_in D.Disk disk.old db.now) recent.new }
    ensures bad_index { IsTrue D.tells → IfErr result (IsOfChain (question_of chosen (lent text.now)) (D.files disk.old).idx) }
    ensures looks { OnlyReadsIndexed D.Disk (is_indexed db.now) disk.old disk.new }
    ensures disk { DiskFault D.Disk (result ≡ Err Halt.DiskFault) disk.old disk.new }
    ensures class { IfErr result IsOfPrint }
    ensures hands { HaltHands O.Sink E.Sink result out.old err.old out.new err.new }
{
    let selection = match question_of(chosen, text) {
        Some(selection) => selection,
        None => return put_missing_part(chosen, text.as_bytes(), out, err),
    };
    let mut picker = match Picker::new(alloc, db, disk, &selection) {
        Ok(picker) => picker,
        Err(fault) => return Err(halt_of_pick(fault)),
    };
    let request = Request::Print;
    let printed = print_above(
        alloc, &picker, recent, db, disk, &selection, after, request, format, out, err,
    )?;
    let any = is_any_picked(
        alloc,
        &mut picker,
        db,
        disk,
        &selection,
        after,
        printed.some,
    )?;
    if any {
        return Ok(printed.fails);
    }
    put_missing_part(chosen, text.as_bytes(), out, err)
}
