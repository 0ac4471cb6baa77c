//! The packages that a question picks, printed one after the other.

ghost use Rattle.std.specs.Prelude.{◌≡◌, ◌≢◌, ℕ, ◌+◌, ◌-◌, ◌≤◌, ◌||◌, [], false, true, IsTrue, Err, IfOk, IfErr};
ghost use Rattle.rpm_query.specs.Prelude.{above, packages_cost, packages_cost_to, DiskFault, fails_in, HaltHands, HasKeptRows, is_some_of, IsAskable, IsOfPrint, OnlyReads, packages_in, packages_part, PartIs, picks, Pkg, pkg_read, prints_packages, reach_all, reach_to, ReadsIn, Recalls, Serves, shown_outputs, step_by, unindexed_reach};
ghost use Rattle.rpm_select.specs.Reach.{asks_index};

use rpm_command::Request;
use rpm_db::Db;
use rpm_effects::{Halt, halt_of_pick};
use rpm_outside::{Buffered, Disk, File, Sink};
use rpm_print::print_picked;
use rpm_qfparse::Format;
use rpm_select::{Picker, Recent, Selection};
use std::alloc::Global;

/// What became of the packages of an argument: whether there were some, and whether the argument fails for them.
#[derive(Clone, Copy)]
pub struct PrintedPackages {
    pub some: bool,
    pub fails: bool,
}

/// Begins to go through what a selection picks that asks no index: that reads nothing, and doesn't fail.
pub fn begin_unasked<D: Disk>(
    alloc: Global,
    db: &Db,
    disk: &mut D,
    selection: &Selection<'_>,
) -> Picker
    requires asked { IsAskable D.Disk disk.old db.now }
    requires unasked { asks_index db.now selection.now ≡ false }
    ensures reach { IsTrue D.tells → HasKeptRows D.Disk disk.old db.now → result ≡ unindexed_reach selection.now }
    ensures serves { IsTrue D.tells → HasKeptRows D.Disk disk.old db.now → Serves result (packages_in D.Disk disk.new db.now) selection.now }
    ensures looks { OnlyReads D.Disk Pkg 0 disk.old disk.new }
    ensures faults { D.faults disk.old ≤ D.faults disk.new }
{
    match Picker::new(alloc, db, disk, selection) {
        Ok(picker) => picker,
        Err(_) => unreachable!(),
    }
}

/// Prints each package above a number that a selection picks, by rising number: writes it out for an
/// export, or else what the format says of it. What is held of the packages isn't read again.
pub fn print_above<D: Disk, O: Sink + Drop, E: Sink + Drop>(
    alloc: Global,
    picker: &Picker,
    recent: &mut Recent,
    db: &Db,
    disk: &mut D,
    selection: &Selection<'_>,
    after: u32,
    request: Request,
    format: &Format,
    out: &mut Buffered<O>,
    err: &mut Buffered<E>,
) -> Result<PrintedPackages, Halt>
    requires asked { IsAskable D.Disk disk.old db.now }
    requires prints { prints_packages request ≡ true }
    ensures went { IsTrue D.tells → Serves picker.now (packages_in D.Disk disk.old db.now) selection.now
        → Recalls (packages_in D.Disk disk.old db.now) recent.old → (j : ℕ)
        → PartIs (packages_part (step_by request format.now j) after (picks (packages_in D.Disk disk.old db.now) selection.now))
        (fails_in result) (shown_outputs O.Sink E.Sink out.old err.old) (shown_outputs O.Sink E.Sink out.new err.new)
        (ReadsIn j after picker.now db.now (pkg_read D.Disk disk.old) (pkg_read D.Disk disk.new)) }
    ensures some { IsTrue D.tells → Serves picker.now (packages_in D.Disk disk.old db.now) selection.now
        → Recalls (packages_in D.Disk disk.old db.now) recent.old
        → IfOk result (λ p. p.some ≡ is_some_of (above after (picks (packages_in D.Disk disk.old db.now)
        selection.now))) }
    ensures recalls { IsTrue D.tells → Recalls (packages_in D.Disk disk.old db.now) recent.old
        → Recalls (packages_in D.Disk disk.old db.now) recent.new }
    ensures reads { pkg_read D.Disk disk.new + reach_to after picker.now db.now ≤ pkg_read D.Disk disk.old + reach_all picker.now db.now }
    ensures looks { OnlyReads D.Disk Pkg (packages_cost db.now - packages_cost_to after db.now) disk.old disk.new }
    ensures disk { DiskFault D.Disk (result ≡ Err Halt.DiskFault) disk.old disk.new }
    ensures unbroken { (unit : ℕ) → result ≢ Err (Halt.BadIndex unit) }
    ensures class { IfErr result IsOfPrint }
    ensures hands { HaltHands O.Sink E.Sink result out.old err.old out.new err.new }
{
    let mut number = after;
    let mut some = false;
    let mut fails = false;
    loop {
        match picker.next_number_after(alloc, db, disk, selection, recent, number) {
            Ok(Some(next)) => {
                let Some(picked) = recent.recall(next) else {
                    unreachable!()
                };
                let to_out = print_picked(alloc, request, format, picked, out, err)?;
                number = next;
                some = true;
                fails |= !to_out;
            }
            Ok(None) => return Ok(PrintedPackages { some, fails }),
            Err(fault) => return Err(halt_of_pick(fault)),
        }
    }
}
