//! A package file in place of a package.

ghost use Rattle.std.specs.Prelude.{◌≡◌, ◌+◌, Some, false, IsTrue, Err, IfOk, IfErr};
ghost use Rattle.rpm_change.specs.Prelude.{EndedOnErr, Hand, HasTarget, KeepsShelf, holds, IsOfPutting, IsReady, put_file, replace, state_in, ProgressInBoth};

use crate::add::{Placing, put_file};
use crate::halting::halt_of;
use crate::missing::put_missing;
use rpm_db::{Batch, Db};
use rpm_effects::{Halt, Tally};
use rpm_outside::{Buffered, Disk, Shelf, Sink};
use std::alloc::Global;

/// Puts the package file under a path into the database, by a batch of its own, or writes to err why it doesn't go.
fn put_alone<D: Disk, S: Shelf, E: Sink + Drop>(
    alloc: Global,
    db: &mut Db,
    disk: &mut D,
    shelf: &mut S,
    how: Placing,
    path: &str,
    err: &mut Buffered<E>,
) -> Result<Tally, Halt>
    requires ready { IsReady D.Disk disk.old db.old }
    requires held { HasTarget how.number db.old }
    ensures went { ProgressInBoth D.Disk (IsTrue D.tells × IsTrue S.tells) disk.old disk.new db.old db.new result
        (EndedOnErr E.Sink err.old err.new) (put_file how (S.paths shelf.old) 0 path.now) }
    ensures one { IfOk result (λ tally. tally.failed + tally.changes ≡ 1) }
    ensures kinds { IfErr result (IsOfPutting how.number) }
    ensures shelf { KeepsShelf S.Shelf (result ≡ Err Halt.ShelfFault) shelf.old shelf.new }
    ensures err { Hand E.Sink (result ≡ Err Halt.ErrFault) err.old err.new }
{
    let mut batch = Batch::begin(alloc, db);
    let tally = put_file(alloc, db, disk, shelf, &mut batch, how, path, err)?;
    match batch.finish(alloc, db, disk) {
        Ok(()) => Ok(tally),
        Err(fault) => Err(halt_of(fault)),
    }
}

/// Puts the package file under a path in place of the package that a number has, Good or Bad, with the entries that
/// `add_files` gives it. Where no package has the number, that has a line on `err`, and the file isn't opened. A path
/// that can't be opened has a line, and so has a file that is refused.
///
/// The disk may be an overlay. After an `Err` the database isn't to be used further.
///
/// # Errors
///
/// Where a header is to be put, the first of these three limits that it meets is answered:
///
/// - `GenerationSpent` where the generation is 4294967295.
/// - `StoreFull` where the header, as it replaces the old one, fits nowhere below 4 GiB.
/// - `IndexFull` where the rows after it need more than 268435456 units, with that number: so where the index held the
///   rows at the start.
///
/// And besides:
///
/// - `BadIndex` never where the index held the rows of the packages at the start, or was well formed as a whole; `unit`
///   has the first fault of a chain, or is 1, which counts too little.
/// - `DiskFault`, `ShelfFault` and `ErrFault` only where that object's count of faults rose.
/// - `NoMemory` where the file, the change or a line finds no memory. It answers nothing else.
pub fn replace_package<D: Disk, S: Shelf, E: Sink + Drop>(
    alloc: Global,
    db: &mut Db,
    disk: &mut D,
    shelf: &mut S,
    number: u32,
    path: &str,
    now: u32,
    err: &mut Buffered<E>,
) -> Result<Tally, Halt>
    requires ready { IsReady D.Disk disk.old db.old }
    ensures went { ProgressInBoth D.Disk (IsTrue D.tells × IsTrue S.tells) disk.old disk.new db.old db.new result
        (EndedOnErr E.Sink err.old err.new)
        (replace (S.paths shelf.old) now (state_in D.Disk disk.old db.old) number path.now) }
    ensures one { IfOk result (λ tally. tally.failed + tally.changes ≡ 1) }
    ensures kinds { IfErr result (IsOfPutting (Some number)) }
    ensures untried { holds number db.old ≡ false → shelf.new ≡ shelf.old }
    ensures shelf { KeepsShelf S.Shelf (result ≡ Err Halt.ShelfFault) shelf.old shelf.new }
    ensures err { Hand E.Sink (result ≡ Err Halt.ErrFault) err.old err.new }
{
    if db.holds(number) {
        let how = Placing {
            number: Some(number),
            moment: now,
        };
        put_alone(alloc, db, disk, shelf, how, path, err)
    } else {
        put_missing(alloc, err, number)
    }
}
