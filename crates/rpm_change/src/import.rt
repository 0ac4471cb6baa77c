//! Importing a list of headers.

ghost use Rattle.std.specs.Prelude.{◌≡◌, ◌^◌, ◌<◌, codes, IsTrue, Err, IfErr};
ghost use Rattle.rpm_change.specs.Prelude.{bytes_at, EndedOnErr, Hand, KeepsShelf, import_list, IsGathering, IsOfImporting, IsReady, bytes_left, list_course, ProgressInBoth, ProgressOwing};

use crate::halting::halt_of;
use crate::turn::import_next;
use rpm_db::{Batch, Db};
use rpm_effects::{Halt, Tally, put_failing};
use rpm_outside::{Absent, Buffered, Disk, Shelf, Sink};
use std::alloc::Global;

/// The most headers that one list may have.
const MAX_HEADERS: u32 = 16_777_215;

/// Imports the list that is open, of at most so many headers, while a batch goes on. Counts each line that it writes.
fn import_all<D: Disk, S: Shelf, E: Sink + Drop>(
    alloc: Global,
    db: &mut Db,
    disk: &mut D,
    shelf: &mut S,
    batch: &mut Batch,
    most: u32,
    err: &mut Buffered<E>,
) -> Result<Tally, Halt>
    requires few { most < 2 ^ 31 }
    requires gathering { IsGathering D.Disk disk.old db.old batch.old }
    ensures went { ProgressOwing D.Disk (IsTrue D.tells × IsTrue S.tells) disk.old disk.new db.old db.new batch.old
        batch.new result (EndedOnErr E.Sink err.old err.new)
        (list_course most 1 (bytes_left (S.rest shelf.old))) }
    ensures kinds { IfErr result IsOfImporting }
    ensures shelf { KeepsShelf S.Shelf (result ≡ Err Halt.ShelfFault) shelf.old shelf.new }
    ensures err { Hand E.Sink (result ≡ Err Halt.ErrFault) err.old err.new }
{
    let mut failed = 0u32;
    let mut changes = 0u32;
    let mut place = 1u32;
    let mut is_last = false;
    let mut room = Vec::new(alloc);
    while !is_last {
        let turn = import_next(alloc, db, disk, shelf, batch, &mut room, most, place, err)?;
        failed += turn.tally.failed;
        changes += turn.tally.changes;
        place += 1;
        is_last = turn.is_last;
    }
    Ok(Tally { failed, changes })
}

/// Imports the list under the path `-` as [`import_list`] does, of at most `most` headers, which are below 2^31: a
/// header after them ends the list with a line of its own.
pub fn import_most<D: Disk, S: Shelf, E: Sink + Drop>(
    alloc: Global,
    db: &mut Db,
    disk: &mut D,
    shelf: &mut S,
    most: u32,
    err: &mut Buffered<E>,
) -> Result<Tally, Halt>
    requires few { most < 2 ^ 31 }
    requires ready { IsReady D.Disk disk.old db.old }
    ensures went { ProgressInBoth D.Disk (IsTrue D.tells × IsTrue S.tells) disk.old disk.new db.old db.new result
        (EndedOnErr E.Sink err.old err.new) (import_list most (bytes_at (S.paths shelf.old) (codes "-"))) }
    ensures kinds { IfErr result IsOfImporting }
    ensures shelf { KeepsShelf S.Shelf (result ≡ Err Halt.ShelfFault) shelf.old shelf.new }
    ensures err { Hand E.Sink (result ≡ Err Halt.ErrFault) err.old err.new }
{
    match shelf.open("-") {
        Ok(()) => {
            let mut batch = Batch::begin(alloc, db);
            let tally = import_all(alloc, db, disk, shelf, &mut batch, most, err)?;
            match batch.finish(alloc, db, disk) {
                Ok(()) => Ok(Tally {
                    failed: tally.failed.min(1),
                    changes: tally.changes,
                }),
                Err(fault) => Err(halt_of(fault)),
            }
        }
        Err(Absent) => put_failing(err, b"error: open of - failed\n"),
    }
}

/// Imports the header list under the path `-`, the standard input: each of its headers is added as it is, one at a
/// time. Nothing but the present one is in memory, in a vector that is kept from one to the next and is as long as
/// the longest so far, and the rows of all: the index is changed and sealed once, after the last. A header that is
/// none has a line on `err` and is passed over. A fault of the list has a line and ends it, and so has one header too
/// many: at most 16777215 are taken. An absent `-` has a line too. The command counts as one argument, which fails
/// once, however many lines there are.
///
/// The disk may be an overlay: then all changes can be committed as one. After an `Err` the database isn't to be used
/// further.
///
/// # Errors
///
/// Going through the headers in order, the first that is refused decides, and of it the first of these four limits that
/// it meets:
///
/// - `NumbersSpent` where the next number is 4294967295.
/// - `GenerationSpent` where the generation is 4294967295; each header that is added raises it by one.
/// - `StoreFull` where it, or a package in the way of its slot page, fits nowhere below 4 GiB.
/// - `IndexFull` where the rows after it need more than 268435456 units, with that number: so where the index held the
///   rows at the start.
///
/// And besides:
///
/// - `BadIndex` never where the index held the rows of the packages at the start, or was well formed as a whole; `unit`
///   has the first fault of a chain, or is 1, which counts too little.
/// - `DiskFault`, `ShelfFault` and `ErrFault` only where that object's count of faults rose.
/// - `NoMemory` where a header, a change or a line finds no memory. It answers nothing else.
pub fn import_list<D: Disk, S: Shelf, E: Sink + Drop>(
    alloc: Global,
    db: &mut Db,
    disk: &mut D,
    shelf: &mut S,
    err: &mut Buffered<E>,
) -> Result<Tally, Halt>
    requires ready { IsReady D.Disk disk.old db.old }
    ensures went { ProgressInBoth D.Disk (IsTrue D.tells × IsTrue S.tells) disk.old disk.new db.old db.new result
        (EndedOnErr E.Sink err.old err.new) (import_list MAX_HEADERS (bytes_at (S.paths shelf.old) (codes "-"))) }
    ensures kinds { IfErr result IsOfImporting }
    ensures shelf { KeepsShelf S.Shelf (result ≡ Err Halt.ShelfFault) shelf.old shelf.new }
    ensures err { Hand E.Sink (result ≡ Err Halt.ErrFault) err.old err.new }
{
    import_most(alloc, db, disk, shelf, MAX_HEADERS, err)
}
