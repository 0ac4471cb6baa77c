//! Adding package files.

ghost use Rattle.std.specs.Prelude.{◌≡◌, ℕ, ◌+◌, ◌^◌, ◌<◌, Some, None, length, map, IsTrue, Ok, Err, IfOk, IfErr};
ghost use Rattle.rpm_change.specs.Prelude.{add_files, EndedOnErr, Hand, IsGathering, HasTarget, KeepsShelf, IsOfPutting, IsReady, put_file, state_in, ProgressInBoth, ProgressOwing};

use crate::halting::halt_of;
use crate::install::read_installed;
use crate::single::put_within;
use rpm_db::{Batch, Db};
use rpm_effects::{Halt, Tally, put_absent, put_refused, stop_in};
use rpm_outside::{Absent, Buffered, Disk, Shelf, Sink};
use std::alloc::Global;

/// How a package file goes into the database: in place of a number's package, or for `None` under a new number; and at
/// which moment, in seconds since 1970.
#[derive(Clone, Copy)]
pub struct Placing {
    pub number: Option<u32>,
    pub moment: u32,
}

/// Puts the package file under a path into the database while a batch goes on, or writes to err why it doesn't go.
pub fn put_file<D: Disk, S: Shelf, E: Sink + Drop>(
    alloc: Global,
    db: &mut Db,
    disk: &mut D,
    shelf: &mut S,
    batch: &mut Batch,
    how: Placing,
    path: &str,
    err: &mut Buffered<E>,
) -> Result<Tally, Halt>
    requires gathering { IsGathering D.Disk disk.old db.old batch.old }
    requires held { HasTarget how.number db.old }
    ensures went { (j : ℕ) → ProgressOwing D.Disk (IsTrue D.tells × IsTrue S.tells) disk.old disk.new db.old db.new batch.old batch.new result
        (EndedOnErr E.Sink err.old err.new) (put_file how (S.paths shelf.old) j path.now) }
    ensures one { IfOk result (λ tally. tally.failed + tally.changes ≡ 1) }
    ensures kinds { IfErr result (IsOfPutting how.number) }
    ensures shelf { KeepsShelf S.Shelf (result ≡ Err Halt.ShelfFault) shelf.old shelf.new }
    ensures err { Hand E.Sink (result ≡ Err Halt.ErrFault) err.old err.new }
{
    match shelf.open(path) {
        Ok(()) => match read_installed(alloc, shelf, how.moment) {
            Ok(blob) => put_within(alloc, db, disk, batch, how.number, &blob),
            Err(fault) => match stop_in(fault) {
                Some(halt) => Err(halt),
                None => put_refused(alloc, err, path.as_bytes(), fault),
            },
        },
        Err(Absent) => put_absent(err, path.as_bytes()),
    }
}

/// Adds the package files under these paths, one after the other, while a batch goes on.
fn add_each<D: Disk, S: Shelf, E: Sink + Drop>(
    alloc: Global,
    db: &mut Db,
    disk: &mut D,
    shelf: &mut S,
    batch: &mut Batch,
    paths: &[&str],
    now: u32,
    err: &mut Buffered<E>,
) -> Result<Tally, Halt>
    requires few { length paths.now < 2 ^ 32 }
    requires gathering { IsGathering D.Disk disk.old db.old batch.old }
    ensures went { ProgressOwing D.Disk (IsTrue D.tells × IsTrue S.tells) disk.old disk.new db.old db.new batch.old batch.new result
        (EndedOnErr E.Sink err.old err.new)
        (add_files (S.paths shelf.old) now (state_in D.Disk disk.old db.old) (map (λ path. path.now) paths.now)) }
    ensures kinds { IfErr result (IsOfPutting None) }
    ensures shelf { KeepsShelf S.Shelf (result ≡ Err Halt.ShelfFault) shelf.old shelf.new }
    ensures err { Hand E.Sink (result ≡ Err Halt.ErrFault) err.old err.new }
{
    let how = Placing {
        number: None,
        moment: now,
    };
    let mut failed = 0u32;
    let mut changes = 0u32;
    for path in paths {
        let tally = put_file(alloc, db, disk, shelf, batch, how, path, err)?;
        failed += tally.failed;
        changes += tally.changes;
    }
    Ok(Tally { failed, changes })
}

/// Adds the package files under these paths, one after the other, each under a new number: its header with the
/// signature's entries, and with `INSTALLTIME` and `INSTALLTID`, both `now` in seconds since 1970. A path that can't be
/// opened has a line on `err`, and so has a file that is refused; its argument fails. The path `-` is the standard
/// input. One header at a time is kept in memory, and the rows of all: the index is changed and sealed once, after the
/// last.
///
/// The disk may be an overlay: then all changes can be committed as one. After an `Err` the database isn't to be used
/// further.
///
/// # Errors
///
/// Going through the files in order, the first whose header is refused decides, and of it the first of these four
/// limits that it meets:
///
/// - `NumbersSpent` where the next number is 4294967295.
/// - `GenerationSpent` where the generation is 4294967295; each file that is added raises it by one.
/// - `StoreFull` where the header, or a package in the way of its slot page, fits nowhere below 4 GiB.
/// - `IndexFull` where the rows after it need more than 268435456 units, with that number: so where the index held the
///   rows at the start.
///
/// And besides:
///
/// - `BadIndex` never where the index held the rows of the packages at the start, or was well formed as a whole; `unit`
///   has the first fault of a chain, or is 1, which counts too little.
/// - `DiskFault`, `ShelfFault` and `ErrFault` only where that object's count of faults rose.
/// - `NoMemory` where a file, a change or a line finds no memory. It answers nothing else.
pub fn add_files<D: Disk, S: Shelf, E: Sink + Drop>(
    alloc: Global,
    db: &mut Db,
    disk: &mut D,
    shelf: &mut S,
    paths: &[&str],
    now: u32,
    err: &mut Buffered<E>,
) -> Result<Tally, Halt>
    requires few { length paths.now < 2 ^ 32 }
    requires ready { IsReady D.Disk disk.old db.old }
    ensures went { ProgressInBoth D.Disk (IsTrue D.tells × IsTrue S.tells) disk.old disk.new db.old db.new result
        (EndedOnErr E.Sink err.old err.new)
        (add_files (S.paths shelf.old) now (state_in D.Disk disk.old db.old) (map (λ path. path.now) paths.now)) }
    ensures kinds { IfErr result (IsOfPutting None) }
    ensures shelf { KeepsShelf S.Shelf (result ≡ Err Halt.ShelfFault) shelf.old shelf.new }
    ensures err { Hand E.Sink (result ≡ Err Halt.ErrFault) err.old err.new }
{
    let mut batch = Batch::begin(alloc, db);
    let tally = add_each(alloc, db, disk, shelf, &mut batch, paths, now, err)?;
    match batch.finish(alloc, db, disk) {
        Ok(()) => Ok(tally),
        Err(fault) => Err(halt_of(fault)),
    }
}
