//! The one limit of a list that no command line reaches: how many headers it has.

ghost use Rattle.std.specs.Prelude.{IfSome};
ghost use Rattle.rpm_db.specs.Changed.{IsReady};

use crate::fixtures::{HEADER, MAGIC, joined};
use rpm_change::import_most;
use rpm_db::Db;
use rpm_effects::{Halt, Tally};
use rpm_outside::{Buffered, Disk, MemDisk, MemShelf, MemSink};
use std::alloc::{AllocError, Global};

// The database of a disk that has none, made and open to be changed.
fn made<D: Disk>(alloc: Global, disk: &mut D) -> Option<Db>
    ensures ready { IfSome result (λ db. IsReady D.Disk disk.new db) }
{
    let mut db = Db::open(alloc, disk).ok()?;
    match db.init(alloc, disk) {
        Ok(true) => Some(db),
        _ => None,
    }
}

// What importing a list of at most so many headers comes to, and whether err took these lines.
fn import(
    alloc: Global,
    list: &[u8],
    most: u32,
    lines: &str,
) -> Result<(Option<Result<Tally, Halt>>, bool), AllocError> {
    if most > 1000 {
        return Ok((None, false));
    }
    let mut disk = MemDisk::new(alloc, &[], &[], &[])?;
    let mut shelf = MemShelf::new(alloc);
    shelf.put("-", list)?;
    let mut err = Buffered::new(MemSink::new(alloc));
    let Some(mut db) = made(alloc, &mut disk) else {
        return Ok((None, false));
    };
    let said = import_most(alloc, &mut db, &mut disk, &mut shelf, most, &mut err);
    Ok((Some(said), err.inner().bytes() == lines.as_bytes()))
}

// How many headers a list of four may have, how many arguments fail, how many changes there are, and the lines.
const LIMITS: &[(u32, u32, u32, &str)] = &[
    (2, 1, 2, "error: header 3: too many headers\n"),
    (3, 1, 3, "error: header 4: too many headers\n"),
    (4, 0, 4, ""),
];

#[test]
fn a_list_of_too_many_headers_is_told(rt: HostRuntime) -> Result<(), AllocError> {
    let alloc = rt.alloc();
    let one = joined(alloc, &[MAGIC, HEADER])?;
    let four = joined(alloc, &[&one, &one, &one, &one])?;
    let mut are_told = true;
    for &(most, failed, changes, lines) in LIMITS {
        let tally = Tally { failed, changes };
        let told = import(alloc, &four, most, lines)? == (Some(Ok(tally)), true);
        are_told = are_told && told;
    }
    assert!(rt; are_told);
    Ok(())
}
