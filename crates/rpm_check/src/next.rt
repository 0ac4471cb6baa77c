//! The next requirement that no package meets.

ghost use Rattle.std.specs.Prelude.{◌≡◌, IsTrue, filter, IfOk};
ghost use Rattle.std.specs.FinMap as finite;
ghost use Rattle.rpm_check.specs.Prelude.{CheckQuestion, HasKeptRows, is_above_pair, IsAskable, IsFirst, IsNextUnmet, KnowsOn, lacks, packages_in, requirements, unmet, unmet_after, unmet_at, unmet_in};

use crate::faults::CheckFault;
use crate::lacking::{REQUIRES, lacks, required_count};
use crate::list::Unmet;
use crate::memo::Memo;
use crate::package::read_header;
use rpm_db::Db;
use rpm_header::View;
use rpm_outside::Disk;
use rpm_tags::dependencies;
use std::alloc::Global;

/// Whether a pair of a number and a place stands above another, by number and then by place.
fn is_above(n: u32, i: u32, pair: Unmet) -> bool
    ensures { result ≡ is_above_pair n i pair }
{
    pair.number > n || (pair.number == n && pair.place > i)
}

/// The first requirement of a package that is lacking, of those above a pair.
fn next_lacking<D: Disk>(
    alloc: Global,
    db: &Db,
    disk: &mut D,
    memo: &mut Memo,
    number: u32,
    view: &View<'_>,
    n: u32,
    i: u32,
) -> Result<Option<Unmet>, CheckFault>
    requires asked { IsAskable D.Disk disk.old db.now }
    requires remembers { KnowsOn D.Disk disk.old db.now memo.old }
    ensures told { IfOk result (λ next. IsTrue D.tells → HasKeptRows D.Disk disk.old db.now
        → IsFirst (filter (is_above_pair n i) (unmet_in (lacks (packages_in D.Disk disk.old db.now)) number
        (requirements view.now) 0)) next) }
    ensures remembered { KnowsOn D.Disk disk.old db.now memo.new }
    ensures asks { CheckQuestion D.Disk disk.old disk.new db.now result }
{
    let mut left = dependencies(view, REQUIRES);
    for place in 0..required_count(view) {
        let Some(needed) = left.next() else {
            return Ok(None);
        };
        let pair = Unmet { number, place };
        if !is_above(n, i, pair) {
            continue;
        }
        if lacks(alloc, db, disk, memo, &needed)? {
            return Ok(Some(pair));
        }
    }
    Ok(None)
}

/// The first requirement of a number's package that is lacking, of those above a pair.
fn next_in<D: Disk>(
    alloc: Global,
    db: &Db,
    disk: &mut D,
    memo: &mut Memo,
    number: u32,
    room: &mut Vec<u8>,
    n: u32,
    i: u32,
) -> Result<Option<Unmet>, CheckFault>
    requires asked { IsAskable D.Disk disk.old db.now }
    requires remembers { KnowsOn D.Disk disk.old db.now memo.old }
    ensures told { IfOk result (λ next. IsTrue D.tells → HasKeptRows D.Disk disk.old db.now
        → IsFirst (filter (is_above_pair n i) (unmet_at (lacks (packages_in D.Disk disk.old db.now)) number
        (finite.get (packages_in D.Disk disk.old db.now) number))) next) }
    ensures remembered { KnowsOn D.Disk disk.old db.now memo.new }
    ensures asks { CheckQuestion D.Disk disk.old disk.new db.now result }
{
    match read_header(alloc, db, disk, number, room)? {
        Some(view) => next_lacking(alloc, db, disk, memo, number, &view, n, i),
        None => Ok(None),
    }
}

/// The least requirement that no package meets above the pair of a number and a place; `None` exactly where there is
/// none. A search begins at (0, 0), goes on at the pair that was answered last, and may begin at any other.
///
/// It answers what `unmet` lists, one at a time, for other programs: no crate here calls it. Reads the blocks of the
/// package of this number and of those after it, up to the one that it answers, each once, and looks each distinct
/// requirement of these up once in a call, as `is_met` does. Holds these requirements and one package at a time.
///
/// # Errors
///
/// Those of `unmet`, with the same causes.
pub fn next_unmet<D: Disk>(
    alloc: Global,
    db: &Db,
    disk: &mut D,
    n: u32,
    i: u32,
) -> Result<Option<Unmet>, CheckFault>
    requires asked { IsAskable D.Disk disk.old db.now }
    ensures told { IfOk result (λ next. IsTrue D.tells → HasKeptRows D.Disk disk.old db.now → IsNextUnmet (packages_in D.Disk disk.old db.now) n i next) }
    ensures begins { IsTrue D.tells → unmet_after (packages_in D.Disk disk.old db.now) 0 0 ≡ unmet (packages_in D.Disk disk.old db.now) }
    ensures asks { CheckQuestion D.Disk disk.old disk.new db.now result }
{
    let mut memo = Memo::new(alloc);
    let mut room = Vec::new(alloc);
    let mut passed = n.saturating_sub(1);
    while let Some(number) = db.next_above(passed) {
        let found = next_in(alloc, db, disk, &mut memo, number, &mut room, n, i)?;
        if found.is_some() {
            return Ok(found);
        }
        passed = number;
    }
    Ok(None)
}
