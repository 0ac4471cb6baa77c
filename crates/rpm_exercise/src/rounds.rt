//! The changes of the exercise, round by round.

ghost use Rattle.std.specs.Prelude.{◌≡◌, ◌+◌, ◌<◌, ◌≤◌, [], ◌∷◌, true, IfOk, IfErr};
ghost use Rattle.rpm_exercise.specs.Prelude.{change_at, changes, changes_after, GathersThrough, holds, IsGathering, HasTarget, IsReady, made_blob, round_changes, state_in, round_turn, ChangesProgress};

use crate::headers::generated;
use rpm_change::{halt_of, put_within, take_within};
use rpm_db::{Batch, Db};
use rpm_effects::{Halt, IDLE, Tally};
use rpm_outside::Disk;
use std::alloc::Global;

/// What is done with the headers, one after the other.
#[derive(Clone, Copy)]
pub enum Round {
    /// Each is added.
    Adding,
    /// Each third is replaced.
    Replacing,
    /// Each fifth is erased.
    Erasing,
}

/// Puts header `i` with the leading number `m` under a new number, or in place of the package that a number has.
fn put_one<D: Disk>(
    alloc: Global,
    db: &mut Db,
    disk: &mut D,
    batch: &mut Batch,
    number: Option<u32>,
    i: u32,
    m: u32,
) -> Result<Tally, Halt>
    requires small { i < 4294967295 }
    requires gathering { IsGathering D.Disk disk.old db.old batch.old }
    requires held { HasTarget number db.old }
    ensures went { GathersThrough D.Disk (change_at number (made_blob i m) ∷ []) disk.old disk.new db.old db.new batch.old batch.new result }
    ensures few { IfOk result (λ tally. tally.changes ≤ 1) }
{
    let blob = generated(alloc, i, m)?;
    put_within(alloc, db, disk, batch, number, &blob)
}

/// The number of header `i`. It was given before, so a package has it.
fn number_of(db: &Db, b: u32, i: u32) -> Result<u32, Halt>
    ensures value { IfOk result (λ number. number ≡ b + i) }
    ensures held { IfOk result (λ number. holds number db.now ≡ true) }
    ensures kinds { IfErr result (λ halt. halt ≡ Halt.NoMemory) }
{
    match b.checked_add(i) {
        Some(number) if db.holds(number) => Ok(number),
        _ => Err(Halt::NoMemory),
    }
}

/// What a round does with header `i`, where `b` is the number before the first that is added.
fn take_turn<D: Disk>(
    alloc: Global,
    db: &mut Db,
    disk: &mut D,
    batch: &mut Batch,
    round: Round,
    b: u32,
    i: u32,
) -> Result<Tally, Halt>
    requires small { i < 4294967295 }
    requires gathering { IsGathering D.Disk disk.old db.old batch.old }
    ensures went { GathersThrough D.Disk (round_turn round b i) disk.old disk.new db.old db.new batch.old batch.new result }
    ensures few { IfOk result (λ tally. tally.changes ≤ 1) }
{
    match round {
        Round::Adding => put_one(alloc, db, disk, batch, None, i, 1),
        Round::Replacing => {
            if i % 3 != 0 {
                return Ok(IDLE);
            }
            let number = number_of(db, b, i)?;
            put_one(alloc, db, disk, batch, Some(number), i, 2)
        }
        Round::Erasing => {
            if i % 5 != 0 {
                return Ok(IDLE);
            }
            let number = number_of(db, b, i)?;
            take_within(alloc, db, disk, batch, number)
        }
    }
}

/// Goes through the headers from 1 to `n`.
fn go_round<D: Disk>(
    alloc: Global,
    db: &mut Db,
    disk: &mut D,
    batch: &mut Batch,
    round: Round,
    b: u32,
    n: u32,
) -> Result<Tally, Halt>
    requires few { n ≤ 100000 }
    requires gathering { IsGathering D.Disk disk.old db.old batch.old }
    ensures went { GathersThrough D.Disk (round_changes round b n) disk.old disk.new db.old db.new batch.old batch.new result }
    ensures few { IfOk result (λ tally. tally.changes ≤ n) }
{
    let mut changes = 0u32;
    for done in 0..n {
        let tally = take_turn(alloc, db, disk, batch, round, b, done + 1)?;
        changes += tally.changes;
    }
    Ok(Tally { failed: 0, changes })
}

/// Goes through the three rounds, each from 1 to `n`.
fn go_rounds<D: Disk>(
    alloc: Global,
    db: &mut Db,
    disk: &mut D,
    batch: &mut Batch,
    b: u32,
    n: u32,
) -> Result<Tally, Halt>
    requires few { n ≤ 100000 }
    requires gathering { IsGathering D.Disk disk.old db.old batch.old }
    ensures { GathersThrough D.Disk (changes_after b n) disk.old disk.new db.old db.new batch.old batch.new result }
{
    let added = go_round(alloc, db, disk, batch, Round::Adding, b, n)?;
    let replaced = go_round(alloc, db, disk, batch, Round::Replacing, b, n)?;
    let erased = go_round(alloc, db, disk, batch, Round::Erasing, b, n)?;
    Ok(Tally {
        failed: 0,
        changes: added.changes + (replaced.changes + erased.changes),
    })
}

/// Adds the headers 1 to `n` with the leading number 1; then puts each that is divisible by 3 in its own place with the
/// leading number 2; then erases each that is divisible by 5. Each round goes by rising number. Header `i` has the
/// `i`th number after those that the database gave before. These are `n + n / 3 + n / 5` changes, and nothing fails.
///
/// One header is held at a time, below 512 bytes, and the rows of all: the changes are one batch, and the index is
/// changed and sealed once, after the last. Of `Packages.db` the blocks of each package that is replaced or erased are
/// read once. The disk may be an overlay: then all changes can be committed as one. After an `Err` the database isn't to
/// be used further. The headers and the rounds are this project's own.
///
/// # Errors
///
/// Going through the changes in order, the first that is refused decides, and of it the first of these four limits that
/// it meets:
///
/// - `NumbersSpent` where a header is to be added and the next number is 4294967295.
/// - `GenerationSpent` where the generation is 4294967295; each change raises it by one.
/// - `StoreFull` where a header, or a package in the way of its slot page, fits nowhere below 4 GiB.
/// - `IndexFull` where the rows after it need more than 268435456 units, with that number: so where the index held the
///   rows at the start.
///
/// And besides:
///
/// - `BadIndex` never where the index held the rows of the packages at the start.
/// - `DiskFault` only where the disk's count of faults rose.
/// - `NoMemory` where a header or a change finds no memory; also where a number that was given isn't there or is too
///   great, which takes a disk that doesn't keep what it is given. It answers nothing else.
pub fn change_all<D: Disk>(alloc: Global, db: &mut Db, disk: &mut D, n: u32) -> Result<Tally, Halt>
    requires few { n ≤ 100000 }
    requires ready { IsReady D.Disk disk.old db.old }
    ensures { ChangesProgress D.Disk (changes n (state_in D.Disk disk.old db.old)) disk.old disk.new db.old db.new result }
{
    let b = db.next_number().saturating_sub(1);
    let mut batch = Batch::begin(alloc, db);
    let tally = go_rounds(alloc, db, disk, &mut batch, b, n)?;
    match batch.finish(alloc, db, disk) {
        Ok(()) => Ok(tally),
        Err(fault) => Err(halt_of(fault)),
    }
}
