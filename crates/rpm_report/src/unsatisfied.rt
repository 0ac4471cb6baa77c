//! `AnswersKeyed` of the theorem: the requirements that no package meets, each with its line.

ghost use Rattle.std.specs.Prelude.{◌≡◌, ◌==◌, ◌<◌, ◌≤◌, [], ◌++◌, drop, length, map, if◌then◌else◌, true, IsTrue, Err, IfOk, IfErr, OnOk, slice_get};
ghost use Rattle.std.specs.List.{All, prefix_len};
ghost use Rattle.rpm_report.specs.Prelude.{Anywhere, DiskFault, HaltHands, has, HasKeptRows, header, header_or, is_open, IsAskable, IsOfPrint, line_of, needed_in, option_map, OutTakes, packages_in, PartIs, OnlyReadsIndexed, range_text, PartProgress, requirements, shown_outputs, HaltsOfSome, TellsOut, unmet_lines, unmet_step, unsatisfied_part};

use crate::unreadable::{halt_of_check, read_into, tell_each_bad};
use rpm_check::{Unmet, unmet};
use rpm_db::Db;
use rpm_effects::Halt;
use rpm_filecheck::label_of;
use rpm_header::View;
use rpm_outside::{Buffered, Disk, Sink};
use rpm_print::put_text;
use rpm_tags::{Dependency, DependencyIter, Tags, dependencies, numbers};
use std::alloc::{AllocError, Global};

const REQUIRES: Tags = Tags {
    names: numbers::REQUIRENAME,
    flags: numbers::REQUIREFLAGS,
    versions: numbers::REQUIREVERSION,
};

/// Whether flags have a bit.
fn has(flags: u64, bit: u64) -> bool
    ensures { result ≡ has bit flags }
{
    flags & bit != 0
}

/// Whether every version is in a range: it has no sense, or no version.
#[tactic(auto, unfolding(rpm_version::specs::Range::is_open))]
fn is_open(flags: u64, version: &[u8]) -> bool
    ensures { result ≡ is_open flags version.now }
{
    !(has(flags, 2) || has(flags, 4) || has(flags, 8)) || version.is_empty()
}

/// The letter of a bit, where the flags have it.
fn letter(flags: u64, bit: u64, letter: &'static [u8]) -> &'static [u8]
    ensures { result.now ≡ if has bit flags then letter.now else [] }
{
    if has(flags, bit) { letter } else { b"" }
}

/// Adds the comparison and the version of a requirement, each after a space; nothing where one of them is missing.
#[tactic(auto, using(crate::proofs::Lettered::letters_are))]
fn push_range(text: &mut Vec<u8>, flags: u64, version: &[u8]) -> Result<(), AllocError>
    ensures { OnOk result (text.new.items ≡ text.old.items ++ range_text flags version.now) }
{
    if is_open(flags, version) {
        return Ok(());
    }
    text.extend_from_slice(b" ")?;
    text.extend_from_slice(letter(flags, 2, b"<"))?;
    text.extend_from_slice(letter(flags, 4, b">"))?;
    text.extend_from_slice(letter(flags, 8, b"="))?;
    text.extend_from_slice(b" ")?;
    text.extend_from_slice(version)
}

/// The requirements of a header that are still to be passed, and how many were passed. Rising places are found in one
/// walk over them.
#[derive(Drop)]
struct NeedsLeft<'a> {
    needs: DependencyIter<'a>,
    passed: usize,
}

/// All requirements of a header.
fn all_needs<'a>(view: &View<'a>) -> NeedsLeft<'a>
    ensures left { result.needs ≡ drop result.passed (requirements view.now) }
    ensures passed { result.passed ≡ 0 }
{
    NeedsLeft {
        needs: dependencies(view, REQUIRES),
        passed: 0,
    }
}

/// Begins with all requirements of a header again, where one of this place was passed.
fn rewind<'a>(view: &View<'a>, left: &mut NeedsLeft<'a>, place: usize)
    requires left { left.old.needs ≡ drop left.old.passed (requirements view.now) }
    ensures left { left.new.needs ≡ drop left.new.passed (requirements view.now) }
    ensures reaches { left.new.passed ≤ place }
{
    if place < left.passed {
        *left = all_needs(view);
    }
}

/// The requirement at a place of a header, if there is one. Goes on from the place that was asked for last, where this
/// one stands behind it.
fn needed_at<'a>(view: &View<'a>, left: &mut NeedsLeft<'a>, place: u32) -> Option<Dependency<'a>>
    requires left { left.old.needs ≡ drop left.old.passed (requirements view.now) }
    ensures value { option_map needed_in result ≡ slice_get (requirements view.now) place }
    ensures left { left.new.needs ≡ drop left.new.passed (requirements view.now) }
{
    let place = place as usize;
    rewind(view, left, place);
    let needed = left.needs.nth(place - left.passed);
    left.passed = place + 1;
    needed
}

/// Adds the line of the requirement at a place of the header with this label; nothing where there is none.
#[tactic(auto, unfolding(crate::specs::Requirements::unmet_line))]
fn push_unmet<'a>(
    text: &mut Vec<u8>,
    view: &View<'a>,
    left: &mut NeedsLeft<'a>,
    label: &[u8],
    place: u32,
) -> Result<(), AllocError>
    requires left { left.old.needs ≡ drop left.old.passed (requirements view.now) }
    ensures text { OnOk result (text.new.items ≡ text.old.items ++ line_of label.now (slice_get (requirements view.now) place)) }
    ensures left { left.new.needs ≡ drop left.new.passed (requirements view.now) }
{
    match needed_at(view, left, place) {
        Some(needed) => {
            text.extend_from_slice(label)?;
            text.extend_from_slice(b": unsatisfied: ")?;
            text.extend_from_slice(needed.name)?;
            push_range(text, needed.flags, needed.version)?;
            text.extend_from_slice(b"\n")
        }
        None => Ok(()),
    }
}

/// The lines of these requirements of the header with which these bytes begin, one after the other. Where their places
/// rise, the requirements of the header are gone over once.
fn unmet_lines(
    alloc: Global,
    blob: &[u8],
    number: u32,
    row: &[Unmet],
) -> Result<Vec<u8>, AllocError>
    ensures { IfOk result (λ lines. lines.items ≡ header_or (unmet_lines row.now number) (header blob.now) []) }
{
    let mut lines = Vec::new(alloc);
    match View::parse(blob) {
        Ok(view) => {
            let label = label_of(alloc, &view, number)?;
            let mut left = all_needs(&view);
            for unmet in row {
                push_unmet(&mut lines, &view, &mut left, &label, unmet.place)?;
            }
            Ok(lines)
        }
        Err(_) => Ok(lines),
    }
}

/// Writes the lines of some requirements of a package, which is read for them into this room.
fn put_row<D: Disk, O: Sink + Drop>(
    alloc: Global,
    db: &Db,
    disk: &mut D,
    number: u32,
    row: &[Unmet],
    room: &mut Vec<u8>,
    out: &mut Buffered<O>,
) -> Result<bool, Halt>
    requires asked { IsAskable D.Disk disk.old db.now }
    requires own { All (λ unmet. unmet.number ≡ number) row.now }
    requires some { 0 < length row.now }
    ensures went { IsTrue D.tells → OutTakes O.Sink (λ old new. PartProgress
        (map (unmet_step (packages_in D.Disk disk.old db.now)) row.now) result old new Anywhere) out.old out.new }
    ensures tells { TellsOut D.Disk O.Sink result disk.old disk.new out.old out.new }
{
    read_into(alloc, db, disk, number, room)?;
    let lines = unmet_lines(alloc, room, number, row)?;
    put_text(out, &lines)
}

/// How many requirements at the front of a list are of one package.
fn row_len(list: &[Unmet], number: u32) -> usize
    ensures length { result ≡ prefix_len (λ unmet. unmet.number == number) list.now }
    ensures within { result ≤ length list.now }
{
    list.iter()
        .take_while(|unmet| unmet.number == number)
        .count()
}

/// Writes the lines of these requirements. Of those of a package that stand in a row, the package is read, parsed and
/// labelled once. All packages are read into one room.
fn put_each_unmet<D: Disk, O: Sink + Drop>(
    alloc: Global,
    db: &Db,
    disk: &mut D,
    list: &[Unmet],
    out: &mut Buffered<O>,
) -> Result<(), Halt>
    requires asked { IsAskable D.Disk disk.old db.now }
    ensures went { IsTrue D.tells → OutTakes O.Sink (λ old new. PartProgress
        (map (unmet_step (packages_in D.Disk disk.old db.now)) list.now) result old new Anywhere) out.old out.new }
    ensures tells { TellsOut D.Disk O.Sink result disk.old disk.new out.old out.new }
{
    let mut room = Vec::new(alloc);
    let mut left = list;
    while let Some(first) = left.first() {
        let number = first.number;
        let (row, rest) = left.split_at(row_len(left, number));
        put_row(alloc, db, disk, number, row, &mut room, out)?;
        left = rest;
    }
    Ok(())
}

/// Tells first the packages that can't be read, with their lines on err, and then the requirements that no package
/// meets, with theirs on out. Says whether there is one of either.
///
/// Beside what [`unmet`](rpm_check::unmet) reads it reads the blocks of each package once, and those of a package
/// that has lines once again.
pub fn report_unmet<D: Disk, O: Sink + Drop, E: Sink + Drop>(
    alloc: Global,
    db: &Db,
    disk: &mut D,
    out: &mut Buffered<O>,
    err: &mut Buffered<E>,
) -> Result<bool, Halt>
    requires asked { IsAskable D.Disk disk.old db.now }
    ensures went { IsTrue D.tells → HasKeptRows D.Disk disk.old db.now
        → PartIs (unsatisfied_part (packages_in D.Disk disk.old db.now)) result (shown_outputs O.Sink E.Sink out.old err.old)
        (shown_outputs O.Sink E.Sink out.new err.new) Anywhere }
    ensures broken { IsTrue D.tells → IfErr result (HaltsOfSome (D.files disk.old).idx) }
    ensures looks { OnlyReadsIndexed D.Disk true disk.old disk.new }
    ensures disk { DiskFault D.Disk (result ≡ Err Halt.DiskFault) disk.old disk.new }
    ensures class { IfErr result IsOfPrint }
    ensures hands { HaltHands O.Sink E.Sink result out.old err.old out.new err.new }
{
    let bad = tell_each_bad(alloc, db, disk, err)?;
    let list = match unmet(alloc, db, disk) {
        Ok(list) => list,
        Err(fault) => return Err(halt_of_check(fault)),
    };
    put_each_unmet(alloc, db, disk, list.as_slice(), out)?;
    Ok(bad | !list.as_slice().is_empty())
}
