//! `AnswersKeyed` of the theorem: an order in which the packages could be installed.

ghost use Rattle.std.specs.Prelude.{◌≡◌, [], ◌∷◌, map, true, IsTrue, Err, IfErr};
ghost use Rattle.rpm_report.specs.Prelude.{Anywhere, class_steps, DiskFault, flat_map, HaltHands, HasKeptRows, IsAskable, IsOfPrint, label_step, OrderPartIs, OutTakes, packages_in, OnlyReadsIndexed, PartProgress, shown_outputs, HaltsOfSome, TellsOut};

use crate::unreadable::{halt_of_check, read_into, tell_each_bad};
use itoa::Buffer;
use rpm_check::read_graph;
use rpm_db::Db;
use rpm_effects::{Halt, put_out};
use rpm_filecheck::label_of;
use rpm_graph::{ClassList, order};
use rpm_header::View;
use rpm_outside::{Buffered, Disk, Sink};
use std::alloc::Global;

/// Writes the label of a package, which is read for it into this room, after an indent.
fn put_label<D: Disk, O: Sink + Drop>(
    alloc: Global,
    db: &Db,
    disk: &mut D,
    number: u32,
    indent: &[u8],
    room: &mut Vec<u8>,
    out: &mut Buffered<O>,
) -> Result<bool, Halt>
    requires asked { IsAskable D.Disk disk.old db.now }
    ensures went { IsTrue D.tells → OutTakes O.Sink (λ old new. PartProgress
        (label_step (packages_in D.Disk disk.old db.now) indent.now number ∷ []) result old new Anywhere)
        out.old out.new }
    ensures tells { TellsOut D.Disk O.Sink result disk.old disk.new out.old out.new }
{
    read_into(alloc, db, disk, number, room)?;
    match View::parse(room) {
        Ok(view) => {
            let label = label_of(alloc, &view, number)?;
            put_out(out, &[indent, &label, b"\n"])
        }
        Err(_) => put_out(out, &[b""]),
    }
}

/// Writes the labels of these packages, each after an indent.
fn put_labels<D: Disk, O: Sink + Drop>(
    alloc: Global,
    db: &Db,
    disk: &mut D,
    class: &[u32],
    indent: &[u8],
    room: &mut Vec<u8>,
    out: &mut Buffered<O>,
) -> Result<(), Halt>
    requires asked { IsAskable D.Disk disk.old db.now }
    ensures went { IsTrue D.tells → OutTakes O.Sink (λ old new. PartProgress
        (map (label_step (packages_in D.Disk disk.old db.now) indent.now) class.now) result old new Anywhere)
        out.old out.new }
    ensures tells { TellsOut D.Disk O.Sink result disk.old disk.new out.old out.new }
{
    for number in class {
        put_label(alloc, db, disk, *number, indent, room, out)?;
    }
    Ok(())
}

/// Writes the packages of a class; before several how many there are, which all lead to each other.
fn put_class<D: Disk, O: Sink + Drop>(
    alloc: Global,
    db: &Db,
    disk: &mut D,
    class: &[u32],
    room: &mut Vec<u8>,
    out: &mut Buffered<O>,
) -> Result<(), Halt>
    requires asked { IsAskable D.Disk disk.old db.now }
    ensures went { IsTrue D.tells → OutTakes O.Sink (λ old new. PartProgress
        (class_steps (packages_in D.Disk disk.old db.now) class.now) result old new Anywhere) out.old out.new }
    ensures tells { TellsOut D.Disk O.Sink result disk.old disk.new out.old out.new }
{
    let count = class.len();
    if count == 1 {
        return put_labels(alloc, db, disk, class, b"", room, out);
    }
    let mut digits = Buffer::new();
    let number = digits.format(count).as_bytes();
    put_out(out, &[b"cycle: ", number, b"\n"])?;
    put_labels(alloc, db, disk, class, b"  ", room, out)
}

/// Writes the packages, class by class. All are read into one room.
fn put_classes<D: Disk, O: Sink + Drop>(
    alloc: Global,
    db: &Db,
    disk: &mut D,
    list: &ClassList,
    out: &mut Buffered<O>,
) -> Result<(), Halt>
    requires asked { IsAskable D.Disk disk.old db.now }
    ensures went { IsTrue D.tells → OutTakes O.Sink
        (λ old new. PartProgress (flat_map (class_steps (packages_in D.Disk disk.old db.now)) list.now) result old new
        Anywhere) out.old out.new }
    ensures tells { TellsOut D.Disk O.Sink result disk.old disk.new out.old out.new }
{
    let mut room = Vec::new(alloc);
    for k in 0..list.classes() {
        put_class(alloc, db, disk, list.class(k), &mut room, out)?;
    }
    Ok(())
}

/// Tells first the packages that can't be read, with their lines on err, and then the others in an order in which
/// they could be installed, with their labels on out: each class after those that its packages require, and of those
/// that may come next the one with the least number. Packages that all lead to each other are told as a cycle, by
/// rising number. Says whether there is one that can't be read.
///
/// Beside what [`read_graph`] reads it reads the blocks of each package once, and those of each that can be read once
/// again for its label.
pub fn report_order<D: Disk, O: Sink + Drop, E: Sink + Drop>(
    alloc: Global,
    db: &Db,
    disk: &mut D,
    out: &mut Buffered<O>,
    err: &mut Buffered<E>,
) -> Result<bool, Halt>
    requires asked { IsAskable D.Disk disk.old db.now }
    ensures went { IsTrue D.tells → HasKeptRows D.Disk disk.old db.now
        → OrderPartIs (packages_in D.Disk disk.old db.now) result (shown_outputs O.Sink E.Sink out.old err.old)
        (shown_outputs O.Sink E.Sink out.new err.new) }
    ensures broken { IsTrue D.tells → IfErr result (HaltsOfSome (D.files disk.old).idx) }
    ensures looks { OnlyReadsIndexed D.Disk true disk.old disk.new }
    ensures disk { DiskFault D.Disk (result ≡ Err Halt.DiskFault) disk.old disk.new }
    ensures class { IfErr result IsOfPrint }
    ensures hands { HaltHands O.Sink E.Sink result out.old err.old out.new err.new }
{
    let bad = tell_each_bad(alloc, db, disk, err)?;
    let graph = match read_graph(alloc, db, disk) {
        Ok(graph) => graph,
        Err(fault) => return Err(halt_of_check(fault)),
    };
    let list = order(alloc, &graph)?;
    put_classes(alloc, db, disk, &list, out)?;
    Ok(bad)
}
