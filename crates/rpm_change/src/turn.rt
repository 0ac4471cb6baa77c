//! One step through a list of headers.

ghost use Rattle.std.specs.Prelude.{◌≡◌, ◌+◌, ◌<◌, ◌≤◌, true, IsTrue, Err, IfOk, IfErr};
ghost use Rattle.rpm_change.specs.Prelude.{EndedOnErr, Hand, IsGathering, IsOfHeaders, IsOfImporting, KeepsShelf, ListEnd, bytes_left, list_head, HaltOfList, tally_of, turn, turn_found, ProgressOwing};

use crate::halting::halt_of;
use crate::places::{list_text, put_bad_header, put_place};
use rpm_db::{Batch, ChangeFault, Db};
use rpm_effects::{CHANGED, Halt, IDLE, Tally};
use rpm_file::{ListFault, read_header};
use rpm_outside::{Buffered, Disk, Shelf, Sink};
use std::alloc::Global;

/// What one step through a list came to, and whether the list ends there.
#[derive(Clone, Copy)]
pub struct Turn {
    pub tally: Tally,
    pub is_last: bool,
}

/// Why the command stops where a header can't be taken from the list; `None` for a fault of the list itself.
fn stop_of(fault: ListFault) -> Option<Halt>
    ensures { HaltOfList fault result }
{
    match fault {
        ListFault::ReadFault => Some(Halt::ShelfFault),
        ListFault::NoMemory => Some(Halt::NoMemory),
        ListFault::Short => None,
        ListFault::BadMagic => None,
        ListFault::TooManyEntries => None,
        ListFault::TooMuchData => None,
    }
}

/// Adds the header at a place of the list, or writes to err that it is none, or one too many.
fn import_header<D: Disk, E: Sink + Drop>(
    alloc: Global,
    db: &mut Db,
    disk: &mut D,
    batch: &mut Batch,
    most: u32,
    place: u32,
    blob: &[u8],
    err: &mut Buffered<E>,
) -> Result<Tally, Halt>
    requires gathering { IsGathering D.Disk disk.old db.old batch.old }
    ensures went { ProgressOwing D.Disk (IsTrue D.tells) disk.old disk.new db.old db.new batch.old batch.new result
        (EndedOnErr E.Sink err.old err.new) (turn_found most place blob.now) }
    ensures one { IfOk result (λ tally. tally.failed + tally.changes ≡ 1) }
    ensures kinds { IfErr result IsOfHeaders }
    ensures err { Hand E.Sink (result ≡ Err Halt.ErrFault) err.old err.new }
{
    if most < place {
        return put_place(alloc, err, place, b"too many headers");
    }
    match batch.add(alloc, db, disk, blob) {
        Ok(_) => Ok(CHANGED),
        Err(ChangeFault::BadHeader(fault)) => put_bad_header(alloc, err, place, fault),
        Err(fault) => Err(halt_of(fault)),
    }
}

/// Takes what stands at a place of the list, and imports it, or writes to err what is wrong with it. The header is read
/// into `room`.
pub fn import_next<D: Disk, S: Shelf, E: Sink + Drop>(
    alloc: Global,
    db: &mut Db,
    disk: &mut D,
    shelf: &mut S,
    batch: &mut Batch,
    room: &mut Vec<u8>,
    most: u32,
    place: u32,
    err: &mut Buffered<E>,
) -> Result<Turn, Halt>
    requires gathering { IsGathering D.Disk disk.old db.old batch.old }
    ensures went { ProgressOwing D.Disk (IsTrue D.tells × IsTrue S.tells) disk.old disk.new db.old db.new batch.old
        batch.new (tally_of result) (EndedOnErr E.Sink err.old err.new)
        (turn most place (list_head (bytes_left (S.rest shelf.old)))) }
    ensures leaves { IfOk result (λ done. IsTrue S.tells
        → ListEnd most place (list_head (bytes_left (S.rest shelf.old))) done.is_last (bytes_left (S.rest shelf.new))) }
    ensures last { IfOk result (λ done. most < place → done.is_last ≡ true) }
    ensures one { IfOk result (λ done. done.tally.failed + done.tally.changes ≤ 1) }
    ensures kinds { IfErr result IsOfImporting }
    ensures shelf { KeepsShelf S.Shelf (result ≡ Err Halt.ShelfFault) shelf.old shelf.new }
    ensures err { Hand E.Sink (result ≡ Err Halt.ErrFault) err.old err.new }
{
    match read_header(shelf, room) {
        Ok(Some(size)) => {
            let blob = &room[..size];
            let tally = import_header(alloc, db, disk, batch, most, place, blob, err)?;
            let is_last = most < place;
            Ok(Turn { tally, is_last })
        }
        Ok(None) => Ok(Turn {
            tally: IDLE,
            is_last: true,
        }),
        Err(fault) => match stop_of(fault) {
            Some(halt) => Err(halt),
            None => {
                let tally = put_place(alloc, err, place, list_text(fault))?;
                let is_last = true;
                Ok(Turn { tally, is_last })
            }
        },
    }
}
