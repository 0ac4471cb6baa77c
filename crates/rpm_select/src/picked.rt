//! A package that a question picks.

ghost use Rattle.std.specs.Prelude.{◌≡◌, ◌≢◌, ℕ, IsTrue, IfOk, false, true, Ok, Err, Some};
ghost use Rattle.std.specs.FinMap as finite;
ghost use Rattle.rpm_select.specs.Prelude.{AsksPackages, Bad, package_cost, header, is_broken, is_elsewhere, IsNumbered, IsStoreKept, NoMemory, number_in, OneIs, OneOf, package_of, packages_in, TakenIs, takes_bad};

use crate::rows::takes_header;
use crate::selection::Selection;
use rpm_db::{Db, GetFault};
use rpm_header::View;
use rpm_outside::{Disk, File};
use std::alloc::{AllocError, Global};
use std::marker::Model;
use std::mem::replace;
use thiserror::Error;

/// The bytes of a header, which was parsed. Contracts see it as the list of them.
#[derive(Drop)]
pub struct Blob {
    bytes: Vec<u8>,
}

impl Model for Blob {
    ghost use Rattle.std.specs.Prelude.{List, ℕ};
    ghost use Rattle.rpm_header.specs.Header.{IsOwn};

    ghost Value = { List ℕ };

    ghost view = { λ s. s.bytes.items };

    ghost invariant = { λ s. IsOwn s.bytes.items };
}

impl Blob {
    pub fn as_slice(&self) -> &[u8]
        ensures { result.now ≡ self.now }
    {
        &self.bytes
    }

    /// The header. It isn't parsed again.
    pub fn view(&self) -> View<'_>
        ensures { header self.now ≡ Ok result }
    {
        View::of_checked(&self.bytes)
    }

    /// The bytes of it, and the room that they lie in.
    pub(crate) fn into_bytes(self) -> Vec<u8>
        ensures { result.items ≡ self }
    {
        self.bytes
    }
}

/// A package that is picked.
#[derive(Drop)]
pub enum Picked {
    /// A header's own bytes.
    Good { number: u32, blob: Blob },
    /// A package that can't be read.
    Bad { number: u32 },
}

impl Picked {
    /// The number of the package.
    pub fn number(&self) -> u32
        ensures { result ≡ number_in self.now }
    {
        match self {
            Picked::Good { number, .. } => *number,
            Picked::Bad { number } => *number,
        }
    }

    /// The number of the package, which is let go.
    pub fn into_number(self) -> u32
        ensures { result ≡ number_in self }
    {
        match self {
            Picked::Good { number, .. } => number,
            Picked::Bad { number } => number,
        }
    }
}

/// Why nothing is picked.
#[derive(Clone, Copy, Debug, PartialEq, Eq, Error)]
pub enum PickFault {
    /// The index is broken at this unit.
    #[error("Hindex.db is damaged")]
    BadIndex { unit: u64 },
    /// A call of the disk failed.
    #[error("the database could not be read or written")]
    DiskFault,
    /// There was no memory for a package.
    #[error("out of memory")]
    NoMemory,
}

impl From<AllocError> for PickFault {
    ghost from_gives = { λ _ e. e ≡ NoMemory };

    fn from(_: AllocError) -> PickFault {
        PickFault::NoMemory
    }
}

// What a selection does with a package that was read.
#[derive(Clone, Copy)]
enum Taken {
    // It takes the header, which has so many bytes.
    Good(usize),
    // It doesn't take the header.
    Passed,
    // There is no header.
    Bad,
}

/// Whether a selection takes a package that can't be read.
pub fn takes_bad(selection: &Selection<'_>, number: u32) -> bool
    ensures { result ≡ takes_bad selection.now number }
{
    match selection {
        Selection::All | Selection::Pattern(_) => true,
        Selection::Number(wanted) => number == *wanted,
        _ => false,
    }
}

/// A package that can't be read, where the selection takes it.
fn pick_bad(selection: &Selection<'_>, number: u32) -> Result<Option<Picked>, PickFault>
    ensures told { OneIs selection.now number Bad result }
    ensures numbered { IsNumbered number result }
    ensures no_fault { result ≢ Err PickFault.DiskFault }
    ensures unbroken { is_broken result ≡ false }
{
    if takes_bad(selection, number) {
        Ok(Some(Picked::Bad { number }))
    } else {
        Ok(None)
    }
}

/// Whether the selection takes a header, and how long the header is.
fn taken_length(
    alloc: Global,
    selection: &Selection<'_>,
    number: u32,
    blob: &[u8],
) -> Result<Taken, PickFault>
    ensures told { IfOk result (λ t. TakenIs selection.now number blob.now t) }
    ensures no_fault { result ≢ Err PickFault.DiskFault }
    ensures unbroken { is_broken result ≡ false }
{
    let Ok(view) = View::parse(blob) else {
        return Ok(Taken::Bad);
    };
    let length = view.blob().len();
    match takes_header(alloc, selection, number, &view) {
        Ok(true) => Ok(Taken::Good(length)),
        Ok(false) => Ok(Taken::Passed),
        Err(_) => Err(PickFault::NoMemory),
    }
}

/// A package by the bytes that it is read from, where the selection takes it; where it doesn't, they become the room
/// of the next one.
fn pick_blob(
    alloc: Global,
    selection: &Selection<'_>,
    number: u32,
    blob: Vec<u8>,
    room: &mut Vec<u8>,
) -> Result<Option<Picked>, PickFault>
    ensures told { OneIs selection.now number (package_of (Some blob.items)) result }
    ensures numbered { IsNumbered number result }
    ensures no_fault { result ≢ Err PickFault.DiskFault }
    ensures unbroken { is_broken result ≡ false }
{
    match taken_length(alloc, selection, number, &blob)? {
        Taken::Bad => pick_bad(selection, number),
        Taken::Passed => {
            *room = blob;
            Ok(None)
        }
        Taken::Good(length) => {
            let mut bytes = blob;
            bytes.truncate(length);
            Ok(Some(Picked::Good {
                number,
                blob: Blob { bytes },
            }))
        }
    }
}

/// Whether a selection can't pick a package of this number, whatever that is.
fn is_elsewhere(selection: &Selection<'_>, number: u32) -> bool
    ensures { result ≡ is_elsewhere selection.now number }
{
    match selection {
        Selection::Number(wanted) => number != *wanted,
        _ => false,
    }
}

/// A number's package, where it is there and the selection takes it, in this room. Reads its blocks once, and nothing
/// where the selection is another number.
pub fn pick<D: Disk>(
    alloc: Global,
    db: &Db,
    disk: &mut D,
    selection: &Selection<'_>,
    number: u32,
    room: &mut Vec<u8>,
) -> Result<Option<Picked>, PickFault>
    requires keeps { IsStoreKept D.Disk disk.old db.now }
    requires runs { db.now.stopped ≡ false }
    ensures told { IsTrue D.tells → OneOf selection.now number (finite.get (packages_in D.Disk disk.old db.now) number) result }
    ensures numbered { IsNumbered number result }
    ensures asks { AsksPackages D.Disk (package_cost number db.now) disk.old disk.new db.now result }
    ensures unread { is_elsewhere selection.now number ≡ true → D.bytes_read disk.new File.Pkg ≡ D.bytes_read disk.old File.Pkg }
{
    if is_elsewhere(selection, number) {
        return Ok(None);
    }
    match db.read_in(disk, number, replace(room, Vec::new(alloc))) {
        Ok(blob) => pick_blob(alloc, selection, number, blob, room),
        Err(GetFault::Bad) => pick_bad(selection, number),
        Err(GetFault::NoSuch) => Ok(None),
        Err(GetFault::DiskFault) => Err(PickFault::DiskFault),
        Err(GetFault::NoMemory) => Err(PickFault::NoMemory),
    }
}
