//! Rows that an index is made of.

ghost use Rattle.std.specs.Prelude.{◌≡◌, ◌≤◌, ◌<◌, ◌^◌, ◌++◌, ◌∷◌, [], length, IfOk, OnOk, OnErr};
ghost use Rattle.rpm_hindex.specs.Prelude.{live_of, Row, row_nth};
ghost use Rattle.rpm_hindex.specs.inner.Packed.{rows_in_pieces};

use crate::piece::{MOST, Piece, RowRef, row_in_piece};
use crate::records::record_units;
use std::alloc::{AllocError, Global};
use std::marker::Model;
use std::mem;

/// A row without its key.
#[derive(Clone, Copy)]
pub struct RowHead {
    pub kind: u8,
    pub length: u32,
    pub number: u32,
    pub place: u32,
}

/// How many rows a piece has that is full. Its memory is then of a size that goes back to the system when it is freed.
const FULL: usize = 16_384;

/// Rows in the order in which they were pushed. Contracts see the list. A row takes 16 bytes of memory and its key.
/// They stand in pieces, so that who takes them by value frees those that it is done with. The keys of a piece have
/// less than 4 GiB.
#[derive(Drop)]
pub struct Rows {
    alloc: Global,
    full: Vec<Piece>,
    last: Piece,
    live: u64,
}

impl Model for Rows {
    ghost use Rattle.std.specs.Prelude.{List};
    ghost use Rattle.rpm_hindex.specs.Rows.{Row};

    ghost Value = { List Row };

    ghost use Rattle.rpm_hindex.specs.inner.Packed.{ArePieces, rows_in_pieces};

    ghost view = { λ s. rows_in_pieces s.full.items s.last };

    ghost invariant = { λ s. ArePieces s.full.items s.last s.live };
}

impl Rows {
    pub fn new(alloc: Global) -> Rows
        ensures { result ≡ [] }
    {
        Rows::of_piece(alloc, Piece::new(alloc))
    }

    /// No rows, with room for so many, whose keys have so many bytes together.
    ///
    /// # Errors
    ///
    /// `AllocError` where there is no memory.
    pub fn with_room(alloc: Global, rows: usize, bytes: usize) -> Result<Rows, AllocError>
        ensures { IfOk result (λ rows. rows ≡ []) }
    {
        let piece = Piece::with_room(alloc, rows, bytes)?;
        Ok(Rows::of_piece(alloc, piece))
    }

    /// The rows of a piece.
    pub(crate) fn of_piece(alloc: Global, piece: Piece) -> Rows
        ensures { result ≡ piece }
    {
        let live = piece.live();
        Rows {
            alloc,
            full: Vec::new(alloc),
            last: piece,
            live,
        }
    }

    /// Begins a new piece, where the last one is full. It has room for as many bytes of keys as that one has: growing
    /// would leave holes in the memory that the pages of a transaction are taken from.
    fn turn_over(&mut self) -> Result<(), AllocError>
        ensures { self.new ≡ self.old }
    {
        if self.last.len() != FULL {
            return Ok(());
        }
        self.full.reserve(1)?;
        let next = Piece::with_room(self.alloc, FULL, self.last.key_bytes())?;
        let full = mem::replace(&mut self.last, next);
        self.full.push_reserved(full);
        Ok(())
    }

    /// Adds a row at the end. Copies the key.
    ///
    /// # Errors
    ///
    /// `AllocError` where there is no memory, or the keys of 16384 rows would have 4 GiB; the rows are then as they were.
    pub fn push(&mut self, kind: u8, key: &[u8], number: u32, place: u32) -> Result<(), AllocError>
        requires some { 1 ≤ kind }
        requires kind { kind ≤ 15 }
        requires key { length key.now < 268435456 }
        ensures ok { OnOk result (self.new ≡ self.old ++ record { kind = kind; key = key.now; number = number; place = place } ∷ []) }
        ensures err { OnErr result (self.new ≡ self.old) }
    {
        self.add(kind, key, number, place)
    }

    /// Adds a row of any kind, as a record may have it.
    pub fn add(&mut self, kind: u8, key: &[u8], number: u32, place: u32) -> Result<(), AllocError>
        requires kind { kind ≤ 15 }
        requires key { length key.now < 268435456 }
        ensures ok { OnOk result (self.new ≡ self.old ++ record { kind = kind; key = key.now; number = number; place = place } ∷ []) }
        ensures err { OnErr result (self.new ≡ self.old) }
    {
        self.turn_over()?;
        self.add_last(kind, key, number, place)
    }

    /// Adds a row to the last piece.
    fn add_last(&mut self, kind: u8, key: &[u8], number: u32, place: u32) -> Result<(), AllocError>
        requires kind { kind ≤ 15 }
        requires key { length key.now < 268435456 }
        ensures ok { OnOk result (self.new ≡ self.old ++ record { kind = kind; key = key.now; number = number; place = place } ∷ []) }
        ensures err { OnErr result (self.new ≡ self.old) }
    {
        let units = record_units(key.len() as u32) as u64;
        if self.live > MOST - units {
            return Err(AllocError);
        }
        self.last.add(kind, key, number, place)?;
        self.live += units;
        Ok(())
    }

    /// Adds these rows at the end.
    pub(crate) fn append(&mut self, others: &Rows) -> Result<(), AllocError>
        ensures { OnOk result (self.new ≡ self.old ++ others.now) }
    {
        for i in 0..others.len() {
            let row = others.row(i);
            self.add(row.kind, row.key, row.number, row.place)?;
        }
        Ok(())
    }

    pub fn len(&self) -> usize
        ensures { result ≡ length self.now }
    {
        FULL * self.full.len() + self.last.len()
    }

    /// The units that records of these rows have.
    pub fn live(&self) -> u64
        ensures live { result ≡ live_of self.now }
        ensures bound { result ≤ 2 ^ 60 }
        ensures count { length self.now ≤ result }
    {
        let _ = &self.full;
        self.live
    }

    /// Row i.
    pub(crate) fn row(&self, i: usize) -> RowRef<'_>
        requires { i < length self.now }
        ensures row { (record { kind = result.kind; key = result.key.now; number = result.number; place = result.place }) ≡ row_nth self.now i }
        ensures kind { result.kind < 16 }
        ensures short { length result.key.now < 2 ^ 28 }
    {
        let piece = i / FULL;
        if piece < self.full.len() {
            row_in_piece(&self.full[piece], i % FULL)
        } else {
            row_in_piece(&self.last, i - FULL * self.full.len())
        }
    }

    /// Row i without its key.
    pub fn head(&self, i: usize) -> RowHead
        requires { i < length self.now }
        ensures kind { result.kind ≡ (row_nth self.now i).kind }
        ensures number { result.number ≡ (row_nth self.now i).number }
        ensures place { result.place ≡ (row_nth self.now i).place }
        ensures length { result.length ≡ length (row_nth self.now i).key }
        ensures kinds { result.kind < 16 }
        ensures short { result.length < 2 ^ 28 }
    {
        let row = self.row(i);
        RowHead {
            kind: row.kind,
            length: row.key.len() as u32,
            number: row.number,
            place: row.place,
        }
    }

    /// The key of row i.
    pub fn key(&self, i: usize) -> &[u8]
        requires { i < length self.now }
        ensures { result.now ≡ (row_nth self.now i).key }
    {
        self.row(i).key
    }

    /// The pieces that are full, and the last one.
    pub(crate) fn into_pieces(self) -> (Vec<Piece>, Piece)
        ensures { rows_in_pieces result.0.items result.1 ≡ self }
    {
        (self.full, self.last)
    }
}

/// The same rows once more.
pub fn copy_of(alloc: Global, rows: &Rows) -> Result<Rows, AllocError>
    ensures { IfOk result (λ copy. copy ≡ rows.now) }
{
    let mut copy = Rows::new(alloc);
    copy.append(rows)?;
    Ok(copy)
}
