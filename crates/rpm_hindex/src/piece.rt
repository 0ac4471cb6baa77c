//! A piece of the rows that an index is made of.

ghost use Rattle.std.specs.Prelude.{◌≡◌, ◌≤◌, ◌<◌, ◌^◌, ◌++◌, ◌∷◌, [], length, reverse, IfOk, OnOk, OnErr};
ghost use Rattle.rpm_hindex.specs.Prelude.{live_of, Row, row_nth};
ghost use Rattle.rpm_hindex.specs.inner.Packed.{head_kind, head_length};

use crate::records::record_units;
use crate::rows::RowHead;
use std::alloc::{AllocError, Global};
use std::marker::Model;

/// A row in 16 bytes, whose key stands among the keys of all rows. Its kind and the length of its key are one word, as in a record.
#[derive(Clone, Copy)]
pub struct PackedHead {
    pub start: u32,
    pub kind_and_length: u32,
    pub number: u32,
    pub place: u32,
}

impl PackedHead {
    fn kind(self) -> u8
        ensures kind { result ≡ head_kind self }
        ensures within { result < 16 }
    {
        (self.kind_and_length / 268_435_456) as u8
    }

    /// How many bytes its key has.
    fn length(self) -> u32
        ensures { result ≡ head_length self }
    {
        self.kind_and_length % 268_435_456
    }
}

/// A row that is to be dropped or added.
#[derive(Clone, Copy)]
pub struct RowRef<'a> {
    pub kind: u8,
    pub key: &'a [u8],
    pub number: u32,
    pub place: u32,
}

/// Rows in the order in which they were added, in two blocks of memory. Contracts see the list.
#[derive(Drop)]
pub struct Piece {
    heads: Vec<PackedHead>,
    keys: Vec<u8>,
    live: u64,
}

impl Model for Piece {
    ghost use Rattle.std.specs.Prelude.{List};
    ghost use Rattle.rpm_hindex.specs.Rows.{Row};

    ghost Value = { List Row };

    ghost use Rattle.rpm_hindex.specs.inner.Packed.{packed_rows, AreKeysPacked};

    ghost view = { λ s. packed_rows s.keys.items s.heads.items };

    ghost invariant = { λ s. AreKeysPacked s.heads.items s.keys.items s.live };
}

// The most units that rows may need together; memory for as many never is.
pub const MOST: u64 = 1_152_921_504_606_846_976;

impl Piece {
    pub fn new(alloc: Global) -> Piece
        ensures { result ≡ [] }
    {
        Piece {
            heads: Vec::new(alloc),
            keys: Vec::new(alloc),
            live: 0,
        }
    }

    /// No rows, with room for so many, whose keys have so many bytes together.
    pub fn with_room(alloc: Global, rows: usize, bytes: usize) -> Result<Piece, AllocError>
        ensures { IfOk result (λ rows. rows ≡ []) }
    {
        Ok(Piece {
            heads: Vec::with_capacity(alloc, rows)?,
            keys: Vec::with_capacity(alloc, bytes)?,
            live: 0,
        })
    }

    /// Adds a row of any kind, as a record may have it. `AllocError` where there is no memory, or the keys would have 4 GiB.
    pub fn add(&mut self, kind: u8, key: &[u8], number: u32, place: u32) -> Result<(), AllocError>
        requires kind { kind ≤ 15 }
        requires key { length key.now < 268435456 }
        ensures ok { OnOk result (self.new ≡ self.old ++ record { kind = kind; key = key.now; number = number; place = place } ∷ []) }
        ensures err { OnErr result (self.new ≡ self.old) }
    {
        let length = key.len() as u32;
        let units = record_units(length) as u64;
        let start = self.keys.len();
        if self.live > MOST - units || start > (u32::MAX - length) as usize {
            return Err(AllocError);
        }
        self.heads.reserve(1)?;
        self.keys.extend_from_slice(key)?;
        self.heads.push(PackedHead {
            start: start as u32,
            kind_and_length: kind as u32 * 268_435_456 + length,
            number,
            place,
        })?;
        self.live += units;
        Ok(())
    }

    /// Turns the rows round: the last is the first then.
    pub fn reverse(&mut self)
        ensures { self.new ≡ reverse self.old }
    {
        self.heads.reverse();
    }

    pub fn len(&self) -> usize
        ensures { result ≡ length self.now }
    {
        self.heads.len()
    }

    /// How many bytes their keys have together.
    pub fn key_bytes(&self) -> usize {
        self.keys.len()
    }

    /// The units that records of these rows have.
    pub fn live(&self) -> u64
        ensures live { result ≡ live_of self.now }
        ensures bound { result ≤ 2 ^ 60 }
        ensures count { length self.now ≤ result }
    {
        let _ = &self.heads;
        self.live
    }

    /// Row i without its key.
    fn head(&self, i: usize) -> RowHead
        requires { i < length self.now }
        ensures kind { result.kind ≡ (row_nth self.now i).kind }
        ensures number { result.number ≡ (row_nth self.now i).number }
        ensures place { result.place ≡ (row_nth self.now i).place }
        ensures length { result.length ≡ length (row_nth self.now i).key }
        ensures kinds { result.kind < 16 }
        ensures short { result.length < 2 ^ 28 }
    {
        let head = self.heads[i];
        RowHead {
            kind: head.kind(),
            length: head.length(),
            number: head.number,
            place: head.place,
        }
    }

    /// The key of row i.
    fn key(&self, i: usize) -> &[u8]
        requires { i < length self.now }
        ensures { result.now ≡ (row_nth self.now i).key }
    {
        let head = self.heads[i];
        let start = head.start as usize;
        &self.keys[start..start + head.length() as usize]
    }
}

/// Row i of these.
pub fn row_in_piece(rows: &Piece, i: usize) -> RowRef<'_>
    requires { i < length rows.now }
    ensures row { (record { kind = result.kind; key = result.key.now; number = result.number; place = result.place }) ≡ row_nth rows.now i }
    ensures kind { result.kind < 16 }
    ensures short { length result.key.now < 2 ^ 28 }
{
    let head = rows.head(i);
    RowRef {
        kind: head.kind,
        key: rows.key(i),
        number: head.number,
        place: head.place,
    }
}
