//! An index made from scratch in memory.

ghost use Rattle.std.specs.Prelude.{◌≡◌, ◌≢◌, ◌+◌, ◌*◌, ◌/◌, ◌%◌, ◌^◌, ◌≤◌, ◌<◌, ◌++◌, [], List, length, take, drop, true, OnOk, IfOk, IfErr, Err};
ghost use Rattle.rpm_hindex.specs.inner.Packed.{left_rows};
ghost use Rattle.rpm_hindex.specs.Prelude.{bucket_count, bytes_of_word, first_record, is_bucket_count, IsDraft, IsIndexFull, IsDraftOf, IsRebuildRefused, live_of, one_row, record_units, Row, unit_of_words, units_for};

use crate::faults::RewriteFault;
use crate::piece::{Piece, RowRef, row_in_piece};
use crate::records::{UNITS, bucket_count, bucket_of, index_units, push_record};
use crate::rows::Rows;
use rpm_outside::{bytes_of_word, unit_of_words, word};
use std::alloc::{AllocError, Global};

/// The units of a new index, from unit 1 on.
#[derive(Drop)]
pub struct Image {
    pub buckets: u32,
    pub bytes: Vec<u8>,
}

/// Zeros for unit 1 and the words of so many buckets: an index with no records yet. It has room for those that have so
/// many units, and for the 15 bytes more that `push_record` reserves.
fn empty_draft(alloc: Global, buckets: u32, live: usize) -> Result<Vec<u8>, AllocError>
    requires buckets { is_bucket_count buckets ≡ true }
    requires live { live ≤ 2 ^ 28 }
    ensures long { IfOk result (λ v. length v.items ≡ 16 * (1 + buckets / 4)) }
    ensures rows { IfOk result (λ v. IsDraft [] buckets v.items) }
{
    let front = 16 + 4 * buckets as usize;
    let mut bytes = Vec::with_capacity(alloc, front + 16 * live + 15)?;
    bytes.resize(front, 0)?;
    Ok(bytes)
}

/// Unit 1 of an index of these rows, made from scratch.
fn counts_of(buckets: u32, rows: &Rows) -> [u8; 16]
    requires { first_record buckets + live_of rows.now ≤ 2 ^ 28 }
    ensures { result ≡ unit_of_words (first_record buckets + live_of rows.now) (length rows.now) (live_of rows.now) 0 }
{
    let live = rows.live() as u32;
    unit_of_words(2 + buckets / 4 + live, rows.len() as u32, live, 0)
}

/// Writes a number over bytes 4k to 4k + 3.
fn set_word(bytes: &mut [u8], k: usize, n: u32)
    requires { 4 * k + 4 ≤ length bytes.old }
    ensures { bytes.new ≡ take (4 * k) bytes.old ++ bytes_of_word n ++ drop (4 * k + 4) bytes.old }
{
    bytes[4 * k..4 * k + 4].copy_from_slice(&bytes_of_word(n));
}

/// Adds a record in front of its bucket's chain.
fn add_record(bytes: &mut Vec<u8>, buckets: u32, row: RowRef<'_>) -> Result<(), AllocError>
    requires count { is_bucket_count buckets ≡ true }
    requires front { 16 + 4 * buckets ≤ length bytes.old.items }
    requires whole { length bytes.old.items % 16 ≡ 0 }
    requires room { 1 + length bytes.old.items / 16 + record_units (length row.key.now) ≤ 2 ^ 28 }
    requires kind { row.kind < 16 }
    requires key { length row.key.now < 2 ^ 28 }
    ensures long { OnOk result (length bytes.new.items ≡ length bytes.old.items + 16 * record_units (length row.entry.key.now)) }
    ensures rows { OnOk result ((rows : List Row) → IsDraft rows buckets bytes.old.items
        → IsDraft (rows ++ one_row row.entry.kind row.entry.key.now row.entry.number row.entry.place) buckets bytes.new.items) }
{
    let at = 1 + (bytes.len() / 16) as u32;
    let head = 4 + bucket_of(row.kind, row.key, buckets) as usize;
    let next = word(bytes, head);
    push_record(bytes, next, row)?;
    set_word(bytes, head, at);
    Ok(())
}

/// Adds a record for each row of a piece.
fn add_records(bytes: &mut Vec<u8>, buckets: u32, rows: &Piece) -> Result<(), AllocError>
    requires count { is_bucket_count buckets ≡ true }
    requires front { 16 + 4 * buckets ≤ length bytes.old.items }
    requires whole { length bytes.old.items % 16 ≡ 0 }
    requires room { 1 + length bytes.old.items / 16 + live_of rows.now ≤ 2 ^ 28 }
    ensures long { OnOk result (length bytes.new.items ≡ length bytes.old.items + 16 * live_of rows.now) }
    ensures rows { OnOk result ((before : List Row) → IsDraft before buckets bytes.old.items
        → IsDraft (before ++ rows.now) buckets bytes.new.items) }
{
    for i in 0..rows.len() {
        add_record(bytes, buckets, row_in_piece(rows, i))?;
    }
    Ok(())
}

/// Adds a record for each row of these pieces, the last piece first, and frees each.
fn add_pieces(bytes: &mut Vec<u8>, buckets: u32, pieces: Vec<Piece>) -> Result<(), AllocError>
    requires count { is_bucket_count buckets ≡ true }
    requires front { 16 + 4 * buckets ≤ length bytes.old.items }
    requires whole { length bytes.old.items % 16 ≡ 0 }
    requires room { 1 + length bytes.old.items / 16 + live_of (left_rows pieces.items) ≤ 2 ^ 28 }
    ensures long { OnOk result (length bytes.new.items ≡ length bytes.old.items + 16 * live_of (left_rows pieces.items)) }
    ensures rows { OnOk result (IsDraft [] buckets bytes.old.items → IsDraft (left_rows pieces.items) buckets bytes.new.items) }
{
    let mut left = pieces;
    while let Some(piece) = left.pop() {
        add_records(bytes, buckets, &piece)?;
    }
    Ok(())
}

/// Adds a record for each row, and frees the rows piece by piece.
fn add_all(bytes: &mut Vec<u8>, buckets: u32, rows: Rows) -> Result<(), AllocError>
    requires count { is_bucket_count buckets ≡ true }
    requires front { 16 + 4 * buckets ≤ length bytes.old.items }
    requires whole { length bytes.old.items % 16 ≡ 0 }
    requires room { 1 + length bytes.old.items / 16 + live_of rows ≤ 2 ^ 28 }
    ensures long { OnOk result (length bytes.new.items ≡ length bytes.old.items + 16 * live_of rows) }
    ensures rows { OnOk result (IsDraft [] buckets bytes.old.items → IsDraft rows buckets bytes.new.items) }
{
    let (full, last) = rows.into_pieces();
    let mut full = full;
    full.reverse();
    add_pieces(bytes, buckets, full)?;
    add_records(bytes, buckets, &last)
}

/// Puts these bytes in front of others.
fn put_front(bytes: &mut [u8], front: &[u8])
    requires { length front.now ≤ length bytes.old }
    ensures { bytes.new ≡ front.now ++ drop (length front.now) bytes.old }
{
    bytes[..front.len()].copy_from_slice(front);
}

/// The bytes with these in front of the others.
fn with_front(bytes: Vec<u8>, front: &[u8]) -> Vec<u8>
    requires { length front.now ≤ length bytes.items }
    ensures { result.items ≡ front.now ++ drop (length front.now) bytes.items }
{
    let mut bytes = bytes;
    put_front(&mut bytes, front);
    bytes
}

impl Image {
    /// The index of these rows, with so many buckets. Takes no memory beside the image's own, whose units it has room for
    /// from the beginning, with 15 bytes more. Frees the rows as their records are made.
    pub fn of_rows(alloc: Global, rows: Rows, buckets: u32) -> Result<Image, AllocError>
        requires count { is_bucket_count buckets ≡ true }
        requires room { first_record buckets + live_of rows ≤ 2 ^ 28 }
        ensures buckets { IfOk result (λ image. image.buckets ≡ buckets) }
        ensures made { IfOk result (λ image. IsDraftOf rows buckets image.bytes.items) }
    {
        let mut draft = empty_draft(alloc, buckets, rows.live() as usize)?;
        let second = counts_of(buckets, &rows);
        add_all(&mut draft, buckets, rows)?;
        let bytes = with_front(draft, &second);
        Ok(Image { buckets, bytes })
    }
}

/// Whether the units that an index of these rows needs are few enough.
///
/// # Errors
///
/// `IndexFull` where they aren't.
pub fn check_room(rows: &Rows) -> Result<(), RewriteFault>
    ensures full { IsIndexFull (units_for rows.now) result }
    ensures refused { IfErr result IsRebuildRefused }
    ensures kind { result ≢ Err RewriteFault.DiskFault }
{
    let needed = index_units(rows.len() as u64, rows.live());
    if needed > UNITS {
        return Err(RewriteFault::IndexFull { needed });
    }
    Ok(())
}

/// The image of these rows, where the units that it needs are few enough.
pub fn image_of(alloc: Global, rows: Rows) -> Result<Image, RewriteFault>
    ensures full { IsIndexFull (units_for rows) result }
    ensures buckets { IfOk result (λ image. image.buckets ≡ bucket_count (length rows)) }
    ensures made { IfOk result (λ image. IsDraftOf rows (bucket_count (length rows)) image.bytes.items) }
    ensures disk { result ≢ Err RewriteFault.DiskFault }
{
    check_room(&rows)?;
    let buckets = bucket_count(rows.len() as u64) as u32;
    let Ok(image) = Image::of_rows(alloc, rows, buckets) else {
        return Err(RewriteFault::NoMemory);
    };
    Ok(image)
}
