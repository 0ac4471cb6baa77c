//! The headers of a list, one at a time.

ghost use Rattle.std.specs.Prelude.{◌≡◌, ℕ, ◌≤◌, IsTrue, length, vec_len, Ok, Err, IfOk, IfSome};
ghost use Rattle.rpm_file.specs.Prelude.{AnswersBehind, AnswersIntro, AnswersNext, AnswersNextIn, body_length, Browses, HasCauseAt, header_extent, bytes_left, max_blob, size_in, TakesAtMost};

use crate::bytes::u32_at;
use crate::fault::ListFault;
use crate::filling::{begin, fill, fill_upto};
use rpm_header::MAGIC;
use rpm_outside::{Failed, Shelf};
use std::alloc::Global;

/// The most entries that a header has.
const MAX_ENTRIES: u32 = 65_535;

/// The most bytes of data that a header has.
const MAX_DATA: u32 = 67_108_864;

/// The length of a header without its magic, as the 16 bytes say it with which it begins.
///
/// # Errors
///
/// `BadMagic`, `TooManyEntries`, `TooMuchData`, the first that holds.
#[tactic(auto, unfolding(crate::specs::List::size_in))]
fn size_in(intro: &[u8]) -> Result<usize, ListFault>
    requires { length intro.now ≡ 16 }
    ensures value { result ≡ size_in intro.now }
    ensures some { IfOk result (λ size. 8 ≤ size) }
    ensures few { IfOk result (λ size. size ≤ max_blob) }
{
    if !intro.starts_with(&MAGIC) {
        return Err(ListFault::BadMagic);
    }
    let entries = u32_at(intro, 8);
    if entries > MAX_ENTRIES {
        return Err(ListFault::TooManyEntries);
    }
    let data = u32_at(intro, 12);
    if data > MAX_DATA {
        return Err(ListFault::TooMuchData);
    }
    Ok(8 + 16 * entries as usize + data as usize)
}

/// Takes the 16 bytes with which a header of a list begins, its magic in front. Says whether they came: they don't at
/// the list's end.
fn take_intro<S: Shelf>(shelf: &mut S, intro: &mut [u8]) -> Result<bool, ListFault>
    requires { length intro.old ≡ 16 }
    ensures answers { IsTrue S.tells → AnswersIntro (S.rest shelf.old) (S.rest shelf.new) intro.new result }
    ensures browses { Browses S.Shelf shelf.old shelf.new }
    ensures cause { HasCauseAt (result ≡ Err ListFault.ReadFault) (S.faults shelf.old) (S.faults shelf.new) }
    ensures extent { IsTrue S.tells → TakesAtMost 16 (S.rest shelf.old) (S.rest shelf.new) }
{
    let count = match fill(shelf, intro) {
        Ok(count) => count,
        Err(Failed) => return Err(ListFault::ReadFault),
    };
    if count == 0 {
        return Ok(false);
    }
    if count < 16 {
        return Err(ListFault::Short);
    }
    Ok(true)
}

/// Reads the rest of a header that begins with these 16 bytes, its magic in front. Says how long it is without the
/// magic: never None.
#[tactic(auto, using(crate::proofs::Extents::sized_extent))]
fn read_behind<S: Shelf>(
    shelf: &mut S,
    room: &mut Vec<u8>,
    intro: &[u8],
) -> Result<Option<usize>, ListFault>
    requires { length intro.now ≡ 16 }
    ensures within { IfOk result (λ found. IfSome found (λ size. size ≤ vec_len room.new)) }
    ensures answers { IsTrue S.tells → AnswersBehind intro.now (S.rest shelf.old) (S.rest shelf.new) room.new.items result }
    ensures browses { Browses S.Shelf shelf.old shelf.new }
    ensures cause { HasCauseAt (result ≡ Err ListFault.ReadFault) (S.faults shelf.old) (S.faults shelf.new) }
    ensures extent { IsTrue S.tells → TakesAtMost (body_length (size_in intro.now)) (S.rest shelf.old) (S.rest shelf.new) }
{
    let size = size_in(intro)?;
    if begin(room, &intro[8..]).is_err() {
        return Err(ListFault::NoMemory);
    }
    let done = fill_upto(shelf, room, 8, size)?;
    if done < size {
        return Err(ListFault::Short);
    }
    Ok(Some(size))
}

/// Reads the next header of the list that is open into the front of a vector, without its magic and unparsed, and
/// says how long it is: of its bytes the magic and the two lengths in front were looked at. None exactly where the
/// open item is at its end, or none is open. No byte after the header is read.
///
/// The vector is made longer where it is too short, and never shorter: so one vector serves for all headers of a
/// list, and is as long as the longest of them. What stands in it after the header, and after a fault, is of no use.
///
/// The body is read straight into the vector, in as few reads as the shelf gives it, and memory is taken as bytes
/// come: at first 4,096 bytes, then as many as came so far. So a short list never costs more than these or twice what
/// it gave, whatever length it claims.
///
/// # Errors
///
/// The first of these, in this order: `Short` where the list ends within the header's first 16 bytes; `BadMagic`;
/// `TooManyEntries` and `TooMuchData` by its two lengths; `Short` where its body is cut. No more is taken then than
/// the header, or its first 16 bytes where these have the fault; the list isn't to be read on. `ReadFault` only where
/// a read failed, and `NoMemory` where no memory was found.
#[tactic(auto, using(crate::proofs::Extents::intro_alone))]
pub fn read_header<S: Shelf>(shelf: &mut S, room: &mut Vec<u8>) -> Result<Option<usize>, ListFault>
    ensures within { IfOk result (λ found. IfSome found (λ size. size ≤ vec_len room.new)) }
    ensures answers { IsTrue S.tells → AnswersNextIn (S.rest shelf.old) (S.rest shelf.new) room.new.items result }
    ensures browses { Browses S.Shelf shelf.old shelf.new }
    ensures cause { HasCauseAt (result ≡ Err ListFault.ReadFault) (S.faults shelf.old) (S.faults shelf.new) }
    ensures extent { IsTrue S.tells → TakesAtMost (header_extent (bytes_left (S.rest shelf.old))) (S.rest shelf.old) (S.rest shelf.new) }
{
    let mut intro = [0u8; 16];
    let begins = take_intro(shelf, &mut intro)?;
    if begins {
        read_behind(shelf, room, &intro)
    } else {
        Ok(None)
    }
}

/// Reads the next header of the list that is open, as `read_header` does, into a vector of its own, which has exactly
/// the header's bytes.
///
/// # Errors
///
/// Those of `read_header`.
pub fn next_header<S: Shelf>(alloc: Global, shelf: &mut S) -> Result<Option<Vec<u8>>, ListFault>
    ensures answers { IsTrue S.tells → AnswersNext (S.rest shelf.old) (S.rest shelf.new) result }
    ensures browses { Browses S.Shelf shelf.old shelf.new }
    ensures cause { HasCauseAt (result ≡ Err ListFault.ReadFault) (S.faults shelf.old) (S.faults shelf.new) }
    ensures extent { IsTrue S.tells → TakesAtMost (header_extent (bytes_left (S.rest shelf.old))) (S.rest shelf.old) (S.rest shelf.new) }
{
    let mut blob = Vec::new(alloc);
    let Some(size) = read_header(shelf, &mut blob)? else {
        return Ok(None);
    };
    blob.truncate(size);
    Ok(Some(blob))
}
