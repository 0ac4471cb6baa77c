//! Reads that go on until enough bytes have come.

ghost use Rattle.std.specs.Prelude.{◌≡◌, ◌<◌, ◌≤◌, ◌+◌, ◌-◌, ◌++◌, [], IsTrue, length, take, drop, vec_len, Err, IfOk, IfErr, OnOk};
ghost use Rattle.rpm_file.specs.Prelude.{Appends, Browses, Extends, Fills, HasCause, HasCauseAt, IsOutsideList, bytes_left, TakesAtMost};

use crate::fault::ListFault;
use rpm_outside::{Failed, Shelf};
use std::alloc::AllocError;

/// Reads until a buffer is full or the open item at its end, and says how many bytes came. Takes one more read to see
/// the end.
///
/// # Errors
///
/// `Failed` where a read failed.
pub fn fill<S: Shelf>(shelf: &mut S, into: &mut [u8]) -> Result<usize, Failed>
    ensures within { IfOk result (λ n. n ≤ length into.old) }
    ensures fills { IfOk result (λ n. IsTrue S.tells → Fills (S.rest shelf.old) (S.rest shelf.new) n into.new) }
    ensures browses { Browses S.Shelf shelf.old shelf.new }
    ensures cause { HasCause (S.faults shelf.old) (S.faults shelf.new) result }
    ensures extent { IsTrue S.tells → TakesAtMost (length into.old) (S.rest shelf.old) (S.rest shelf.new) }
{
    let mut done = 0;
    while done < into.len() {
        let count = shelf.read(&mut into[done..])?;
        if count == 0 {
            break;
        }
        done += count;
    }
    Ok(done)
}

/// Makes a vector so long, where it is shorter. What it held stays.
fn make_room(room: &mut Vec<u8>, size: usize) -> Result<(), AllocError>
    ensures long { OnOk result (size ≤ vec_len room.new) }
    ensures kept { OnOk result (take (vec_len room.old) room.new.items ≡ room.old.items) }
{
    if room.len() < size {
        room.resize(size, 0)?;
    }
    Ok(())
}

/// Puts these bytes in front of others, in place of as many.
fn put_front(bytes: &mut [u8], front: &[u8])
    requires { length front.now ≤ length bytes.old }
    ensures { bytes.new ≡ front.now ++ drop (length front.now) bytes.old }
{
    bytes[..front.len()].copy_from_slice(front);
}

/// Puts these eight bytes in front of a vector, which grows where it is shorter.
pub fn begin(room: &mut Vec<u8>, front: &[u8]) -> Result<(), AllocError>
    requires { length front.now ≡ 8 }
    ensures long { OnOk result (8 ≤ vec_len room.new) }
    ensures front { OnOk result (take 8 room.new.items ≡ front.now) }
{
    make_room(room, 8)?;
    put_front(room, front);
    Ok(())
}

/// Reads up to so many bytes into a vector, after its first `from`, and says how many came: fewer only at the end of
/// the open item.
fn fill_some<S: Shelf>(
    shelf: &mut S,
    room: &mut Vec<u8>,
    from: usize,
    more: usize,
) -> Result<usize, ListFault>
    requires start { from ≤ vec_len room.old }
    requires few { from + more ≤ 68157440 }
    ensures within { IfOk result (λ count. count ≤ more) }
    ensures long { OnOk result (from + more ≤ vec_len room.new) }
    ensures extends { IfOk result (λ count. IsTrue S.tells
        → Extends (S.rest shelf.old) (S.rest shelf.new) (take from room.old.items)
        (take (from + count) room.new.items)) }
    ensures ended { IfOk result (λ count. IsTrue S.tells → count < more → bytes_left (S.rest shelf.new) ≡ []) }
    ensures only { IfErr result IsOutsideList }
    ensures browses { Browses S.Shelf shelf.old shelf.new }
    ensures cause { HasCauseAt (result ≡ Err ListFault.ReadFault) (S.faults shelf.old) (S.faults shelf.new) }
    ensures extent { IsTrue S.tells → TakesAtMost more (S.rest shelf.old) (S.rest shelf.new) }
{
    if make_room(room, from + more).is_err() {
        return Err(ListFault::NoMemory);
    }
    match fill(shelf, &mut room[from..from + more]) {
        Ok(count) => Ok(count),
        Err(Failed) => Err(ListFault::ReadFault),
    }
}

// The room for bytes that are still to come, at first.
const FIRST: usize = 4096;

/// How many bytes to ask for next, where so many of `size` have come: 4,096, or as many as came so far.
fn next_piece(done: usize, size: usize) -> usize
    requires { done < size }
    ensures some { 0 < result }
    ensures within { done + result ≤ size }
{
    (size - done).min(done.max(FIRST))
}

/// Reads into a vector, after its first `from` bytes, until there are so many or the open item is at its end. Says
/// how many there are then. Where the vector is too short it grows as the bytes come: by 4,096 bytes, or by as many
/// as came so far.
///
/// # Errors
///
/// `ReadFault` where a read failed, `NoMemory` where no memory was found.
pub fn fill_upto<S: Shelf>(
    shelf: &mut S,
    room: &mut Vec<u8>,
    from: usize,
    size: usize,
) -> Result<usize, ListFault>
    requires start { from ≤ vec_len room.old }
    requires few { from ≤ size }
    requires most { size ≤ 68157440 }
    ensures within { IfOk result (λ done. done ≤ size) }
    ensures long { IfOk result (λ done. done ≤ vec_len room.new) }
    ensures appends { IfOk result (λ done. IsTrue S.tells
        → Appends (S.rest shelf.old) (S.rest shelf.new) (take from room.old.items) size (take done room.new.items)) }
    ensures only { IfErr result IsOutsideList }
    ensures browses { Browses S.Shelf shelf.old shelf.new }
    ensures cause { HasCauseAt (result ≡ Err ListFault.ReadFault) (S.faults shelf.old) (S.faults shelf.new) }
    ensures extent { IsTrue S.tells → TakesAtMost (size - from) (S.rest shelf.old) (S.rest shelf.new) }
{
    let mut done = from;
    while done < size {
        let more = next_piece(done, size);
        let count = fill_some(shelf, room, done, more)?;
        done += count;
        if count < more {
            return Ok(done);
        }
    }
    Ok(done)
}
