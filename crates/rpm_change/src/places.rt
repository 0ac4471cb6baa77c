//! The lines on err for a header of a list that is none, and for a fault of the list.

ghost use Rattle.std.specs.Prelude.{◌≡◌, IfOk};
ghost use Rattle.rpm_change.specs.Prelude.{Fails, header_text, list_text, place_line};

use itoa::Buffer;
use rpm_effects::{Halt, Tally, push_header_text, put_failing};
use rpm_file::ListFault;
use rpm_header::HeaderFault;
use rpm_outside::{Buffered, Sink};
use std::alloc::{AllocError, Global};

/// What is told of a fault of a list: of `ReadFault` and `NoMemory`, which are none, nothing.
#[tactic(auto, unfolding(crate::specs::Places::list_text))]
pub fn list_text(fault: ListFault) -> &'static [u8]
    ensures { result.now ≡ list_text fault }
{
    match fault {
        ListFault::Short => b"list is cut short",
        ListFault::BadMagic => b"bad header magic",
        ListFault::TooManyEntries => b"too many entries",
        ListFault::TooMuchData => b"too much data",
        ListFault::ReadFault => b"",
        ListFault::NoMemory => b"",
    }
}

/// The line of the header at a place, from 1.
#[tactic(auto, unfolding(crate::specs::Places::place_line))]
fn place_line(alloc: Global, place: u32, text: &[u8]) -> Result<Vec<u8>, AllocError>
    ensures { IfOk result (λ line. line.items ≡ place_line place text.now) }
{
    let mut digits = Buffer::new();
    let mut line = Vec::new(alloc);
    line.extend_from_slice(b"error: header ")?;
    line.extend_from_slice(digits.format(place).as_bytes())?;
    line.extend_from_slice(b": ")?;
    line.extend_from_slice(text)?;
    line.extend_from_slice(b"\n")?;
    Ok(line)
}

/// Writes to err what is told of the header at a place; then the argument fails.
pub fn put_place<E: Sink + Drop>(
    alloc: Global,
    err: &mut Buffered<E>,
    place: u32,
    text: &[u8],
) -> Result<Tally, Halt>
    ensures { Fails E.Sink (place_line place text.now) err.old err.new result }
{
    let line = place_line(alloc, place, text)?;
    put_failing(err, &line)
}

/// Writes to err that the header at a place is none; then the argument fails.
pub fn put_bad_header<E: Sink + Drop>(
    alloc: Global,
    err: &mut Buffered<E>,
    place: u32,
    fault: HeaderFault,
) -> Result<Tally, Halt>
    ensures { Fails E.Sink (place_line place (header_text fault)) err.old err.new result }
{
    let mut text = Vec::new(alloc);
    push_header_text(&mut text, fault)?;
    put_place(alloc, err, place, &text)
}
