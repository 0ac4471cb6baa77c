//! What is told of package files that aren't read.

ghost use Rattle.std.specs.Prelude.{◌≡◌, ◌++◌, IfOk};
ghost use Rattle.rpm_effects.specs.Prelude.{absent_line, at_entry, Fails, file_text, header_text, refused_line, stop_in};

use crate::lines::put_failing;
use crate::pieces::put_line;
use crate::tally::{FAILED, Halt, Tally};
use itoa::Buffer;
use rpm_file::FileFault;
use rpm_header::HeaderFault;
use rpm_outside::{Buffered, Sink};
use std::alloc::{AllocError, Global};

/// Adds what is told of an entry.
fn push_entry(text: &mut Vec<u8>, entry: u32, what: &[u8]) -> Result<(), AllocError>
    ensures { IfOk result (λ done. text.new.items ≡ text.old.items ++ at_entry entry what.now) }
{
    let mut digits = Buffer::new();
    text.extend_from_slice(b"entry ")?;
    text.extend_from_slice(digits.format(entry).as_bytes())?;
    text.extend_from_slice(b": ")?;
    text.extend_from_slice(what)
}

/// Adds what is told of a fault of a header: the fault, with its entry, counted from 0, in front.
///
/// # Errors
///
/// `AllocError` where there is no memory.
#[tactic(auto, unfolding(crate::specs::Texts::header_text))]
pub fn push_header_text(text: &mut Vec<u8>, fault: HeaderFault) -> Result<(), AllocError>
    ensures { IfOk result (λ done. text.new.items ≡ text.old.items ++ header_text fault) }
{
    match fault {
        HeaderFault::Short => text.extend_from_slice(b"header is cut short"),
        HeaderFault::TooManyEntries => text.extend_from_slice(b"too many entries"),
        HeaderFault::TooMuchData => text.extend_from_slice(b"too much data"),
        HeaderFault::BadType(entry) => push_entry(text, entry, b"bad type"),
        HeaderFault::BadOffset(entry) => push_entry(text, entry, b"bad offset"),
        HeaderFault::BadCount(entry) => push_entry(text, entry, b"bad count"),
        HeaderFault::NoEnd(entry) => push_entry(text, entry, b"text has no end"),
        HeaderFault::BadRegion => text.extend_from_slice(b"bad region"),
    }
}

/// Adds what is told of a fault of a package file: of one of its headers the header and its fault. `ReadFault` and
/// `NoMemory` are no faults of a file, and add nothing.
#[tactic(auto, unfolding(crate::specs::Texts::file_text))]
fn push_file_text(text: &mut Vec<u8>, fault: FileFault) -> Result<(), AllocError>
    ensures { IfOk result (λ done. text.new.items ≡ text.old.items ++ file_text fault) }
{
    match fault {
        FileFault::Short => text.extend_from_slice(b"file is cut short"),
        FileFault::NotAPackage => text.extend_from_slice(b"not an rpm package"),
        FileFault::BadMagic => text.extend_from_slice(b"bad header magic"),
        FileFault::Signature(of) => {
            text.extend_from_slice(b"signature header: ")?;
            push_header_text(text, of)
        }
        FileFault::Main(of) => {
            text.extend_from_slice(b"header: ")?;
            push_header_text(text, of)
        }
        FileFault::TooLarge => text.extend_from_slice(b"header too large"),
        FileFault::ReadFault | FileFault::NoMemory => Ok(()),
    }
}

/// The line of a package file that is refused.
fn refused_line(alloc: Global, path: &[u8], fault: FileFault) -> Result<Vec<u8>, AllocError>
    ensures { IfOk result (λ line. line.items ≡ refused_line path.now fault) }
{
    let mut line = Vec::new(alloc);
    line.extend_from_slice(b"error: ")?;
    line.extend_from_slice(path)?;
    line.extend_from_slice(b": ")?;
    push_file_text(&mut line, fault)?;
    line.extend_from_slice(b"\n")?;
    Ok(line)
}

/// Writes to err that a package file is refused; then the argument fails.
pub fn put_refused<E: Sink + Drop>(
    alloc: Global,
    err: &mut Buffered<E>,
    path: &[u8],
    fault: FileFault,
) -> Result<Tally, Halt>
    ensures { Fails E.Sink (refused_line path.now fault) err.old err.new result }
{
    let line = refused_line(alloc, path, fault)?;
    put_failing(err, &line)
}

/// Writes to err that a path can't be opened; then the argument fails. It takes no memory.
pub fn put_absent<E: Sink + Drop>(err: &mut Buffered<E>, path: &[u8]) -> Result<Tally, Halt>
    ensures { Fails E.Sink (absent_line path.now) err.old err.new result }
{
    match put_line(err, &[b"error: open of ", path, b" failed\n"]) {
        Ok(()) => Ok(FAILED),
        Err(_) => Err(Halt::ErrFault),
    }
}

/// What stops a command where a package file isn't read; None where the file itself is refused.
pub fn stop_in(fault: FileFault) -> Option<Halt>
    ensures { result ≡ stop_in fault }
{
    match fault {
        FileFault::ReadFault => Some(Halt::ShelfFault),
        FileFault::NoMemory => Some(Halt::NoMemory),
        _ => None,
    }
}
