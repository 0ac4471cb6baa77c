//! What is printed of one package.

ghost use Rattle.std.specs.Prelude.{◌≡◌, ◌≢◌, ℕ, ◌++◌, true, Err, IfOk, IfErr};
ghost use Rattle.rpm_print.specs.Prelude.{bad_line, Bearer, bearer, entry_in, ErrTakes, Good, HaltHands, IsOfPrint, magic, meaning, OutTakes, printed_step, prints_packages, PutsErr, PutsOut, shown_outputs, step_by, StepIs, ToErr, ToOut};

use itoa::Buffer;
use rpm_command::Request;
use rpm_effects::Halt;
use rpm_header::{MAGIC, View};
use rpm_outside::{Buffered, Failed, Sink, put_and_flush};
use rpm_qfeval::{DirectFault, print_direct};
use rpm_qfparse::Format;
use rpm_select::Picked;
use std::alloc::{AllocError, Global};

/// Writes a message on a package to err.
fn put_message<E: Sink + Drop>(err: &mut Buffered<E>, message: &[u8]) -> Result<bool, Halt>
    ensures step { (for : Bearer) → ErrTakes E.Sink (StepIs (ToErr for message.now) result) err.old err.new }
    ensures puts { PutsErr E.Sink result err.old err.new }
{
    err.clear();
    match put_and_flush(err, message) {
        Ok(()) => Ok(false),
        Err(_) => Err(Halt::ErrFault),
    }
}

/// The message that a package can't be read.
#[tactic(auto, unfolding(crate::specs::Printed::bad_line))]
fn bad_line(alloc: Global, number: u32) -> Result<Vec<u8>, AllocError>
    ensures { IfOk result (λ line. line.items ≡ bad_line number) }
{
    let mut digits = Buffer::new();
    let mut line = Vec::new(alloc);
    line.extend_from_slice(b"error: package ")?;
    line.extend_from_slice(digits.format(number).as_bytes())?;
    line.extend_from_slice(b": header cannot be read\n")?;
    Ok(line)
}

/// Writes to err that a package can't be read.
pub fn put_bad<E: Sink + Drop>(
    alloc: Global,
    err: &mut Buffered<E>,
    number: u32,
) -> Result<bool, Halt>
    ensures step { (for : Bearer) → ErrTakes E.Sink (StepIs (ToErr for (bad_line number)) result) err.old err.new }
    ensures puts { PutsErr E.Sink result err.old err.new }
{
    match bad_line(alloc, number) {
        Ok(line) => put_message(err, &line),
        Err(_) => Err(Halt::NoMemory),
    }
}

/// Prints what the format says of a header, to out (true), or where a bracket's tags have different numbers of elements
/// a message, to err (false).
#[tactic(auto, unfolding(crate::specs::Printed::sizes_line))]
pub fn print_header<O: Sink + Drop, E: Sink + Drop>(
    format: &Format,
    view: &View<'_>,
    number: u32,
    out: &mut Buffered<O>,
    err: &mut Buffered<E>,
) -> Result<bool, Halt>
    ensures step { (j : ℕ) → StepIs (printed_step (bearer j number) (meaning view.now number format.now)) result
        (shown_outputs O.Sink E.Sink out.old err.old) (shown_outputs O.Sink E.Sink out.new err.new) }
    ensures no_read { result ≢ Err Halt.DiskFault }
    ensures class { IfErr result IsOfPrint }
    ensures hands { HaltHands O.Sink E.Sink result out.old err.old out.new err.new }
{
    out.clear();
    match print_direct(format, view, number, out) {
        Ok(()) => match out.flush() {
            Ok(()) => Ok(true),
            Err(Failed) => Err(Halt::OutFault),
        },
        Err(DirectFault::OutFault) => Err(Halt::OutFault),
        Err(DirectFault::SizesDiffer { .. }) => put_message(
            err,
            b"error: incorrect format: array iterator used with different sized arrays\n",
        ),
    }
}

/// A header after the magic.
fn with_magic(alloc: Global, blob: &[u8]) -> Result<Vec<u8>, AllocError>
    ensures { IfOk result (λ piece. piece.items ≡ magic ++ blob.now) }
{
    let mut piece = Vec::new(alloc);
    piece.extend_from_slice(&MAGIC)?;
    piece.extend_from_slice(blob)?;
    Ok(piece)
}

/// Writes a text to out.
pub fn put_text<O: Sink + Drop>(out: &mut Buffered<O>, text: &[u8]) -> Result<bool, Halt>
    ensures step { (for : Bearer) → OutTakes O.Sink (StepIs (ToOut for text.now) result) out.old out.new }
    ensures puts { PutsOut O.Sink result out.old out.new }
{
    out.clear();
    match put_and_flush(out, text) {
        Ok(()) => Ok(true),
        Err(_) => Err(Halt::OutFault),
    }
}

/// Writes a header after the magic to out, all in one piece.
fn put_export<O: Sink + Drop>(
    alloc: Global,
    blob: &[u8],
    out: &mut Buffered<O>,
) -> Result<bool, Halt>
    ensures step { (for : Bearer) → OutTakes O.Sink (StepIs (ToOut for (magic ++ blob.now)) result) out.old out.new }
    ensures puts { PutsOut O.Sink result out.old out.new }
{
    match with_magic(alloc, blob) {
        Ok(piece) => put_text(out, &piece),
        Err(_) => Err(Halt::NoMemory),
    }
}

/// Prints a package that was picked, to out (true), or a message, to err (false): for an export its header after the
/// magic, else what the format says of it.
pub fn print_picked<O: Sink + Drop, E: Sink + Drop>(
    alloc: Global,
    request: Request,
    format: &Format,
    picked: &Picked,
    out: &mut Buffered<O>,
    err: &mut Buffered<E>,
) -> Result<bool, Halt>
    requires { prints_packages request ≡ true }
    ensures step { (j : ℕ) → StepIs (step_by request format.now j (entry_in picked.now)) result
        (shown_outputs O.Sink E.Sink out.old err.old) (shown_outputs O.Sink E.Sink out.new err.new) }
    ensures no_read { result ≢ Err Halt.DiskFault }
    ensures class { IfErr result IsOfPrint }
    ensures hands { HaltHands O.Sink E.Sink result out.old err.old out.new err.new }
{
    match picked {
        Picked::Good { number, blob } => match request {
            Request::Export => put_export(alloc, blob.as_slice(), out),
            _ => {
                let view = blob.view();
                print_header(format, &view, *number, out, err)
            }
        },
        Picked::Bad { number } => put_bad(alloc, err, *number),
    }
}
