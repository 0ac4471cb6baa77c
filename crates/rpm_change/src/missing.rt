//! The line of a number that no package has.

ghost use Rattle.std.specs.Prelude.{◌≡◌, IfOk};
ghost use Rattle.rpm_change.specs.Prelude.{Fails, missing_line};

use itoa::Buffer;
use rpm_effects::{Halt, Tally, put_failing};
use rpm_outside::{Buffered, Sink};
use std::alloc::{AllocError, Global};

/// The line of a number that no package has.
#[tactic(auto, unfolding(crate::specs::Erasing::missing_line))]
fn missing_line(alloc: Global, number: u32) -> Result<Vec<u8>, AllocError>
    ensures { IfOk result (λ line. line.items ≡ missing_line number) }
{
    let mut digits = Buffer::new();
    let mut line = Vec::new(alloc);
    line.extend_from_slice(b"error: record ")?;
    line.extend_from_slice(digits.format(number).as_bytes())?;
    line.extend_from_slice(b" could not be read\n")?;
    Ok(line)
}

/// Writes to err that no package has a number; then the argument fails.
pub fn put_missing<E: Sink + Drop>(
    alloc: Global,
    err: &mut Buffered<E>,
    number: u32,
) -> Result<Tally, Halt>
    ensures { Fails E.Sink (missing_line number) err.old err.new result }
{
    let line = missing_line(alloc, number)?;
    put_failing(err, &line)
}
