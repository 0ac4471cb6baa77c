//! A line for which an argument fails.

ghost use Rattle.rpm_effects.specs.Prelude.{Fails};

use crate::tally::{FAILED, Halt, Tally};
use rpm_outside::{Buffered, Sink, put_and_flush};

/// Writes a line to err; then the argument fails.
pub fn put_failing<E: Sink + Drop>(err: &mut Buffered<E>, line: &[u8]) -> Result<Tally, Halt>
    ensures { Fails E.Sink line.now err.old err.new result }
{
    err.clear();
    match put_and_flush(err, line) {
        Ok(()) => Ok(FAILED),
        Err(_) => Err(Halt::ErrFault),
    }
}
