//! A sink over standard output or standard error.

ghost use Rattle.std.specs.Prelude.{false, [], refl};
ghost use Rattle.std.specs.Io.{WritesAtMost};
ghost use Rattle.rpm_real.specs.Counts.{FaultCount};

use rpm_outside::{Failed, Sink};
use std::io;
use std::io::{ErrorKind, Print};

/// A sink that writes at once, and tells nothing of what it wrote.
#[derive(Drop)]
pub struct RealSink<P: Print + Drop> {
    to: P,
    faults: u64,
}

/// Writes, and again where a signal came first.
fn write_on(to: &impl Print, bytes: &[u8]) -> io::Result<usize>
    ensures { WritesAtMost result bytes.now }
{
    for _ in 0..u64::MAX {
        match to.write_some(bytes) {
            Err(error) if error.kind() == ErrorKind::Interrupted => {}
            answer => return answer,
        }
    }
    Err(io::Error::from(ErrorKind::Interrupted))
}

impl<P: Print + Drop> RealSink<P> {
    /// A sink that hasn't failed yet.
    pub fn new(to: P) -> RealSink<P> {
        RealSink { to, faults: 0 }
    }
}

impl<P: Print + Drop> Sink for RealSink<P> {
    ghost tells = { false };

    ghost taken = { λ sink. [] };

    ghost faults = { λ sink. sink.faults };

    ghost follows = { λ old new. Unit {0} };

    ghost outcome = { λ old failed new. FaultCount failed old.faults new.faults };

    ghost follows_refl = { λ sink. tt };

    ghost follows_trans = { λ a b c f g. tt };

    ghost follows_grows = { λ a b f told. ([], refl) };

    fn write(&mut self, bytes: &[u8]) -> Result<usize, Failed> {
        match write_on(&self.to, bytes) {
            Ok(0) | Err(_) => {
                self.faults = self.faults.saturating_add(1);
                Err(Failed)
            }
            Ok(count) => Ok(count),
        }
    }
}
