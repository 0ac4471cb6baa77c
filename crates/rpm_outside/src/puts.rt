//! What is written to a sink, and to one with a buffer in front of it.

ghost use Rattle.std.specs.Prelude.{◌≡◌, [], drop};
ghost use Rattle.rpm_outside.specs.Prelude.{begins_refl, begins_trans};
ghost use Rattle.rpm_outside.specs.Buffered.{all_taken, Flushes, KeepsHeld, inner};
ghost use Rattle.rpm_outside.specs.SinkFrame.{Writes};

use crate::{Buffered, Failed, Sink};

/// Writes all these bytes, in order, in as many calls of the sink as it asks for. It takes no memory and copies
/// nothing.
///
/// # Errors
///
/// `Failed` where a call of the sink failed. The sink then took the first of the bytes, or none.
pub fn put_all<O: Sink>(sink: &mut O, bytes: &[u8]) -> Result<(), Failed>
    ensures { Writes O.Sink sink.old sink.new bytes.now result }
{
    let mut done = 0;
    while done < bytes.len() {
        done += sink.write(&bytes[done..])?;
    }
    Ok(())
}

impl<O: Sink + Drop> Buffered<O> {
    /// Gives the sink all that is held.
    ///
    /// # Errors
    ///
    /// `Failed` where a call of the sink failed. It then took the first of what was held, or none, and
    /// the others are held.
    pub fn flush(&mut self) -> Result<(), Failed>
        ensures { Flushes O.Sink self.old self.new result }
    {
        while self.gone < self.held.len() {
            self.gone += self.sink.write(&self.held.as_slice()[self.gone..])?;
        }
        self.clear();
        Ok(())
    }
}

fn put_through<O: Sink + Drop>(sink: &mut Buffered<O>, bytes: &[u8]) -> Result<(), Failed>
    requires { drop sink.old.gone sink.old.held.items ≡ [] }
    ensures { Writes O.Sink sink.old.sink sink.new.sink bytes.now result }
{
    put_all(sink, bytes)?;
    sink.flush()
}

/// Writes all these bytes to the sink behind a buffer that holds nothing, in as few calls as there are
/// buffers full of them.
///
/// # Errors
///
/// `Failed` where a call of the sink failed. The sink then took the first of the bytes, or none, and the
/// others are let go.
pub fn put_and_flush<O: Sink + Drop>(sink: &mut Buffered<O>, bytes: &[u8]) -> Result<(), Failed>
    requires { drop sink.old.gone sink.old.held.items ≡ [] }
    ensures writes { Writes O.Sink sink.old.sink sink.new.sink bytes.now result }
    ensures empty { drop sink.new.gone sink.new.held.items ≡ [] }
{
    let put = put_through(sink, bytes);
    sink.clear();
    put
}

impl<O: Sink + Drop> Sink for Buffered<O> {
    ghost tells = { O.tells };

    ghost taken = { all_taken O.Sink };

    ghost faults = { λ b. O.faults (inner b) };

    ghost follows = { KeepsHeld O.Sink };

    ghost follows_refl = { λ b. (O.follows_refl (inner b), λ told. begins_refl _) };

    ghost follows_trans = { λ a b c f g. (
      O.follows_trans (inner a) (inner b) (inner c) f.0 g.0,
      λ told. begins_trans _ _ _ (f.1 told) (g.1 told),
    ) };

    ghost follows_grows = { λ a b f told. f.1 told };

    fn write(&mut self, bytes: &[u8]) -> Result<usize, Failed> {
        if self.keep(bytes) {
            return Ok(bytes.len());
        }
        self.flush()?;
        if self.keep(bytes) {
            return Ok(bytes.len());
        }
        self.sink.write(bytes)
    }
}
