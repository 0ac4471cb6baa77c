//! Text that is written in pieces.

ghost use Rattle.std.specs.Prelude.{◌≡◌, map};
ghost use Rattle.rpm_effects.specs.Prelude.{Bearer, concat, fails, inner, OutTakes, PartIs, PutsOut, ToOut, Writes};

use crate::tally::Halt;
use rpm_outside::{Buffered, Failed, Sink, put_all};

/// Writes these pieces, one after the other. It takes no memory.
pub fn put_pieces<S: Sink>(sink: &mut S, pieces: &[&[u8]]) -> Result<(), Failed>
    ensures { Writes S.Sink sink.old sink.new (concat (map (λ piece. piece.now) pieces.now)) result }
{
    for piece in pieces {
        put_all(sink, piece)?;
    }
    Ok(())
}

/// Writes these pieces to the sink behind a buffer, one after the other. What the buffer held is let go.
pub fn put_line<S: Sink + Drop>(sink: &mut Buffered<S>, pieces: &[&[u8]]) -> Result<(), Failed>
    ensures writes { Writes S.Sink (inner sink.old) (inner sink.new) (concat (map (λ piece. piece.now) pieces.now)) result }
{
    sink.clear();
    put_pieces(sink, pieces)?;
    sink.flush()
}

/// Writes to out these pieces of a text, one after the other, as one step. Says true: the argument may fail for it.
pub fn put_out<O: Sink + Drop>(out: &mut Buffered<O>, pieces: &[&[u8]]) -> Result<bool, Halt>
    ensures part { (for : Bearer) → OutTakes O.Sink (λ old new. PartIs
        (fails (ToOut for (concat (map (λ piece. piece.now) pieces.now)))) result old new (λ at. at ≡ for))
        out.old out.new }
    ensures puts { PutsOut O.Sink result out.old out.new }
{
    match put_line(out, pieces) {
        Ok(()) => Ok(true),
        Err(_) => Err(Halt::OutFault),
    }
}
