//! `AnswersText` of the theorem: what the program says of itself.

ghost use Rattle.std.specs.Prelude.{◌≡◌, ◌⊎◌};
ghost use Rattle.rpm_print.specs.Prelude.{Anywhere, Hand, OutTakes, text_course, CommandProgress};

use rpm_effects::Why;
use rpm_outside::{Buffered, Failed, Sink, put_and_flush};

/// Prints a text in one piece.
pub fn print_text<O: Sink + Drop>(text: &[u8], out: &mut Buffered<O>) -> Why
    ensures went { OutTakes O.Sink (λ old new. CommandProgress (text_course text.now) result old new Anywhere) out.old out.new }
    ensures ends { (result ≡ Why.Done) ⊎ (result ≡ Why.OutFault) }
    ensures out { Hand O.Sink (result ≡ Why.OutFault) out.old out.new }
{
    out.clear();
    match put_and_flush(out, text) {
        Ok(()) => Why::Done,
        Err(Failed) => Why::OutFault,
    }
}
