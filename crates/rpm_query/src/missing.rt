//! The line of an argument that picks nothing: on out, or on err where a number has no record.

ghost use Rattle.std.specs.Prelude.{◌≡◌, ◌≢◌, ℕ, List, Err, IfErr, IfNone, IfSome};
ghost use Rattle.rpm_query.specs.Prelude.{ErrTakes, HaltHands, IsOfPrint, missing_line_part, missing_part, nothing, OutTakes, PartIs, PutsErr, PutsOut, shown_outputs, whole_step};

use rpm_effects::{Halt, put_line, put_out};
use rpm_outside::{Buffered, Sink};
use rpm_words::Chosen;

/// Writes to out a line that has the argument's text between two others; then the argument fails.
fn put_missing<O: Sink + Drop>(
    out: &mut Buffered<O>,
    front: &[u8],
    text: &[u8],
    back: &[u8],
) -> Result<bool, Halt>
    ensures part { (j : ℕ) → OutTakes O.Sink (λ old new. PartIs (missing_line_part j front.now text.now back.now) result old new
        (λ for. for ≡ whole_step j)) out.old out.new }
    ensures puts { PutsOut O.Sink result out.old out.new }
{
    put_out(out, &[front, text, back])
}

/// Writes to err that a number has no record.
#[tactic(auto, unfolding(crate::specs::Queries::missing_part))]
fn put_no_record<E: Sink + Drop>(err: &mut Buffered<E>, text: &[u8]) -> Result<bool, Halt>
    ensures part { (j : ℕ) → ErrTakes E.Sink (λ old new. PartIs (missing_part Chosen.Number j text.now) result old new
        (λ for. for ≡ whole_step j)) err.old err.new }
    ensures puts { PutsErr E.Sink result err.old err.new }
{
    match put_line(err, &[b"error: record ", text, b" could not be read\n"]) {
        Ok(()) => Ok(true),
        Err(_) => Err(Halt::ErrFault),
    }
}

/// The texts around an argument in its line on out, where it has one.
#[tactic(auto, unfolding(crate::specs::Queries::missing_part))]
fn texts_around(chosen: Chosen) -> Option<(&'static [u8], &'static [u8])>
    ensures some { IfSome result (λ texts. (j : ℕ) (text : List ℕ) → missing_part chosen j text ≡ missing_line_part j texts.0.now text texts.1.now) }
    ensures none { IfNone result (chosen ≢ Chosen.Number → (j : ℕ) (text : List ℕ) → missing_part chosen j text ≡ nothing) }
{
    match chosen {
        Chosen::All | Chosen::Package | Chosen::Number => None,
        Chosen::Label => Some((b"package ", b" is not installed\n")),
        Chosen::Path => Some((b"file ", b" is not owned by any package\n")),
        Chosen::Group => Some((b"group ", b" does not contain any packages\n")),
        Chosen::Provides => Some((b"no package provides ", b"\n")),
        Chosen::Requires => Some((b"no package requires ", b"\n")),
        Chosen::Conflicts => Some((b"no package conflicts ", b"\n")),
        Chosen::Obsoletes => Some((b"no package obsoletes ", b"\n")),
        Chosen::Trigger => Some((b"no package triggers ", b"\n")),
        Chosen::Directory => Some((b"no package has files in ", b"\n")),
        Chosen::Tid => Some((b"no package has transaction ", b"\n")),
        Chosen::Recommends => Some((b"no package recommends ", b"\n")),
    }
}

/// Writes the line of an argument that picks nothing, where it has one; then the argument fails.
pub fn put_missing_part<O: Sink + Drop, E: Sink + Drop>(
    chosen: Chosen,
    text: &[u8],
    out: &mut Buffered<O>,
    err: &mut Buffered<E>,
) -> Result<bool, Halt>
    ensures part { (j : ℕ) → PartIs (missing_part chosen j text.now) result (shown_outputs O.Sink E.Sink out.old err.old)
        (shown_outputs O.Sink E.Sink out.new err.new) (λ for. for ≡ whole_step j) }
    ensures no_read { result ≢ Err Halt.DiskFault }
    ensures class { IfErr result IsOfPrint }
    ensures hands { HaltHands O.Sink E.Sink result out.old err.old out.new err.new }
{
    match texts_around(chosen) {
        Some((front, back)) => put_missing(out, front, text, back),
        None => match chosen {
            Chosen::Number => put_no_record(err, text),
            _ => Ok(false),
        },
    }
}
