//! The numbers that stand on a command line.

ghost use Rattle.std.specs.Prelude.{◌≡◌};
ghost use Rattle.rpm_words.specs.Prelude.{exercise_number, is_ascii_digit, list_all, number};

use std::str::from_utf8;

/// Whether a text is of decimal digits alone.
fn is_numeral(text: &str) -> bool
    ensures { result ≡ list_all is_ascii_digit text.now }
{
    text.as_bytes().iter().all(|byte| byte.is_ascii_digit())
}

/// The number that a text is: one to ten decimal digits, of which zeros may stand in front, that
/// tell at most 4,294,967,295. `None` exactly for every other text.
///
/// Goes over the text at most twice, and takes no memory. The form is this project's own.
#[tactic(auto, unfolding(crate::specs::Number::number), using(crate::proofs::Numbers::number_parsed, crate::proofs::Numbers::number_other))]
pub fn number_of(text: &str) -> Option<u32>
    ensures { result ≡ number text.now }
{
    let count = text.len();
    if 1 <= count && count <= 10 && is_numeral(text) {
        text.parse().ok()
    } else {
        None
    }
}

/// The number that bytes are, as a text.
#[tactic(auto, using(crate::proofs::Numbers::number_text))]
pub(crate) fn number_in(bytes: &[u8]) -> Option<u32>
    ensures { result ≡ number bytes.now }
{
    match from_utf8(bytes) {
        Ok(text) => number_of(text),
        Err(_) => None,
    }
}

/// The count of packages that bytes are: a number from 1 to 100,000.
pub(crate) fn exercise_number(bytes: &[u8]) -> Option<u32>
    ensures { result ≡ exercise_number bytes.now }
{
    match number_in(bytes) {
        Some(count) if 1 <= count && count <= 100_000 => Some(count),
        _ => None,
    }
}
