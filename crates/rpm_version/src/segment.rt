//! The segments of a version, one at a time.

ghost use Rattle.std.specs.Prelude.{◌≡◌, ◌≢◌, ◌+◌, ◌<◌, ◌≤◌, ◌∷◌, ◌↔◌, IsTrue, drop, length};
ghost use Rattle.rpm_version.specs.Prelude.{AllDigits, is_ascii_alphabetic, is_ascii_digit, IsRun, prefix_len, rank, segment_at, segments, segments_behind, take_while};

/// A segment as it stands in a borrowed text.
#[derive(Clone, Copy)]
pub enum Piece<'a> {
    Tilde,
    End,
    Caret,
    /// A longest run of ASCII letters.
    Letters(&'a [u8]),
    /// A longest run of ASCII digits.
    Digits(&'a [u8]),
}

impl Piece<'_> {
    /// The place of its kind among the five, the lowest first.
    pub fn rank(self) -> u8
        ensures { result ≡ rank (segment_at self.entry) }
    {
        match self {
            Piece::Tilde => 0,
            Piece::End => 1,
            Piece::Caret => 2,
            Piece::Letters(_) => 3,
            Piece::Digits(_) => 4,
        }
    }

    pub fn is_end(self) -> bool
        ensures { IsTrue result ↔ (self.entry ≡ Piece.End) }
    {
        matches!(self, Piece::End)
    }
}

fn digits_len(text: &[u8]) -> usize
    ensures length { result ≡ prefix_len is_ascii_digit text.now }
    ensures within { result ≤ length text.now }
{
    text.iter().take_while(|byte| byte.is_ascii_digit()).count()
}

fn letters_len(text: &[u8]) -> usize
    ensures length { result ≡ prefix_len is_ascii_alphabetic text.now }
    ensures within { result ≤ length text.now }
{
    text.iter()
        .take_while(|byte| byte.is_ascii_alphabetic())
        .count()
}

/// The longest run of digits that a text begins with, and what stands after it.
#[tactic(auto, using(crate::proofs::Cuts::taken_digits))]
pub fn leading_digits(text: &[u8]) -> (&[u8], &[u8])
    ensures run { result.0.now ≡ take_while is_ascii_digit text.now }
    ensures digits { AllDigits 10 result.0.now }
    ensures behind { result.1.now ≡ drop (prefix_len is_ascii_digit text.now) text.now }
{
    text.split_at(digits_len(text))
}

/// The longest run of letters that a text begins with, and what stands after it.
pub fn leading_letters(text: &[u8]) -> (&[u8], &[u8])
    ensures run { result.0.now ≡ take_while is_ascii_alphabetic text.now }
    ensures behind { result.1.now ≡ drop (prefix_len is_ascii_alphabetic text.now) text.now }
{
    text.split_at(letters_len(text))
}

/// The first segment of a text, and what stands after it. Reads no byte after the segment but
/// the one that ends it.
pub fn next_piece(text: &[u8]) -> (Piece<'_>, &[u8])
    ensures first { segments text.now ≡ segment_at result.0 ∷ segments_behind result.0 result.1.now }
    ensures run { IsRun result.0 }
    ensures shorter { result.0 ≢ Piece.End → length result.1.now < length text.now }
{
    let mut rest = text;
    while let Some((byte, others)) = rest.split_first() {
        if byte.is_ascii_digit() {
            let (digits, behind) = leading_digits(rest);
            return (Piece::Digits(digits), behind);
        }
        if byte.is_ascii_alphabetic() {
            let (letters, behind) = leading_letters(rest);
            return (Piece::Letters(letters), behind);
        }
        match byte {
            b'~' => return (Piece::Tilde, others),
            b'^' => return (Piece::Caret, others),
            _ => rest = others,
        }
    }
    (Piece::End, rest)
}
