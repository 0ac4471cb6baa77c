//! The digits of a number to the base 8 or 16.

ghost use Rattle.std.specs.Prelude.{◌≡◌, ◌≤◌, ◌<◌, ◌+◌, ◌∷◌, drop, false, List, ℕ};
ghost use Rattle.rpm_qfeval.specs.Prelude.{digit_glyph, digits};

use std::marker::Model;

/// At most 22 digits, which stand at the end. Contracts see it as the list of them.
#[derive(Drop)]
pub struct Digits {
    bytes: [u8; 22],
    start: usize,
}

impl Model for Digits {
    ghost Value = { List ℕ };

    ghost view = { λ s. drop s.start s.bytes };

    ghost invariant = { λ s. s.start ≤ 22 };
}

impl Digits {
    /// The digits.
    pub fn as_slice(&self) -> &[u8]
        ensures { result.now ≡ self.now }
    {
        let bytes: &[u8] = &self.bytes;
        &bytes[self.start..]
    }
}

fn glyph(digit: u64) -> u8
    requires { digit < 16 }
    ensures { result ≡ digit_glyph false digit }
{
    if digit < 10 {
        b'0' + digit as u8
    } else {
        b'a' + (digit as u8 - 10)
    }
}

fn put_glyph(bytes: &mut [u8; 22], at: usize, digit: u64)
    requires digit { digit < 16 }
    requires within { at < 22 }
    ensures { drop at bytes.new ≡ digit_glyph false digit ∷ drop (at + 1) bytes.old }
{
    bytes[at] = glyph(digit);
}

/// The digits of a number to a base, without zeros in front and with small letters. Divides once for each.
pub fn digits_in(number: u64, base: u64) -> Digits
    requires low { 8 ≤ base }
    requires high { base ≤ 16 }
    ensures { result ≡ digits base false number }
{
    let mut bytes = [0; 22];
    let mut start = 22;
    let mut left = number;
    while left >= base {
        start -= 1;
        put_glyph(&mut bytes, start, left % base);
        left /= base;
    }
    start -= 1;
    put_glyph(&mut bytes, start, left);
    Digits { bytes, start }
}
