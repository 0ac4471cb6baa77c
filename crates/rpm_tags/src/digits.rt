//! The digits of a number.

ghost use Rattle.std.specs.Prelude.{◌≡◌, ℕ, ◌+◌, ◌≤◌, ◌<◌, ◌∷◌, length, drop, decimal};

/// The decimal digits of a number, of which there are 20 at most. They stand at the end, from
/// `start` on.
#[derive(Clone, Copy)]
pub struct Digits {
    pub bytes: [u8; 20],
    pub start: usize,
}

impl Digits {
    /// The digits.
    pub fn bytes(&self) -> &[u8]
        requires { self.now.start ≤ 20 }
        ensures { result.now ≡ drop self.now.start self.now.bytes }
    {
        let bytes: &[u8] = &self.bytes;
        &bytes[self.start..]
    }
}

fn put_digit(bytes: &mut [u8; 20], at: usize, digit: u64)
    requires digit { digit < 10 }
    requires within { at < 20 }
    ensures { drop at bytes.new ≡ (48 + digit) ∷ drop (at + 1) bytes.old }
{
    bytes[at] = b'0' + digit as u8;
}

/// The digits of a number, without zeros in front. Divides once for each digit.
pub fn digits_in(number: u64) -> Digits
    ensures value { drop result.start result.bytes ≡ decimal number }
    ensures within { result.start ≤ 20 }
    ensures short { length (decimal number) + result.start ≡ 20 }
{
    let mut bytes = [0; 20];
    let mut start = 20;
    let mut left = number;
    while left >= 10 {
        start -= 1;
        put_digit(&mut bytes, start, left % 10);
        left /= 10;
    }
    start -= 1;
    put_digit(&mut bytes, start, left);
    Digits { bytes, start }
}
