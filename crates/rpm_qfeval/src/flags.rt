//! Flags, a letter each.

ghost use Rattle.std.specs.Prelude.{◌≡◌, ◌≤◌, length};
ghost use Rattle.rpm_qfeval.specs.Prelude.{bit_letters};

use crate::modes::has;
use arrayvec::ArrayVec;

/// The comparison of a dependency, a letter for each bit, which is given by its value.
pub const DEPFLAGS: [(u64, u8); 3] = [(2, b'<'), (4, b'>'), (8, b'=')];

/// The flags of a file.
pub const FFLAGS: [(u64, u8); 9] = [
    (2, b'd'),
    (1, b'c'),
    (32, b's'),
    (8, b'm'),
    (16, b'n'),
    (64, b'g'),
    (128, b'l'),
    (256, b'r'),
    (4096, b'a'),
];

/// The letters of the bits that a number has.
pub fn letters(rows: &[(u64, u8)], number: u64) -> ArrayVec<u8, 9>
    requires { length rows.now ≤ 9 }
    ensures { result.items ≡ bit_letters rows.now number }
{
    let mut letters = ArrayVec::new();
    for (bit, letter) in rows {
        if has(number, *bit) {
            letters.push(*letter);
        }
    }
    letters
}
