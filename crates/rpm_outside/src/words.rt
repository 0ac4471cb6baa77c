//! Numbers as they stand in a unit.

ghost use Rattle.std.specs.Prelude.{◌≡◌, ℕ, ◌+◌, ◌*◌, ◌≤◌, length};
ghost use Rattle.rpm_outside.specs.Prelude.{bytes_of_word, unit_of_words, word};

/// The number in bytes 4k to 4k + 3 of a unit, the lowest first.
#[tactic(auto, unfolding(crate::specs::Words::word))]
pub fn word(unit: &[u8], k: usize) -> u32
    requires { 4 * k + 4 ≤ length unit.now }
    ensures { result ≡ word k unit.now }
{
    u32::from_le_bytes([
        unit[4 * k],
        unit[4 * k + 1],
        unit[4 * k + 2],
        unit[4 * k + 3],
    ])
}

/// A number as four bytes, the lowest first.
#[tactic(auto, unfolding(crate::specs::Words::bytes_of_word))]
pub fn bytes_of_word(n: u32) -> [u8; 4]
    ensures { result ≡ bytes_of_word n }
{
    n.to_le_bytes()
}

/// The unit of four numbers.
#[tactic(auto, unfolding(crate::specs::Words::unit_of_words, crate::specs::Words::bytes_of_word))]
pub fn unit_of_words(a: u32, b: u32, c: u32, d: u32) -> [u8; 16]
    ensures { result ≡ unit_of_words a b c d }
{
    let a = bytes_of_word(a);
    let b = bytes_of_word(b);
    let c = bytes_of_word(c);
    let d = bytes_of_word(d);
    [
        a[0], a[1], a[2], a[3], b[0], b[1], b[2], b[3], c[0], c[1], c[2], c[3], d[0], d[1], d[2],
        d[3],
    ]
}
