//! Adler-32: two sums modulo 65521.

ghost use Rattle.std.specs.Prelude.{◌≡◌, ◌+◌, ◌*◌, ◌%◌, ◌≤◌, ◌<◌, length, sum};
ghost use Rattle.rpm_pkgdb.specs.Prelude.{sums, weights};

/// How many bytes are added up with no remainder taken: the second sum, at most 65520 + 3840 * (65520 + 3840 * 255),
/// fits a `u32`.
const RUN: usize = 3840;

/// The sum of a block.
fn total(block: &[u8; 64]) -> u32
    ensures total { result ≡ sum block.now }
    ensures few { result ≤ 16320 }
{
    let mut total = 0u32;
    for x in block {
        total += *x as u32;
    }
    total
}

/// What a block adds to the second sum where the first was 0. No step waits for the one before, so a processor does
/// several at once.
fn weighted(block: &[u8; 64]) -> u32
    ensures weighted { result ≡ weights block.now }
    ensures few { result ≤ 1044480 }
{
    let mut weighted = 0u32;
    let mut weight = 64u32;
    for x in block {
        weighted += weight * *x as u32;
        weight -= 1;
    }
    weighted
}

/// The two sums over few bytes, with one remainder at the end.
fn byte_sums(a: u32, b: u32, bytes: &[u8]) -> (u32, u32)
    requires a { a + 255 * length bytes.now ≤ 1044720 }
    requires b { b + 1044720 * length bytes.now ≤ 4011790320 }
    ensures sums { result ≡ sums (a % 65521) (b % 65521) bytes.now }
    ensures first { result.0 < 65521 }
    ensures second { result.1 < 65521 }
{
    let mut low = a;
    let mut high = b;
    for x in bytes {
        low += *x as u32;
        high += low;
    }
    (low % 65_521, high % 65_521)
}

/// The two sums over a run, block by block.
fn run_sums(a: u32, b: u32, bytes: &[u8]) -> (u32, u32)
    requires few { length bytes.now ≤ 3840 }
    requires a { a < 65521 }
    requires b { b < 65521 }
    ensures sums { result ≡ sums a b bytes.now }
    ensures first { result.0 < 65521 }
    ensures second { result.1 < 65521 }
{
    let mut low = a;
    let mut high = b;
    let mut rest = bytes;
    while let Some((block, more)) = rest.split_first_chunk::<64>() {
        high += 64 * low + weighted(block);
        low += total(block);
        rest = more;
    }
    byte_sums(low, high, rest)
}

/// The two sums of Adler-32, carried on. Takes some 1.3 instructions a byte.
pub fn sums(a: u32, b: u32, bytes: &[u8]) -> (u32, u32)
    requires a { a < 65521 }
    requires b { b < 65521 }
    ensures sums { result ≡ sums a b bytes.now }
    ensures first { result.0 < 65521 }
    ensures second { result.1 < 65521 }
{
    let mut low = a;
    let mut high = b;
    let mut rest = bytes;
    while !rest.is_empty() {
        let (run, more) = rest.split_at(rest.len().min(RUN));
        (low, high) = run_sums(low, high, run);
        rest = more;
    }
    (low, high)
}
