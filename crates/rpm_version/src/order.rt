//! Which of two versions is newer.

ghost use Rattle.std.specs.Prelude.{◌≡◌, ◌≢◌, ◌⊎◌, ◌↔◌, ◌==◌, ◌≤◌, List, ℕ, slice_index};
ghost use Rattle.rpm_version.specs.Prelude.{AllDigits, digits_value, IsRun, IsUpTo, nat_cmp, ordering_reverse, segment_at, segment_order, segments, version_order};

use crate::segment::{Piece, next_piece};
use std::cmp::Ordering;

/// A run of digits without the zeros that it begins with.
fn without_zeros(digits: &[u8]) -> &[u8]
    requires { AllDigits 10 digits.now }
    ensures digits { AllDigits 10 result.now }
    ensures value { digits_value 10 result.now ≡ digits_value 10 digits.now }
    ensures no_zero { slice_index result.now 0 ≢ 48 }
{
    let mut rest = digits;
    while let [b'0', others @ ..] = rest {
        rest = others;
    }
    rest
}

/// Which of two runs of digits writes the greater number, of any size.
pub fn compare_numbers(a: &[u8], b: &[u8]) -> Ordering
    requires a_digits { AllDigits 10 a.now }
    requires b_digits { AllDigits 10 b.now }
    ensures { result ≡ nat_cmp (digits_value 10 a.now) (digits_value 10 b.now) }
{
    let a = without_zeros(a);
    let b = without_zeros(b);
    a.len().cmp(&b.len()).then(a.cmp(b))
}

#[tactic(auto, unfolding(crate::specs::Order::segment_order))]
fn compare_pieces(a: Piece<'_>, b: Piece<'_>) -> Ordering
    requires a_run { IsRun a }
    requires b_run { IsRun b }
    ensures { result ≡ segment_order (segment_at a.entry) (segment_at b.entry) }
{
    match (a, b) {
        (Piece::Letters(a), Piece::Letters(b)) => a.cmp(b),
        (Piece::Digits(a), Piece::Digits(b)) => compare_numbers(a, b),
        _ => a.rank().cmp(&b.rank()),
    }
}

/// Which of two versions is newer: `Less` where `a` is older than `b`.
///
/// A version is the list of its longest runs of ASCII digits, its longest runs of ASCII letters,
/// each `~` and each `^`, and after them the end; all other bytes only separate. The first place
/// at which the lists differ decides: `~` is below the end, and above it stand `^`, letters and
/// digits, in this order. Letters compare byte by byte, and digits as numbers of any size. From
/// rpm's documentation of dependency versions.
///
/// Takes time in the sum of the lengths, copies nothing, and stops at the first difference.
pub fn compare(a: &[u8], b: &[u8]) -> Ordering
    ensures order { result ≡ version_order a.now b.now }

    // The order is one of all texts: a total preorder, whose ties are the texts with the same segments.
    ensures total { (x y : List ℕ) → IsUpTo x y ⊎ IsUpTo y x }
    ensures converse { (x y : List ℕ) → version_order x y ≡ ordering_reverse (version_order y x) }
    ensures transitive { (x y z : List ℕ) → IsUpTo x y → IsUpTo y z → IsUpTo x z }
    ensures equal { (x y : List ℕ) → (version_order x y ≡ Ordering.Equal) ↔ (segments x ≡ segments y) }
{
    let mut a = a;
    let mut b = b;
    loop {
        let (left, behind_left) = next_piece(a);
        let (right, behind_right) = next_piece(b);
        let order = compare_pieces(left, right);
        if order.is_ne() || left.is_end() {
            return order;
        }
        a = behind_left;
        b = behind_right;
    }
}
