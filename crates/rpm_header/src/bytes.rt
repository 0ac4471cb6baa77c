//! Numbers and texts as they stand in bytes.

ghost use Rattle.std.specs.Prelude.{◌≡◌, ◌+◌, ◌≤◌, ◌<◌, length, false, true, is_some, IfSome, MatchOption, slice_get, Some, take};
ghost use Rattle.rpm_header.specs.Prelude.{are_ended, is_zero, joined_texts, number_at, position, after_texts, Splits, texts, w16, w32, w64};

use std::simd::prelude::*;

/// The number of two bytes from a place on, the highest first.
#[tactic(auto, unfolding(crate::specs::Bytes::number_at))]
pub fn u16_at(bytes: &[u8], at: usize) -> u16
    requires { at + 2 ≤ length bytes.now }
    ensures { result ≡ number_at w16 bytes.now at }
{
    u16::from_be_bytes([bytes[at], bytes[at + 1]])
}

/// The number of four bytes from a place on, the highest first.
#[tactic(auto, unfolding(crate::specs::Bytes::number_at))]
pub fn u32_at(bytes: &[u8], at: usize) -> u32
    requires { at + 4 ≤ length bytes.now }
    ensures { result ≡ number_at w32 bytes.now at }
{
    u32::from_be_bytes([bytes[at], bytes[at + 1], bytes[at + 2], bytes[at + 3]])
}

/// The number of eight bytes from a place on, the highest first.
#[tactic(auto, unfolding(crate::specs::Bytes::number_at))]
pub fn u64_at(bytes: &[u8], at: usize) -> u64
    requires { at + 8 ≤ length bytes.now }
    ensures { result ≡ number_at w64 bytes.now at }
{
    let bytes = &bytes[at..at + 8];
    u64::from_be_bytes([
        bytes[0], bytes[1], bytes[2], bytes[3], bytes[4], bytes[5], bytes[6], bytes[7],
    ])
}

/// The place of the first zero byte, where it is among the first 16 bytes; else 16.
fn end_in_front(bytes: &[u8]) -> usize
    requires { 16 ≤ length bytes.now }
    ensures { result < 16 → position is_zero bytes.now ≡ Some result }
{
    let zeros = u8x16::from_slice(bytes)
        .simd_eq(u8x16::splat(0))
        .to_bitmask();
    (zeros.trailing_zeros() as usize).min(16)
}

/// The place of the first zero byte. Looks at the first 16 bytes at once, where most texts end.
fn end_of(bytes: &[u8]) -> Option<usize>
    ensures value { result ≡ position is_zero bytes.now }
    ensures within { IfSome result (λ end. end < length bytes.now) }
{
    if bytes.len() >= 16 {
        let end = end_in_front(bytes);
        if end < 16 {
            return Some(end);
        }
    }
    bytes.iter().position(|b| *b == 0)
}

/// The first text without its zero byte, and what stands after that byte. None where there is no
/// zero byte.
fn split_text(bytes: &[u8]) -> Option<(&[u8], &[u8])>
    ensures { MatchOption result (is_some (position is_zero bytes.now) ≡ false) (λ s. Splits bytes.now s.0.now s.1.now) }
{
    let end = end_of(bytes)?;
    Some((&bytes[..end], &bytes[end + 1..]))
}

/// Whether each of so many texts has its zero byte. Reads the bytes of these texts once.
pub fn are_ended(count: u32, bytes: &[u8]) -> bool
    ensures { result ≡ are_ended count bytes.now }
{
    let mut rest = bytes;
    for _ in 0..count {
        match split_text(rest) {
            None => return false,
            Some((_, others)) => rest = others,
        }
    }
    true
}

/// The first text and what stands after its zero byte, where it has one.
pub fn next_text(bytes: &[u8]) -> (&[u8], &[u8])
    requires { is_some (position is_zero bytes.now) ≡ true }
    ensures { Splits bytes.now result.0.now result.1.now }
{
    match split_text(bytes) {
        None => unreachable!(),
        Some(split) => split,
    }
}

/// The text at place i of so many that have their zero bytes. Reads the bytes up to its end.
pub fn text_of(count: u32, bytes: &[u8], i: u32) -> &[u8]
    requires below { i < count }
    requires ended { are_ended count bytes.now ≡ true }
    ensures { slice_get (texts count bytes.now) i ≡ Some result.now }
{
    let mut rest = bytes;
    for _ in 0..i {
        let (_, others) = next_text(rest);
        rest = others;
    }
    let (text, _) = next_text(rest);
    text
}

/// What stands after so many texts that have their zero bytes. Reads the bytes of these texts once.
pub fn skip_texts(count: u32, bytes: &[u8]) -> &[u8]
    requires { are_ended count bytes.now ≡ true }
    ensures { result.now ≡ after_texts count bytes.now }
{
    let mut rest = bytes;
    for _ in 0..count {
        let (_, others) = next_text(rest);
        rest = others;
    }
    rest
}

/// Where so many texts end that have their zero bytes. Reads the bytes of these texts once.
pub fn texts_end(count: u32, bytes: &[u8]) -> usize
    requires { are_ended count bytes.now ≡ true }
    ensures within { result ≤ length bytes.now }
    ensures value { take result bytes.now ≡ joined_texts (texts count bytes.now) }
{
    let mut rest = bytes;
    for _ in 0..count {
        let (_, others) = next_text(rest);
        rest = others;
    }
    bytes.len() - rest.len()
}
