//! Zero bytes, by which texts end.

ghost use Rattle.std.specs.Prelude.{◌≡◌, ◌+◌, ◌≤◌, ◌<◌, length, take, drop};
ghost use Rattle.rpm_header.specs.Prelude.{are_ended, max_data, after_texts, zeros};

use crate::bytes::are_ended;
use std::simd::prelude::*;

/// The bytes that are looked at in one step.
const BLOCK: usize = 64;

/// The bytes of a part of a block.
const PART: usize = 16;

/// How many of the first 64 bytes are zero.
fn zeros_of_block(bytes: &[u8]) -> u32
    requires { 64 ≤ length bytes.now }
    ensures value { result ≡ zeros (take 64 bytes.now) }
    ensures few { result ≤ 64 }
{
    u8x64::from_slice(bytes)
        .simd_eq(u8x64::splat(0))
        .to_bitmask()
        .count_ones()
}

/// What stands after the first 64 bytes.
fn behind_block(bytes: &[u8]) -> &[u8]
    requires { 64 ≤ length bytes.now }
    ensures value { result.now ≡ drop 64 bytes.now }
    ensures shorter { length result.now + 64 ≡ length bytes.now }
{
    &bytes[BLOCK..]
}

#[tactic(auto, unfolding(crate::specs::inner::Zeros::zeros))]
fn zeros_one_by_one(bytes: &[u8]) -> usize
    ensures { result ≡ zeros bytes.now }
{
    bytes.iter().filter(|b| **b == 0).count()
}

/// How many of the bytes are zero. Reads each once, 64 at a time.
pub fn zeros_in(bytes: &[u8]) -> u32
    requires { length bytes.now ≤ max_data }
    ensures { result ≡ zeros bytes.now }
{
    let mut rest = bytes;
    let mut seen = 0;
    while rest.len() >= BLOCK {
        seen += zeros_of_block(rest);
        rest = behind_block(rest);
    }
    seen + zeros_one_by_one(rest) as u32
}

/// Whether each of so many texts has its zero byte, and how many bytes stand in front of the block
/// in which that was seen. Reads the bytes of these texts once, 64 at a time.
pub fn look_for_ends(count: u32, bytes: &[u8]) -> (bool, usize)
    ensures value { result.0 ≡ are_ended count bytes.now }
    ensures within { result.1 ≤ length bytes.now }
{
    let mut rest = bytes;
    let mut left = count;
    while rest.len() >= BLOCK {
        let here = zeros_of_block(rest);
        if left <= here {
            return (true, bytes.len() - rest.len());
        }
        left -= here;
        rest = behind_block(rest);
    }
    (are_ended(left, rest), bytes.len() - rest.len())
}

/// The bytes from a place on that stand in front of another place.
pub fn between(bytes: &[u8], from: usize, to: usize) -> &[u8]
    requires ordered { from ≤ to }
    requires within { from ≤ length bytes.now }
    ensures counted { zeros (drop from bytes.now) ≡ zeros result.now + zeros (drop to bytes.now) }
    ensures few { length result.now ≤ length bytes.now }
{
    &bytes[from..to.min(bytes.len())]
}

/// Whether one of the first 64 bytes is seen to be zero.
pub fn has_end_near(bytes: &[u8]) -> bool {
    bytes.len() >= BLOCK && zeros_of_block(bytes) > 0
}

/// The block in which so many texts end, and how many of them end in it or after it. Reads each
/// byte in front of it once, 64 at a time.
pub fn pass_blocks(count: u32, bytes: &[u8]) -> (u32, &[u8])
    requires { count ≤ zeros bytes.now }
    ensures same { after_texts result.0 result.1.now ≡ after_texts count bytes.now }
    ensures more { result.0 ≤ zeros result.1.now }
{
    let mut rest = bytes;
    let mut left = count;
    while rest.len() >= BLOCK {
        let here = zeros_of_block(rest);
        if left <= here {
            break;
        }
        left -= here;
        rest = behind_block(rest);
    }
    (left, rest)
}

/// How many of the first 16 bytes are zero.
fn zeros_of_part(bytes: &[u8]) -> u32
    requires { 16 ≤ length bytes.now }
    ensures { result ≡ zeros (take 16 bytes.now) }
{
    u8x16::from_slice(bytes)
        .simd_eq(u8x16::splat(0))
        .to_bitmask()
        .count_ones()
}

/// What stands after the first 16 bytes.
fn behind_part(bytes: &[u8]) -> &[u8]
    requires { 16 ≤ length bytes.now }
    ensures value { result.now ≡ drop 16 bytes.now }
    ensures shorter { length result.now + 16 ≡ length bytes.now }
{
    &bytes[PART..]
}

/// The same as `pass_blocks` does, 16 at a time: within a block fewer texts are left to be looked
/// for one by one.
pub fn pass_parts(count: u32, bytes: &[u8]) -> (u32, &[u8])
    requires { count ≤ zeros bytes.now }
    ensures same { after_texts result.0 result.1.now ≡ after_texts count bytes.now }
    ensures more { result.0 ≤ zeros result.1.now }
{
    let mut rest = bytes;
    let mut left = count;
    while rest.len() >= PART {
        let here = zeros_of_part(rest);
        if left <= here {
            break;
        }
        left -= here;
        rest = behind_part(rest);
    }
    (left, rest)
}
