//! Texts by place, in any order.

ghost use Rattle.std.specs.Prelude.{◌≡◌, ℕ, ◌*◌, ◌≤◌, ◌<◌, true, length, Some, is_some, slice_get, slice_index, take, List};
ghost use Rattle.rpm_header.specs.Prelude.{after_first, are_ended, AreCounted, before_first, is_zero, AreTextsPlaced, max_data, position, after_texts, texts, zeros};

use crate::bytes::{next_text, skip_texts};
use crate::zeros::{between, has_end_near, look_for_ends, pass_blocks, pass_parts, zeros_in};
use std::marker::Model;

/// So many numbers of zeros are kept at most.
const SUMS: usize = 262144;

/// Room for the numbers that a `TextPlaces` keeps, 1 MiB: a frame that has it pays for as many
/// zeros. Contracts say nothing of it.
#[derive(Drop)]
pub struct PlacesRoom {
    sums: Option<[u32; 262144]>,
}

impl PlacesRoom {
    pub fn new() -> PlacesRoom {
        PlacesRoom { sums: None }
    }

    /// So many zeros.
    fn zeroed(&mut self, n: usize) -> &mut [u32]
        requires { n ≤ 262144 }
        ensures { length result.now ≡ n }
    {
        &mut self.sums.insert([0; SUMS])[..n]
    }
}

/// The texts of an entry, to be read in any order. Contracts see it as the list of them. It keeps how
/// many zero bytes stand in front of each of at most 262,143 strides, so that what is read to find
/// where a text begins is at most one stride, 257 bytes; the same for where it ends.
#[derive(Drop)]
pub struct TextPlaces<'p, 'a> {
    count: u32,
    bytes: &'a [u8],
    stride: usize,
    sums: &'p [u32],
}

impl<'p, 'a> Model for TextPlaces<'p, 'a> {
    ghost Value = { List (List ℕ) };

    ghost view = { λ s. texts s.count s.bytes.now };

    ghost invariant = { λ s. AreTextsPlaced s.count s.bytes.now s.stride s.sums.now };
}

/// A stride of which fewer than 262,143 reach the end of so many bytes.
fn stride_for(len: usize) -> usize
    requires { len ≤ max_data }
    ensures wide { len < 262143 * result }
    ensures small { result ≤ 257 }
{
    (len / (SUMS - 1) + 1).max(64)
}

/// How many zero bytes stand in front of each stride. Reads each byte once.
fn count_strides(sums: &mut [u32], bytes: &[u8], stride: usize)
    requires few { length bytes.now ≤ max_data }
    requires small { stride ≤ max_data }
    requires reach { (k : ℕ) → k < length sums.old → k * stride ≤ length bytes.now }
    ensures size { length sums.new ≡ length sums.old }
    ensures each { (k : ℕ) → k < length sums.old → slice_index sums.new k ≡ zeros (take (k * stride) bytes.now) }
{
    let mut seen = 0;
    for k in 0..sums.len() {
        let from = k * stride;
        sums[k] = seen;
        seen += zeros_in(between(bytes, from, from + stride));
    }
}

/// The last stride, by halves, in front of which fewer zero bytes stand than so many.
fn stride_before(sums: &[u32], count: u32) -> usize
    requires some { 0 < length sums.now }
    requires fewer { slice_index sums.now 0 < count }
    ensures below { result < length sums.now }
    ensures fewer { slice_index sums.now result < count }
{
    let mut low = 0;
    let mut high = sums.len();
    while high - low > 1 {
        let middle = low + (high - low) / 2;
        if sums[middle] < count {
            low = middle;
        } else {
            high = middle;
        }
    }
    low
}

/// What stands after so many texts, by the zeros in front of strides. Reads the bytes of one stride
/// at most.
fn behind<'a>(bytes: &'a [u8], stride: usize, sums: &[u32], count: u32) -> &'a [u8]
    requires counted { AreCounted bytes.now stride sums.now }
    requires ended { count ≤ zeros bytes.now }
    ensures { result.now ≡ after_texts count bytes.now }
{
    if count == 0 {
        return bytes;
    }
    let k = stride_before(sums, count);
    let (in_block, block) = pass_blocks(count - sums[k], &bytes[k * stride..]);
    let (left, rest) = pass_parts(in_block, block);
    skip_texts(left, rest)
}

/// The first text, where the others stand after its zero byte. Reads none of them.
fn in_front<'a>(bytes: &'a [u8], others: &[u8]) -> &'a [u8]
    requires ended { is_some (position is_zero bytes.now) ≡ true }
    requires others { others.now ≡ after_first is_zero bytes.now }
    ensures { result.now ≡ before_first is_zero bytes.now }
{
    &bytes[..bytes.len() - others.len() - 1]
}

impl<'p, 'a> TextPlaces<'p, 'a> {
    /// Reads the bytes of the texts twice, 64 at a time.
    pub(crate) fn new(count: u32, bytes: &'a [u8], room: &'p mut PlacesRoom) -> TextPlaces<'p, 'a>
        requires ended { are_ended count bytes.now ≡ true }
        requires few { length bytes.now ≤ max_data }
        ensures { result ≡ texts count bytes.now }
    {
        let (_, len) = look_for_ends(count, bytes);
        let stride = stride_for(len);
        let sums = room.zeroed(len / stride + 1);
        count_strides(sums, bytes, stride);
        TextPlaces {
            count,
            bytes,
            stride,
            sums,
        }
    }

    /// The text at place i, without its zero byte, borrowed from the header. Reads the bytes of two
    /// strides at most, however long the text is.
    pub fn text(&self, i: u32) -> &'a [u8]
        requires { i < length self.now }
        ensures { slice_get self.now i ≡ Some result.now }
    {
        let from = behind(self.bytes, self.stride, self.sums, i);
        if has_end_near(from) {
            let (text, _) = next_text(from);
            return text;
        }
        let others = behind(self.bytes, self.stride, self.sums, i + 1);
        in_front(from, others)
    }
}
