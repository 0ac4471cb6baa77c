//! Whether the texts of a header have their ends, at a cost that is linear in its size.

ghost use Rattle.std.specs.Prelude.{◌≡◌, ℕ, ◌*◌, ◌≤◌, ◌<◌, length, drop, slice_index, List, IfSome};
ghost use Rattle.rpm_header.specs.Prelude.{are_ended, HasZeroFrom, IsSummed, max_data, zeros};

use crate::zeros::{between, look_for_ends, zeros_in};
use std::marker::Model;

/// So many numbers of zeros are kept.
const SUMS: usize = 4096;

/// The zero bytes among so many last bytes are counted at first.
const TAIL: usize = 192;

/// How many zero bytes stand in a header's data from each stride on. Contracts see it as the data.
#[derive(Drop)]
pub struct ZeroSums<'s> {
    section: &'s [u8],
    stride: usize,
    sums: [u32; 4096],
}

impl<'s> Model for ZeroSums<'s> {
    ghost Value = { List ℕ };

    ghost view = { λ s. s.section.now };

    ghost invariant = { λ s. IsSummed s.section.now s.stride s.sums };
}

fn no_sums() -> [u32; 4096]
    ensures size { length result ≡ 4096 }
    ensures none { (k : ℕ) → k < 4096 → slice_index result k ≡ 0 }
{
    [0; SUMS]
}

/// A stride of which fewer than 4,095 reach the end of so many bytes.
fn stride_for(len: usize) -> usize
    requires { len ≤ max_data }
    ensures wide { len < 4095 * result }
    ensures small { result ≤ 16389 }
{
    (len / (SUMS - 1) + 1).max(64)
}

impl<'s> ZeroSums<'s> {
    /// Reads each byte of the data once, the last first.
    pub fn new(section: &'s [u8]) -> ZeroSums<'s>
        requires { length section.now ≤ max_data }
        ensures { result ≡ section.now }
    {
        let stride = stride_for(section.len());
        let mut sums = no_sums();
        let mut seen = 0;
        for k in (0..section.len() / stride + 1).rev() {
            let from = k * stride;
            seen += zeros_in(between(section, from, from + stride));
            sums[k] = seen;
        }
        ZeroSums {
            section,
            stride,
            sums,
        }
    }

    /// Whether each of so many texts has its zero byte, from the offset on. Reads at most the bytes
    /// of one stride.
    fn are_ended(&self, count: u32, offset: usize) -> bool
        requires { offset ≤ length self.now }
        ensures { result ≡ are_ended count (drop offset self.now) }
    {
        let next = offset / self.stride + 1;
        let left = count.saturating_sub(self.sums[next]);
        let (ended, _) = look_for_ends(left, between(self.section, offset, next * self.stride));
        ended
    }
}

/// The place after the last zero byte, or 0. Reads the bytes from that byte on.
fn behind_last_zero(bytes: &[u8]) -> usize
    ensures { HasZeroFrom bytes.now result }
{
    for i in (0..bytes.len()).rev() {
        if bytes[i] == 0 {
            return i + 1;
        }
    }
    0
}

/// The data of a header, and what was spent on its texts. Contracts see it as the data.
#[derive(Drop)]
pub struct TextEnds<'s> {
    section: &'s [u8],
    // A text that begins in front of this place has an end.
    behind: usize,
    // From this place on there are at least so many zero bytes.
    tail: usize,
    tail_zeros: u32,
    // How many bytes of texts were read one after the other.
    read: usize,
    sums: Option<&'s ZeroSums<'s>>,
}

impl<'s> Model for TextEnds<'s> {
    ghost Value = { List ℕ };

    ghost view = { λ s. s.section.now };

    ghost invariant = { λ s. HasZeroFrom s.section.now s.behind × (s.tail_zeros ≤ zeros (drop s.tail s.section.now))
        × IfSome s.sums (λ sums. sums.now ≡ s.section.now) };
}

impl<'s> TextEnds<'s> {
    /// Lists of texts are read byte after byte, and of the data the last 192 bytes and those after the last text.
    pub fn new(section: &'s [u8]) -> TextEnds<'s>
        ensures { result ≡ section.now }
    {
        let tail = section.len().saturating_sub(TAIL);
        TextEnds {
            section,
            behind: behind_last_zero(section),
            tail,
            tail_zeros: zeros_in(&section[tail..]),
            read: 0,
            sums: None,
        }
    }

    /// Of each list of texts at most one stride of bytes is read.
    pub fn with_sums(sums: &'s ZeroSums<'s>) -> TextEnds<'s>
        ensures { result ≡ sums.now }
    {
        TextEnds {
            section: sums.section,
            behind: 0,
            tail: 0,
            tail_zeros: 0,
            read: 0,
            sums: Some(sums),
        }
    }

    pub fn section(&self) -> &'s [u8]
        ensures { result.now ≡ self.now }
    {
        self.section
    }

    /// Whether four times as many bytes were read as there are. Where no two entries share bytes
    /// each is read at most once.
    pub fn is_spent(&self) -> bool {
        self.read / 4 > self.section.len()
    }

    /// Whether each of so many texts has its zero byte, from the offset on. Reads nothing for a single text, as most
    /// are, nor for texts in front of the last bytes where these have as many zeros.
    #[inline(always)]
    pub fn are_ended(&mut self, count: u32, offset: usize) -> bool
        requires { offset ≤ length self.old }
        ensures value { result ≡ are_ended count (drop offset self.old) }
        ensures same { self.new ≡ self.old }
    {
        if count == 1 && offset < self.behind {
            return true;
        }
        if count <= self.tail_zeros && offset <= self.tail {
            return true;
        }
        self.are_counted(count, offset)
    }

    /// The same. Reads the bytes of these texts once, and at most one stride with sums.
    #[inline(never)]
    fn are_counted(&mut self, count: u32, offset: usize) -> bool
        requires { offset ≤ length self.old }
        ensures value { result ≡ are_ended count (drop offset self.old) }
        ensures same { self.new ≡ self.old }
    {
        if let Some(sums) = self.sums {
            return sums.are_ended(count, offset);
        }
        let (ended, read) = look_for_ends(count, &self.section[offset..]);
        self.read = self.read.saturating_add(read);
        ended
    }
}
