//! What an entry's elements are, and what can be wrong with a header.

use thiserror::Error;

/// What the elements of an entry are. A header stores it as the entry's type, a number: the forms
/// stand here in the order of these numbers, from 0 to 9.
#[derive(Clone, Copy, PartialEq, Eq)]
pub enum Form {
    /// None: the entry's offset and count mean nothing.
    Null,
    /// Numbers of one byte.
    Char,
    /// Numbers of one byte.
    Int8,
    /// Numbers of two bytes, the first at an even offset.
    Int16,
    /// Numbers of four bytes, the first at an offset divisible by four.
    Int32,
    /// Numbers of eight bytes, the first at an offset divisible by eight.
    Int64,
    /// One text, up to its zero byte (rpm's STRING).
    Text,
    /// Bytes, which are one value.
    Bin,
    /// Texts one after the other, each up to its zero byte (rpm's STRING_ARRAY).
    Texts,
    /// The same, one text for each locale (rpm's I18NSTRING).
    I18n,
}

/// The first fault of a header. The faults are tried in the order in which they stand here, but
/// that `Short` is tried a second time after `TooMuchData`, and that those of one entry, from
/// `BadType` on, are all tried before those of the next. A number is the entry's place, from 0.
/// Shown, it is the words that the program's messages have.
#[derive(Clone, Copy, Debug, PartialEq, Eq, Error)]
pub enum HeaderFault {
    /// There are fewer than 8 bytes, or fewer than the two lengths at the front ask for.
    #[error("header is cut short")]
    Short,
    /// There are more than 65,535 entries.
    #[error("too many entries")]
    TooManyEntries,
    /// There are more than 67,108,864 bytes of data.
    #[error("too much data")]
    TooMuchData,
    /// The entry's type is above 9.
    #[error("entry {0}: bad type")]
    BadType(u32),
    /// The entry's offset is past the data's end, or is no multiple of the number's width.
    #[error("entry {0}: bad offset")]
    BadOffset(u32),
    /// The entry has no element, is a `Text` of more than one, or its numbers or bytes pass the
    /// data's end.
    #[error("entry {0}: bad count")]
    BadCount(u32),
    /// One of the entry's texts has no zero byte before the data's end.
    #[error("entry {0}: text has no end")]
    NoEnd(u32),
    /// Entry 0 has a region's tag, 62 or 63, and isn't a `Bin` of 16 bytes, or the third number of
    /// these bytes, read as signed, isn't `-16 * r` for some number of entries `r` from 1 to `il`.
    #[error("bad region")]
    BadRegion,
}
