//! V4 headers of rpm: read where they lie in borrowed bytes, and made.
//!
//! A header is two numbers of four bytes, `il` and `dl` (rpm's names), then `il` entries of the
//! index of 16 bytes each, then `dl` bytes of data. An entry of the index is four numbers of four
//! bytes: tag, type, offset into the data, and count of elements. All numbers are unsigned with the
//! highest byte first. The layout, the types and the regions are those of rpm's documentation of
//! the V4 header; the order in which faults are looked for, and what is let pass, are this
//! project's own.
//!
//! `View::parse` checks a header once, whole. After that each reader answers with no check and no
//! `Result`. Reading copies no byte of the header and takes no memory.
//!
//! `Builder` makes a header of entries that are pushed, `with_dribbles` adds entries after those of
//! a header, and `immutable_digest` is the digest of the region with which a header begins.
#![tactic(auto)]

mod builder;
mod bytes;
mod digest;
mod dribbles;
mod ends;
mod entry;
mod form;
mod index;
mod laying;
mod packed;
mod parts;
mod places;
mod text_list;
mod view;
mod zeros;

pub use builder::Builder;
pub use digest::immutable_digest;
pub use dribbles::with_dribbles;
pub use entry::{Entry, EntryTexts};
pub use form::{Form, HeaderFault};
pub use laying::BuildFault;
pub use places::{PlacesRoom, TextPlaces};
pub use text_list::TextList;
pub use view::View;

/// The eight bytes that stand before a header everywhere but in the database: in package files and
/// in lists of headers.
pub const MAGIC: [u8; 8] = [0x8e, 0xad, 0xe8, 0x01, 0, 0, 0, 0];
