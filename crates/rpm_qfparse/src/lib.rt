//! Query formats: what a text says, as a tree, or the first fault of it.
//!
//! A format has literal bytes, escapes, tags with a width and a formatter, brackets whose parts are
//! printed once for each element, and conditions. The language is that of rpm's query formats, in
//! which rpm's own documents leave much open: the places of faults and the limits are this project's
//! own.
#![tactic(auto)]

mod draft;
mod fault;
mod moves;
mod reader;
mod tag;
mod tree;

pub use fault::{FormatFault, FormatKind};
pub use reader::parse;
pub use rpm_tags::Tag;
pub use tree::{Bytes, Format, Part, Parts, Role, Show, TagPart};
