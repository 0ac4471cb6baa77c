//! What a format prints of a header.
//!
//! The parts of a format are printed one after the other: literal bytes as they are, tags through their
//! formatters and in their widths, brackets once for each element, and of conditions one branch. The
//! language is that of rpm's query formats. Nothing here takes memory: texts are borrowed from the
//! header, and what is printed goes to a sink piece by piece.
#![tactic(auto)]

mod columns;
mod cursor;
mod dates;
mod digits;
mod elements;
mod encoded;
mod flags;
mod inside;
mod lookup;
mod measure;
mod modes;
mod pieces;
mod plain_texts;
mod printing;
mod ready;
mod shown;
mod sizes;
mod writing;

pub use printing::{DirectFault, EvalFault, print, print_direct};
