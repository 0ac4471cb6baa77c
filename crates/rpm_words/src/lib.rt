//! The words of a command line, and the command that they ask for.
//!
//! A command line is a command, or it breaks a rule: then the first broken rule is told, with the
//! number of the word that breaks it. Nothing here opens a file or prints.
#![tactic(auto)]

mod ask;
mod broken;
mod command;
mod fault;
mod number;
mod place;
mod purpose;
mod seen;
mod switch;
mod takes;
mod token;
mod words;

pub use ask::{Ask, Mode, read};
pub use fault::{WordsFault, WordsKind};
pub use number::number_of;
pub use place::place_of;
pub use switch::Chosen;
pub use words::{Span, Words};
