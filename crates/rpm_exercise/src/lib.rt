//! The exercise: a database makes packages of its own, replaces some of them and erases some, asks for them, and says
//! what is left.
//!
//! It goes through adding, replacing, erasing, the index, the questions and the export in one call, and what it prints
//! is the same on every machine.
#![tactic(auto)]

mod headers;
mod lines;
mod rounds;
mod running;
mod summary;
mod survey;

pub use headers::generated;
pub use running::{ExerciseFault, exercise};
