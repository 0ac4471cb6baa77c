//! The effects of a command: what it has to print and to change, step by step, how far it got, and how it ended.
//!
//! A command is a list of steps, each of which gives bytes to one sink, with the number of its arguments that fail and the changes that it makes. What
//! prints, asks, reports and changes says in these words how far it went, and why it went no further.
#![tactic(auto)]

mod answer;
mod endings;
mod faults;
mod lines;
mod pieces;
mod tally;

pub use answer::{Outcome, Why, status_of};
pub use endings::{unless_starved, why_of_load, why_of_open, why_of_recover};
pub use faults::{push_header_text, put_absent, put_refused, stop_in};
pub use lines::put_failing;
pub use pieces::{put_line, put_out, put_pieces};
pub use tally::{CHANGED, FAILED, Halt, IDLE, Tally, halt_of_pick};
