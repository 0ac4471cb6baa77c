//! What a command line asks for: its command with what that changes or does with the database, and its format.
#![tactic(auto)]

mod reading;
mod task;
mod texts;

pub use reading::{Command, Kind, Request, kind_of, read_command};
pub use task::Task;
