//! The commands that change packages: all changes of a command line are one, committed whole or not at all.
#![tactic(auto)]

mod changing;
mod courses;
mod opening;

pub use changing::{CommandEnding, change_asked};
pub use rpm_effects::Why;
