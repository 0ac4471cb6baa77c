//! What a command prints: what is printed of a package, what the program says of itself, and the line that closes the
//! command.
#![tactic(auto)]

mod closing;
mod step;
mod texts;

pub use closing::put_closing;
pub use rpm_effects::{Halt, Outcome, Why, status_of};
pub use step::{print_header, print_picked, put_bad, put_text};
pub use texts::print_text;
