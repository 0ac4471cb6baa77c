//! What a command line changes in the database.
//!
//! The commands that change packages: each of them has a function here that goes through its arguments in order, over
//! any disk, and makes one change of the database after the other. Over an overlay they are one transaction.
#![tactic(auto)]

mod add;
mod erase;
mod halting;
mod import;
mod install;
mod missing;
mod places;
mod rebuilding;
mod replace;
mod single;
mod turn;

pub use add::add_files;
pub use erase::erase_numbers;
pub use halting::halt_of;
pub use import::{import_list, import_most};
pub use rebuilding::rebuild;
pub use replace::replace_package;
pub use rpm_effects::{Halt, IDLE, Tally};
pub use single::{put_within, take_within};
