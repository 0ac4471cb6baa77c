//! The tool: a command line does to a database what the command's steps say.
//!
//! `run` is the one call that does all the program does. Its contract is the theorem of the repository.
#![tactic(auto)]

mod command;
mod dispatch;
mod keyed;
mod loaded;
mod unindexed;

pub use command::run;
pub use rpm_db::{Damage, Reason};
pub use rpm_effects::{Outcome, Why};
pub use rpm_qfparse::{FormatFault, FormatKind};
pub use rpm_words::{WordsFault, WordsKind};
