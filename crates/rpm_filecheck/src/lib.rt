//! The paths that several packages own and that differ.
#![tactic(auto)]

mod columns;
mod conflict;
mod fault;
mod found;
mod gathering;
mod labels;
mod owned;
mod owner;
mod paths;
mod report;

pub use conflict::Conflict;
pub use fault::FileCheckFault;
pub use labels::label_of;
pub use report::{ConflictList, conflicts};
