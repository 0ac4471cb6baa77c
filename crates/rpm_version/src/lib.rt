//! The order that decides which of two versions is newer, and whether two ranges of versions
//! overlap.
//!
//! The rules are those of rpm's documentation of dependency versions. Nothing here takes memory:
//! each part of a text is lent from it.
#![tactic(auto)]

mod capability;
mod evr;
mod order;
mod range;
mod segment;

pub use capability::{BadCapability, Capability};
pub use evr::{Evr, compare_evr};
pub use order::compare;
pub use range::{is_open, overlap};
