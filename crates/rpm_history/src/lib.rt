//! Several command lines on one disk, one after the other: what the database represents after them, and after a crash.
#![tactic(auto)]

mod several;

pub use several::{Line, run_each};
