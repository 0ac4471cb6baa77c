//! The classes of a graph of numbers, and the order in which they are listed: each class after those that its edges
//! end in.
#![tactic(auto)]

mod class_list;
mod graph;
mod grouping;
mod listing;
mod rows;
mod search;

pub use class_list::{ClassList, order};
pub use graph::{Edge, Graph};
