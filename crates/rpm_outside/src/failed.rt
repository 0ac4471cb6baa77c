//! The answer of a call of the outside that didn't go through.

/// A call failed. What failed is counted by the object that was called.
#[derive(Clone, Copy, Debug, PartialEq, Eq)]
pub struct Failed;
