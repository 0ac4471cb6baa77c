//! Which packages a question picks.
#![tactic(auto)]

mod asked;
mod asking;
mod labels;
mod matching;
mod picked;
mod picker;
mod piece;
mod reach;
mod recent;
mod rows;
mod selection;

pub use asking::each_once;
pub use matching::glob;
pub use picked::{Blob, PickFault, Picked};
pub use picker::Picker;
pub use recent::Recent;
pub use rpm_header::View;
pub use rpm_version::{BadCapability, Capability};
pub use selection::Selection;
