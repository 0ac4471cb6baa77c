//! Which requirements of the packages no package meets, and which packages require which.
#![tactic(auto)]

mod edges;
mod ends;
mod faults;
mod giver_memo;
mod giving;
mod hits;
mod kinds;
mod lacking;
mod list;
mod looking;
mod meeting;
mod memo;
mod names;
mod next;
mod nodes;
mod offers;
mod package;
mod reading;
mod report;
mod runs;

pub use faults::CheckFault;
pub use giving::givers;
pub use list::{Unmet, UnmetList};
pub use meeting::is_met;
pub use next::next_unmet;
pub use reading::{ReadGraph, read_graph};
pub use report::unmet;
pub use rpm_graph::{ClassList, Edge, Graph, order};
pub use rpm_select::Recent;
