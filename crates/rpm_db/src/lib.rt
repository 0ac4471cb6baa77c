//! The database of packages: a map from package numbers to headers.
//!
//! A package is Good where its blob can be read and is a header, whose own bytes are then the package; else it is
//! Bad. The index keeps the keys of the Good packages beside them; it is made from the packages where it isn't
//! current. Nothing of the layout of the two files shows but how many bytes a call reads.
#![tactic(auto)]

mod batch;
mod change_fault;
mod changing;
mod database;
mod finding;
mod indexing;
mod netting;
mod open_fault;
mod planning;
mod reading;
mod rebuilding;
mod rows;
mod starting;
mod verify;
mod writing;

pub use batch::Batch;
pub use change_fault::ChangeFault;
pub use database::Db;
pub use open_fault::DbOpenFault;
pub use rpm_header::HeaderFault;
pub use rpm_hindex::{FindFault, Hit, Hits};
pub use rpm_pkgdb::{Damage, GetFault, Reason};
pub use verify::Verdict;
