//! One command line, one change: what is written goes to memory first, then to `Hlog.db` after a commit record, and
//! from there to the files.
//!
//! `Hlog.db` has units of 16 bytes; numbers are four bytes, the lowest first. Unit 0 is the commit record: `RpmL`,
//! version 1, the number of entries, the last unit. Then come the entries, each a head (1 for `Packages.db` or 2 for
//! `Hindex.db`, first unit, count, zeros) and its units. A log whose first unit is zeros is closed.
#![tactic(auto)]

mod commit;
mod layers;
mod leaf;
mod load;
mod log;
mod over;
mod overlay;
mod page;
mod pages;
mod recovery;
mod scan;
mod spared;
mod table;
mod transaction;
mod writes;

pub use commit::CommitFault;
pub use load::{LoadFault, LoadRefused};
pub use overlay::Overlay;
pub use recovery::{RecoverFault, recover};
