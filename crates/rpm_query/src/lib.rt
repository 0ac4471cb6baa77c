//! The queries: of an opened database, argument by argument, and of package files.
#![tactic(auto)]

mod answering;
mod missing;
mod package_files;
mod printing;
mod querying;

pub use package_files::print_files;
pub use querying::{query_all, query_each};
