//! The reports on all packages of a database: verdicts, files that differ, requirements, an order.
#![tactic(auto)]

mod file_report;
mod ordering;
mod unreadable;
mod unsatisfied;
mod verdicts;

pub use file_report::check_files;
pub use ordering::report_order;
pub use unsatisfied::report_unmet;
pub use verdicts::report;
