//! Files of worked rows, read: command lines, with what is expected of each, as data. `docs/ROWS.md` has the format.
#![tactic(auto)]

mod ahead;
mod expected;
mod fault;
mod fixtures;
mod keyword;
mod leaving;
mod pieces;
mod reader;
mod records;
mod row;
mod statement;
mod token;

pub use fault::Fault;
pub use fixtures::Fixtures;
pub use reader::rows_of;
pub use records::{Record, records_of};
pub use row::{
    Ending, Fails, Files, Left, LeftAt, Line, NOTHING_FAILS, Output, Row, Shelved, Shown, Start,
    Taken, Wrong,
};
pub use statement::{Statement, statements_of};
