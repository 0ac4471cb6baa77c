//! How a command line ended, as rows write it.

use rpm_tool::{Damage, FormatFault, Outcome, Why, WordsFault};
use std::alloc::{AllocError, Global};

/// A reason, as rows write it: its name, and what it tells in brackets.
fn reason_text(alloc: Global, why: Why) -> Result<String, AllocError> {
    match why {
        Why::Failed(count) => format!(in alloc; "Failed({count})"),
        Why::Usage(WordsFault { kind, word }) => format!(in alloc; "Usage({kind:?},{word})"),
        Why::BadFormat(FormatFault { kind, at }) => format!(in alloc; "BadFormat({kind:?},{at})"),
        Why::BadLog { unit } => format!(in alloc; "BadLog({unit})"),
        Why::Damaged(Damage { reason, offset }) => {
            format!(in alloc; "Damaged({reason:?},{offset})")
        }
        Why::NotEmpty(number) => format!(in alloc; "NotEmpty({number})"),
        Why::BadIndex { unit } => format!(in alloc; "BadIndex({unit})"),
        Why::IndexFull { needed } => format!(in alloc; "IndexFull({needed})"),
        Why::LogFull { needed } => format!(in alloc; "LogFull({needed})"),
        _ => format!(in alloc; "{why:?}"),
    }
}

/// An ending, as rows write it: the reason, the status and the number of changes.
pub fn ending_text(alloc: Global, outcome: Outcome) -> Result<String, AllocError> {
    let why = reason_text(alloc, outcome.why)?;
    let status = outcome.status;
    let changes = outcome.changes;
    format!(in alloc; "{why} {status} {changes}")
}
