//! What a process is to do with a database.

/// What a command is to do with the database.
#[derive(Clone, Copy, PartialEq, Eq)]
pub enum Purpose {
    /// To answer a question from the packages alone: nothing is written, and the folder has to be there.
    Plain,
    /// To answer a question by the index, before which a transaction may have to be finished or the index to be made.
    /// The folder has to be there.
    Keyed,
    /// To change the database: the folder is made where it isn't there.
    Change,
}
