//! Why a database isn't read or written, where it is known.

use std::fmt;

/// What stands in the way of a command.
#[derive(Clone, Copy, Debug, PartialEq, Eq)]
pub enum Obstacle {
    /// There is no such folder.
    NoFolder,
    /// The folder has no `Packages.db`, and this file of another kind of database.
    OtherDatabase(&'static str),
    /// Another process kept its lock, or changed the packages since they were read.
    Busy,
    /// This name of the folder is a device, a pipe or a folder, or a symbolic link that leads to none or is to be
    /// written through.
    NoPlainFile(&'static str),
    /// This user may not read the file of this name.
    NoRightToRead(&'static str),
    /// This user may not write the file of this name, which a change has to.
    NoRightToWrite(&'static str),
    /// This user may not write the file of this name, which a question has to before it can use the index.
    NoRightToPrepare(&'static str),
}

impl fmt::Display for Obstacle {
    fn fmt<W: fmt::Write>(&self, f: &mut fmt::Formatter<W>) -> fmt::Result {
        match *self {
            Obstacle::NoFolder => f.write_str("the folder of the database is not there"),
            Obstacle::OtherDatabase(name) => {
                write!(
                    f,
                    "the folder has {name}, a database of another kind, and no Packages.db"
                )
            }
            Obstacle::Busy => f.write_str("another process is using or changing the database"),
            Obstacle::NoPlainFile(name) => write!(f, "{name} is not a plain file of the folder"),
            Obstacle::NoRightToRead(name) => write!(f, "this user may not read {name}"),
            Obstacle::NoRightToWrite(name) => write!(f, "this user may not write {name}"),
            Obstacle::NoRightToPrepare(name) => {
                write!(
                    f,
                    "this user may not write {name}, which has to be brought up to date: --noindex asks without it"
                )
            }
        }
    }
}
