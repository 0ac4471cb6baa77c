//! Why a call can't answer.

/// Why the hits of a key can't be given.
#[derive(Clone, Copy, PartialEq, Eq)]
pub enum FindFault {
    /// The chain of the key's bucket isn't well formed: the unit of its first fault.
    BadIndex { unit: u64 },
    /// A call of the disk failed.
    DiskFault,
    /// There was no memory.
    NoMemory,
}

/// Why a change can't be worked out.
#[derive(Clone, Copy, PartialEq, Eq)]
pub enum PrepareFault {
    /// The rows after the change, made from scratch, need so many units, which is more than 268435456.
    IndexFull { needed: u64 },
    /// A chain isn't well formed: the unit of its first fault. Or the chains hold more than unit 1 counts: 1.
    BadIndex { unit: u64 },
    /// A call of the disk failed.
    DiskFault,
    /// There was no memory.
    NoMemory,
}

/// Why an index can't be made from scratch.
#[derive(Clone, Copy, PartialEq, Eq)]
pub enum RewriteFault {
    /// The rows need so many units, which is more than 268435456.
    IndexFull { needed: u64 },
    /// A call of the disk failed.
    DiskFault,
    /// There was no memory.
    NoMemory,
}

/// A call of the disk failed.
#[derive(Clone, Copy, PartialEq, Eq)]
pub struct IndexDiskFault;
