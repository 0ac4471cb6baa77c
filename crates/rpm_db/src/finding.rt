//! The packages that have a key.

ghost use Rattle.std.specs.Prelude.{◌≡◌, ℕ, ◌+◌, IsTrue, true, false, Err, IfOk, IfErr};
ghost use Rattle.rpm_db.specs.Prelude.{AreHits, ChainCosts, code_of, DiskFault, FindAnswer, HasRows, Idx, is_indexed, KeepsIndex, key_chain, OnlyReadsFile, packages, store_of, rows, unit_at, units_at};
ghost use Rattle.rpm_hindex.specs.Answers.{IsOutsideIndex};

use crate::database::Db;
use rpm_hindex::{FindFault, Hits};
use rpm_outside::{Disk, File};
use rpm_tags::Kind;
use std::alloc::Global;

impl Db {
    /// The packages that have a key of this kind, by rising number and place.
    ///
    /// Reads of `Hindex.db` 16 bytes and the records of the key's bucket, and of `Packages.db` nothing.
    ///
    /// # Errors
    ///
    /// - `BadIndex` exactly where the chain of the key's bucket isn't well formed: the unit of its first fault. It
    ///   never comes of files whose index holds the rows of the packages.
    /// - `DiskFault` only where the disk's count of faults rose.
    /// - `NoMemory` where a key or the hits find no memory.
    pub fn find<D: Disk>(
        &self,
        alloc: Global,
        disk: &mut D,
        kind: Kind,
        key: &[u8],
    ) -> Result<Hits, FindFault>
        requires indexed { is_indexed self.now ≡ true }
        requires runs { self.now.stopped ≡ false }
        requires keeps { IsTrue D.tells → KeepsIndex (D.files disk.old).idx self.now }
        ensures kept { IsTrue D.tells → KeepsIndex (D.files disk.new).idx self.now }
        ensures rows { IfOk result (λ hits. IsTrue D.tells
            → HasRows (packages (D.files disk.old).pkg (store_of self.now)) (D.files disk.old).idx
            → AreHits (code_of kind) key.now (rows (packages (D.files disk.old).pkg (store_of self.now))) hits) }
        ensures told { IsTrue D.tells → FindAnswer (key_chain (code_of kind) key.now (D.files disk.old).idx) result }
        ensures lawful { IsTrue D.tells → HasRows (packages (D.files disk.old).pkg (store_of self.now)) (D.files disk.old).idx → IfErr result IsOutsideIndex }
        ensures cost { IsTrue D.tells → ChainCosts (key_chain (code_of kind) key.now (D.files disk.old).idx)
            (units_at (unit_at (D.files disk.old).idx)) (D.bytes_read disk.old File.Idx + 16)
            (D.bytes_read disk.new File.Idx) }
        ensures looks { OnlyReadsFile D.Disk Idx disk.old disk.new }
        ensures cause { DiskFault D.Disk (result ≡ Err FindFault.DiskFault) disk.old disk.new }
    {
        match &self.index {
            Some(index) => index.find(alloc, disk, kind.code(), key),
            None => unreachable!(),
        }
    }
}
