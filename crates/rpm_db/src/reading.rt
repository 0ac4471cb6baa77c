//! The bytes of one package.

ghost use Rattle.std.specs.Prelude.{ℕ, ◌+◌, ◌≤◌, IsTrue, Some, Ok, Err, IfOk, MatchResult};
ghost use Rattle.std.specs.FinMap as finite;
ghost use Rattle.rpm_db.specs.Prelude.{CutIs, GetAnswer, package_of, ReadAnswer, ReadsPackage, state_in};
ghost use Rattle.rpm_db.specs.Database.{Keeps};

use crate::database::Db;
use rpm_header::View;
use rpm_outside::Disk;
use rpm_pkgdb::GetFault;
use std::alloc::Global;

/// A blob without what follows its header; Bad where it is none.
fn cut_header(blob: Vec<u8>) -> Result<Vec<u8>, GetFault>
    ensures { CutIs (package_of (Some blob.items)) result }
{
    let length = match View::parse(&blob) {
        Ok(view) => view.blob().len(),
        Err(_) => return Err(GetFault::Bad),
    };
    let mut own = blob;
    own.truncate(length);
    Ok(own)
}

impl Db {
    /// The bytes that a package is read from: those of its header and what follows them. Whether they are a header
    /// isn't looked at.
    ///
    /// Reads the number's own blocks, each once.
    ///
    /// # Errors
    ///
    /// - `NoSuch` exactly where there is no such package. Nothing is read then.
    /// - `Bad` only where the package is Bad: its blob can't be read.
    /// - `DiskFault` only where the disk's count of faults rose.
    /// - `NoMemory` where the bytes find no memory.
    pub fn read<D: Disk>(&self, alloc: Global, disk: &mut D, n: u32) -> Result<Vec<u8>, GetFault>
        requires keeps { IsTrue D.tells → Keeps (D.files disk.old).pkg self.now }
        ensures told { IsTrue D.tells → ReadAnswer (finite.get (state_in D.Disk disk.old self.now).packages n) result }
        ensures reads { ReadsPackage D.Disk n self.now result disk.old disk.new }
    {
        self.read_in(disk, n, Vec::new(alloc))
    }

    /// The bytes that a package is read from, as `read` gives them, in a vector of the caller's, whatever it holds:
    /// one that held a package before has its room already.
    ///
    /// # Errors
    ///
    /// Those of `read`, with the same causes.
    pub fn read_in<D: Disk>(&self, disk: &mut D, n: u32, room: Vec<u8>) -> Result<Vec<u8>, GetFault>
        requires keeps { IsTrue D.tells → Keeps (D.files disk.old).pkg self.now }
        ensures told { IsTrue D.tells → ReadAnswer (finite.get (state_in D.Disk disk.old self.now).packages n) result }
        ensures reads { ReadsPackage D.Disk n self.now result disk.old disk.new }
    {
        self.store.get_in(disk, n, room)
    }

    /// A Good header's own bytes.
    ///
    /// Reads the number's own blocks, each once, and takes memory for them alone.
    ///
    /// # Errors
    ///
    /// - `NoSuch` exactly where there is no such package. Nothing is read then.
    /// - `Bad` exactly where the package is Bad.
    /// - `DiskFault` only where the disk's count of faults rose.
    /// - `NoMemory` where the bytes find no memory.
    pub fn get<D: Disk>(&self, alloc: Global, disk: &mut D, n: u32) -> Result<Vec<u8>, GetFault>
        requires keeps { IsTrue D.tells → Keeps (D.files disk.old).pkg self.now }
        ensures told { IsTrue D.tells → GetAnswer (finite.get (state_in D.Disk disk.old self.now).packages n) result }
        ensures reads { ReadsPackage D.Disk n self.now result disk.old disk.new }
    {
        self.get_in(disk, n, Vec::new(alloc))
    }

    /// A Good header's own bytes, as `get` gives them, in a vector of the caller's, whatever it holds.
    ///
    /// # Errors
    ///
    /// Those of `get`, with the same causes.
    pub fn get_in<D: Disk>(&self, disk: &mut D, n: u32, room: Vec<u8>) -> Result<Vec<u8>, GetFault>
        requires keeps { IsTrue D.tells → Keeps (D.files disk.old).pkg self.now }
        ensures told { IsTrue D.tells → GetAnswer (finite.get (state_in D.Disk disk.old self.now).packages n) result }
        ensures reads { ReadsPackage D.Disk n self.now result disk.old disk.new }
    {
        let blob = self.read_in(disk, n, room)?;
        cut_header(blob)
    }
}
