//! The index in Hindex.db.

ghost use Rattle.std.specs.Prelude.{◌≡◌, ◌≤◌, ◌<◌, IsTrue, IfOk, length};
ghost use Rattle.rpm_hindex.specs.Prelude.{Idx, is_current, is_headed, is_in_order, is_ordered, KeepsIndexValue, ReadsOnly, IndexState, opened_state};

use crate::faults::IndexDiskFault;
use crate::reads::unit_or_zeros;
use crate::records::{UNITS, is_bucket_count};
use rpm_outside::{Disk, File, word};
use std::marker::Model;

/// The first two units of a `Hindex.db`, read once. The records stay in the file: each call that takes the disk takes
/// the one that the value was opened on, as long as that file says what the value keeps.
#[derive(Drop)]
pub struct Hindex {
    pub first: [u8; 16],
    pub second: [u8; 16],
    pub units: u64,
    /// The buckets of records that wait for their seal; 0 where none do.
    pub pending: u32,
}

impl Model for Hindex {
    ghost use Rattle.rpm_hindex.specs.State.{IndexState};
    ghost use Rattle.std.specs.Prelude.{◌<◌, ◌≤◌};

    ghost Value = { IndexState };

    ghost view = { λ s. record { first = s.first; second = s.second; units = s.units; pending = s.pending } };

    ghost invariant = { λ s. 0 < s.pending → 2 ≤ s.units };
}

// `RpmH`
pub const MAGIC: u32 = 0x486d_7052;

/// Whether unit 0 has the magic and the version.
pub fn is_headed(first: &[u8]) -> bool
    requires { length first.now ≡ 16 }
    ensures { result ≡ is_headed first.now }
{
    word(first, 0) == MAGIC && word(first, 1) == 2
}

/// Whether the numbers of unit 1 suit so many buckets and units.
#[tactic(auto, unfolding(crate::specs::State::is_ordered))]
pub fn is_ordered(buckets: u32, second: &[u8], units: u64) -> bool
    requires { length second.now ≡ 16 }
    ensures { result ≡ is_ordered buckets second.now units }
{
    if !is_bucket_count(buckets) {
        return false;
    }
    let used = word(second, 0);
    let first = 2 + buckets / 4;
    if used < first || used as u64 > units.min(UNITS) {
        return false;
    }
    let records = word(second, 1);
    let live = word(second, 2);
    records as u64 <= 2 * buckets as u64 && live <= used - first && used - first - live <= live
}

impl Hindex {
    /// Reads the first two units, those that the file has. Takes no memory.
    ///
    /// # Errors
    ///
    /// `IndexDiskFault` only where the disk's count of faults rose.
    pub fn open<D: Disk>(disk: &mut D) -> Result<Hindex, IndexDiskFault>
        ensures state { IfOk result (λ index. IsTrue D.tells → index ≡ opened_state (D.files disk.old).idx) }
        ensures kept { IfOk result (λ index. IsTrue D.tells → KeepsIndexValue (D.files disk.new).idx index) }
        ensures nothing_pending { IfOk result (λ index. index.pending ≡ 0) }
        ensures reads { ReadsOnly D.Disk Idx 32 result disk.old disk.new }
    {
        let units = disk.len(File::Idx).map_err(|_| IndexDiskFault)?;
        let first = unit_or_zeros(disk, units, 0).map_err(|_| IndexDiskFault)?;
        let second = unit_or_zeros(disk, units, 1).map_err(|_| IndexDiskFault)?;
        Ok(Hindex {
            first,
            second,
            units,
            pending: 0,
        })
    }

    /// Whether the first two units are in order.
    #[tactic(auto, unfolding(crate::specs::State::is_in_order))]
    fn is_in_order(&self) -> bool
        ensures { result ≡ is_in_order self.now }
    {
        is_headed(&self.first) && is_ordered(word(&self.first, 3), &self.second, self.units)
    }

    /// Whether the index is sealed at this generation, and its first two units are in order.
    #[tactic(auto, unfolding(crate::specs::State::is_current))]
    pub fn is_current(&self, generation: u32) -> bool
        ensures { result ≡ is_current generation self.now }
    {
        let sealed = if is_headed(&self.first) {
            word(&self.first, 2)
        } else {
            0
        };
        sealed == generation && self.is_in_order()
    }
}
