//! Files to be read from front to back.

ghost use Rattle.std.specs.Prelude.{◌≡◌, ℕ, ◌<◌, ◌≤◌, Bool, IsTrue, List, Option, length, take, is_err, IfOk, OnErr};
ghost use Rattle.rpm_outside.specs.Prelude.{bytes_at, HasCause, Open, Opens, Paths, ShelfCall, Take, TakesFront};

use crate::Failed;

/// A path that can't be opened, for whatever reason.
#[derive(Clone, Copy, PartialEq, Eq)]
pub struct Absent;

/// Files under paths, of which one at a time is open and is read from front to back.
pub trait Shelf {
    /// Whether shelves of this kind tell what they hold.
    ghost tells: { Bool };

    /// The bytes under each path, where they are told.
    ghost paths: { Self → Paths };

    /// What is left of the open item, where it is told and an item is open.
    ghost rest: { Self → Option (List ℕ) };

    /// How often a path couldn't be opened.
    ghost absences: { Self → ℕ };

    /// How often a read failed.
    ghost faults: { Self → ℕ };

    /// What an implementation says besides of a call that fails, or doesn't.
    ghost outcome: { Self → ShelfCall → Bool → Self → Type 0 } = { λ old call failed new. Unit {0} };

    /// Makes a path the open item, from its first byte on. The path `-` is the standard input.
    ///
    /// # Errors
    ///
    /// `Absent` only where the count of absences rose, and where the paths are told exactly where this one isn't
    /// among them. No item is open then.
    fn open(&mut self, path: &str) -> Result<(), Absent>
        ensures opened { IsTrue tells → Opens (bytes_at (paths self.old) path.now) (rest self.new) result }
        ensures paths { IsTrue tells → paths self.new ≡ paths self.old }
        ensures cause { HasCause (absences self.old) (absences self.new) result }
        ensures faults { faults self.new ≡ faults self.old }
        ensures outcome { outcome self.old (Open path.now) (is_err result) self.new };

    /// Takes at least one byte of a rest that isn't empty, to the front of `into`, and says how many. It is 0 only at
    /// the end of the open item, or where none is open.
    ///
    /// # Errors
    ///
    /// `Failed` only where the count of faults rose. Nothing is taken then.
    fn read(&mut self, into: &mut [u8]) -> Result<usize, Failed>
        requires { 0 < length into.old }
        ensures within { IfOk result (λ n. n ≤ length into.old) }
        ensures taken { IfOk result (λ n. IsTrue tells → TakesFront (rest self.old) (rest self.new) (take n into.new)) }
        ensures nothing { OnErr result (IsTrue tells → rest self.new ≡ rest self.old) }
        ensures paths { IsTrue tells → paths self.new ≡ paths self.old }
        ensures absences { absences self.new ≡ absences self.old }
        ensures cause { HasCause (faults self.old) (faults self.new) result }
        ensures outcome { outcome self.old (Take (length into.old)) (is_err result) self.new };
}
