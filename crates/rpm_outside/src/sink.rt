//! Where bytes go.

ghost use Rattle.std.specs.Prelude.{◌≡◌, ℕ, ◌<◌, ◌≤◌, Bool, IsTrue, List, length, take, is_err, IfOk, OnErr};
ghost use Rattle.rpm_outside.specs.Prelude.{IsPrefix, GainIs, HasCause, refl, ◌∙◌};

use crate::Failed;

/// A place that takes bytes, as standard output does.
pub trait Sink {
    /// Whether sinks of this kind tell what they took.
    ghost tells: { Bool };

    /// The bytes taken, where they are told.
    ghost taken: { Self → List ℕ };

    /// How often a call failed.
    ghost faults: { Self → ℕ };

    /// What each call keeps of the sink, and of another one that it stands on: what was taken is
    /// never given back, whatever the answer.
    ghost follows: { Self → Self → Type 0 };

    /// What an implementation says besides of a call that fails, or doesn't.
    ghost outcome: { Self → Bool → Self → Type 0 } = { λ old failed new. Unit {0} };

    /// Takes the first of these bytes, at least one, and says how many.
    ///
    /// # Errors
    ///
    /// `Failed` only where the count of faults rose. Nothing is taken then.
    fn write(&mut self, bytes: &[u8]) -> Result<usize, Failed>
        requires { 0 < length bytes.now }
        ensures some { IfOk result (λ n. (0 < n) × (n ≤ length bytes.now)) }
        ensures taken { IfOk result (λ n. GainIs tells (taken self.old) (taken self.new) (take n bytes.now)) }
        ensures nothing { OnErr result (IsTrue tells → taken self.new ≡ taken self.old) }
        ensures cause { HasCause (faults self.old) (faults self.new) result }
        ensures outcome { outcome self.old (is_err result) self.new }
        ensures follows { follows self.old self.new };

    ghost follows_refl: { (sink : Self) → follows sink sink };

    ghost follows_trans: { (a b c : Self) → follows a b → follows b c → follows a c };

    /// What was taken begins with what was taken before.
    ghost follows_grows: { (a b : Self) → follows a b → IsTrue tells → IsPrefix (taken a) (taken b) };
}

/// A sink that is lent is a sink. Each call leaves it where it is.
impl<O: Sink> Sink for &mut O {
    ghost tells = { O.tells };

    ghost taken = { λ lent. O.taken lent.now };

    ghost faults = { λ lent. O.faults lent.now };

    ghost follows = { λ old new. (old.ghost_name ≡ new.ghost_name) × O.follows old.now new.now };

    ghost outcome = { λ old failed new. O.outcome old.now failed new.now };

    ghost follows_refl = { λ lent. (refl, O.follows_refl lent.now) };

    ghost follows_trans = { λ a b c f g. (f.0 ∙ g.0, O.follows_trans a.now b.now c.now f.1 g.1) };

    ghost follows_grows = { λ a b f told. O.follows_grows a.now b.now f.1 told };

    fn write(&mut self, bytes: &[u8]) -> Result<usize, Failed> {
        (**self).write(bytes)
    }
}
