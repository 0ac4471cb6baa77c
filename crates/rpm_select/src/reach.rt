//! The numbers that a picker goes over.

ghost use Rattle.std.specs.Prelude.{◌<◌, ◌≤◌, ℕ, IsTrue, length, slice_index};
ghost use Rattle.rpm_select.specs.Prelude.{is_in, IsNext, AreNumbersRising, IsStrictlyIncreasing, reach_of, reaches};

use rpm_db::Db;

/// Which numbers they are.
#[derive(Drop)]
pub enum Reach {
    /// Those of all packages.
    All,
    /// This one.
    One(u32),
    /// These, which rise.
    These(Vec<u32>),
}

/// Whether so many of rising numbers, one at least, are at most this one, and the others above it. Looks at two of them.
fn are_passed(numbers: &[u32], n: u32, count: usize) -> bool
    requires { IsStrictlyIncreasing numbers.now }
    ensures below { IsTrue result → (k : ℕ) → k < count → k < length numbers.now → slice_index numbers.now k ≤ n }
    ensures over { IsTrue result → (k : ℕ) → count ≤ k → k < length numbers.now → n < slice_index numbers.now k }
{
    if count == 0 || count > numbers.len() || numbers[count - 1] > n {
        return false;
    }
    count == numbers.len() || numbers[count] > n
}

/// How many of rising numbers are at most this one. Log n steps, where they aren't as many as is supposed.
fn passed_count(numbers: &[u32], n: u32, supposed: usize) -> usize
    requires { IsStrictlyIncreasing numbers.now }
    ensures below { (k : ℕ) → k < result → k < length numbers.now → slice_index numbers.now k ≤ n }
    ensures over { (k : ℕ) → result ≤ k → k < length numbers.now → n < slice_index numbers.now k }
{
    if are_passed(numbers, n, supposed) {
        return supposed;
    }
    match numbers.binary_search(&n) {
        Ok(place) => place + 1,
        Err(place) => place,
    }
}

/// The least of rising numbers that is above this one. How many of them are passed then is supposed the next time.
fn next_of(numbers: &[u32], n: u32, supposed: &mut usize) -> Option<u32>
    requires { IsStrictlyIncreasing numbers.now }
    ensures { IsNext (λ m. is_in m numbers.now) n result }
{
    let passed = passed_count(numbers, n, *supposed);
    if passed < numbers.len() {
        *supposed = passed + 1;
        Some(numbers[passed])
    } else {
        None
    }
}

impl Reach {
    /// The least of them that is above this one. `supposed` is how many of the listed numbers were passed when the one
    /// before was found; any other value costs a search.
    pub fn next_above(&self, db: &Db, n: u32, supposed: &mut usize) -> Option<u32>
        requires { AreNumbersRising self.now }
        ensures { IsNext (reaches (reach_of self.now) db.now) n result }
    {
        match self {
            Reach::All => db.next_above(n),
            Reach::One(number) if *number > n => Some(*number),
            Reach::One(_) => None,
            Reach::These(numbers) => next_of(numbers, n, supposed),
        }
    }
}
