//! The package that was read last.

ghost use Rattle.std.specs.Prelude.{◌≡◌, ◌≢◌, ◌<◌, ◌≤◌, ◌+◌, ℕ, IsTrue, is_some, true, false, Ok, Err, Some, IfOk, IfSome};
ghost use Rattle.rpm_select.specs.Prelude.{above, AsksPackages, package_cost, is_broken, is_picked, cost_next, has_recent_number, IsHeld, IsNext, IsOf, IsStoreKept, nat_cmp, NextIs, NextNumberIs, number_in, Package, package_in, packages_in, picks, picks_at, reach_next, reaches, Recalls, Serves};
ghost use Rattle.std.specs.FinMap as finite;

use crate::picked::{PickFault, Picked, pick, takes_bad};
use crate::picker::Picker;
use crate::rows::takes_header;
use crate::selection::Selection;
use rpm_db::Db;
use rpm_outside::{Disk, File};
use std::alloc::Global;
use std::mem::swap;

/// The package that was read last, and where the longest is kept, that one of those read before. Whoever asks about one
/// of them again needn't read it, nor parse it.
#[derive(Drop)]
pub struct Recent {
    last: Option<Picked>,
    longest: Option<Picked>,
    keeps_longest: bool,
    // How many of the numbers that an index gave are as far as the last one that was asked for.
    passed: usize,
}

/// Whether a selection picks a package.
fn takes(alloc: Global, selection: &Selection<'_>, picked: &Picked) -> Result<bool, PickFault>
    ensures told { IfOk result (λ b. b ≡ is_picked selection.now (number_in picked.now, package_in picked.now)) }
    ensures no_fault { result ≢ Err PickFault.DiskFault }
    ensures unbroken { is_broken result ≡ false }
{
    match picked {
        Picked::Good { number, blob } => {
            Ok(takes_header(alloc, selection, *number, &blob.view())?)
        }
        Picked::Bad { number } => Ok(takes_bad(selection, *number)),
    }
}

/// How many bytes a package has, if it is there and can be read.
fn length_of(held: &Option<Picked>) -> usize {
    match held {
        Some(Picked::Good { blob, .. }) => blob.as_slice().len(),
        _ => 0,
    }
}

/// The package that is held, if it is the one of this number.
fn of_number(held: &Option<Picked>, number: u32) -> Option<&Picked>
    ensures given { has_recent_number number held.now ≡ is_some result }
    ensures number { IfSome result (λ picked. number_in picked.now ≡ number) }
    ensures same { IfSome result (λ picked. held.now ≡ Some picked.now) }
{
    match held {
        Some(picked) if picked.number() == number => Some(picked),
        _ => None,
    }
}

impl Recent {
    /// Nothing was read. The package that is read last will be held.
    pub fn new() -> Recent
        ensures { (packages : finite.FinMap nat_cmp Package) → Recalls packages result }
    {
        Recent {
            last: None,
            longest: None,
            keeps_longest: false,
            passed: 0,
        }
    }

    /// Nothing was read. The package that is read last will be held, and the longest one beside it.
    pub fn with_longest() -> Recent
        ensures { (packages : finite.FinMap nat_cmp Package) → Recalls packages result }
    {
        Recent {
            last: None,
            longest: None,
            keeps_longest: true,
            passed: 0,
        }
    }

    /// The package of this number, if it is held.
    pub fn recall(&self, number: u32) -> Option<&Picked>
        ensures given { IsHeld number self.now → is_some result ≡ true }
        ensures number { IfSome result (λ held. number_in held.now ≡ number) }
        ensures held { IfSome result (λ held. IsHeld number self.now) }
        ensures same { IfSome result (λ held. (packages : finite.FinMap nat_cmp Package) → Recalls packages self.now → IsOf packages held.now) }
        ensures next { IfSome result (λ held. (packages : finite.FinMap nat_cmp Package) (sel : Selection) (n : ℕ) → Recalls packages self.now
            → NextNumberIs (above n (picks packages sel)) (Ok (Some number)) → NextIs (above n (picks packages sel)) (Ok (Some held.now))) }
    {
        match of_number(&self.last, number) {
            Some(held) => Some(held),
            None => of_number(&self.longest, number),
        }
    }

    /// Lets go of the package that was read last; where the longest is kept, of the shorter one. Its room is for the
    /// next one.
    fn take_room(&mut self, alloc: Global) -> Vec<u8>
        ensures { (packages : finite.FinMap nat_cmp Package) → Recalls packages self.old → Recalls packages self.new }
    {
        if self.keeps_longest && length_of(&self.longest) < length_of(&self.last) {
            swap(&mut self.last, &mut self.longest);
        }
        match self.last.take() {
            Some(Picked::Good { blob, .. }) => blob.into_bytes(),
            _ => Vec::new(alloc),
        }
    }

    /// Whether a selection picks a number's package. That is read, if it isn't held, and is held then.
    fn picks<D: Disk>(
        &mut self,
        alloc: Global,
        db: &Db,
        disk: &mut D,
        selection: &Selection<'_>,
        number: u32,
    ) -> Result<bool, PickFault>
        requires keeps { IsStoreKept D.Disk disk.old db.now }
        requires runs { db.now.stopped ≡ false }
        ensures told { IfOk result (λ b. IsTrue D.tells → Recalls (packages_in D.Disk disk.old db.now) self.old
            → b ≡ picks_at selection.now number (finite.get (packages_in D.Disk disk.old db.now) number)) }
        ensures recalls { IsTrue D.tells → Recalls (packages_in D.Disk disk.old db.now) self.old
            → Recalls (packages_in D.Disk disk.old db.now) self.new }
        ensures held { result ≡ Ok true → IsHeld number self.new }
        ensures asks { AsksPackages D.Disk (package_cost number db.now) disk.old disk.new db.now result }
        ensures unread { IsHeld number self.old → D.bytes_read disk.new File.Pkg ≡ D.bytes_read disk.old File.Pkg }
    {
        if let Some(held) = self.recall(number) {
            return takes(alloc, selection, held);
        }
        let mut room = self.take_room(alloc);
        match pick(alloc, db, disk, &Selection::All, number, &mut room) {
            Ok(Some(read)) => {
                let takes = takes(alloc, selection, &read);
                self.last = Some(read);
                takes
            }
            Ok(None) => Ok(false),
            Err(fault) => Err(fault),
        }
    }
}

impl Picker {
    /// The number of the package that `next_after` gives, with the same faults. Of the numbers that it goes over, a
    /// package that is held isn't read again; the one that was read last is held.
    pub fn next_number_after<D: Disk>(
        &self,
        alloc: Global,
        db: &Db,
        disk: &mut D,
        selection: &Selection<'_>,
        recent: &mut Recent,
        n: u32,
    ) -> Result<Option<u32>, PickFault>
        requires keeps { IsStoreKept D.Disk disk.old db.now }
        requires runs { db.now.stopped ≡ false }
        ensures told { IsTrue D.tells → Serves self.now (packages_in D.Disk disk.old db.now) selection.now
            → Recalls (packages_in D.Disk disk.old db.now) recent.old
            → NextNumberIs (above n (picks (packages_in D.Disk disk.old db.now) selection.now)) result }
        ensures recalls { IsTrue D.tells → Recalls (packages_in D.Disk disk.old db.now) recent.old
            → Recalls (packages_in D.Disk disk.old db.now) recent.new }
        ensures held { IfOk result (λ o. IfSome o (λ next. IsHeld next recent.new)) }
        ensures unread { (m : ℕ) → IsHeld m recent.old → IsNext (reaches self.now db.now) n (Some m)
            → result ≡ Ok (Some m) → D.bytes_read disk.new File.Pkg ≡ D.bytes_read disk.old File.Pkg }
        ensures rises { IfOk result (λ o. IfSome o (λ next. n < next)) }
        ensures within { D.bytes_read disk.new File.Pkg ≤ D.bytes_read disk.old File.Pkg + cost_next n db.now result }
        ensures asks { AsksPackages D.Disk (reach_next n self.now db.now result) disk.old disk.new db.now result }
    {
        let mut passed = n;
        while let Some(next) = self.next_number(db, passed, &mut recent.passed) {
            match recent.picks(alloc, db, disk, selection, next) {
                Ok(false) => passed = next,
                Ok(true) => return Ok(Some(next)),
                Err(fault) => return Err(fault),
            }
        }
        Ok(None)
    }
}
