//! The names that were looked up again.

ghost use Rattle.std.specs.Prelude.{Some};
ghost use Rattle.rpm_check.specs.Prelude.{AreOffered, FinMap, KnowsNames, nat_cmp, Package};

use crate::offers::Offer;
use std::alloc::{AllocError, Global};
use std::collections::BTreeMap;

// How many marks are kept.
const MARKS: usize = 1024;

/// The names that were looked up again, each with what the packages provide under it.
#[derive(Drop)]
pub struct Names {
    kept: BTreeMap<Vec<u8>, Vec<Offer>>,
    // The marks of names that were looked up, each in its place, odd from the second time on: names with the same mark
    // are rare.
    marks: [u32; MARKS],
}

/// An even number that a name has, and few other names.
pub(crate) fn mark_of(name: &[u8]) -> u32 {
    let mut mark = 0u32;
    for byte in name {
        mark = mark.wrapping_mul(31).wrapping_add(*byte as u32);
    }
    mark.wrapping_mul(2)
}

impl Names {
    #[tactic(auto, unfolding(crate::specs::inner::Offers::KnowsNames))]
    pub fn new(alloc: Global) -> Names
        ensures { (packages : FinMap nat_cmp Package) → KnowsNames packages result }
    {
        Names {
            kept: BTreeMap::new(alloc),
            marks: [0; MARKS],
        }
    }

    /// Notes that a name is looked up, and tells whether it seems to have been twice before. The package that provides
    /// it is often still held the second time, so that nothing need be read.
    #[tactic(auto, unfolding(crate::specs::inner::Offers::KnowsNames))]
    pub fn is_again(&mut self, name: &[u8]) -> bool
        ensures { (packages : FinMap nat_cmp Package) → KnowsNames packages self.old → KnowsNames packages self.new }
    {
        let mark = mark_of(name);
        let place = (mark / 2) as usize % MARKS;
        let seen = self.marks[place];
        self.marks[place] = if seen | 1 == mark | 1 { mark | 1 } else { mark };
        seen == mark | 1
    }

    /// Takes out a name that is kept, and gives what the packages provide under it.
    pub fn take(&mut self, name: &[u8]) -> Option<Vec<Offer>>
        ensures taken { (packages : FinMap nat_cmp Package) → KnowsNames packages self.old → AreOffered packages name.now result }
        ensures rest { (packages : FinMap nat_cmp Package) → KnowsNames packages self.old → KnowsNames packages self.new }
    {
        self.kept.remove(name)
    }

    /// Keeps a name, with what the packages provide under it.
    #[tactic(auto, unfolding(crate::specs::inner::Offers::KnowsNames))]
    pub fn keep(&mut self, alloc: Global, name: &[u8], offers: Vec<Offer>) -> Result<(), AllocError>
        ensures { (packages : FinMap nat_cmp Package) → KnowsNames packages self.old → AreOffered packages name.now (Some offers)
            → KnowsNames packages self.new }
    {
        let name = Vec::from_slice(alloc, name)?;
        self.kept.insert(name, offers)?;
        Ok(())
    }
}
