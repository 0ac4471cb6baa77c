//! Requirements whose packages were looked up before.

ghost use Rattle.std.specs.Prelude.{◌≡◌, IfSome};
ghost use Rattle.rpm_check.specs.Prelude.{FinMap, givers, KnowsGivers, nat_cmp, need_of, Package};

use crate::looking::Sources;
use crate::memo::Requirement;
use std::alloc::{AllocError, Global};
use std::collections::BTreeMap;

/// The numbers of the packages that meet requirements that were looked up before, and what is kept for the next one.
#[derive(Drop)]
pub struct GiverMemo {
    numbers: BTreeMap<Requirement, Vec<u32>>,
    pub sources: Sources,
}

impl GiverMemo {
    pub fn new(alloc: Global) -> GiverMemo
        ensures { (packages : FinMap nat_cmp Package) → KnowsGivers packages result }
    {
        GiverMemo {
            numbers: BTreeMap::new(alloc),
            sources: Sources::new(alloc),
        }
    }

    /// The numbers that are known of a requirement.
    pub fn get(&self, key: &Requirement) -> Option<&Vec<u32>>
        ensures { (packages : FinMap nat_cmp Package) → KnowsGivers packages self.now
            → IfSome result (λ known. known.now.items ≡ givers packages (need_of key.now)) }
    {
        self.numbers.get(key)
    }

    /// Notes the numbers of the packages that meet a requirement.
    pub fn put(&mut self, key: Requirement, numbers: Vec<u32>) -> Result<(), AllocError>
        ensures { (packages : FinMap nat_cmp Package) → KnowsGivers packages self.old
            → numbers.items ≡ givers packages (need_of key) → KnowsGivers packages self.new }
    {
        self.numbers.insert(key, numbers)?;
        Ok(())
    }
}
