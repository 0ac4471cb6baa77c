//! Requirements that were looked up before.

ghost use Rattle.std.specs.Prelude.{◌≡◌, IfOk, IfSome};
ghost use Rattle.rpm_check.specs.Prelude.{FinMap, is_met, Knows, nat_cmp, need_of, needed_in, Package};

use crate::looking::Sources;
use crate::names::mark_of;
use rpm_tags::Dependency;
use std::alloc::{AllocError, Global};
use std::collections::BTreeMap;

/// A requirement of its own: a name, flags and a version. It stands in order of its name's mark first, so that few names are
/// compared byte by byte.
#[derive(PartialEq, Eq, PartialOrd, Ord, Drop)]
pub struct Requirement {
    mark: u32,
    name: Vec<u8>,
    flags: u64,
    version: Vec<u8>,
}

impl Requirement {
    pub fn of(alloc: Global, needed: &Dependency<'_>) -> Result<Requirement, AllocError>
        ensures { IfOk result (λ key. need_of key ≡ needed_in needed.now) }
    {
        Ok(Requirement {
            mark: mark_of(needed.name),
            name: Vec::from_slice(alloc, needed.name)?,
            flags: needed.flags,
            version: Vec::from_slice(alloc, needed.version)?,
        })
    }
}

/// Whether requirements are met that were looked up before, and what is kept for the next one.
#[derive(Drop)]
pub struct Memo {
    answers: BTreeMap<Requirement, bool>,
    pub sources: Sources,
}

impl Memo {
    pub fn new(alloc: Global) -> Memo
        ensures { (packages : FinMap nat_cmp Package) → Knows packages result }
    {
        Memo {
            answers: BTreeMap::new(alloc),
            sources: Sources::new(alloc),
        }
    }

    /// What is known of a requirement.
    pub fn get(&self, key: &Requirement) -> Option<bool>
        ensures { (packages : FinMap nat_cmp Package) → Knows packages self.now → IfSome result (λ known. known ≡ is_met packages (need_of key.now)) }
    {
        self.answers.get(key).copied()
    }

    /// Notes whether a requirement is met.
    pub fn put(&mut self, key: Requirement, met: bool) -> Result<(), AllocError>
        ensures { (packages : FinMap nat_cmp Package) → Knows packages self.old → met ≡ is_met packages (need_of key) → Knows packages self.new }
    {
        self.answers.insert(key, met)?;
        Ok(())
    }
}
