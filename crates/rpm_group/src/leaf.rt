//! A leaf of the table: 256 pages by number, of which some are there. A leaf is as long as its last page wants.

ghost use Rattle.std.specs.Prelude.{◌≡◌, ℕ, ◌+◌, ◌/◌, ◌%◌, ◌<◌, ◌≤◌, true, length, is_some, OnOk};
ghost use Rattle.rpm_group.specs.Prelude.{LeafKeeps, LeafSame, LeafWrote, page_in};

use crate::page::{Page, empty_page};
use std::alloc::{AllocError, Global};

pub type Leaf = Vec<Option<Box<Page>>>;

/// Makes the leaf so long.
fn lengthen(leaf: &mut Leaf, count: usize) -> Result<(), AllocError>
    ensures same { (k : ℕ) → page_in leaf.new k ≡ page_in leaf.old k }
    ensures long { OnOk result (count ≤ length leaf.new.items) }
{
    for _k in leaf.len()..count {
        leaf.push(None)?;
    }
    Ok(())
}

/// Adds an empty page where there is none.
pub fn add(alloc: Global, leaf: &mut Leaf, k: usize) -> Result<(), AllocError>
    requires { k < 256 }
    ensures same { LeafSame leaf.old leaf.new }
    ensures pages { LeafKeeps leaf.old leaf.new }
    ensures there { OnOk result (is_some (page_in leaf.new k) ≡ true) }
{
    lengthen(leaf, k + 1)?;
    if leaf[k].is_none() {
        leaf[k] = Some(Box::new(alloc, empty_page(alloc)?)?);
    }
    Ok(())
}

/// Holds units of one page.
pub fn hold(leaf: &mut Leaf, k: usize, at: usize, bytes: &[u8])
    requires there { is_some (page_in leaf.old k) ≡ true }
    requires whole { length bytes.now % 16 ≡ 0 }
    requires within { at + length bytes.now / 16 ≤ 256 }
    ensures wrote { LeafWrote k at bytes.now leaf.old leaf.new }
    ensures pages { LeafKeeps leaf.old leaf.new }
{
    if k < leaf.len()
        && let Some(page) = &mut leaf[k]
    {
        page.hold(at, bytes);
    }
}
