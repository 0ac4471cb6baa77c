//! The packages that can be read, and which packages each of them requires.

ghost use Rattle.std.specs.Prelude.{◌≡◌, ◌++◌, ◌<◌, ◌≤◌, All, IsTrue, IfOk, OnOk};
ghost use Rattle.std.specs.FinMap as finite;
ghost use Rattle.rpm_check.specs.Prelude.{all_edges, AreNodesRising, CheckQuestion, edges_from, edges_of, flat_map, good_if, good_numbers, HasKeptRows, is_good_at, IsAskable, KnowsGiversOn, node_numbers, packages_in};

use crate::ends::ends_of;
use crate::faults::CheckFault;
use crate::giver_memo::GiverMemo;
use rpm_db::Db;
use rpm_outside::Disk;
use std::alloc::Global;

/// A package that can be read: its number, and the numbers of the packages that meet one of its requirements, rising,
/// each once.
#[derive(Drop)]
pub struct Node {
    pub number: u32,
    pub ends: Vec<u32>,
}

/// Puts a package after those that are there, if it can be read.
fn push_node<D: Disk>(
    alloc: Global,
    db: &Db,
    disk: &mut D,
    memo: &mut GiverMemo,
    number: u32,
    room: &mut Vec<u8>,
    nodes: &mut Vec<Node>,
) -> Result<(), CheckFault>
    requires asked { IsAskable D.Disk disk.old db.now }
    requires remembers { KnowsGiversOn D.Disk disk.old db.now memo.old }
    requires rising { AreNodesRising nodes.old.items }
    requires below { All (λ n. n < number) (node_numbers nodes.old.items) }
    ensures rising { OnOk result (AreNodesRising nodes.new.items) }
    ensures reached { OnOk result (All (λ n. n ≤ number) (node_numbers nodes.new.items)) }
    ensures numbers { OnOk result (IsTrue D.tells
        → node_numbers nodes.new.items ≡ node_numbers nodes.old.items ++ good_if
        (is_good_at (finite.get (packages_in D.Disk disk.old db.now) number)) number) }
    ensures told { OnOk result (IsTrue D.tells → HasKeptRows D.Disk disk.old db.now
        → flat_map (edges_of (good_numbers (packages_in D.Disk disk.old db.now))) nodes.new.items ≡ flat_map
        (edges_of (good_numbers (packages_in D.Disk disk.old db.now))) nodes.old.items ++ edges_from
        (packages_in D.Disk disk.old db.now) number) }
    ensures remembered { KnowsGiversOn D.Disk disk.old db.now memo.new }
    ensures asks { CheckQuestion D.Disk disk.old disk.new db.now result }
{
    let ends = match ends_of(alloc, db, disk, memo, number, room) {
        Ok(None) => return Ok(()),
        Ok(Some(ends)) => ends,
        Err(fault) => return Err(fault),
    };
    match nodes.push(Node { number, ends }) {
        Ok(()) => Ok(()),
        Err(_) => Err(CheckFault::NoMemory),
    }
}

/// The packages that can be read, by rising number. Reads the blocks of each package once.
pub fn read_nodes<D: Disk>(alloc: Global, db: &Db, disk: &mut D) -> Result<Vec<Node>, CheckFault>
    requires asked { IsAskable D.Disk disk.old db.now }
    ensures rising { IfOk result (λ nodes. AreNodesRising nodes.items) }
    ensures numbers { IfOk result (λ nodes. IsTrue D.tells → node_numbers nodes.items ≡ good_numbers (packages_in D.Disk disk.old db.now)) }
    ensures told { IfOk result (λ nodes. IsTrue D.tells → HasKeptRows D.Disk disk.old db.now
        → flat_map (edges_of (good_numbers (packages_in D.Disk disk.old db.now))) nodes.items ≡ all_edges
        (packages_in D.Disk disk.old db.now)) }
    ensures asks { CheckQuestion D.Disk disk.old disk.new db.now result }
{
    let mut memo = GiverMemo::new(alloc);
    let mut room = Vec::new(alloc);
    let mut nodes = Vec::new(alloc);
    let mut passed = 0;
    while let Some(next) = db.next_above(passed) {
        push_node(alloc, db, disk, &mut memo, next, &mut room, &mut nodes)?;
        passed = next;
    }
    Ok(nodes)
}
