//! The order of the classes: each after those that its edges end in, and of those that may come next the one with the
//! least number.

ghost use Rattle.std.specs.Prelude.{◌≡◌, ℕ, ◌<◌, ◌≤◌, IfOk, length, slice_index_or, [], List, All, map};
ghost use Rattle.rpm_graph.specs.Prelude.{EdgesGoBack, IsOnlyOrder, IsOrder, row_lists, StandOnce};

use crate::graph::Graph;
use crate::grouping::{class_rows, least_numbers, members};
use crate::listing::list_classes;
use crate::rows::rows;
use crate::search::find_classes;
use std::alloc::{AllocError, Global};
use std::marker::Model;

/// The classes of a graph, in order. Contracts see the list of classes, each the list of its numbers.
#[derive(Drop)]
pub struct ClassList {
    members: Vec<Vec<u32>>,
    order: Vec<usize>,
}

impl Model for ClassList {
    ghost Value = { List (List ℕ) };

    ghost view = { λ l. map (λ c. slice_index_or (row_lists l.members.items) c []) l.order.items };

    ghost invariant = { λ l. All (λ c. c < length l.members.items) l.order.items };
}

impl ClassList {
    /// How many classes there are.
    pub fn classes(&self) -> usize
        ensures { result ≡ length self.now }
    {
        self.order.len()
    }

    /// The numbers of the class at this place, rising.
    pub fn class(&self, k: usize) -> &[u32]
        requires { k < length self.now }
        ensures { result.now ≡ slice_index_or self.now k [] }
    {
        &self.members[self.order[k]]
    }
}

/// The order in which the classes of a graph are listed: each one after those that its edges end in, and of those
/// that may come next the one with the least number.
///
/// Gabow's search for the classes, and then Kahn's algorithm with an ordered set of those that are ready. Takes time
/// and memory by the number of numbers and edges, with a logarithm for that set and for finding the numbers that
/// edges join. `Err` where memory is refused.
pub fn order(alloc: Global, graph: &Graph) -> Result<ClassList, AllocError>
    ensures order { IfOk result (IsOrder graph.now) }
    ensures only { IfOk result (IsOnlyOrder graph.now) }
    ensures once { IfOk result (StandOnce graph.now) }
    ensures back { IfOk result (EdgesGoBack graph.now) }
{
    let rows = rows(alloc, graph)?;
    let split = find_classes(alloc, &rows)?;
    let members = members(alloc, graph.numbers(), &split)?;
    let ends = class_rows(alloc, &rows, &split)?;
    let leasts = least_numbers(alloc, &members)?;
    let order = list_classes(alloc, &ends, &leasts)?;
    Ok(ClassList { members, order })
}
