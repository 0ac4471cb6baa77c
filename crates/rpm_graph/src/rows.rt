//! A graph's edges as rows of places.

ghost use Rattle.std.specs.Prelude.{◌≡◌, ℕ, ◌<◌, ◌≤◌, ◌+◌, IfOk, OnOk, Contains, length, slice_index, [], replicate};
ghost use Rattle.rpm_graph.specs.Prelude.{HaveEdges, IsNumberRising, row_lists, with_link};

use crate::graph::Graph;
use std::alloc::{AllocError, Global};

// So many empty rows.
pub fn empty_rows(alloc: Global, count: usize) -> Result<Vec<Vec<usize>>, AllocError>
    ensures { IfOk result (λ rows. row_lists rows.items ≡ replicate count []) }
{
    let mut rows = Vec::with_capacity(alloc, count)?;
    for _ in 0..count {
        rows.push(Vec::new(alloc))?;
    }
    Ok(rows)
}

// Puts one more place at the end of a row.
pub fn push_link(rows: &mut [Vec<usize>], from: usize, to: usize) -> Result<(), AllocError>
    requires { from < length rows.old }
    ensures { OnOk result (row_lists rows.new ≡ with_link (row_lists rows.old) from to) }
{
    rows[from].push(to)?;
    Ok(())
}

// Where the number stands.
fn place_of(numbers: &[u32], number: u32) -> usize
    requires rises { IsNumberRising numbers.now }
    requires there { Contains numbers.now number }
    ensures inside { result < length numbers.now }
    ensures there { slice_index numbers.now result ≡ number }
{
    match numbers.binary_search(&number) {
        Ok(place) => place,
        Err(_) => unreachable!(),
    }
}

// For each place the places that its edges end at.
pub fn rows(alloc: Global, graph: &Graph) -> Result<Vec<Vec<usize>>, AllocError>
    ensures { IfOk result (λ rows. HaveEdges graph.now (length graph.now.edges) (row_lists rows.items)) }
{
    let numbers = graph.numbers();
    let mut rows = empty_rows(alloc, numbers.len())?;
    let edges = graph.edges();
    for edge in edges {
        push_link(
            &mut rows,
            place_of(numbers, edge.from),
            place_of(numbers, edge.to),
        )?;
    }
    Ok(rows)
}
