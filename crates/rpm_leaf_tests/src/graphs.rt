//! Graphs with the order that follows by hand.

ghost use Rattle.std.specs.Prelude.{◌≡◌, nat_lt, ◌==◌, ◌&&◌, ◌||◌};
ghost use Rattle.std.specs.List.{list_all, list_any};

use rpm_graph::{ClassList, Edge, Graph, order};
use std::alloc::{AllocError, Global};

// Numbers, the edges between them, and the classes.
const GRAPHS: &[(&[u32], &[(u32, u32)], &[&[u32]])] = &[
    // Each has an edge to the next.
    (&[1, 2, 3], &[(1, 2), (2, 3)], &[&[3], &[2], &[1]]),
    // The first has an edge to the last.
    (&[1, 2, 3, 4], &[(1, 4)], &[&[2], &[3], &[4], &[1]]),
    // Two cycles that meet in 3.
    (&[1, 3, 5], &[(1, 3), (3, 1), (3, 5), (5, 3)], &[&[1, 3, 5]]),
    // Two cycles without an edge between them, and a number between theirs.
    (
        &[1, 2, 3, 4, 5],
        &[(1, 5), (2, 4), (4, 2), (5, 1)],
        &[&[1, 5], &[2, 4], &[3]],
    ),
    // One cycle with an edge to another.
    (
        &[1, 2, 3, 4],
        &[(1, 4), (2, 3), (3, 2), (4, 1), (4, 2)],
        &[&[2, 3], &[1, 4]],
    ),
];

/// Whether each number is below this one.
fn are_below(numbers: &[u32], number: u32) -> bool
    ensures { result ≡ list_all (λ n. nat_lt n number) numbers.now }
{
    numbers.iter().all(|n| *n < number)
}

/// Whether each edge stands before this one: by where they begin, and then by where they end.
fn are_before(edges: &[Edge], from: u32, to: u32) -> bool
    ensures { result ≡ list_all (λ e. nat_lt e.from from || (e.from == from && nat_lt e.to to)) edges.now }
{
    edges
        .iter()
        .all(|e| e.from < from || e.from == from && e.to < to)
}

/// Whether the number is one of these.
fn has(numbers: &[u32], number: u32) -> bool
    ensures { result ≡ list_any (λ n. number == n) numbers.now }
{
    numbers.iter().any(|n| number == *n)
}

/// Adds a number that is above the others.
fn push_number(graph: &mut Graph, number: u32) -> Result<(), AllocError> {
    if are_below(graph.numbers(), number) {
        graph.push_number(number)?;
    }
    Ok(())
}

/// Adds an edge between two of the numbers that stands after the others.
fn push_edge(graph: &mut Graph, from: u32, to: u32) -> Result<(), AllocError> {
    if from == to || !has(graph.numbers(), from) || !has(graph.numbers(), to) {
        return Ok(());
    }
    if are_before(graph.edges(), from, to) {
        graph.push_edge(from, to)?;
    }
    Ok(())
}

/// A graph of these numbers and edges, those aside that no graph takes.
fn graph_of(alloc: Global, numbers: &[u32], edges: &[(u32, u32)]) -> Result<Graph, AllocError> {
    let mut graph = Graph::new(alloc);
    for &number in numbers {
        push_number(&mut graph, number)?;
    }
    for &(from, to) in edges {
        push_edge(&mut graph, from, to)?;
    }
    Ok(graph)
}

/// Whether these are the classes of the list.
fn is_list(list: &ClassList, classes: &[&[u32]]) -> bool {
    if list.classes() != classes.len() {
        return false;
    }
    for k in 0..list.classes() {
        if list.class(k) != classes[k] {
            return false;
        }
    }
    true
}

/// Whether the graph has all these numbers and edges, and its order these classes.
fn is_ordered(
    alloc: Global,
    numbers: &[u32],
    edges: &[(u32, u32)],
    classes: &[&[u32]],
) -> Result<bool, AllocError> {
    let graph = graph_of(alloc, numbers, edges)?;
    let is_whole = graph.numbers() == numbers && graph.edges().len() == edges.len();
    let list = order(alloc, &graph)?;
    Ok(is_whole && is_list(&list, classes))
}

fn unlike_order(alloc: Global) -> Option<&'static [(u32, u32)]> {
    for &(numbers, edges, classes) in GRAPHS {
        if is_ordered(alloc, numbers, edges, classes) != Ok(true) {
            return Some(edges);
        }
    }
    None
}

#[test]
fn orders_are_those_by_hand(rt: HostRuntime) {
    let edges = unlike_order(rt.alloc());
    assert!(rt; edges.is_none(), "{edges:?}");
}
