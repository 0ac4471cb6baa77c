//! The graph of nodes.

ghost use Rattle.std.specs.Prelude.{◌≡◌, ◌++◌, [], ◌∷◌, map, filter, All, true, IfOk, OnOk, OnErr};
ghost use Rattle.rpm_check.specs.Prelude.{AreNodesRising, BeginsBelow, BeginsUpTo, edge, edges_of, flat_map, is_end, is_in, IsEdgeBefore, IsStrictlyIncreasing, node_numbers};

use crate::nodes::Node;
use rpm_graph::Graph;
use std::alloc::{AllocError, Global};

/// Whether a graph has a number. Log n steps.
fn has_number(graph: &Graph, number: u32) -> bool
    ensures { result ≡ is_in number graph.now.numbers }
{
    graph.numbers().binary_search(&number).is_ok()
}

/// Whether an edge can go from one number to another: they are different, and the graph has the other.
fn is_end(graph: &Graph, from: u32, to: u32) -> bool
    ensures { result ≡ is_end graph.now.numbers from to }
{
    from != to && has_number(graph, to)
}

/// Adds an edge from one number to another, where that can be its end. `Err` where memory is refused.
fn push_edge(graph: &mut Graph, from: u32, to: u32) -> Result<(), AllocError>
    requires begins { is_in from graph.old.numbers ≡ true }
    requires behind { All (λ e. IsEdgeBefore e (edge from to)) graph.old.edges }
    ensures numbers { graph.new.numbers ≡ graph.old.numbers }
    ensures told { OnOk result (graph.new.edges ≡ graph.old.edges ++ map (edge from) (filter (is_end graph.old.numbers from) (to ∷ []))) }
    ensures refused { OnErr result (graph.new.edges ≡ graph.old.edges) }
{
    if is_end(graph, from, to) {
        graph.push_edge(from, to)
    } else {
        Ok(())
    }
}

/// Adds an edge from a number to each of rising ones that can be its end.
fn push_edges(graph: &mut Graph, from: u32, ends: &[u32]) -> Result<(), AllocError>
    requires begins { is_in from graph.old.numbers ≡ true }
    requires rises { IsStrictlyIncreasing ends.now }
    requires behind { All (BeginsBelow from) graph.old.edges }
    ensures numbers { graph.new.numbers ≡ graph.old.numbers }
    ensures reached { All (BeginsUpTo from) graph.new.edges }
    ensures told { OnOk result (graph.new.edges ≡ graph.old.edges ++ map (edge from) (filter (is_end graph.old.numbers from) ends.now)) }
{
    for to in ends {
        push_edge(graph, from, *to)?;
    }
    Ok(())
}

/// Adds the numbers of nodes to a graph without numbers.
fn push_numbers(graph: &mut Graph, nodes: &[Node]) -> Result<(), AllocError>
    requires rising { AreNodesRising nodes.now }
    requires none { graph.old.numbers ≡ [] }
    ensures edges { OnOk result (graph.new.edges ≡ graph.old.edges) }
    ensures told { OnOk result (graph.new.numbers ≡ node_numbers nodes.now) }
{
    for node in nodes {
        graph.push_number(node.number)?;
    }
    Ok(())
}

/// Adds the edges of nodes to a graph that has their numbers.
fn push_all_edges(graph: &mut Graph, nodes: &[Node]) -> Result<(), AllocError>
    requires rising { AreNodesRising nodes.now }
    requires numbers { graph.old.numbers ≡ node_numbers nodes.now }
    requires none { graph.old.edges ≡ [] }
    ensures numbers { OnOk result (graph.new.numbers ≡ graph.old.numbers) }
    ensures told { OnOk result (graph.new.edges ≡ flat_map (edges_of graph.old.numbers) nodes.now) }
{
    for node in nodes {
        push_edges(graph, node.number, &node.ends)?;
    }
    Ok(())
}

/// The graph of nodes. `Err` where memory is refused.
pub fn graph_of(alloc: Global, nodes: &[Node]) -> Result<Graph, AllocError>
    requires rising { AreNodesRising nodes.now }
    ensures numbers { IfOk result (λ g. g.numbers ≡ node_numbers nodes.now) }
    ensures edges { IfOk result (λ g. g.edges ≡ flat_map (edges_of (node_numbers nodes.now)) nodes.now) }
{
    let mut graph = Graph::new(alloc);
    push_numbers(&mut graph, nodes)?;
    push_all_edges(&mut graph, nodes)?;
    Ok(graph)
}
