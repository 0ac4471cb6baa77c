//! A graph: numbers that rise, and edges between them that rise.

ghost use Rattle.std.specs.Prelude.{◌≡◌, ℕ, ◌++◌, ◌∷◌, [], All, ◌<◌, OnOk, OnErr};
ghost use Rattle.rpm_graph.specs.Prelude.{edge, IsEdgeBefore, IsNetwork, Joins, Network};

use std::alloc::{AllocError, Global};
use std::marker::Model;

/// An edge, from one number to another.
#[derive(Clone, Copy)]
pub struct Edge {
    pub from: u32,
    pub to: u32,
}

/// A graph. Contracts see a `Network`: its numbers, and its edges.
///
/// Numbers rise, edges rise by where they begin and then by where they end, and each edge joins two different numbers.
#[derive(Drop)]
pub struct Graph {
    numbers: Vec<u32>,
    edges: Vec<Edge>,
}

impl Model for Graph {
    ghost Value = { Network };

    ghost view = { λ g. record { numbers = g.numbers.items; edges = g.edges.items } };

    ghost invariant = { λ g. IsNetwork (record { numbers = g.numbers.items; edges = g.edges.items }) };
}

impl Graph {
    /// A graph with no number. Takes no memory.
    pub fn new(alloc: Global) -> Graph
        ensures { result ≡ record { numbers = []; edges = [] } }
    {
        Graph {
            numbers: Vec::new(alloc),
            edges: Vec::new(alloc),
        }
    }

    /// Adds a number above those that are there. `Err` where memory is refused, which leaves the graph as it was.
    pub fn push_number(&mut self, number: u32) -> Result<(), AllocError>
        requires { All (λ n. n < number) self.old.numbers }
        ensures added { OnOk result (self.new ≡ record self.old { numbers = self.old.numbers ++ number ∷ [] }) }
        ensures refused { OnErr result (self.new ≡ self.old) }
    {
        self.numbers.push(number)?;
        Ok(())
    }

    /// Adds an edge after those that are there. `Err` where memory is refused, which leaves the graph as it was.
    pub fn push_edge(&mut self, from: u32, to: u32) -> Result<(), AllocError>
        requires joins { Joins self.old.numbers (edge from to) }
        requires behind { All (λ e. IsEdgeBefore e (edge from to)) self.old.edges }
        ensures added { OnOk result (self.new ≡ record self.old { edges = self.old.edges ++ edge from to ∷ [] }) }
        ensures refused { OnErr result (self.new ≡ self.old) }
    {
        self.edges.push(Edge { from, to })?;
        Ok(())
    }

    /// The numbers, rising.
    pub fn numbers(&self) -> &[u32]
        ensures numbers { result.now ≡ self.now.numbers }
        ensures network { IsNetwork self.now }
    {
        &self.numbers
    }

    /// The edges, rising.
    pub fn edges(&self) -> &[Edge]
        ensures { result.now ≡ self.now.edges }
    {
        &self.edges
    }
}
