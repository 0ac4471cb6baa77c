//! The graph of the packages.

ghost use Rattle.std.specs.Prelude.{◌≡◌, IsTrue, IfOk};
ghost use Rattle.rpm_check.specs.Prelude.{CheckQuestion, graph_of, HasEdgesOf, HasKeptRows, IsAskable, packages_in};

use crate::edges::graph_of;
use crate::faults::CheckFault;
use crate::nodes::read_nodes;
use rpm_db::Db;
use rpm_graph::Graph;
use rpm_outside::Disk;
use std::alloc::Global;

/// Which packages require which: the numbers of the packages that can be read, and an edge from one to another where
/// a requirement of the one is met by the other alone.
///
/// A requirement that its own package meets gives no edge to that package; one that several packages meet gives an
/// edge to each of them. Names of features of rpm itself and rich dependencies are looked up like others.
///
/// Reads the blocks of each package once, and looks each distinct requirement up once, as `givers` does: what was
/// found of a name with these flags and this version is remembered. So with an index it takes n log n steps in the
/// requirements and the edges, and reads beside them the candidates of each distinct one, but not again the one that
/// was read last, and none of a name whose candidates are kept, as `unmet` does. Holds what `unmet` does
/// but its list, 4 bytes for each package that meets a requirement, 4 bytes for each package and each other that it
/// requires, and the graph.
///
/// # Errors
///
/// - `BadIndex` only where an index is kept, and the chain of the bucket of a key isn't well formed: the unit of its
///   first fault. It never comes where the index holds the rows of the packages.
/// - `DiskFault` only where the disk's count of faults rose.
/// - `NoMemory` where a package, a requirement, what is found of it or the graph finds no memory.
pub fn read_graph<D: Disk>(alloc: Global, db: &Db, disk: &mut D) -> Result<Graph, CheckFault>
    requires asked { IsAskable D.Disk disk.old db.now }
    ensures told { IfOk result (λ g. IsTrue D.tells → HasKeptRows D.Disk disk.old db.now → g ≡ graph_of (packages_in D.Disk disk.old db.now)) }
    ensures edges { IfOk result (λ g. IsTrue D.tells → HasKeptRows D.Disk disk.old db.now → HasEdgesOf (packages_in D.Disk disk.old db.now) g) }
    ensures asks { CheckQuestion D.Disk disk.old disk.new db.now result }
{
    let nodes = read_nodes(alloc, db, disk)?;
    let graph = graph_of(alloc, &nodes)?;
    Ok(graph)
}

/// `Graph::read`, for other programs: the reports call `read_graph`.
pub trait ReadGraph {
    /// The graph that `read_graph` gives, with the same faults.
    fn read<D: Disk>(alloc: Global, db: &Db, disk: &mut D) -> Result<Graph, CheckFault>
        requires asked { IsAskable D.Disk disk.old db.now }
        ensures told { IfOk result (λ g. IsTrue D.tells → HasKeptRows D.Disk disk.old db.now → g ≡ graph_of (packages_in D.Disk disk.old db.now)) }
        ensures edges { IfOk result (λ g. IsTrue D.tells → HasKeptRows D.Disk disk.old db.now → HasEdgesOf (packages_in D.Disk disk.old db.now) g) }
        ensures asks { CheckQuestion D.Disk disk.old disk.new db.now result };
}

impl ReadGraph for Graph {
    fn read<D: Disk>(alloc: Global, db: &Db, disk: &mut D) -> Result<Graph, CheckFault> {
        read_graph(alloc, db, disk)
    }
}
