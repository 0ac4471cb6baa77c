//! The requirements that no package meets, one after the other, and the graph by the name of its type.

use crate::db_tests::open;
use crate::fixtures::{Draft, TEXT, TEXTS, header};
use crate::plain_disk::PlainDisk;
use rpm_check::{Graph, ReadGraph, next_unmet, read_graph, unmet};
use std::alloc::{AllocError, Global};

// The number and the name of a package, what it provides, and what it requires, each with how many there are.
const PACKAGES: &[(u32, &[u8], u32, &[u8], u32, &[u8])] = &[
    (1, b"a\0", 1, b"a\0", 4, b"a\0none\0b\0none-else\0"),
    (3, b"b\0", 2, b"b\0c\0", 1, b"c\0"),
    (
        4,
        b"c\0",
        1,
        b"d\0",
        5,
        b"none\0rpmlib(x)\0(a or b)\0b\0last\0",
    ),
];

// A database of these packages.
fn needy(alloc: Global) -> Result<PlainDisk, AllocError> {
    let mut draft = Draft::new(alloc, 1, 1);
    for &(number, name, provided, given, required, needed) in PACKAGES {
        let blob = header(
            alloc,
            &[
                (1000, TEXT, 1, name),
                (1047, TEXTS, provided, given),
                (1049, TEXTS, required, needed),
            ],
        )?;
        draft.push(number, &blob, 0)?;
    }
    Ok(PlainDisk::new(alloc, draft.finish(alloc, 5)?))
}

type Pair = (u32, u32);

// The pairs of a number and a place of which nothing is met, in their order.
const UNMET: &[Pair] = &[(1, 1), (1, 3), (4, 0), (4, 4)];

// A pair, and the one that comes next.
const NEXT: &[(Pair, Option<Pair>)] = &[
    ((0, 0), Some((1, 1))),
    ((0, u32::MAX), Some((1, 1))),
    ((1, 0), Some((1, 1))),
    ((1, 1), Some((1, 3))),
    ((1, 2), Some((1, 3))),
    ((1, 3), Some((4, 0))),
    ((2, 7), Some((4, 0))),
    ((3, u32::MAX), Some((4, 0))),
    ((4, 0), Some((4, 4))),
    ((4, 4), None),
    ((5, 0), None),
    ((u32::MAX, u32::MAX), None),
];

// The pair that comes after one, if there is one; nothing where that can't be said.
fn next(alloc: Global, disk: &mut PlainDisk, is_indexed: bool, pair: Pair) -> Option<Option<Pair>> {
    let db = open(alloc, disk, is_indexed)?;
    match next_unmet(alloc, &db, disk, pair.0, pair.1) {
        Ok(Some(next)) => Some(Some((next.number, next.place))),
        Ok(None) => Some(None),
        Err(_) => None,
    }
}

// The first row of what comes next that is answered otherwise.
fn other_next(alloc: Global, disk: &mut PlainDisk, is_indexed: bool) -> Option<usize> {
    for (row, &(pair, wanted)) in NEXT.iter().enumerate() {
        if next(alloc, disk, is_indexed, pair) != Some(wanted) {
            return Some(row);
        }
    }
    None
}

// Whether the list of all of them is the one above, and each follows from the one before it.
fn is_all(alloc: Global, disk: &mut PlainDisk, is_indexed: bool) -> Option<bool> {
    let db = open(alloc, disk, is_indexed)?;
    let list = unmet(alloc, &db, disk).ok()?;
    let mut pair = (0, 0);
    for (k, listed) in list.as_slice().iter().enumerate() {
        pair = next(alloc, disk, is_indexed, pair)??;
        if pair != (listed.number, listed.place) || UNMET.get(k) != Some(&pair) {
            return Some(false);
        }
    }
    Some(list.as_slice().len() == UNMET.len())
}

// Whether the graph has these numbers and edges, and is the same by the name of its type.
fn is_graph(alloc: Global, disk: &mut PlainDisk, is_indexed: bool) -> Option<bool> {
    let db = open(alloc, disk, is_indexed)?;
    let graph = read_graph(alloc, &db, disk).ok()?;
    let db = open(alloc, disk, is_indexed)?;
    let named = Graph::read(alloc, &db, disk).ok()?;
    Some(has_edges(&graph) && has_edges(&named))
}

// Package 1 requires what package 3 provides, and so does package 4; what a package provides itself makes no edge.
fn has_edges(graph: &Graph) -> bool {
    if graph.numbers() != [1, 3, 4].as_slice() || graph.edges().len() != 2 {
        return false;
    }
    let (first, second) = (&graph.edges()[0], &graph.edges()[1]);
    first.from == 1 && first.to == 3 && second.from == 4 && second.to == 3
}

#[test]
fn the_next_requirement_that_no_package_meets(rt: HostRuntime) -> Result<(), AllocError> {
    let mut disk = needy(rt.alloc())?;
    for is_indexed in [false, true] {
        let other = other_next(rt.alloc(), &mut disk, is_indexed);
        let all = is_all(rt.alloc(), &mut disk, is_indexed);
        assert_eq!(rt; (other, all), (None, Some(true)));
    }
    Ok(())
}

#[test]
fn a_graph_by_the_name_of_its_type(rt: HostRuntime) -> Result<(), AllocError> {
    let mut disk = needy(rt.alloc())?;
    let scanned = is_graph(rt.alloc(), &mut disk, false);
    let indexed = is_graph(rt.alloc(), &mut disk, true);
    assert_eq!(rt; (scanned, indexed), (Some(true), Some(true)));
    Ok(())
}
