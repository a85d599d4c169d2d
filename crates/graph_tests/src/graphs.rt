ghost use Rattle.std.specs.Prelude.{◌≡◌, MatchBool, ⊤};
ghost use Rattle.owner_model.specs.AreWithin.{AreWithin};

use own_base::{ColNo, ColumnSet, EdgeNo, TableNo};
use own_model::Edge;
use owner_graph::{Graph, GraphFault};
use std::alloc::{AllocError, Global};
use std::process::Abort;
use std::test::Fail;

/// An edge from one table up to another. Those of even numbers give ownership, and the others access.
fn edge(number: u32, lower: u32, upper: u32) -> Edge {
    Edge {
        number: EdgeNo(number),
        lower: TableNo(lower),
        upper: TableNo(upper),
        holder: TableNo(lower),
        column: ColNo(0),
        owner: number % 2 == 0,
        get: ColumnSet(0),
        del: ColumnSet(0),
        strike: false,
    }
}

/// The edges of these pairs of a lower and an upper table, by number.
fn edges_of(alloc: Global, pairs: &[(u32, u32)]) -> Result<Vec<Edge>, AllocError> {
    let mut edges = Vec::new(alloc);
    for (number, (lower, upper)) in (0..u32::MAX).zip(pairs) {
        edges.push(edge(number, *lower, *upper))?;
    }
    Ok(edges)
}

/// Whether each edge is between two of so many tables.
fn are_within(tables: u32, edges: &[Edge]) -> bool
    ensures { MatchBool result (AreWithin tables edges.now) ⊤ }
{
    edges
        .iter()
        .all(|edge| edge.lower.0 < tables && edge.upper.0 < tables)
}

/// The place of a table in an order, or the order's length.
fn place_of(order: &[TableNo], table: TableNo) -> usize {
    order
        .iter()
        .position(|placed| *placed == table)
        .unwrap_or(order.len())
}

/// Whether the graph has each of these tables once in its order, each behind the tables above it, and the edges of each.
fn is_graph_of(graph: &Graph, tables: u32, edges: &[Edge]) -> bool {
    let order = graph.order();
    order.len() == tables as usize
        && (0..tables).all(|table| place_of(order, TableNo(table)) < order.len())
        && edges.iter().all(|edge| place_of(order, edge.upper) < place_of(order, edge.lower))
}

/// Edges over so many tables, and of a cycle the two tables that are told.
type Case = (u32, &'static [(u32, u32)], Option<(u32, u32)>);

const CASES: [Case; 15] = [
    // no tables, and tables without edges
    (0, &[], None),
    (3, &[], None),
    // one above the other, whichever has the lower number
    (2, &[(0, 1)], None),
    (4, &[(2, 3), (0, 2), (1, 0)], None),
    // a diamond
    (4, &[(1, 0), (2, 0), (3, 1), (3, 2)], None),
    // two edges between the same tables
    (2, &[(1, 0), (1, 0)], None),
    // a table that is above itself
    (3, &[(2, 0), (1, 1), (2, 1)], Some((1, 1))),
    // cycles over two, three and five tables
    (2, &[(0, 1), (1, 0)], Some((1, 0))),
    (3, &[(0, 1), (1, 2), (2, 0)], Some((2, 0))),
    (5, &[(4, 2), (2, 0), (0, 3), (3, 1), (1, 4)], Some((4, 2))),
    // one that goes along an access edge alone
    (3, &[(0, 1), (2, 2)], Some((2, 2))),
    // of two, the one with the higher table
    (4, &[(0, 1), (1, 0), (2, 3), (3, 2)], Some((3, 2))),
    // a bridge from one to another lies on none
    (
        5,
        &[(3, 2), (2, 3), (2, 4), (4, 0), (0, 1), (1, 0)],
        Some((3, 2)),
    ),
    // of two ways back the one by the lower table, and not by one from which there is none
    (4, &[(3, 0), (3, 2), (3, 1), (1, 3), (2, 3)], Some((3, 1))),
    (4, &[(3, 3), (3, 2), (2, 3)], Some((3, 2))),
];

/// What edges over so many tables come to: a graph where no cycle is reported, or else that walk.
fn expect_reported(
    rt: &impl Abort,
    alloc: Global,
    tables: u32,
    edges: &[Edge],
    told: Option<(u32, u32)>,
) -> Result<(), Fail> {
    assert!(rt; are_within(tables, edges));
    match Graph::with_edges(alloc, tables, edges) {
        Ok(graph) => {
            assert_eq!(rt; told, None, "{edges:?}");
            assert!(rt; is_graph_of(&graph, tables, edges), "{edges:?}");
        }
        Err(GraphFault::Cycle { table, through }) => {
            assert_eq!(rt; Some((table.0, through.0)), told, "{edges:?}")
        }
        Err(GraphFault::Memory) => return Err(Fail::from("out of memory")),
    }
    Ok(())
}

#[test]
fn edges_have_a_graph_or_a_cycle(rt: HostRuntime) -> Result<(), Fail> {
    for (tables, pairs, told) in CASES {
        let edges = edges_of(rt.alloc(), pairs).expect(&rt, "memory");
        expect_reported(&rt, rt.alloc(), tables, &edges, told)?;
    }
    Ok(())
}

/// The edges of a number's bits: bit 3 * i + j is an edge from table i up to table j, of three tables.
fn edges_in(alloc: Global, bits: u32) -> Result<Vec<Edge>, AllocError> {
    let mut edges = Vec::new(alloc);
    for bit in 0..9 {
        if bits >> bit & 1 == 1 {
            edges.push(edge(bit, bit / 3, bit % 3))?;
        }
    }
    Ok(edges)
}

/// Whether a walk leads from one table to another: each edge is tried as often as there are edges.
fn leads(edges: &[Edge], from: u32, to: u32) -> bool {
    let mut reached = 0;
    for _ in edges {
        for edge in edges {
            if edge.lower.0 == from || reached & 1u32.wrapping_shl(edge.lower.0) != 0 {
                reached |= 1u32.wrapping_shl(edge.upper.0);
            }
        }
    }
    reached & 1u32.wrapping_shl(to) != 0
}

/// The cycle that is reported, by the words that say which it is.
fn reported_slowly(tables: u32, edges: &[Edge]) -> Option<(u32, u32)> {
    let table = (0..tables)
        .rev()
        .find(|table| leads(edges, *table, *table))?;
    let comes_back = |through: u32| through == table || leads(edges, through, table);
    edges
        .iter()
        .filter(|edge| edge.lower.0 == table && comes_back(edge.upper.0))
        .map(|edge| edge.upper.0)
        .min()
        .map(|through| (table, through))
}

#[test]
fn all_edges_over_three_tables(rt: HostRuntime) -> Result<(), Fail> {
    for bits in 0..512 {
        let edges = edges_in(rt.alloc(), bits).expect(&rt, "memory");
        expect_reported(&rt, rt.alloc(), 3, &edges, reported_slowly(3, &edges))?;
    }
    Ok(())
}

#[test]
fn edges_come_by_their_lower_table(rt: HostRuntime) {
    let edges = edges_of(rt.alloc(), &[(3, 1), (2, 0), (3, 0), (3, 1)]).expect(&rt, "memory");
    assert!(rt; are_within(4, &edges));
    let graph = Graph::with_edges(rt.alloc(), 4, &edges).expect(&rt, "memory");
    assert_eq!(rt; graph.order().len(), 4);
    for (table, numbers) in [
        (0, [].as_slice()),
        (1, [].as_slice()),
        (2, [1].as_slice()),
        (3, [0, 2, 3].as_slice()),
        (4, [].as_slice()),
    ] {
        let held = graph.edges_of(TableNo(table));
        assert!(rt;
            held.iter()
                .map(|edge| edge.number.0)
                .eq(numbers.iter().copied()),
            "{held:?}"
        );
    }
}

#[test]
fn faults_are_shown(rt: HostRuntime) {
    let cycle = GraphFault::Cycle {
        table: TableNo(7),
        through: TableNo(2),
    };
    let shown = format!(in rt.alloc(); "{cycle}").expect(&rt, "memory");
    assert_eq!(rt; shown.as_str(), "table 7 is reached again from table 2");
    let shown = format!(in rt.alloc(); "{}", GraphFault::Memory).expect(&rt, "memory");
    assert_eq!(rt; shown.as_str(), "out of memory");
}
