use anon_rules::{blanked, hidden, strikes};
use own_base::{ColNo, ColumnSet, EdgeNo, TableNo};
use own_model::Edge;
use std::alloc::{AllocError, Global};

/// An edge by its number, the sets of columns that it hides and makes NULL, and whether it gives ownership and removes rows.
type Ruled = (u32, u32, u32, bool, bool);

/// Edges out of one table; two of them have one number.
const EDGES: [Ruled; 5] = [
    (0, 0b1011, 0b10, true, false),
    (1, 0b1_1010, 0b11_0000, true, true),
    (2, 0, 1 << 31, false, true),
    (3, 0b1, 0b100, false, false),
    (3, 0b10_0000, 0b100_0100, false, false),
];

/// Numbers of edges, and the columns that they hide together and make NULL.
type Case = (&'static [u32], u32, u32);

const CASES: [Case; 8] = [
    // what every edge hides is hidden; what one of them rules is made NULL
    (&[0, 1], 0b1010, 0b11_0010),
    (&[1, 0, 1], 0b1010, 0b11_0010),
    (&[0], 0b1011, 0b10),
    // without an edge nothing is
    (&[], 0, 0),
    // an edge that hides nothing, and the last column
    (&[0, 1, 2], 0, 0b11_0010 | 1 << 31),
    // a number that no edge has, and one that two have
    (&[0, 7], 0, 0b10),
    (&[3], 0b10_0001, 0b100_0100),
    (&[0, 3], 0b1, 0b100_0110),
];

fn edge(ruled: Ruled) -> Edge {
    let (number, get, del, owner, strike) = ruled;
    Edge {
        number: EdgeNo(number),
        lower: TableNo(1),
        upper: TableNo(0),
        holder: TableNo(1),
        column: ColNo(1),
        owner,
        get: ColumnSet(get),
        del: ColumnSet(del),
        strike,
    }
}

fn edges(alloc: Global) -> Result<Vec<Edge>, AllocError> {
    let mut edges = Vec::new(alloc);
    for ruled in EDGES {
        edges.push(edge(ruled))?;
    }
    Ok(edges)
}

fn numbers(alloc: Global, by: &[u32]) -> Result<Vec<EdgeNo>, AllocError> {
    let mut numbers = Vec::new(alloc);
    for number in by {
        numbers.push(EdgeNo(*number))?;
    }
    Ok(numbers)
}

/// What every edge hides, what one of them makes NULL, and which of them remove rows.
#[test]
fn edges_rule_columns(rt: HostRuntime) {
    let alloc = rt.alloc();
    let edges = edges(alloc).expect(&rt, "memory");
    for (by, hides, blanks) in CASES {
        let by = numbers(alloc, by).expect(&rt, "memory");
        assert_eq!(rt; hidden(&edges, &by), ColumnSet(hides));
        assert_eq!(rt; blanked(&edges, &by), ColumnSet(blanks));
    }
    for (edge, ruled) in edges.iter().zip(EDGES) {
        assert_eq!(rt; strikes(edge), ruled.4);
    }
}
