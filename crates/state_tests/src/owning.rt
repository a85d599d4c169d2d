//! Who owns the rows of a store, who reaches them, and by which edges.
ghost use Rattle.state_model.specs.Sound.{Sound};

use crate::showing::HOUSE;
use crate::store::store_of;
use own_base::{Key, RowName, Subject, TableNo};
use owner_graph::graph_of;
use owner_sets::{ByEdges, OwnerSets};
use std::process::Abort;
use store_version::{Shown, Version};

/// A row of the house by its table and place, the keys of its owners and of those who reach it, and the edges by which user 5
/// does: 0 is that of a room's owner, 1 that of a key's and 2 that of its room.
struct Case {
    table: u32,
    at: u64,
    owners: &'static [i64],
    reach: &'static [i64],
    edges: &'static [u32],
}

const CASES: [Case; 9] = [
    Case {
        table: 0,
        at: 0,
        owners: &[5],
        reach: &[5],
        edges: &[],
    },
    Case {
        table: 0,
        at: 1,
        owners: &[7],
        reach: &[7],
        edges: &[],
    },
    Case {
        table: 0,
        at: 2,
        owners: &[],
        reach: &[],
        edges: &[],
    },
    Case {
        table: 1,
        at: 0,
        owners: &[5],
        reach: &[5],
        edges: &[0, 2],
    },
    Case {
        table: 1,
        at: 1,
        owners: &[7],
        reach: &[5, 7],
        edges: &[2],
    },
    Case {
        table: 1,
        at: 2,
        owners: &[7],
        reach: &[7],
        edges: &[],
    },
    Case {
        table: 2,
        at: 0,
        owners: &[5],
        reach: &[5],
        edges: &[1],
    },
    Case {
        table: 2,
        at: 1,
        owners: &[5],
        reach: &[5],
        edges: &[1],
    },
    Case {
        table: 2,
        at: 2,
        owners: &[7],
        reach: &[7],
        edges: &[],
    },
];

/// A user, by the key.
fn user(key: i64) -> Subject {
    Subject(RowName {
        table: TableNo(0),
        key: Key::Int(key),
    })
}

/// Whether these are the users of the keys.
fn are_users(subjects: &[Subject], keys: &[i64]) -> bool {
    subjects.len() == keys.len()
        && subjects
            .iter()
            .zip(keys)
            .all(|(subject, key)| *subject == user(*key))
}

/// Looks for a row's owners, and for who reaches it.
fn check_sets(rt: &impl Abort, sets: &OwnerSets, case: &Case) {
    let table = TableNo(case.table);
    assert!(rt; are_users(sets.owners(table, case.at), case.owners));
    assert!(rt; are_users(sets.reach(table, case.at), case.reach));
    for key in 4..9 {
        let reaches = sets.reaches(&user(key), table, case.at);
        assert_eq!(rt; reaches, case.reach.contains(&key));
    }
}

/// Looks for the edges by which user 5 reaches a row.
fn check_edges(rt: &impl Abort, edges: &ByEdges, case: &Case) {
    let found = edges.at(TableNo(case.table), case.at);
    assert_eq!(rt; found.len(), case.edges.len());
    for (edge, number) in found.iter().zip(case.edges) {
        assert_eq!(rt; edge.0, *number);
    }
}

/// Looks at each row.
fn check_rows(rt: &(impl Abort + AllocGlobal), version: &Version)
    requires { Sound version.now }
{
    let graph = graph_of(rt.alloc(), version.schema()).expect(rt, "memory");
    let shown = Shown { version };
    let sets = OwnerSets::of(rt.alloc(), &shown, &graph).expect(rt, "memory");
    let edges = ByEdges::of(rt.alloc(), &shown, &sets, &user(5)).expect(rt, "memory");
    for case in &CASES {
        check_sets(rt, &sets, case);
        check_edges(rt, &edges, case);
    }
}

#[test]
fn rows_have_owners(rt: HostRuntime) {
    let store = store_of(&rt, HOUSE);
    check_rows(&rt, store.version())
}
