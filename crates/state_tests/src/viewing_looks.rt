//! How often versions are looked at for the rows of views behind changes. That they are looked at no more than has to be, no
//! clause says.
ghost use Rattle.std.specs.Prelude.{◌≡◌};
ghost use Rattle.own_model.specs.Db.{IsOrdered};
ghost use Rattle.state_model.specs.Sound.{IsWellFormed, Sound};
ghost use Rattle.run_model.specs.Run.{run_bound};
ghost use Rattle.write_eval.specs.Write.{IsWrite};
ghost use Rattle.state_tests.specs.Asked.{IsMeant};

use crate::kept::{bound, written};
use crate::looks::Counted;
use crate::moving_looks::{insert_owned, insert_users};
use crate::store::{Store, store_of};
use crate::texts::read;
use own_base::{Change, Value, ViewNo};
use own_model::{Bound, Source1};
use std::cell::Cell;
use std::mem::drop;
use std::process::Abort;
use store_version::{Shown, Version, prepare};
use view_deltas::Views;
use view_select::view_reply;

/// A subject table, a private one below it, and two views of the private one: grouped by the owner, and joined with it.
const TABLES: &str = "\
CREATE DATA_SUBJECT TABLE users (id INT PRIMARY KEY)
CREATE TABLE f (id INT PRIMARY KEY, u INT OWNED_BY users(id))
CREATE VIEW shares AS SELECT u, COUNT(*) FROM f GROUP BY u
CREATE VIEW owned AS SELECT f.id, users.id AS owner FROM f JOIN users ON f.u = users.id";

/// How often the versions are looked at, at most, for one row of 200 that another user comes to own: sixty looks are few.
const FEW: u64 = 60;

/// The views.
const VIEWS: u32 = 2;

/// The rows of the views behind changes that lead from a version to another, and how often both are looked at for them.
fn looked(
    rt: &(impl Abort + AllocGlobal),
    version: &Version,
    next: &Version,
    changes: &[Change],
) -> (Views, u64)
    requires sound { Sound version.now }
    requires ordered { IsOrdered next.now }
    requires same { next.now.schema ≡ version.now.schema }
{
    let before = Counted {
        shown: Shown { version },
        looks: Cell::new(0),
    };
    let after = Counted {
        shown: Shown { version: next },
        looks: Cell::new(0),
    };
    let views = version
        .views()
        .with_changes(rt.alloc(), &before, &after, changes)
        .expect(rt, "memory");
    (views, before.looks.get().saturating_add(after.looks.get()))
}

/// The values of the row at a place of a view, none where there is no row.
fn values_at(views: &Views, view: ViewNo, at: u64) -> &[Value] {
    match views.view_from(view, at).first() {
        Some(row) => row.values(),
        None => &[],
    }
}

/// Whether the views show the same rows, and more than none.
fn show_alike(one: &Views, other: &Views, view: ViewNo) -> bool {
    let count = one.view_count(view);
    count > 0
        && count == other.view_count(view)
        && (0..count).all(|at| values_at(one, view, at) == values_at(other, view, at))
}

/// One write.
fn check_write(rt: &(impl Abort + AllocGlobal), version: &Version, bound: &Bound)
    requires sound { Sound version.now }
    requires write { IsWrite version.now.schema bound.now }
    requires well_formed { IsWellFormed (run_bound version.now bound.now).db }
{
    let changes = written(rt, version, bound);
    let (next, moves) = prepare(rt.alloc(), version, changes.items()).expect(rt, "memory");
    drop(moves);
    let (views, looks) = looked(rt, version, next.version(), changes.items());
    drop(changes);
    assert!(rt; looks <= FEW, "{looks}");
    for number in 0..VIEWS {
        assert!(rt; show_alike(&views, next.version().views(), ViewNo(number)));
    }
    drop(views);
    drop(next);
}

/// A statement, which has to be a write.
fn check_bound(rt: &(impl Abort + AllocGlobal), version: &Version, bound: &Bound)
    requires sound { Sound version.now }
    requires meant { IsMeant version.now.schema bound.now }
    requires well_formed { IsWellFormed (run_bound version.now bound.now).db }
{
    match bound {
        Bound::Insert { .. } | Bound::Update { .. } | Bound::Delete { .. } => {
            check_write(rt, version, bound)
        }
        _ => panic!(rt; "no write"),
    }
}

/// A write of one row, over the views of the state before it.
fn check_looks(rt: &(impl Abort + AllocGlobal), store: &Store) {
    let version = store.version();
    let statement = read(rt, "UPDATE f SET u = 7 WHERE id = 100");
    let bound = bound(rt, version, &statement);
    drop(statement);
    check_bound(rt, version, &bound);
    drop(bound);
}

/// How often rows of tables are looked at for a SELECT from a view.
fn looked_selecting(rt: &(impl Abort + AllocGlobal), version: &Version, bound: &Bound) -> u64
    requires well_formed { IsWellFormed version.now }
    requires meant { IsMeant version.now.schema bound.now }
{
    let Bound::Select(query) = bound else {
        panic!(rt; "no SELECT");
    };
    let Source1::View(number) = &query.source else {
        panic!(rt; "no SELECT from a view");
    };
    let counted = Counted {
        shown: Shown { version },
        looks: Cell::new(0),
    };
    let views = version.views();
    let reply = view_reply(rt.alloc(), &counted, views, *number, query).expect(rt, "memory");
    drop(reply);
    counted.looks.get()
}

/// A SELECT from a view, whose rows are read where they are kept.
fn check_select(rt: &(impl Abort + AllocGlobal), store: &Store, text: &str) {
    let version = store.version();
    let statement = read(rt, text);
    let bound = bound(rt, version, &statement);
    drop(statement);
    assert_eq!(rt; looked_selecting(rt, version, &bound), 0, "{text}");
    drop(bound);
}

#[test]
fn selects_from_views_look_at_no_row_of_a_table(rt: HostRuntime) {
    let mut store = store_of(&rt, TABLES);
    store.run(&rt, insert_users(&rt).as_str());
    store.run(&rt, insert_owned(&rt).as_str());
    check_select(&rt, &store, "SELECT * FROM shares WHERE count > 1");
    check_select(
        &rt,
        &store,
        "SELECT id FROM owned WHERE owner = 7 ORDER BY id DESC",
    );
    drop(store);
}

#[test]
fn few_looks_for_views(rt: HostRuntime) {
    let mut store = store_of(&rt, TABLES);
    store.run(&rt, insert_users(&rt).as_str());
    store.run(&rt, insert_owned(&rt).as_str());
    check_looks(&rt, &store);
    drop(store);
}
