//! Transactions of sessions over a store that stays as it is.
ghost use Rattle.std.specs.Prelude.{◌≡◌, ◌≢◌, ◌≤◌, true, IfOk};
ghost use Rattle.own_model.specs.declared.limit.TheConstants.{SESSIONS};
ghost use Rattle.own_model.specs.declared.refusal.Refusal.TheVariants.{Memory};
ghost use Rattle.own_model.specs.Db.{Db};
ghost use Rattle.run_model.specs.Run.{run_bound};
ghost use Rattle.state_model.specs.Sound.{IsWellFormed, Sound};
ghost use Rattle.txn_core.specs.SessionStates.{is_open, state_by};
ghost use Rattle.txn_core.specs.Runs.{IsRowStatement};
ghost use Rattle.view_select.specs.ShowsViews.{ShowsViews};
ghost use Rattle.state_tests.specs.Asked.{IsMeant};
ghost use Rattle.state_tests.specs.Ready.{AreReady};

use crate::changes::check_names;
use crate::kept::{bound, row_bound};
use crate::store::store_of;
use crate::texts::{check_lines, read};
use link_model::Linked;
use own_base::{Key, Place, RowName, SessionNo, TableNo};
use own_model::{Bound, Refusal, Reply};
use std::alloc::{AllocError, Global};
use std::mem::drop;
use std::process::Abort;
use store_version::{Shown, Version};
use txn_core::Txns;
use view_deltas::Views;

const STORE: &str = "\
CREATE TABLE acc (id INT PRIMARY KEY, n INT)
INSERT INTO acc VALUES (1, 10), (2, 20)";

/// What a refusal is told as, unless it is for want of memory.
fn refused(rt: &impl Abort, why: Refusal) -> Reply
    ensures { why ≢ Memory }
{
    match why {
        Refusal::Memory => panic!(rt; "out of memory"),
        why => Reply::Refused(why),
    }
}

/// The reply to a bound statement in the open transaction of a session.
pub fn reply_to_statement<V: Linked>(
    rt: &(impl Abort + AllocGlobal),
    version: &V,
    views: &Views,
    txns: &mut Txns,
    session: SessionNo,
    bound: &Bound,
) -> Reply
    requires sound { Sound (V.db version.now) }
    requires views { ShowsViews (V.db version.now) views.now }
    requires session { session.0 ≤ SESSIONS }
    requires ready { AreReady (V.db version.now) txns.old }
    requires open { is_open (state_by txns.old.states session.0) ≡ true }
    requires bound { IsRowStatement (V.db version.now).schema bound.now }
    requires well_formed { (db : Db) → IsWellFormed db → db.schema ≡ (V.db version.now).schema → IsWellFormed (run_bound db bound.now).db }
    ensures { AreReady (V.db version.now) txns.new }
{
    match txns.statement(rt.alloc(), version, views, session, bound) {
        Ok(reply) => reply,
        Err(why) => refused(rt, why),
    }
}

/// A statement in the open transaction of a session.
fn check_statement(
    rt: &(impl Abort + AllocGlobal),
    version: &Version,
    txns: &mut Txns,
    session: SessionNo,
    text: &str,
    wanted: &str,
)
    requires sound { Sound version.now }
    requires session { session.0 ≤ SESSIONS }
    requires ready { AreReady version.now txns.old }
    ensures { AreReady version.now txns.new }
{
    let statement = read(rt, text);
    let bound = row_bound(rt, version, &statement);
    drop(statement);
    assert!(rt; txns.is_open(session));
    let shown = Shown { version };
    let reply = reply_to_statement(rt, &shown, version.views(), txns, session, &bound);
    drop(bound);
    check_lines(rt, reply, wanted)
}

/// The reply to a bound write of a session that is outside a transaction.
fn reply_to_single(
    rt: &(impl Abort + AllocGlobal),
    version: &Version,
    txns: &Txns,
    session: SessionNo,
    bound: &Bound,
) -> Reply
    requires sound { Sound version.now }
    requires meant { IsMeant version.now.schema bound.now }
{
    let shown = Shown { version };
    match bound {
        Bound::Insert { .. } | Bound::Update { .. } | Bound::Delete { .. } => {
            match txns.single(rt.alloc(), &shown, session, bound) {
                Ok((reply, _)) => reply,
                Err(why) => Reply::Refused(why),
            }
        }
        _ => panic!(rt; "no write"),
    }
}

/// A write of a session that is outside a transaction.
fn check_single(
    rt: &(impl Abort + AllocGlobal),
    version: &Version,
    txns: &Txns,
    text: &str,
    wanted: &str,
)
    requires { Sound version.now }
{
    let statement = read(rt, text);
    let bound = bound(rt, version, &statement);
    drop(statement);
    let reply = reply_to_single(rt, version, txns, SessionNo(3), &bound);
    drop(bound);
    check_lines(rt, reply, wanted)
}

/// Session 1 changes row 1, and session 2 meets that and reads row 2.
fn check_statements(rt: &(impl Abort + AllocGlobal), version: &Version, txns: &mut Txns)
    requires sound { Sound version.now }
    requires ready { AreReady version.now txns.old }
    ensures { AreReady version.now txns.new }
{
    let (first, second) = (SessionNo(1), SessionNo(2));
    let update = "UPDATE acc SET n = n + 1 WHERE id = 1";
    check_statement(rt, version, txns, first, update, "ok 1");
    let changed = "SELECT n FROM acc WHERE id = 1";
    check_statement(
        rt,
        version,
        txns,
        second,
        changed,
        "refused conflict 1 acc 1",
    );
    check_statement(rt, version, txns, first, changed, "rows 1 / 11");
    let other = "SELECT n FROM acc WHERE id = 2";
    check_statement(rt, version, txns, second, other, "rows 1 / 20");
    let put = "INSERT INTO acc VALUES (2, 0)";
    check_statement(rt, version, txns, second, put, "refused duplicate acc 2");
    check_statement(
        rt,
        version,
        txns,
        first,
        "DELETE FROM acc",
        "refused conflict 2 acc *",
    )
}

/// The row of a key.
fn row(key: i64) -> RowName {
    RowName {
        table: TableNo(0),
        key: Key::Int(key),
    }
}

/// Session 2 is doomed by an erasure of row 2 at place 7, and told so once; session 1 ends.
fn check_ends(rt: &impl Abort, txns: &mut Txns) {
    assert!(rt; txns.lowest_other(SessionNo(1)) == Some(SessionNo(2)));
    assert!(rt; txns.lowest_other(SessionNo(3)) == Some(SessionNo(1)));
    txns.doom(&[row(3), row(2)], Place(7));
    assert!(rt; txns.is_open(SessionNo(1)) && !txns.is_open(SessionNo(2)));
    assert!(rt; txns.tell_doom(SessionNo(1)).is_none());
    assert!(rt; txns.tell_doom(SessionNo(2)) == Some(Place(7)));
    assert!(rt; txns.tell_doom(SessionNo(2)).is_none());
    txns.finish(SessionNo(1));
    assert!(rt; txns.lowest_other(SessionNo(3)).is_none());
}

/// The transactions of sessions 1 and 2, both begun.
pub fn begun(alloc: Global, version: &Version) -> Result<Txns, AllocError>
    requires { IsWellFormed version.now }
    ensures { IfOk result (AreReady version.now) }
{
    let _ = version;
    let mut txns = Txns::new(alloc)?;
    txns.begin(alloc, SessionNo(1));
    txns.begin(alloc, SessionNo(2));
    Ok(txns)
}

/// Looks at what session 1 has changed.
fn check_changes(rt: &(impl Abort + AllocGlobal), version: &Version, txns: &Txns)
    requires sound { Sound version.now }
    requires ready { AreReady version.now txns.now }
{
    assert!(rt; txns.is_open(SessionNo(1)));
    let shown = Shown { version };
    let changes = txns
        .changes(rt.alloc(), &shown, SessionNo(1))
        .expect(rt, "memory");
    check_names(rt, &changes, &[(0, 1)]);
}

#[test]
fn sessions_run_statements(rt: HostRuntime) {
    let store = store_of(&rt, STORE);
    let version = store.version();
    let mut txns = begun(rt.alloc(), version).expect(&rt, "memory");
    check_statements(&rt, version, &mut txns);
    check_single(
        &rt,
        version,
        &txns,
        "DELETE FROM acc",
        "refused conflict 1 acc *",
    );
    check_single(&rt, version, &txns, "INSERT INTO acc VALUES (3, 0)", "ok 1");
    check_changes(&rt, version, &txns);
    check_ends(&rt, &mut txns);
    check_single(&rt, version, &txns, "DELETE FROM acc", "ok 2")
}
