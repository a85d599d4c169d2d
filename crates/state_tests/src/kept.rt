//! What a statement leaves of a store, also where that has a fault.
ghost use Rattle.std.specs.Prelude.{◌≡◌, IsTrue, MatchBool, ⊤};
ghost use Rattle.own_model.specs.declared.limit.TheConstants.{STATEMENT_BYTES};
ghost use Rattle.own_model.specs.declared.schema.Schema.{Schema};
ghost use Rattle.own_model.specs.declared.statement.Statement.TheVariants as statement_of;
ghost use Rattle.grammar_model.specs.Readable.{IsWritten};
ghost use Rattle.own_model.specs.Db.{Db};
ghost use Rattle.schema_model.specs.Tables.{is_subject};
ghost use Rattle.state_model.specs.Net.{net};
ghost use Rattle.state_model.specs.Put.{put};
ghost use Rattle.state_model.specs.Sound.{IsWellFormed, Sound};
ghost use Rattle.run_model.specs.Run.{run_bound};
ghost use Rattle.write_eval.specs.Write.{IsWrite};
ghost use Rattle.txn_core.specs.Runs.{IsRowStatement};
ghost use Rattle.state_tests.specs.Asked.{IsBound, IsMeant};

use crate::texts::read;
use own_base::{Change, List, SessionNo, Subject};
use own_model::{Bound, CreateTable, CreateView, Statement};
use plan_bind::{bind, bind_view};
use sql_print::print_statement;
use std::mem::drop;
use std::process::Abort;
use store_version::{Next, Shown, Version, prepare, prepare_table, prepare_view};
use txn_core::Txns;

/// A CREATE TABLE, which the statement is.
fn with_table(
    rt: &(impl Abort + AllocGlobal),
    version: &Version,
    create: &CreateTable,
    statement: &Statement,
) -> Next
    requires well_formed { IsWellFormed version.now }
    requires of { statement.now ≡ statement_of.CreateTable create.now }
    requires written { IsWritten STATEMENT_BYTES statement.now }
    ensures { IsWellFormed result }
{
    let shown = Shown { version };
    let Ok(admitted) = version.catalog().admit(rt.alloc(), &shown, create) else {
        panic!(rt; "a CREATE TABLE that is refused");
    };
    let text = print_statement(rt.alloc(), statement).expect(rt, "a text");
    prepare_table(rt.alloc(), version, admitted, text).expect(rt, "memory")
}

/// A CREATE VIEW, which the statement is.
fn with_view(
    rt: &(impl Abort + AllocGlobal),
    version: &Version,
    create: &CreateView,
    statement: &Statement,
) -> Next
    requires well_formed { IsWellFormed version.now }
    requires of { statement.now ≡ statement_of.CreateView create.now }
    requires written { IsWritten STATEMENT_BYTES statement.now }
    ensures { IsWellFormed result }
{
    let Ok(definition) = bind_view(rt.alloc(), version.catalog().schema(), create) else {
        panic!(rt; "a CREATE VIEW that is refused");
    };
    let text = print_statement(rt.alloc(), statement).expect(rt, "a text");
    prepare_view(rt.alloc(), version, definition, text).expect(rt, "memory")
}

fn is_bound(statement: &Statement) -> bool
    ensures { MatchBool result (IsBound statement.now) ⊤ }
{
    matches!(
        statement,
        Statement::Select(_)
            | Statement::Insert { .. }
            | Statement::Update { .. }
            | Statement::Delete { .. }
            | Statement::GdprGet { .. }
            | Statement::GdprForget { .. }
    )
}

/// What a statement means: a SELECT, an INSERT, an UPDATE, a DELETE or a GDPR call.
pub fn bound(rt: &(impl Abort + AllocGlobal), version: &Version, statement: &Statement) -> Bound
    requires well_formed { IsWellFormed version.now }
    requires written { IsWritten STATEMENT_BYTES statement.now }
    ensures meant { IsMeant version.now.schema result }
    ensures well_formed { (db : Db) → IsWellFormed db → db.schema ≡ version.now.schema → IsWellFormed (run_bound db result).db }
{
    if !is_bound(statement) {
        panic!(rt; "a statement that isn't bound");
    }
    match bind(rt.alloc(), version.catalog().schema(), statement) {
        Ok(bound) => bound,
        Err(_) => panic!(rt; "a statement that is refused"),
    }
}

/// Whether a bound statement reads or writes rows.
fn takes_rows(bound: &Bound) -> bool
    ensures { MatchBool result ((schema : Schema) → IsMeant schema bound.now → IsRowStatement schema bound.now) ⊤ }
{
    matches!(
        bound,
        Bound::Select(_) | Bound::Insert { .. } | Bound::Update { .. } | Bound::Delete { .. }
    )
}

/// What a SELECT, an INSERT, an UPDATE or a DELETE means.
pub fn row_bound(rt: &(impl Abort + AllocGlobal), version: &Version, statement: &Statement) -> Bound
    requires well_formed { IsWellFormed version.now }
    requires written { IsWritten STATEMENT_BYTES statement.now }
    ensures row { IsRowStatement version.now.schema result }
    ensures well_formed { (db : Db) → IsWellFormed db → db.schema ≡ version.now.schema → IsWellFormed (run_bound db result).db }
{
    let bound = bound(rt, version, statement);
    if takes_rows(&bound) {
        bound
    } else {
        panic!(rt; "a statement of no rows");
    }
}

/// The net of what a bound write by itself changes.
pub fn written(rt: &(impl Abort + AllocGlobal), version: &Version, bound: &Bound) -> List<Change>
    requires sound { Sound version.now }
    requires write { IsWrite version.now.schema bound.now }
    ensures net { result ≡ net version.now (put version.now result) }
    ensures left { (run_bound version.now bound.now).db ≡ put version.now result }
{
    let txns = Txns::new(rt.alloc()).expect(rt, "memory");
    let shown = Shown { version };
    let single = txns.single(rt.alloc(), &shown, SessionNo(1), bound);
    drop(txns);
    match single {
        Ok((_, changes)) => changes,
        Err(_) => panic!(rt; "a write that is refused"),
    }
}

/// The next version by a write.
fn with_changes(rt: &(impl Abort + AllocGlobal), version: &Version, bound: &Bound) -> Next
    requires sound { Sound version.now }
    requires write { IsWrite version.now.schema bound.now }
    requires well_formed { IsWellFormed (run_bound version.now bound.now).db }
    ensures { IsWellFormed result }
{
    let changes = written(rt, version, bound);
    let both = prepare(rt.alloc(), version, changes.items());
    drop(changes);
    let (next, moves) = both.expect(rt, "memory");
    drop(moves);
    next
}

/// The next version by a bound statement, which has to be a write.
fn with_bound(rt: &(impl Abort + AllocGlobal), version: &Version, bound: &Bound) -> Next
    requires sound { Sound version.now }
    requires meant { IsMeant version.now.schema bound.now }
    requires well_formed { IsWellFormed (run_bound version.now bound.now).db }
    ensures { IsWellFormed result }
{
    match bound {
        Bound::Insert { .. } | Bound::Update { .. } | Bound::Delete { .. } => {
            with_changes(rt, version, bound)
        }
        _ => panic!(rt; "a statement that leaves a store as it is"),
    }
}

/// What a statement leaves: a CREATE, an INSERT, an UPDATE or a DELETE.
pub fn next_of(rt: &(impl Abort + AllocGlobal), version: &Version, statement: &Statement) -> Next
    requires sound { Sound version.now }
    requires written { IsWritten STATEMENT_BYTES statement.now }
    ensures { IsWellFormed result }
{
    match statement {
        Statement::CreateTable(create) => with_table(rt, version, create, statement),
        Statement::CreateView(create) => with_view(rt, version, create.get(), statement),
        _ => {
            let bound = bound(rt, version, statement);
            let next = with_bound(rt, version, &bound);
            drop(bound);
            next
        }
    }
}

/// The subject of a GDPR call.
pub fn subject_of(rt: &(impl Abort + AllocGlobal), version: &Version, text: &str) -> Subject
    requires { IsWellFormed version.now }
    ensures { IsTrue (is_subject version.now.schema result.0.table.0) }
{
    let statement = read(rt, text);
    let bound = bound(rt, version, &statement);
    drop(statement);
    match bound {
        Bound::Get(subject) | Bound::Forget(subject) => subject,
        _ => panic!(rt; "no GDPR call"),
    }
}
