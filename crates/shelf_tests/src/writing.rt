//! What a statement leaves of a store, and what changes by it.
ghost use Rattle.std.specs.Prelude.{◌≡◌, MatchBool, ⊤};
ghost use Rattle.grammar_model.specs.Readable.{IsWritten};
ghost use Rattle.own_model.specs.declared.limit.TheConstants.{STATEMENT_BYTES};
ghost use Rattle.own_model.specs.declared.statement.Statement.TheVariants as statement_of;
ghost use Rattle.ref_index.specs.Tells.{Tell};
ghost use Rattle.run_model.specs.Run.{run_bound};
ghost use Rattle.state_model.specs.Put.{put};
ghost use Rattle.state_model.specs.Sound.{IsWellFormed};
ghost use Rattle.write_eval.proofs.BoundWrites.{ChangesRows};
ghost use Rattle.write_eval.specs.Write.{IsWrite};

use move_model::OwnerMove;
use own_base::{Change, List};
use own_model::{Bound, CreateTable, STATEMENT_BYTES, Statement};
use plan_bind::bind;
use sql_print::print_statement;
use sql_reader::read_statement;
use std::mem::drop;
use std::process::Abort;
use store_version::{Next, Shown, Version, prepare, prepare_table};
use write_eval::{Written, write_changes};

/// What a statement changes, and which subjects stand otherwise to which rows behind it.
#[derive(Drop)]
pub struct Step {
    pub changes: List<Change>,
    pub moves: List<OwnerMove>,
}

/// The statement that a text is.
pub fn read(rt: &(impl Abort + AllocGlobal), text: &str) -> Statement
    ensures { IsWritten STATEMENT_BYTES result }
{
    assert!(rt; text.len() <= STATEMENT_BYTES);
    read_statement(rt.alloc(), text).expect(rt, "a statement")
}

/// A CREATE TABLE, which the statement is.
fn with_table(
    rt: &(impl Abort + AllocGlobal),
    version: &Version,
    create: &CreateTable,
    statement: &Statement,
) -> Next
    requires well_formed { IsWellFormed version.now }
    requires of { statement.now ≡ statement_of.CreateTable create.now }
    requires written { IsWritten STATEMENT_BYTES statement.now }
    ensures { IsWellFormed result }
{
    let shown = Shown { version };
    let Ok(admitted) = version.catalog().admit(rt.alloc(), &shown, create) else {
        panic!(rt; "a CREATE TABLE that is refused");
    };
    let text = print_statement(rt.alloc(), statement).expect(rt, "a text");
    prepare_table(rt.alloc(), version, admitted, text).expect(rt, "memory")
}

fn changes_rows(statement: &Statement) -> bool
    ensures { MatchBool result (ChangesRows statement.now) ⊤ }
{
    matches!(
        statement,
        Statement::Insert { .. } | Statement::Update { .. } | Statement::Delete { .. }
    )
}

/// What a write means.
fn meant(rt: &(impl Abort + AllocGlobal), version: &Version, statement: &Statement) -> Bound
    requires well_formed { IsWellFormed version.now }
    requires written { IsWritten STATEMENT_BYTES statement.now }
    ensures write { IsWrite version.now.schema result }
    ensures left { IsWellFormed (run_bound version.now result).db }
{
    if !changes_rows(statement) {
        panic!(rt; "no write");
    }
    match bind(rt.alloc(), version.schema(), statement) {
        Ok(bound) => bound,
        Err(_) => panic!(rt; "a write that is refused"),
    }
}

/// What a write changes.
fn written(rt: &(impl Abort + AllocGlobal), version: &Version, bound: &Bound) -> Written
    requires well_formed { IsWellFormed version.now }
    requires write { IsWrite version.now.schema bound.now }
    requires left { IsWellFormed (run_bound version.now bound.now).db }
    ensures tells { Tell version.now result.changes }
    ensures left { IsWellFormed (put version.now result.changes) }
{
    let shown = Shown { version };
    match write_changes(rt.alloc(), &shown, bound) {
        Ok(written) => written,
        Err(_) => panic!(rt; "a write that is refused"),
    }
}

/// What a write leaves, and what changes by it.
fn with_write(
    rt: &(impl Abort + AllocGlobal),
    version: &Version,
    statement: &Statement,
) -> (Next, Step)
    requires well_formed { IsWellFormed version.now }
    requires written { IsWritten STATEMENT_BYTES statement.now }
    ensures { IsWellFormed result.0 }
{
    let bound = meant(rt, version, statement);
    let Written { changes, .. } = written(rt, version, &bound);
    drop(bound);
    let both = prepare(rt.alloc(), version, changes.items());
    let (next, moves) = both.expect(rt, "memory");
    (next, Step { changes, moves })
}

/// What a CREATE TABLE or a write leaves, and what changes by it.
pub fn next_of(
    rt: &(impl Abort + AllocGlobal),
    version: &Version,
    statement: &Statement,
) -> (Next, Step)
    requires well_formed { IsWellFormed version.now }
    requires written { IsWritten STATEMENT_BYTES statement.now }
    ensures { IsWellFormed result.0 }
{
    if let Statement::CreateTable(create) = statement {
        let next = with_table(rt, version, create, statement);
        let none = Step {
            changes: List::new(rt.alloc()),
            moves: List::new(rt.alloc()),
        };
        return (next, none);
    }
    with_write(rt, version, statement)
}
