ghost use Rattle.std.specs.Prelude.{◌≡◌, true, Ok, IfOk, IfSome};
ghost use Rattle.own_model.specs.declared.limit.TheConstants.{STATEMENT_BYTES};
ghost use Rattle.grammar_model.specs.Readable.{IsWritten};
ghost use Rattle.query_model.specs.BoundStatement.{bound_statement};
ghost use Rattle.state_model.specs.Sound.{IsWellFormed, Sound};
ghost use Rattle.engine_core.specs.Asked as spec;
ghost use Rattle.engine_core.specs.Came.{IsReadAs, IsReadOf};

use crate::came::{Came, answered, refused};
use own_base::MakeCopy;
use own_model::{Bound, Statement, Verdict};
use plan_bind::bind;
use std::alloc::{AllocError, Global};
use std::mem::drop;
use store_snapshot::Snapshot;
use store_version::Version;

/// Whether a statement reads alone.
pub(crate) fn reads_alone(statement: &Statement) -> bool
    ensures { result ≡ spec.reads_alone statement.now }
{
    matches!(
        statement,
        Statement::Select(_) | Statement::GdprGet { .. } | Statement::Explain
    )
}

/// What shows the version: the same as the look before has it, or one that is taken now and kept for the next.
fn shown_of(
    alloc: Global,
    version: &Version,
    seen: &mut Option<Snapshot>,
) -> Result<Snapshot, AllocError>
    requires well_formed { IsWellFormed version.now }
    requires seen { IfSome seen.old (λ shown. shown ≡ version.now) }
    ensures shown { IfOk result (λ shown. shown ≡ version.now) }
    ensures seen { IfSome seen.new (λ shown. shown ≡ version.now) }
{
    if let Some(shown) = seen {
        return shown.copy(alloc);
    }
    let shown = Snapshot::taken(alloc, version)?;
    *seen = shown.copy(alloc).ok();
    Ok(shown)
}

/// What a statement that reads alone comes to: what shows the database, and what the statement means over its schema, which may be
/// ready; or why binding refuses it.
fn look(
    alloc: Global,
    version: &Version,
    seen: &mut Option<Snapshot>,
    ready: &mut Option<Bound>,
    statement: &Statement,
) -> Result<Came, AllocError>
    requires sound { Sound version.now }
    requires seen { IfSome seen.old (λ shown. shown ≡ version.now) }
    requires ready { IfSome ready.old (λ bound. bound_statement version.now.schema statement.now ≡ Ok bound) }
    requires written { IsWritten STATEMENT_BYTES statement.now }
    ensures read { IfOk result (IsReadOf version.now statement.now) }
    ensures seen { IfSome seen.new (λ shown. shown ≡ version.now) }
{
    if let Some(bound) = ready.take() {
        return match shown_of(alloc, version, seen) {
            Ok(shown) => Ok(Came::Look(shown, bound)),
            Err(refused) => {
                drop(bound);
                Err(refused)
            }
        };
    }
    match bind(alloc, version.catalog().schema(), statement) {
        Ok(bound) => {
            let shown = shown_of(alloc, version, seen)?;
            Ok(Came::Look(shown, bound))
        }
        Err(why) => Ok(Came::Replied(Verdict::Took, refused(why)?)),
    }
}

/// What a statement that reads alone comes to: a look, or its answer where that is to come at once. What shows the version is kept
/// for the next.
pub(crate) fn read(
    alloc: Global,
    version: &Version,
    seen: &mut Option<Snapshot>,
    ready: &mut Option<Bound>,
    statement: &Statement,
    at_once: bool,
) -> Result<Came, AllocError>
    requires sound { Sound version.now }
    requires written { IsWritten STATEMENT_BYTES statement.now }
    requires reads { spec.reads_alone statement.now ≡ true }
    requires seen { IfSome seen.old (λ shown. shown ≡ version.now) }
    requires ready { IfSome ready.old (λ bound. bound_statement version.now.schema statement.now ≡ Ok bound) }
    ensures read { IfOk result (IsReadAs at_once version.now statement.now) }
    ensures seen { IfSome seen.new (λ shown. shown ≡ version.now) }
{
    let came = look(alloc, version, seen, ready, statement)?;
    answered(came, at_once)
}
