ghost use Rattle.std.specs.Prelude.{◌≡◌, [], IfOk, IfSome};
ghost use Rattle.std.specs.List.{AllByRecursion};
ghost use Rattle.state_model.specs.Sound.{Sound};
ghost use Rattle.state_model.specs.Weight.{weight};
ghost use Rattle.commit_replay.specs.Rows.{AreRowsPut, IsWithRows};

use crate::making::make;
use crate::replayed::Replayed;
use crate::row_changes::changes_of_rows;
use own_base::{List, Row};
use std::alloc::{AllocError, Global};
use store_version::Version;

/// Puts rows into tables that have none, where they may stand there, rise, and nothing is wrong with them; else answers
/// false, and what is left is of no use.
fn put_rows(
    alloc: Global,
    version: &mut Version,
    weighs: &mut u64,
    tables: &[List<Row>],
) -> Result<bool, AllocError>
    requires sound { Sound version.old }
    requires weighs { weight version.old ≡ weighs.old }
    requires bare { AllByRecursion (λ rows. rows ≡ []) version.old.rows }
    ensures { IfOk result (AreRowsPut version.old tables.now version.new weighs.new) }
{
    let Some(changes) = changes_of_rows(alloc, version.schema(), tables)? else {
        return Ok(false);
    };
    make(alloc, version, weighs, changes.items())
}

/// The state with rows in its tables, which have none, by their numbers; none where a row may not stand in its table, the
/// rows' keys don't rise, or something is wrong with them as a whole. Each row is looked at once.
pub(crate) fn with_rows(
    alloc: Global,
    state: Replayed,
    tables: &[List<Row>],
) -> Result<Option<Replayed>, AllocError>
    requires { AllByRecursion (λ rows. rows ≡ []) state.rows }
    ensures rows { IfOk result (IsWithRows state tables.now) }
    ensures sound { IfOk result (λ found. IfSome found Sound) }
{
    let Replayed {
        mut version,
        mut weighs,
    } = state;
    if !put_rows(alloc, &mut version, &mut weighs, tables)? {
        return Ok(None);
    }
    Ok(Some(Replayed { version, weighs }))
}
