ghost use Rattle.std.specs.Prelude.{◌≡◌, ◌<◌, ◌∷◌, [], length, IfOk, IsTrue, OnErr, OnOk};
ghost use Rattle.own_model.specs.declared.limit.TheConstants.{VIEWS};
ghost use Rattle.schema_model.specs.Lone.{is_lone};
ghost use Rattle.state_model.specs.Put.{put};
ghost use Rattle.state_model.specs.Sound.{IsWellFormed};
ghost use Rattle.move_model.specs.Moves.{AreMovesOf};
ghost use Rattle.annot_schema.specs.Created.{IsAdmissible};
ghost use Rattle.ref_index.specs.Tells.{Tell};
ghost use Rattle.store_version.specs.Added.{IsBoundView, db_viewed, db_with};
ghost use Rattle.store_version.specs.AreFew.{AreFew};
ghost use Rattle.view_select.specs.ShowsViews.{ShowsViews};

use crate::shown_owned::ShownOwned;
use crate::version::{Next, Version};
use annot_schema::Admitted;
use move_model::OwnerMove;
use own_base::{Change, List, MakeCopy, Text};
use own_model::ViewDef;
use std::alloc::{AllocError, Global};
use std::mem::drop;
use std::slice;
use txn_space::Space;
use view_deltas::Views;

/// The version with changes of rows, which may come in any order, each of which tells the row as it is, and which subjects
/// stand otherwise to which rows than before.
pub fn prepare(
    alloc: Global,
    version: &Version,
    changes: &[Change],
) -> Result<(Next, List<OwnerMove>), AllocError>
    requires tells { Tell version.now changes.now }
    requires well_formed { IsWellFormed version.now }
    ensures next { IfOk result (λ both. both.0 ≡ put version.now changes.now) }
    ensures moves { IfOk result (λ both. AreMovesOf version.now (put version.now changes.now) both.1) }
{
    let (owned, moves) = version.owned.after(alloc, changes)?;
    let left = ShownOwned { owned: &owned };
    let micro = version
        .micro
        .with_moves(alloc, &left, moves.items(), changes)?;
    let before = ShownOwned {
        owned: &version.owned,
    };
    let views = version.views.with_changes(alloc, &before, &left, changes)?;
    let next = Next {
        version: Version {
            owned,
            micro,
            views,
        },
    };
    Ok((next, moves))
}

/// The version with a table that was admitted over its schema, without rows, and with the text of its create.
pub fn prepare_table(
    alloc: Global,
    version: &Version,
    admitted: Admitted,
    text: Text,
) -> Result<Next, AllocError>
    requires admissible { IsAdmissible version.now.schema admitted }
    requires well_formed { IsWellFormed version.now }
    ensures { IfOk result (λ next. next ≡ db_with version.now admitted text) }
{
    let owned = version.owned.with_table(alloc, admitted, text)?;
    let micro = version.micro.copy(alloc)?;
    let views = version.views.copy(alloc)?;
    Ok(Next {
        version: Version {
            owned,
            micro,
            views,
        },
    })
}

/// The version with a view that was bound on its schema, and with the text of its create. There is room for one more. The rows
/// that the view shows are computed from all rows of the tables that it reads.
pub fn prepare_view(
    alloc: Global,
    version: &Version,
    definition: ViewDef,
    text: Text,
) -> Result<Next, AllocError>
    requires room { length version.now.schema.views < VIEWS }
    requires bound { IsBoundView version.now.schema definition }
    requires well_formed { IsWellFormed version.now }
    ensures { IfOk result (λ next. next ≡ db_viewed version.now definition text) }
{
    let before = ShownOwned {
        owned: &version.owned,
    };
    let views = version.views.build(alloc, &before, &definition)?;
    let owned = version.owned.with_view(alloc, definition, text)?;
    let micro = version.micro.copy(alloc)?;
    Ok(Next {
        version: Version {
            owned,
            micro,
            views,
        },
    })
}

/// Puts the next version in the place of the one that it was prepared from. Takes no memory.
pub fn publish(version: &mut Version, next: Next)
    ensures { version.new ≡ next }
{
    *version = next.version;
}

/// Makes changes, each of which tells the row as it is, beside the version, which then takes the place of the one that stood.
/// After `AllocError` the version is as it was.
fn change_beside(alloc: Global, version: &mut Version, changes: &[Change]) -> Result<(), AllocError>
    requires tells { Tell version.old changes.now }
    requires well_formed { IsWellFormed version.old }
    ensures changed { OnOk result (version.new ≡ put version.old changes.now) }
    ensures unchanged { OnErr result (version.new ≡ version.old) }
{
    let (next, moves) = prepare(alloc, version, changes)?;
    drop(moves);
    publish(version, next);
    Ok(())
}

/// Makes one change of a row of a lone table, which tells the row as it is, in a version without views: in place, where nobody
/// shares the rows that it falls among. Whose each row is stays, and what is kept of each subject. After `AllocError` the
/// version is as it was.
fn change_in_place(alloc: Global, version: &mut Version, change: &Change) -> Result<(), AllocError>
    requires tells { Tell version.old (change.now ∷ []) }
    requires well_formed { IsWellFormed version.old }
    requires lone { IsTrue (is_lone version.old.schema change.now.name.table.0) }
    requires viewless { version.old.schema.views ≡ [] }
    ensures changed { OnOk result (version.new ≡ put version.old (change.now ∷ [])) }
    ensures unchanged { OnErr result (version.new ≡ version.old) }
{
    version.owned.change(alloc, change)
}

/// What is kept for the views after one change, which tells the row as it is: it is made before the rows are changed, over the
/// rows with the change laid over them.
fn views_after(alloc: Global, version: &Version, change: &Change) -> Result<Views, AllocError>
    requires tells { Tell version.now (change.now ∷ []) }
    requires well_formed { IsWellFormed version.now }
    requires few { AreFew version.now.rows }
    ensures { IfOk result (λ views. ShowsViews (put version.now (change.now ∷ [])) views) }
{
    let before = ShownOwned {
        owned: &version.owned,
    };
    let changes = slice::from_ref(change);
    let mut space = Space::new(alloc);
    space.put(alloc, &before, changes)?;
    let after = space.over(&before);
    version.views.with_changes(alloc, &before, &after, changes)
}

/// Makes one change of a row of a lone table, which tells the row as it is, in a version that has views: in place, where nobody
/// shares the rows that it falls among. What is kept for the views is made beside, and takes its place then. After `AllocError`
/// the version is as it was.
fn change_viewed(alloc: Global, version: &mut Version, change: &Change) -> Result<(), AllocError>
    requires tells { Tell version.old (change.now ∷ []) }
    requires well_formed { IsWellFormed version.old }
    requires lone { IsTrue (is_lone version.old.schema change.now.name.table.0) }
    requires few { AreFew version.old.rows }
    ensures changed { OnOk result (version.new ≡ put version.old (change.now ∷ [])) }
    ensures unchanged { OnErr result (version.new ≡ version.old) }
{
    let views = views_after(alloc, version, change)?;
    version.owned.change(alloc, change)?;
    version.views = views;
    Ok(())
}

/// Makes one change of a row of a lone table, which tells the row as it is, in the version itself: in place, where nobody
/// shares the rows that it falls among. After `AllocError` the version is as it was.
pub fn publish_change(
    alloc: Global,
    version: &mut Version,
    change: &Change,
) -> Result<(), AllocError>
    requires tells { Tell version.old (change.now ∷ []) }
    requires well_formed { IsWellFormed version.old }
    requires lone { IsTrue (is_lone version.old.schema change.now.name.table.0) }
    ensures changed { OnOk result (version.new ≡ put version.old (change.now ∷ [])) }
    ensures unchanged { OnErr result (version.new ≡ version.old) }
{
    if version.schema().views.items().is_empty() {
        change_in_place(alloc, version, change)
    } else if version.rows().are_few() {
        change_viewed(alloc, version, change)
    } else {
        change_beside(alloc, version, slice::from_ref(change))
    }
}
