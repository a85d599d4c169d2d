ghost use Rattle.std.specs.Prelude.{◌≡◌, ◌<◌, true, IfOk, length};
ghost use Rattle.own_model.specs.declared.bound.Source1.TheVariants.{View};
ghost use Rattle.query_model.specs.Query.{query_rows, reply_of, source_rows};
ghost use Rattle.readable_model.specs.Sources.{IsThere};
ghost use Rattle.state_model.specs.Rows.{AreRowsOf};
ghost use Rattle.txn_space.specs.Changed.{changed_db};
ghost use Rattle.txn_space.specs.Sound.{IsSpaceOf};
ghost use Rattle.txn_core.specs.Runs.{IsShownBy, IsStore};

use link_model::Linked;
use own_base::ViewNo;
use own_model::{BoundSelect, Footprint, Reply, Source1, StoreView};
use query_eval::{select_linked, select_reply};
use std::alloc::{AllocError, Global};
use txn_space::Space;
use view_deltas::Views;
use view_select::view_reply;

/// Whether a transaction has left the tables that a view reads, and so what the view shows. Takes no memory.
fn leaves_view<V: StoreView>(space: &Space, version: &V, number: ViewNo) -> bool
    requires store { IsStore (V.db version.now) }
    requires there { number.0 < length (V.db version.now).schema.views }
    ensures { result ≡ true → source_rows (V.db version.now).schema (changed_db (V.db version.now) space.now).rows (View number) ≡ source_rows (V.db version.now).schema (V.db version.now).rows (View number) }
{
    match &version.schema().views.items()[number.0 as usize]
        .query
        .source
    {
        Source1::Table(table) => space.leaves(*table),
        Source1::Pair { left, right, .. } => space.leaves(*left) && space.leaves(*right),
        Source1::View(_) => false,
    }
}

/// The reply to a bound SELECT over the rows as a transaction changed them, which are put together where they have to be.
fn read_merged<V: StoreView>(
    alloc: Global,
    space: &Space,
    version: &V,
    query: &BoundSelect,
    scanned: &Footprint,
) -> Result<Reply, AllocError>
    requires store { IsStore (V.db version.now) }
    requires space { IsSpaceOf (V.db version.now).schema.tables space.now }
    requires rows { AreRowsOf (V.db version.now).schema.tables (changed_db (V.db version.now) space.now).rows }
    requires there { IsThere (V.db version.now).schema query.now }
    ensures { IfOk result (λ reply. reply ≡ reply_of (query_rows (V.db version.now).schema (changed_db (V.db version.now) space.now).rows query.now)) }
{
    let merged = space.merged(alloc, version, scanned)?;
    select_reply(alloc, &merged, query)
}

/// The reply to a bound SELECT over the rows as a transaction changed them: from a view whose tables it left by what is kept for
/// the view, and from tables that it left by the version, which tells who holds what.
pub(crate) fn read_in<V: Linked>(
    alloc: Global,
    space: &Space,
    version: &V,
    views: &Views,
    query: &BoundSelect,
    scanned: &Footprint,
) -> Result<Reply, AllocError>
    requires store { IsStore (V.db version.now) }
    requires space { IsSpaceOf (V.db version.now).schema.tables space.now }
    requires rows { AreRowsOf (V.db version.now).schema.tables (changed_db (V.db version.now) space.now).rows }
    requires there { IsThere (V.db version.now).schema query.now }
    requires views { IsShownBy (V.db version.now) views.now }
    ensures { IfOk result (λ reply. reply ≡ reply_of (query_rows (V.db version.now).schema (changed_db (V.db version.now) space.now).rows query.now)) }
{
    match &query.source {
        Source1::View(number) if leaves_view(space, version, *number) => {
            view_reply(alloc, version, views, *number, query)
        }
        Source1::Table(table) if space.leaves(*table) => select_linked(alloc, version, query),
        Source1::Pair { left, right, .. } if space.leaves(*left) && space.leaves(*right) => {
            select_linked(alloc, version, query)
        }
        _ => read_merged(alloc, space, version, query, scanned),
    }
}
