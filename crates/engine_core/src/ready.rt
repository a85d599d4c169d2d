ghost use Rattle.std.specs.Prelude.{◌≡◌, IfOk, IfSome};
ghost use Rattle.own_model.specs.declared.history.Verdict.TheVariants.{Took};
ghost use Rattle.history_model.specs.History.{world};
ghost use Rattle.serve_model.specs.Ahead.{IsBoundAhead};
ghost use Rattle.engine_core.specs.Asked.{IsMeantBy};
ghost use Rattle.engine_core.specs.Came.{ComesAs, told_of};
ghost use Rattle.engine_core.specs.RepresentsWorld.{IsEvent, Serves};
ghost use Rattle.engine_core.specs.Stored.{IsUp, Stores};

use crate::came::Came;
use crate::serving::serve;
use crate::state::State;
use outer_world::Disk;
use own_model::{Bound, Entry};
use serve_model::Ahead;
use std::alloc::{AllocError, Global};
use std::mem::drop;
use store_disk::StoreDisk;
use store_snapshot::Snapshot;

/// What an entry's statement was bound to ahead, where the store has no more creates since then: so it has the same schema, and the
/// statement means the same. The history is how the store came to be as it is.
fn still_bound(
    state: &State,
    history: &[Entry],
    entry: &Entry,
    ahead: Option<Ahead>,
) -> Option<Bound>
    requires event { IsEvent state.now history.now entry.now }
    requires ahead { IfSome ahead (IsBoundAhead state.now.opened history.now entry.now.request) }
    ensures { IfSome result (IsMeantBy state.now.version.schema entry.now.request) }
{
    let Some(Ahead { creates, bound }) = ahead else {
        return None;
    };
    if creates != state.version.catalog().creates().len() {
        drop(bound);
        return None;
    }
    Some(bound)
}

/// Serves an entry behind a history for which the state stands, with what its statement was bound to ahead.
pub(crate) fn serve_ahead<D: Disk>(
    alloc: Global,
    state: &mut State,
    seen: &mut Option<Snapshot>,
    store: &mut StoreDisk<D>,
    history: &[Entry],
    entry: &Entry,
    ahead: Option<Ahead>,
    at_once: bool,
) -> Result<Came, AllocError>
    requires event { IsEvent state.old history.now entry.now }
    requires took { entry.now.verdict ≡ Took }
    requires store { IsUp D.holds D.leaves D.honest store.old state.old.version }
    requires seen { IfSome seen.old (λ shown. shown ≡ state.old.version) }
    requires ahead { IfSome ahead (IsBoundAhead state.old.opened history.now entry.now.request) }
    ensures served { Serves state.old.opened state.new history.now entry.now (told_of result) }
    ensures stored { Stores D.holds D.leaves D.moment D.might_have_left D.honest D.faults (world state.old.opened history.now) entry.now store.old (told_of result) store.new }
    ensures comes { IfOk result (ComesAs at_once (world state.old.opened history.now) entry.now) }
    ensures opened { state.new.opened ≡ state.old.opened }
    ensures seen { IfSome seen.new (λ shown. shown ≡ state.new.version) }
{
    let mut ready = still_bound(state, history, entry, ahead);
    let came = serve(
        alloc, state, seen, &mut ready, store, history, entry, at_once,
    );
    drop(ready);
    came
}
