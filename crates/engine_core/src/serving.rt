ghost use Rattle.std.specs.Prelude.{◌≡◌, None, Ok, IfOk, IfSome};
ghost use Rattle.own_model.specs.declared.history.Verdict.TheVariants.{Took};
ghost use Rattle.own_model.specs.declared.request.Request.TheVariants.{Run};
ghost use Rattle.query_model.specs.BoundStatement.{bound_statement};
ghost use Rattle.history_model.specs.History.{world};
ghost use Rattle.txn_core.specs.SessionStates.{doom_of, state_by};
ghost use Rattle.engine_core.specs.Asked.{IsMeantBy};
ghost use Rattle.engine_core.specs.Came.{ComesAs, told_of};
ghost use Rattle.engine_core.specs.RepresentsWorld.{IsEvent, Serves};
ghost use Rattle.engine_core.specs.Stored.{IsUp, Stores};

use crate::came::{Came, replied};
use crate::inside::serve_inside;
use crate::looking::{read, reads_alone};
use crate::outside::serve_outside;
use crate::state::State;
use outer_world::Disk;
use own_model::{Bound, Entry, Refusal, Reply, Request, Statement, Verdict};
use std::alloc::{AllocError, Global};
use std::mem::drop;
use store_disk::StoreDisk;
use store_snapshot::Snapshot;

/// Serves a statement of a session that isn't doomed. Outside a transaction one that reads alone comes to a look, or is
/// answered at once. What shows the version is kept from one look to the next, and given up before anything may change, so that
/// changes are made in place.
fn serve_statement<D: Disk>(
    alloc: Global,
    state: &mut State,
    seen: &mut Option<Snapshot>,
    ready: &mut Option<Bound>,
    store: &mut StoreDisk<D>,
    history: &[Entry],
    entry: &Entry,
    statement: &Statement,
    at_once: bool,
) -> Result<Came, AllocError>
    requires event { IsEvent state.old history.now entry.now }
    requires took { entry.now.verdict ≡ Took }
    requires store { IsUp D.holds D.leaves D.honest store.old state.old.version }
    requires seen { IfSome seen.old (λ shown. shown ≡ state.old.version) }
    requires ready { IfSome ready.old (λ bound. bound_statement state.old.version.schema statement.now ≡ Ok bound) }
    requires undoomed { doom_of (state_by state.old.txns.states entry.now.session.0) ≡ None }
    requires asks { entry.now.request ≡ Run statement.now }
    ensures served { Serves state.old.opened state.new history.now entry.now (told_of result) }
    ensures stored { Stores D.holds D.leaves D.moment D.might_have_left D.honest D.faults (world state.old.opened history.now) entry.now store.old (told_of result) store.new }
    ensures comes { IfOk result (ComesAs at_once (world state.old.opened history.now) entry.now) }
    ensures opened { state.new.opened ≡ state.old.opened }
    ensures seen { IfSome seen.new (λ shown. shown ≡ state.new.version) }
{
    if state.txns.is_open(entry.session) {
        drop(seen.take());
        return replied(serve_inside(alloc, state, store, history, entry, statement));
    }
    if reads_alone(statement) {
        return read(alloc, &state.version, seen, ready, statement, at_once);
    }
    drop(seen.take());
    replied(serve_outside(alloc, state, store, history, entry, statement))
}

/// Serves a request of a session that isn't doomed.
fn serve_undoomed<D: Disk>(
    alloc: Global,
    state: &mut State,
    seen: &mut Option<Snapshot>,
    ready: &mut Option<Bound>,
    store: &mut StoreDisk<D>,
    history: &[Entry],
    entry: &Entry,
    at_once: bool,
) -> Result<Came, AllocError>
    requires event { IsEvent state.old history.now entry.now }
    requires took { entry.now.verdict ≡ Took }
    requires store { IsUp D.holds D.leaves D.honest store.old state.old.version }
    requires seen { IfSome seen.old (λ shown. shown ≡ state.old.version) }
    requires ready { IfSome ready.old (IsMeantBy state.old.version.schema entry.now.request) }
    requires undoomed { doom_of (state_by state.old.txns.states entry.now.session.0) ≡ None }
    ensures served { Serves state.old.opened state.new history.now entry.now (told_of result) }
    ensures stored { Stores D.holds D.leaves D.moment D.might_have_left D.honest D.faults (world state.old.opened history.now) entry.now store.old (told_of result) store.new }
    ensures comes { IfOk result (ComesAs at_once (world state.old.opened history.now) entry.now) }
    ensures opened { state.new.opened ≡ state.old.opened }
    ensures seen { IfSome seen.new (λ shown. shown ≡ state.new.version) }
{
    match &entry.request {
        Request::Syntax(byte) => {
            let why = Refusal::Syntax(*byte);
            Ok(Came::Replied(Verdict::Took, Reply::Refused(why)))
        }
        Request::Limit(limit) => {
            let why = Refusal::Limit(*limit);
            Ok(Came::Replied(Verdict::Took, Reply::Refused(why)))
        }
        Request::End => {
            state.txns.finish(entry.session);
            Ok(Came::Replied(Verdict::Took, Reply::Ended))
        }
        Request::Run(statement) => {
            serve_statement(
                alloc,
                state,
                seen,
                ready,
                store,
                history,
                entry,
                statement.get(),
                at_once,
            )
        },
    }
}

/// Serves an entry behind a history for which the state stands. A doom is told before all else.
pub(crate) fn serve<D: Disk>(
    alloc: Global,
    state: &mut State,
    seen: &mut Option<Snapshot>,
    ready: &mut Option<Bound>,
    store: &mut StoreDisk<D>,
    history: &[Entry],
    entry: &Entry,
    at_once: bool,
) -> Result<Came, AllocError>
    requires event { IsEvent state.old history.now entry.now }
    requires took { entry.now.verdict ≡ Took }
    requires store { IsUp D.holds D.leaves D.honest store.old state.old.version }
    requires seen { IfSome seen.old (λ shown. shown ≡ state.old.version) }
    requires ready { IfSome ready.old (IsMeantBy state.old.version.schema entry.now.request) }
    ensures served { Serves state.old.opened state.new history.now entry.now (told_of result) }
    ensures stored { Stores D.holds D.leaves D.moment D.might_have_left D.honest D.faults (world state.old.opened history.now) entry.now store.old (told_of result) store.new }
    ensures comes { IfOk result (ComesAs at_once (world state.old.opened history.now) entry.now) }
    ensures opened { state.new.opened ≡ state.old.opened }
    ensures seen { IfSome seen.new (λ shown. shown ≡ state.new.version) }
{
    match state.txns.tell_doom(entry.session) {
        Some(place) => {
            let why = Refusal::Doomed(place);
            Ok(Came::Replied(Verdict::Took, Reply::Refused(why)))
        }
        None => serve_undoomed(alloc, state, seen, ready, store, history, entry, at_once),
    }
}
