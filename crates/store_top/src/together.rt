ghost use Rattle.std.specs.Prelude.{◌≡◌, ◌≢◌, [], Some};
ghost use Rattle.std.specs.List.{AllByRecursion};
ghost use Rattle.own_model.specs.Db.{Db};
ghost use Rattle.script_model.specs.Numbered.{AreNumbered};
ghost use Rattle.script_model.specs.Split.{split};
ghost use Rattle.history_model.specs.Serial.{Serial};
ghost use Rattle.session_run.specs.Sessions.{IsServable, AreOwnNumbers, StandOnce, numbers_of};
ghost use Rattle.engine_core.specs.Seen.{disk_of};
ghost use Rattle.store_top.specs.OnDisk.{OnDiskTogether};
ghost use Rattle.store_top.specs.Ran.{LastFault};
ghost use Rattle.store_top.specs.RanTogether.{ServesTogether};
ghost use Rattle.store_top.specs.Steps.{AreOfInput, AreReadable};
ghost use Rattle.store_top.specs.LeavesDisk.{LeavesDisk};

use crate::served::TopFault;
use crate::serving::{Ended, end_of, fault_of, unopened, without_calls};
use commit_turn::Turn;
use engine_core::Engine;
use outer_world::{Disk, Gate, Sink};
use own_base::List;
use own_model::{Script, ScriptCall, SessionCalls};
use session_run::serve_sessions;
use sql_reader::Split;
use std::alloc::{AllocError, Global};
use std::mem::drop;
use std::sync::Wait;
use std::thread::Threads;

/// Serves sessions side by side by an engine that has made no call yet.
fn serve_by_turn<Rt: Threads + Wait + Sync, W: Sink, D: Disk + Send, G: Gate + Sync>(
    rt: &Rt,
    alloc: Global,
    engine: Engine<D>,
    sessions: List<SessionCalls>,
    sink: &mut W,
    gate: &G,
) -> Ended<D>
    requires fresh { engine.history ≡ [] }
    requires opening { engine.opening ≡ disk_of engine }
    requires servable { AllByRecursion IsServable sessions }
    requires once { StandOnce (numbers_of sessions) }
    requires numbered { AllByRecursion AreOwnNumbers sessions }
    ensures opened { result.opened ≡ Some engine.base }
    ensures served { ServesTogether sessions (Some engine.base) result.history (W.written sink.old) (W.written sink.new) (LastFault W.faults W.fails sink.old sink.new)
        ((sink.new ≡ sink.old) × (result.history ≡ [])) result.fault }
    ensures steady { result.fault ≢ Some TopFault.Write → W.faults sink.new ≡ W.faults sink.old }
    ensures serial { Serial engine.base result.history }
    ensures disk { LeavesDisk D.holds D.leaves D.moment D.might_have_left D.honest D.faults engine result.history result.disk }
{
    match Turn::new(alloc, engine) {
        Ok((turn, lead)) => {
            let (engine, served) = serve_sessions(rt, alloc, turn, lead, sessions, sink, gate);
            end_of(engine, fault_of(served))
        }
        Err((AllocError, engine)) => {
            drop(sessions);
            end_of(engine, Some(TopFault::Memory))
        }
    }
}

/// Opens the store of the disk, and serves the sessions of calls side by side over it.
pub(crate) fn serve_together<Rt: Threads + Wait + Sync, W: Sink, D: Disk + Send, G: Gate + Sync>(
    rt: &Rt,
    alloc: Global,
    calls: Vec<ScriptCall>,
    sink: &mut W,
    disk: D,
    gate: &G,
) -> Ended<D>
    requires numbered { AreNumbered [] calls.items }
    requires readable { AreReadable calls.items }
    requires input { AreOfInput calls.items }
    ensures served { ServesTogether (split calls.items) result.opened result.history (W.written sink.old) (W.written sink.new) (LastFault W.faults W.fails sink.old sink.new)
        ((sink.new ≡ sink.old) × (result.history ≡ [])) result.fault }
    ensures steady { result.fault ≢ Some TopFault.Write → W.faults sink.new ≡ W.faults sink.old }
    ensures serial { (base : Db) → result.opened ≡ Some base → Serial base result.history }
    ensures on_disk { OnDiskTogether D.holds D.leaves D.moment D.might_have_left D.honest D.faults disk result.disk result.opened result.history result.fault }
{
    let count = calls.len() as u32;
    let script = Script {
        calls: List::from_vec(calls),
    };
    let sessions = match script.split(alloc) {
        Ok(sessions) => sessions,
        Err(AllocError) => return without_calls(alloc, TopFault::Memory, disk),
    };
    match Engine::open_with_room(alloc, disk, count) {
        Ok(engine) => serve_by_turn(rt, alloc, engine, sessions, sink, gate),
        Err((fault, disk)) => {
            drop(sessions);
            without_calls(alloc, unopened(fault), disk)
        }
    }
}
