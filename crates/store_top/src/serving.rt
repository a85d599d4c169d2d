ghost use Rattle.std.specs.Prelude.{◌≡◌, ◌≢◌, ◌≤◌, ℕ, List, [], IsTrue, Some, None, true, vec_len};
ghost use Rattle.own_base.specs.declared.number.Area.TheVariants.{A, B};
ghost use Rattle.own_model.specs.Db.{Db};
ghost use Rattle.state_model.specs.Sound.{Sound};
ghost use Rattle.script_model.specs.Numbered.{AreNumbered};
ghost use Rattle.history_model.specs.Serial.{Serial};
ghost use Rattle.crash_model.specs.Alone.{is_laid_behind};
ghost use Rattle.crash_model.specs.LeftBy.{IsLeftBy};
ghost use Rattle.crash_model.specs.Room.{IsNoRoomExact};
ghost use Rattle.crash_model.specs.StoreIn.{IsStoreIn};
ghost use Rattle.engine_core.specs.Seen.{IsAloneBehind, disk_of};
ghost use Rattle.store_top.specs.OnDisk.{OnDisk};
ghost use Rattle.store_top.specs.Ran.{LastFault};
ghost use Rattle.store_top.specs.Status.{fault_of, unopened};
ghost use Rattle.crash_model.specs.MovesDisk.{MovesDisk};
ghost use Rattle.store_top.specs.Steps.{AreOfInput, AreReadable};
ghost use Rattle.store_top.specs.Top.{ServesCallsAs, ServesScript};

use crate::lines::serve_calls;
use crate::served::TopFault;
use crate::summing::sum_up_calls;
use crash_recover::OpenFault;
use engine_core::{Closed, Engine};
use outer_world::{Disk, Sink};
use own_base::List;
use own_model::{Entry, ScriptCall};
use session_run::RunFault;
use std::alloc::Global;
use std::mem::drop;
use store_snapshot::Snapshot;

/// What is told of calls.
#[derive(Clone, Copy, Debug)]
pub(crate) enum Telling {
    /// The lines of each call, before the next is made.
    Lines,
    /// A summary, once all are made.
    Summary,
}

/// How a run ended.
pub(crate) struct Ended<D> {
    pub(crate) fault: Option<TopFault>,
    pub(crate) opened: Option<Snapshot>,
    pub(crate) history: List<Entry>,
    pub(crate) disk: D,
}

/// The end of a run in which no store was opened.
pub(crate) fn without_calls<D>(alloc: Global, fault: TopFault, disk: D) -> Ended<D>
    ensures fault { result.fault ≡ Some fault }
    ensures opened { result.opened ≡ None }
    ensures history { result.history ≡ [] }
    ensures disk { result.disk ≡ disk }
{
    Ended {
        fault: Some(fault),
        opened: None,
        history: List::new(alloc),
        disk,
    }
}

/// The fault of a run whose store was not opened.
pub(crate) fn unopened(fault: OpenFault) -> TopFault
    ensures { result ≡ unopened fault }
{
    match fault {
        OpenFault::DiskFault => TopFault::Disk,
        OpenFault::Damaged { area, offset } => TopFault::Damaged { area, offset },
        OpenFault::Memory => TopFault::Memory,
    }
}

/// Opens the store of the disk, and serves calls over it.
pub(crate) fn serve_script<W: Sink, D: Disk>(
    alloc: Global,
    calls: Vec<ScriptCall>,
    telling: Telling,
    sink: &mut W,
    disk: D,
) -> Ended<D>
    requires numbered { AreNumbered [] calls.items }
    requires readable { AreReadable calls.items }
    requires input { AreOfInput calls.items }
    ensures served { ServesScript telling calls.items result.opened result.history (W.written sink.old) (W.written sink.new) (LastFault W.faults W.fails sink.old sink.new)
        ((sink.new ≡ sink.old) × (result.history ≡ [])) result.fault }
    ensures steady { result.fault ≢ Some TopFault.Write → W.faults sink.new ≡ W.faults sink.old }
    ensures serial { (base : Db) → result.opened ≡ Some base → Serial base result.history }
    ensures on_disk { OnDisk D.holds D.leaves D.moment D.might_have_left D.honest D.faults disk result.disk result.opened result.history result.fault }
{
    match Engine::open_with_room(alloc, disk, calls.len() as u32) {
        Ok(engine) => serve_engine(engine, alloc, calls, telling, sink),
        Err((fault, disk)) => {
            drop(calls);
            without_calls(alloc, unopened(fault), disk)
        }
    }
}

/// The fault of a run by what its calls came to.
pub(crate) fn fault_of(served: Result<bool, RunFault>) -> Option<TopFault>
    ensures { result ≡ fault_of served }
{
    match served {
        Ok(false) => None,
        Ok(true) => Some(TopFault::Disk),
        Err(RunFault::Write) => Some(TopFault::Write),
        Err(RunFault::Memory) => Some(TopFault::Memory),
    }
}

/// Makes calls by an engine that has made none yet, and tells them: the fault, if there is one.
fn tell_calls<W: Sink, D: Disk>(
    engine: &mut Engine<D>,
    alloc: Global,
    calls: Vec<ScriptCall>,
    telling: Telling,
    sink: &mut W,
) -> Option<TopFault>
    requires sound { Sound engine.old.base }
    requires fresh { engine.old.history ≡ [] }
    requires left { IsTrue (D.honest (disk_of engine.old)) → (a b : List ℕ) → D.leaves (disk_of engine.old) A a → D.leaves (disk_of engine.old) B b
        → IsStoreIn a b engine.old.base engine.old.start }
    requires room { vec_len calls ≤ engine.old.spare }
    requires numbered { AreNumbered [] calls.items }
    requires readable { AreReadable calls.items }
    requires input { AreOfInput calls.items }
    ensures served { ServesCallsAs telling engine.old.base calls.items engine.new.history (W.written sink.old) (W.written sink.new) (LastFault W.faults W.fails sink.old sink.new) result }
    ensures steady { result ≢ Some TopFault.Write → W.faults sink.new ≡ W.faults sink.old }
    ensures moves { MovesDisk D.moment D.might_have_left D.honest D.faults engine.old.base engine.old.start engine.new.history (disk_of engine.old) (disk_of engine.new) }
    ensures base { engine.new.base ≡ engine.old.base }
    ensures start { engine.new.start ≡ engine.old.start }
    ensures journal { engine.new.journal ≡ engine.old.journal }
{
    match telling {
        Telling::Lines => fault_of(serve_calls(engine, alloc, calls, sink)),
        Telling::Summary => fault_of(sum_up_calls(engine, alloc, calls, sink)),
    }
}

/// How a run ended whose calls were made by an engine.
pub(crate) fn end_of<D: Disk>(engine: Engine<D>, fault: Option<TopFault>) -> Ended<D>
    ensures fault { result.fault ≡ fault }
    ensures opened { result.opened ≡ Some engine.base }
    ensures history { result.history ≡ engine.history }
    ensures disk { result.disk ≡ disk_of engine }
    ensures serial { Serial engine.base result.history }
    ensures moves { MovesDisk D.moment D.might_have_left D.honest D.faults engine.base engine.start result.history engine.opening result.disk }
    ensures left { IsTrue (D.honest result.disk) → (a b : List ℕ) → D.leaves result.disk A a → D.leaves result.disk B b
        → IsLeftBy engine.base engine.start result.history a b }
    ensures exact { IsNoRoomExact engine.journal engine.base engine.start result.history }
    ensures alone { is_laid_behind engine.base result.history ≡ true → IsTrue (D.honest result.disk)
        → IsAloneBehind D.holds D.leaves result.disk engine.journal engine.base engine.start result.history }
{
    let Closed {
        opened,
        history,
        disk,
    } = engine.close();
    Ended {
        fault,
        opened: Some(opened),
        history,
        disk,
    }
}

/// Serves calls by an engine that has served none yet.
fn serve_engine<W: Sink, D: Disk>(
    engine: Engine<D>,
    alloc: Global,
    calls: Vec<ScriptCall>,
    telling: Telling,
    sink: &mut W,
) -> Ended<D>
    requires sound { Sound engine.base }
    requires fresh { engine.history ≡ [] }
    requires left { IsTrue (D.honest (disk_of engine)) → (a b : List ℕ) → D.leaves (disk_of engine) A a → D.leaves (disk_of engine) B b
        → IsStoreIn a b engine.base engine.start }
    requires room { vec_len calls ≤ engine.spare }
    requires numbered { AreNumbered [] calls.items }
    requires readable { AreReadable calls.items }
    requires input { AreOfInput calls.items }
    ensures opened { result.opened ≡ Some engine.base }
    ensures served { ServesCallsAs telling engine.base calls.items result.history (W.written sink.old) (W.written sink.new) (LastFault W.faults W.fails sink.old sink.new) result.fault }
    ensures steady { result.fault ≢ Some TopFault.Write → W.faults sink.new ≡ W.faults sink.old }
    ensures serial { Serial engine.base result.history }
    ensures moves { MovesDisk D.moment D.might_have_left D.honest D.faults engine.base engine.start result.history (disk_of engine) result.disk }
    ensures left { IsTrue (D.honest result.disk) → (a b : List ℕ) → D.leaves result.disk A a → D.leaves result.disk B b
        → IsLeftBy engine.base engine.start result.history a b }
    ensures exact { IsNoRoomExact engine.journal engine.base engine.start result.history }
    ensures alone { is_laid_behind engine.base result.history ≡ true → IsTrue (D.honest result.disk)
        → IsAloneBehind D.holds D.leaves result.disk engine.journal engine.base engine.start result.history }
{
    let mut engine = engine;
    let fault = tell_calls(&mut engine, alloc, calls, telling, sink);
    end_of(engine, fault)
}
