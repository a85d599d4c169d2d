ghost use Rattle.std.specs.Prelude.{◌≡◌, ℕ, false, true, IfErr, IfOk, IsTrue, List as Seq};
ghost use Rattle.own_base.specs.declared.number.Area.TheVariants.{A, B};
ghost use Rattle.crash_model.specs.LeftBy.{IsLeftBy};
ghost use Rattle.engine_core.specs.Seen.{disk_of};
ghost use Rattle.shell_session.specs.DiskView.{view_of};
ghost use Rattle.shell_session.specs.Kept.{Keeps};
ghost use Rattle.shell_session.specs.Life.{EndsLaid, is_checkpoint};
ghost use Rattle.shell_session.specs.OnDisk.{IsNotOpened, IsNotRenewed, IsOpened};
ghost use Rattle.shell_session.specs.Opening.{Opening, opening_of};
ghost use Rattle.shell_session.specs.Served.{IsSilent};
ghost use Rattle.shell_session.specs.Status.{unopened};

use crate::answering::make_call;
use crate::book::{Book, effect_of};
use call_stream::CallStream;
use crash_recover::OpenFault;
use engine_core::{Closed, Engine};
use outer_world::Disk;
use own_model::{Reply, Request, Statement};
use std::alloc::Global;
use std::mem::drop;

/// The room for entries with which a store is opened.
const ROOM: u32 = 1024;

/// A store that is open, and what is kept of its calls.
pub(crate) struct Opened<D: Disk> {
    pub(crate) engine: Engine<D>,
    pub(crate) book: Book,
}

/// Closes a store, and gives its disk back alone.
pub(crate) fn disk_left<D: Disk>(engine: Engine<D>) -> D
    ensures disk { result ≡ disk_of engine }
    ensures left { IsTrue (D.honest result) → (a b : Seq ℕ) → D.leaves result A a → D.leaves result B b → IsLeftBy engine.base engine.start engine.history a b }
{
    let Closed {
        opened,
        history,
        disk,
    } = engine.close();
    drop(opened);
    drop(history);
    disk
}

/// Opens the store of a disk.
pub(crate) fn open<D: Disk>(alloc: Global, disk: D) -> Result<Opened<D>, (OpenFault, D)>
    ensures ok { IfOk result (λ opened. IsOpened D.holds (view_of D.leaves D.moment D.might_have_left D.honest D.faults) disk (opening_of opened.engine)) }
    ensures keeps { IfOk result (λ opened. Keeps opened.book (opening_of opened.engine)) }
    ensures err { IfErr result (λ back. IsNotOpened D.holds (view_of D.leaves D.moment D.might_have_left D.honest D.faults) disk back.1 (unopened back.0)) }
{
    match Engine::open_with_room(alloc, disk, ROOM) {
        Ok(engine) => Ok(Opened {
            engine,
            book: Book::new(),
        }),
        Err(back) => Err(back),
    }
}

/// Whether a CHECKPOINT is asked for.
fn is_checkpoint(request: &Request) -> bool
    ensures { result ≡ is_checkpoint request.now }
{
    match request {
        Request::Run(statement) => matches!(statement.get(), Statement::Checkpoint),
        _ => false,
    }
}

/// Whether a reply tells that it was done.
fn is_done(reply: &Reply) -> bool
    ensures { result ≡ true → reply.now ≡ Reply.Done }
{
    matches!(reply, Reply::Done)
}

/// Makes a CHECKPOINT, which has a place and is told to nobody. It answers whether it was done.
fn lay_anew<D: Disk>(alloc: Global, opened: &mut Opened<D>) -> bool
    requires { Keeps opened.old.book (opening_of opened.old.engine) }
    ensures silent { IsSilent (view_of D.leaves D.moment D.might_have_left D.honest D.faults) (opening_of opened.old.engine) (opening_of opened.new.engine) }
    ensures keeps { Keeps opened.new.book (opening_of opened.new.engine) }
    ensures done { result ≡ true → opened.old.book.failed ≡ false → opened.new.book.failed ≡ false }
    ensures laid { result ≡ true → EndsLaid opened.new.engine.base opened.new.engine.history }
    ensures marks { result ≡ true → opened.new.book.marks ≡ opened.old.book.marks }
{
    let mut words = CallStream::new(alloc);
    if words.push(b"CHECKPOINT;").is_err() {
        return false;
    }
    let Ok(Some(read)) = words.next() else {
        return false;
    };
    if !is_checkpoint(&read.call.request) {
        return false;
    }
    let session = read.call.session;
    let effect = effect_of(&read.call.request);
    let answer = make_call(&mut opened.engine, read.call);
    opened.book.note(0, session, effect, &answer);
    let done = is_done(&answer.reply);
    drop(answer);
    done
}

/// Closes the store and opens it again, where that is due, so that its history is let go; before, it is laid anew. Where that
/// can't be done it is left as it is for some time.
pub(crate) fn renewed<D: Disk>(
    alloc: Global,
    opened: Opened<D>,
) -> Result<Opened<D>, (OpenFault, D)>
    requires { Keeps opened.book (opening_of opened.engine) }
    ensures ok { IfOk result (λ next. IsSilent (view_of D.leaves D.moment D.might_have_left D.honest D.faults) (opening_of opened.engine) (opening_of next.engine)) }
    ensures keeps { IfOk result (λ next. Keeps next.book (opening_of next.engine)) }
    ensures err { IfErr result (λ back. (last : Opening D) × IsSilent (view_of D.leaves D.moment D.might_have_left D.honest D.faults) (opening_of opened.engine) last × IsNotRenewed (view_of D.leaves D.moment D.might_have_left D.honest D.faults) last back.1 (unopened back.0)) }
{
    let mut opened = opened;
    if !opened.book.is_due() {
        return Ok(opened);
    }
    opened.book.begin_anew();
    if !lay_anew(alloc, &mut opened) {
        return Ok(opened);
    }
    let Opened { engine, mut book } = opened;
    match Engine::open_with_room(alloc, disk_left(engine), ROOM) {
        Ok(engine) => {
            book.begin_anew();
            Ok(Opened { engine, book })
        }
        Err((fault, disk)) => {
            drop(book);
            Err((fault, disk))
        }
    }
}
