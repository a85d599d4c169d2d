ghost use Rattle.std.specs.Prelude.{◌≡◌, ◌≢◌, ℕ, List as Seq, IsTrue, Err, None, OnOk, false, option_map, true};
ghost use Rattle.std.specs.List.{AllByRecursion};
ghost use Rattle.outer_world.specs.FaultCount.{CountRose};
ghost use Rattle.grammar_model.specs.Readable.{IsReadable};
ghost use Rattle.script_model.specs.Split.{IsOfASession};
ghost use Rattle.history_model.specs.History.{flat, world};
ghost use Rattle.reply_json.specs.declared.columns.TableNames.{TableNames as Named};
ghost use Rattle.call_stream.specs.Taken.{IsPlain, IsRead, IsSound, open_calls};
ghost use Rattle.shell_session.specs.DiskView.{view_of};
ghost use Rattle.shell_session.specs.Kept.{Keeps};
ghost use Rattle.shell_session.specs.Names.{columns_by, last_request, shows_names, table_names};
ghost use Rattle.shell_session.specs.Opening.{opening_of};
ghost use Rattle.shell_session.specs.Served.{IsOfServing, ServesCall, ServesCalls, ServesClosed, ServesEnd, fault_of};
ghost use Rattle.shell_session.specs.Told.{HasWritten, told_text};

use crate::answering::{Answer, make_call};
use crate::book::{Book, effect_of};
use crate::ending::{ShellFault, stopped};
use crate::manner::{Form, Manner};
use crate::marking::mark;
use crate::naming::{is_create, reply_columns, shows_names};
use crate::notes::Notes;
use crate::telling::tell;
use call_stream::{CallStream, StreamCall, StreamEnd};
use engine_core::Engine;
use outer_world::{Disk, Sink};
use own_base::{Name, SessionNo};
use own_model::{Reply, ScriptCall};
use reply_json::{TableNames, Told};
use std::alloc::Global;
use std::mem::drop;

/// A call as it was asked for: its session and number, the line of the input on which its text begins, and the text.
#[derive(Clone, Copy)]
struct Asked<'a> {
    session: SessionNo,
    number: u32,
    line: u64,
    text: &'a [u8],
}

/// Which call a reply is to, and the names that it is told with.
fn told_of<'a>(
    asked: Asked<'_>,
    answer: &Answer,
    columns: &'a [Name],
    tables: &'a [TableNames],
) -> Told<'a>
    ensures place { result.place ≡ answer.now.place }
    ensures session { result.session ≡ asked.entry.session }
    ensures call { result.call ≡ asked.entry.number }
    ensures line { result.line ≡ asked.entry.line }
    ensures columns { result.columns.now ≡ columns.now }
    ensures tables { result.tables.now ≡ tables.now }
{
    Told {
        place: answer.place,
        session: asked.session,
        call: asked.number,
        line: asked.line,
        columns,
        tables,
    }
}

/// Writes what a call was answered, without names.
fn tell_plain<W: Sink>(
    alloc: Global,
    form: Form,
    asked: Asked<'_>,
    answer: &Answer,
    sink: &mut W,
) -> Result<(), ShellFault>
    requires { shows_names form answer.now.reply ≡ false }
    ensures written { (columns : Seq (Seq ℕ)) (tables : Seq Named) → HasWritten result (W.written sink.old) (W.written sink.new)
        (told_text form (option_map (λ place. place.0) answer.now.place) asked.entry.session.0 asked.entry.number asked.entry.line columns tables answer.now.reply) }
    ensures fault { result ≡ Err ShellFault.Write → CountRose (W.faults sink.old) (W.faults sink.new) }
    ensures steady { result ≢ Err ShellFault.Write → W.faults sink.new ≡ W.faults sink.old }
    ensures unread { result ≢ Err ShellFault.Read }
    ensures lawful { result ≢ Err ShellFault.Refused }
    ensures own { IsOfServing (fault_of result) }
{
    let told = told_of(asked, answer, &[], &[]);
    tell(alloc, form, &told, &answer.reply, sink)
}

/// Writes what a call was answered as JSON, with the names of tables and columns as they are now.
fn tell_named<W: Sink, D: Disk>(
    engine: &Engine<D>,
    book: &mut Book,
    alloc: Global,
    asked: Asked<'_>,
    answer: &Answer,
    sink: &mut W,
) -> Result<(), ShellFault>
    requires keeps { Keeps book.old (opening_of engine.now) }
    requires up { (world engine.now.base engine.now.history).down ≡ None }
    ensures written { HasWritten result (W.written sink.old) (W.written sink.new) (told_text Form.Json (option_map (λ place. place.0) answer.now.place) asked.entry.session.0 asked.entry.number asked.entry.line
        (columns_by (table_names (flat engine.now.base engine.now.history).schema) (last_request engine.now.history) answer.now.reply) (table_names (flat engine.now.base engine.now.history).schema) answer.now.reply) }
    ensures fault { result ≡ Err ShellFault.Write → CountRose (W.faults sink.old) (W.faults sink.new) }
    ensures steady { result ≢ Err ShellFault.Write → W.faults sink.new ≡ W.faults sink.old }
    ensures unread { result ≢ Err ShellFault.Read }
    ensures lawful { result ≢ Err ShellFault.Refused }
    ensures own { IsOfServing (fault_of result) }
    ensures keeps { Keeps book.new (opening_of engine.now) }
{
    let Ok(()) = book.read_names(alloc, engine.version().schema()) else {
        return Err(ShellFault::Memory);
    };
    let tables = book.names();
    let Ok(columns) = reply_columns(alloc, tables, engine.history().last(), &answer.reply) else {
        return Err(ShellFault::Memory);
    };
    let told = told_of(asked, answer, columns.items(), tables);
    let written = tell(alloc, Form::Json, &told, &answer.reply, sink);
    drop(columns);
    written
}

/// Writes what a call was answered.
fn tell_answer<W: Sink, D: Disk>(
    engine: &Engine<D>,
    book: &mut Book,
    alloc: Global,
    form: Form,
    asked: Asked<'_>,
    answer: &Answer,
    sink: &mut W,
) -> Result<(), ShellFault>
    requires keeps { Keeps book.old (opening_of engine.now) }
    requires up { shows_names form answer.now.reply ≡ true → (world engine.now.base engine.now.history).down ≡ None }
    ensures written { HasWritten result (W.written sink.old) (W.written sink.new) (told_text form (option_map (λ place. place.0) answer.now.place) asked.entry.session.0 asked.entry.number asked.entry.line
        (columns_by (table_names (flat engine.now.base engine.now.history).schema) (last_request engine.now.history) answer.now.reply) (table_names (flat engine.now.base engine.now.history).schema) answer.now.reply) }
    ensures fault { result ≡ Err ShellFault.Write → CountRose (W.faults sink.old) (W.faults sink.new) }
    ensures steady { result ≢ Err ShellFault.Write → W.faults sink.new ≡ W.faults sink.old }
    ensures unread { result ≢ Err ShellFault.Read }
    ensures lawful { result ≢ Err ShellFault.Refused }
    ensures own { IsOfServing (fault_of result) }
    ensures keeps { Keeps book.new (opening_of engine.now) }
{
    if shows_names(form, &answer.reply) {
        tell_named(engine, book, alloc, asked, answer, sink)
    } else {
        tell_plain(alloc, form, asked, answer, sink)
    }
}

/// Makes a call, writes its reply, and shows somebody at a terminal where its text stops being a statement. It fails with
/// `Refused` where the shell is to end with a refusal and this is one.
fn serve_call<W: Sink, N: Notes, D: Disk>(
    engine: &mut Engine<D>,
    book: &mut Book,
    alloc: Global,
    manner: Manner,
    call: ScriptCall,
    line: u64,
    text: &[u8],
    sink: &mut W,
    notes: &mut N,
) -> Result<(), ShellFault>
    requires readable { IsReadable call.request }
    requires session { IsOfASession call }
    requires keeps { Keeps book.old (opening_of engine.old) }
    ensures serves { ServesCall (view_of D.leaves D.moment D.might_have_left D.honest D.faults) manner.form (opening_of engine.old) (opening_of engine.new) call line result (W.written sink.old) (W.written sink.new) }
    ensures keeps { Keeps book.new (opening_of engine.new) }
    ensures own { IsOfServing (fault_of result) }
    ensures fault { result ≡ Err ShellFault.Write → CountRose (W.faults sink.old) (W.faults sink.new) }
    ensures steady { result ≢ Err ShellFault.Write → W.faults sink.new ≡ W.faults sink.old }
    ensures unread { result ≢ Err ShellFault.Read }
    ensures refused { result ≡ Err ShellFault.Refused → IsTrue manner.stops }
{
    let asked = Asked {
        session: call.session,
        number: call.call,
        line,
        text,
    };
    let effect = effect_of(&call.request);
    let creates = is_create(&call.request);
    let answer = make_call(engine, call);
    book.note(text.len(), asked.session, effect, &answer);
    book.note_names(creates);
    let told = tell_answer(engine, book, alloc, manner.form, asked, &answer, sink);
    if manner.prompts {
        mark(alloc, text, &answer.reply, notes);
    }
    let refused = matches!(answer.reply, Reply::Refused(_));
    drop(answer);
    if manner.stops && refused && told.is_ok() {
        return Err(ShellFault::Refused);
    }
    told
}

/// Serves a call that was read.
fn serve_read<W: Sink, N: Notes, D: Disk>(
    engine: &mut Engine<D>,
    book: &mut Book,
    alloc: Global,
    manner: Manner,
    read: StreamCall,
    sink: &mut W,
    notes: &mut N,
) -> Result<(), ShellFault>
    requires readable { IsReadable read.call.request }
    requires session { IsOfASession read.call }
    requires keeps { Keeps book.old (opening_of engine.old) }
    ensures serves { ServesCall (view_of D.leaves D.moment D.might_have_left D.honest D.faults) manner.form (opening_of engine.old) (opening_of engine.new) read.call read.line result (W.written sink.old) (W.written sink.new) }
    ensures keeps { Keeps book.new (opening_of engine.new) }
    ensures own { IsOfServing (fault_of result) }
    ensures fault { result ≡ Err ShellFault.Write → CountRose (W.faults sink.old) (W.faults sink.new) }
    ensures steady { result ≢ Err ShellFault.Write → W.faults sink.new ≡ W.faults sink.old }
    ensures unread { result ≢ Err ShellFault.Read }
    ensures refused { result ≡ Err ShellFault.Refused → IsTrue manner.stops }
{
    let StreamCall { call, line, text } = read;
    let served = serve_call(
        engine,
        book,
        alloc,
        manner,
        call,
        line,
        text.bytes(),
        sink,
        notes,
    );
    drop(text);
    served
}

/// Serves the calls that the bytes so far close.
pub(crate) fn serve_closed<W: Sink, N: Notes, D: Disk>(
    stream: &mut CallStream,
    engine: &mut Engine<D>,
    book: &mut Book,
    alloc: Global,
    manner: Manner,
    sink: &mut W,
    notes: &mut N,
) -> Result<(), ShellFault>
    requires sound { IsSound stream.old }
    requires keeps { Keeps book.old (opening_of engine.old) }
    ensures sound { IsSound stream.new }
    ensures read { OnOk result (IsRead stream.new) }
    ensures serves { ServesClosed (view_of D.leaves D.moment D.might_have_left D.honest D.faults) manner.form (opening_of engine.old) (opening_of engine.new) stream.old stream.new (fault_of result) (W.written sink.old) (W.written sink.new) }
    ensures keeps { Keeps book.new (opening_of engine.new) }
    ensures own { IsOfServing (fault_of result) }
    ensures fault { result ≡ Err ShellFault.Write → CountRose (W.faults sink.old) (W.faults sink.new) }
    ensures steady { result ≢ Err ShellFault.Write → W.faults sink.new ≡ W.faults sink.old }
    ensures unread { result ≢ Err ShellFault.Read }
    ensures refused { result ≡ Err ShellFault.Refused → IsTrue manner.stops }
{
    for _ in 0..u64::MAX {
        match stream.next() {
            Ok(Some(read)) => match serve_read(engine, book, alloc, manner, read, sink, notes) {
                Ok(()) => {}
                Err(fault) => return Err(fault),
            },
            Ok(None) => return Ok(()),
            Err(fault) => return Err(stopped(fault)),
        }
    }
    Err(ShellFault::Memory)
}

/// Serves the call of the text that the input leaves open, if there is one.
fn serve_open<W: Sink, N: Notes, D: Disk>(
    engine: &mut Engine<D>,
    book: &mut Book,
    alloc: Global,
    manner: Manner,
    open_call: Option<StreamCall>,
    sink: &mut W,
    notes: &mut N,
) -> Result<(), ShellFault>
    requires plain { IsPlain open_call }
    requires keeps { Keeps book.old (opening_of engine.old) }
    ensures serves { ServesCalls (view_of D.leaves D.moment D.might_have_left D.honest D.faults) manner.form (opening_of engine.old) (opening_of engine.new) (open_calls open_call) (fault_of result) (W.written sink.old) (W.written sink.new) }
    ensures keeps { Keeps book.new (opening_of engine.new) }
    ensures own { IsOfServing (fault_of result) }
    ensures fault { result ≡ Err ShellFault.Write → CountRose (W.faults sink.old) (W.faults sink.new) }
    ensures steady { result ≢ Err ShellFault.Write → W.faults sink.new ≡ W.faults sink.old }
    ensures unread { result ≢ Err ShellFault.Read }
    ensures refused { result ≡ Err ShellFault.Refused → IsTrue manner.stops }
{
    match open_call {
        Some(read) => serve_read(engine, book, alloc, manner, read, sink, notes),
        None => Ok(()),
    }
}

/// Serves the Ends of the sessions.
fn serve_ends<W: Sink, N: Notes, D: Disk>(
    ends: Vec<ScriptCall>,
    engine: &mut Engine<D>,
    book: &mut Book,
    alloc: Global,
    manner: Manner,
    sink: &mut W,
    notes: &mut N,
) -> Result<(), ShellFault>
    requires readable { AllByRecursion (λ call. IsReadable call.request) ends.items }
    requires sessions { AllByRecursion IsOfASession ends.items }
    requires keeps { Keeps book.old (opening_of engine.old) }
    ensures serves { ServesCalls (view_of D.leaves D.moment D.might_have_left D.honest D.faults) manner.form (opening_of engine.old) (opening_of engine.new) ends.items (fault_of result) (W.written sink.old) (W.written sink.new) }
    ensures keeps { Keeps book.new (opening_of engine.new) }
    ensures own { IsOfServing (fault_of result) }
    ensures fault { result ≡ Err ShellFault.Write → CountRose (W.faults sink.old) (W.faults sink.new) }
    ensures steady { result ≢ Err ShellFault.Write → W.faults sink.new ≡ W.faults sink.old }
    ensures unread { result ≢ Err ShellFault.Read }
    ensures refused { result ≡ Err ShellFault.Refused → IsTrue manner.stops }
{
    for call in ends {
        match serve_call(engine, book, alloc, manner, call, 0, &[], sink, notes) {
            Ok(()) => {}
            Err(fault) => return Err(fault),
        }
    }
    Ok(())
}

/// Serves what the end of the input leaves: the call whose text it leaves open, and the Ends.
pub(crate) fn serve_end<W: Sink, N: Notes, D: Disk>(
    stream: CallStream,
    engine: &mut Engine<D>,
    book: &mut Book,
    alloc: Global,
    manner: Manner,
    sink: &mut W,
    notes: &mut N,
) -> Result<(), ShellFault>
    requires sound { IsSound stream }
    requires read { IsRead stream }
    requires keeps { Keeps book.old (opening_of engine.old) }
    ensures serves { ServesEnd (view_of D.leaves D.moment D.might_have_left D.honest D.faults) manner.form (opening_of engine.old) (opening_of engine.new) stream (fault_of result) (W.written sink.old) (W.written sink.new) }
    ensures keeps { Keeps book.new (opening_of engine.new) }
    ensures own { IsOfServing (fault_of result) }
    ensures fault { result ≡ Err ShellFault.Write → CountRose (W.faults sink.old) (W.faults sink.new) }
    ensures steady { result ≢ Err ShellFault.Write → W.faults sink.new ≡ W.faults sink.old }
    ensures unread { result ≢ Err ShellFault.Read }
    ensures refused { result ≡ Err ShellFault.Refused → IsTrue manner.stops }
{
    let StreamEnd { open_call, ends } = match stream.finish() {
        Ok(end) => end,
        Err(fault) => return Err(stopped(fault)),
    };
    match serve_open(engine, book, alloc, manner, open_call, sink, notes) {
        Ok(()) => serve_ends(ends.into_vec(), engine, book, alloc, manner, sink, notes),
        Err(fault) => {
            drop(ends);
            Err(fault)
        }
    }
}
