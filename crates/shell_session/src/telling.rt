ghost use Rattle.std.specs.Prelude.{◌≡◌, ◌≢◌, Err, OnOk, OnErr, option_map};
ghost use Rattle.outer_world.specs.FaultCount.{CountRose};
ghost use Rattle.shell_session.specs.Served.{IsOfServing, fault_of};
ghost use Rattle.shell_session.specs.Told.{HasWritten, told_text};

use crate::ending::ShellFault;
use crate::manner::Form;
use outer_world::{Failed, Sink, write_all};
use own_model::Reply;
use reply_json::{Told, json_line};
use sql_print::print_reply;
use std::alloc::{AllocError, Global};

/// Writes bytes.
fn write_bytes<W: Sink>(sink: &mut W, bytes: &[u8]) -> Result<(), ShellFault>
    ensures written { HasWritten result (W.written sink.old) (W.written sink.new) bytes.now }
    ensures fault { OnErr result (CountRose (W.faults sink.old) (W.faults sink.new)) }
    ensures steady { OnOk result (W.faults sink.new ≡ W.faults sink.old) }
    ensures kind { OnErr result (result ≡ Err ShellFault.Write) }
{
    match write_all(sink, bytes) {
        Ok(()) => Ok(()),
        Err(Failed) => Err(ShellFault::Write),
    }
}

/// Writes the lines of a reply.
fn write_lines<W: Sink>(
    alloc: Global,
    told: &Told<'_>,
    reply: &Reply,
    sink: &mut W,
) -> Result<(), ShellFault>
    ensures written { HasWritten result (W.written sink.old) (W.written sink.new) (told_text Form.Lines (option_map (λ place. place.0) told.now.place) told.now.session.0
        told.now.call told.now.line told.now.columns.now told.now.tables.now reply.now) }
    ensures fault { result ≡ Err ShellFault.Write → CountRose (W.faults sink.old) (W.faults sink.new) }
    ensures steady { result ≢ Err ShellFault.Write → W.faults sink.new ≡ W.faults sink.old }
    ensures unread { result ≢ Err ShellFault.Read }
    ensures lawful { result ≢ Err ShellFault.Refused }
    ensures own { IsOfServing (fault_of result) }
{
    match print_reply(alloc, told.place, told.session, told.call, reply) {
        Ok(text) => write_bytes(sink, text.bytes()),
        Err(AllocError) => Err(ShellFault::Memory),
    }
}

/// Writes a reply as a line of JSON.
fn write_json<W: Sink>(
    alloc: Global,
    told: &Told<'_>,
    reply: &Reply,
    sink: &mut W,
) -> Result<(), ShellFault>
    ensures written { HasWritten result (W.written sink.old) (W.written sink.new) (told_text Form.Json (option_map (λ place. place.0) told.now.place) told.now.session.0
        told.now.call told.now.line told.now.columns.now told.now.tables.now reply.now) }
    ensures fault { result ≡ Err ShellFault.Write → CountRose (W.faults sink.old) (W.faults sink.new) }
    ensures steady { result ≢ Err ShellFault.Write → W.faults sink.new ≡ W.faults sink.old }
    ensures unread { result ≢ Err ShellFault.Read }
    ensures lawful { result ≢ Err ShellFault.Refused }
    ensures own { IsOfServing (fault_of result) }
{
    match json_line(alloc, told, reply) {
        Ok(line) => write_bytes(sink, line.as_bytes()),
        Err(AllocError) => Err(ShellFault::Memory),
    }
}

/// Writes a reply.
pub(crate) fn tell<W: Sink>(
    alloc: Global,
    form: Form,
    told: &Told<'_>,
    reply: &Reply,
    sink: &mut W,
) -> Result<(), ShellFault>
    ensures written { HasWritten result (W.written sink.old) (W.written sink.new) (told_text form (option_map (λ place. place.0) told.now.place) told.now.session.0
        told.now.call told.now.line told.now.columns.now told.now.tables.now reply.now) }
    ensures fault { result ≡ Err ShellFault.Write → CountRose (W.faults sink.old) (W.faults sink.new) }
    ensures steady { result ≢ Err ShellFault.Write → W.faults sink.new ≡ W.faults sink.old }
    ensures unread { result ≢ Err ShellFault.Read }
    ensures lawful { result ≢ Err ShellFault.Refused }
    ensures own { IsOfServing (fault_of result) }
{
    match form {
        Form::Lines => write_lines(alloc, told, reply, sink),
        Form::Json => write_json(alloc, told, reply, sink),
    }
}
