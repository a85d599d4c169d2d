ghost use Rattle.std.specs.Prelude.{◌≡◌, IfErr, IfOk, OnOk, Ok};
ghost use Rattle.script_model.specs.Script.{IsScript};
ghost use Rattle.sql_reader.specs.InputFaults.{IsFaultOf};
ghost use Rattle.store_top.specs.Ran.{LastFault};
ghost use Rattle.store_top.specs.Top.{IsUnread, ReadsScript};

use crate::served::TopFault;
use outer_world::{ReadAllFault, Source, read_all};
use own_model::{INPUT_BYTES, InputFault, Script, ScriptCall};
use parallel_reader::read_in_parallel;
use sql_reader::read_script;
use std::alloc::Global;
use std::thread::Threads;

/// The calls of a script, in no more memory than they need.
fn calls_of(script: Script) -> Vec<ScriptCall>
    ensures { result.items ≡ script.calls }
{
    let mut calls = script.calls.into_vec();
    calls.shrink_to_fit();
    calls
}

/// The calls of an input, which is given up once it is read: the calls hold what they need of it.
fn calls_in_turn(alloc: Global, bytes: Vec<u8>) -> Result<Vec<ScriptCall>, InputFault>
    ensures ok { IfOk result (λ calls. IsScript bytes.items (Ok calls.items)) }
    ensures err { IfErr result (λ fault. IsFaultOf bytes.items fault) }
{
    Ok(calls_of(read_script(alloc, &bytes)?))
}

/// The same, by a thread for each session.
fn calls_in_parallel<Rt: Threads + Sync>(
    rt: &Rt,
    alloc: Global,
    bytes: Vec<u8>,
) -> Result<Vec<ScriptCall>, InputFault>
    ensures ok { IfOk result (λ calls. IsScript bytes.items (Ok calls.items)) }
    ensures err { IfErr result (λ fault. IsFaultOf bytes.items fault) }
{
    Ok(calls_of(read_in_parallel(rt, alloc, &bytes)?))
}

/// Reads an input whole, and gives its calls; or why it couldn't be read, or has none.
pub(crate) fn read_calls<R: Source>(
    alloc: Global,
    source: &mut R,
) -> Result<Vec<ScriptCall>, TopFault>
    ensures read { IfOk result (λ calls. (script : ReadsScript (R.remaining source.old) (R.remaining source.new)) × (script.calls ≡ calls.items)) }
    ensures steady { OnOk result (R.faults source.new ≡ R.faults source.old) }
    ensures unread { IfErr result (λ fault. IsUnread R.remaining R.faults (LastFault R.faults R.fails source.old source.new) source.old source.new fault) }
{
    let bytes = match read_all(alloc, source, INPUT_BYTES + 1) {
        Ok(bytes) => bytes,
        Err(ReadAllFault::Failed) => return Err(TopFault::Read),
        Err(ReadAllFault::Memory) => return Err(TopFault::Memory),
    };
    match calls_in_turn(alloc, bytes) {
        Ok(calls) => Ok(calls),
        Err(InputFault::Memory) => Err(TopFault::Memory),
        Err(fault) => Err(TopFault::Input(fault)),
    }
}

/// The same, where the calls are read by a thread for each session.
pub(crate) fn read_calls_in_parallel<Rt: Threads + Sync, R: Source>(
    rt: &Rt,
    alloc: Global,
    source: &mut R,
) -> Result<Vec<ScriptCall>, TopFault>
    ensures read { IfOk result (λ calls. (script : ReadsScript (R.remaining source.old) (R.remaining source.new)) × (script.calls ≡ calls.items)) }
    ensures steady { OnOk result (R.faults source.new ≡ R.faults source.old) }
    ensures unread { IfErr result (λ fault. IsUnread R.remaining R.faults (LastFault R.faults R.fails source.old source.new) source.old source.new fault) }
{
    let bytes = match read_all(alloc, source, INPUT_BYTES + 1) {
        Ok(bytes) => bytes,
        Err(ReadAllFault::Failed) => return Err(TopFault::Read),
        Err(ReadAllFault::Memory) => return Err(TopFault::Memory),
    };
    match calls_in_parallel(rt, alloc, bytes) {
        Ok(calls) => Ok(calls),
        Err(InputFault::Memory) => Err(TopFault::Memory),
        Err(fault) => Err(TopFault::Input(fault)),
    }
}
