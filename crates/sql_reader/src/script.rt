//! The script of an input: the calls of its sessions.

ghost use Rattle.std.specs.Prelude.{◌≡◌, ◌<◌, ◌≤◌, ◌^◌, ◌++◌, Ok, Err, length, map, All, IfOk, IfErr, OnOk};
ghost use Rattle.std.specs.List.{AllByRecursion};
ghost use Rattle.own_model.specs.declared.limit.TheConstants.{INPUT_BYTES, INPUT_CALLS, SESSIONS};
ghost use Rattle.script_model.specs.Numbered.{calls_of, numbered_after};
ghost use Rattle.script_model.specs.Script.{IsScript};
ghost use Rattle.script_model.specs.Split.{IsOfASession};
ghost use Rattle.sql_reader.specs.InputFaults.{IsFaultOf};
ghost use Rattle.sql_reader.specs.scripts.Counts.{asking_of, IsOfOne};
ghost use Rattle.sql_reader.specs.scripts.Stretches.{call_of_text};
ghost use Rattle.sql_reader.specs.scripts.TextCalls.{Takes, IsFaultIn, HasTextCalls, IsTextFault, ends_after};

use crate::calls::Calls;
use crate::stretch::{Ending, Stretch, next_stretch};
use own_base::SessionNo;
use own_model::{INPUT_BYTES, INPUT_CALLS, InputFault, Request, SESSIONS, Script};
use std::alloc::{AllocError, Global};
use std::mem::drop;

/// Puts the call of a stretch last, if it has one.
fn add_call(
    alloc: Global,
    calls: &mut Calls,
    session: u8,
    stretch: &Stretch<'_>,
) -> Result<(), InputFault>
    requires some { 1 ≤ session }
    requires within { session ≤ SESSIONS }
    requires few { length calls.old.list.items ≤ INPUT_CALLS }
    requires short { length stretch.now.text.now ≤ INPUT_BYTES }
    requires start { stretch.now.start ≤ INPUT_BYTES }
    ensures taken { OnOk result (Takes calls.old.list.items (call_of_text session stretch.now) calls.new.list.items) }
    ensures few { OnOk result (length calls.new.list.items ≤ INPUT_CALLS) }
    ensures err { IfErr result (λ fault. IsFaultIn (length calls.old.list.items) (call_of_text session stretch.now) fault) }
{
    if stretch.text.is_empty() {
        return Ok(());
    }
    if calls.len() == INPUT_CALLS as usize {
        return Err(InputFault::TooManyCalls(stretch.start as u32));
    }
    let closed = stretch.ending.closes();
    match calls.add_text(alloc, session, stretch.text, closed) {
        Ok(()) => Ok(()),
        Err(AllocError) => Err(InputFault::Memory),
    }
}

/// The calls of a text, without the Ends of its sessions.
fn read_calls(alloc: Global, text: &str) -> Result<Calls, InputFault>
    requires { length text.now ≤ INPUT_BYTES }
    ensures ok { IfOk result (λ calls. HasTextCalls text.now calls.list.items) }
    ensures err { IfErr result (λ fault. IsTextFault text.now fault) }
{
    let mut calls = Calls::new(alloc);
    let mut session = 1;
    let mut at = 0;
    loop {
        let stretch = next_stretch(text, at);
        if let Err(fault) = add_call(alloc, &mut calls, session, &stretch) {
            drop(calls);
            return Err(fault);
        }
        match stretch.ending {
            Ending::Semicolon => {}
            Ending::Session(named) => session = named,
            Ending::BadLine(line) => {
                drop(calls);
                return Err(InputFault::BadSession(line as u32));
            }
            Ending::End => return Ok(calls),
        }
        at = stretch.next;
    }
}

/// Puts an End last for each session that has a call, by session number.
fn add_ends(calls: &mut Calls) -> Result<(), AllocError>
    requires { length calls.old.list.items ≤ INPUT_CALLS }
    ensures { OnOk result (calls.new.list.items ≡ calls.old.list.items ++ numbered_after calls.old.list.items (ends_after calls.old.list.items)) }
{
    for session in 1..=SESSIONS {
        if calls.count(session) > 0 {
            calls.add_end(session)?;
        }
    }
    Ok(())
}

/// What sessions ask for, one after another, as calls: each numbered in its session, and after them an End for each session that
/// has one, by session number. Takes memory for the calls.
pub fn number_calls(alloc: Global, asked: Vec<(SessionNo, Request)>) -> Result<Script, AllocError>
    requires sessions { AllByRecursion IsOfOne asked.items }
    requires few { length asked.items ≤ INPUT_CALLS }
    ensures { IfOk result (λ script. script.calls ≡ calls_of (map asking_of asked.items)) }
{
    let mut calls = Calls::new(alloc);
    for (session, request) in asked {
        calls.add_request(session.0, request)?;
    }
    add_ends(&mut calls)?;
    Ok(Script {
        calls: calls.into_list(),
    })
}

/// The calls of an input in its order, each numbered in its session, and after them an End for each session that has a
/// call, by session number; or why the input has none. Takes memory for the calls, and for reading each.
pub fn read_script(alloc: Global, bytes: &[u8]) -> Result<Script, InputFault>
    ensures ok { IfOk result (λ script. IsScript bytes.now (Ok script.calls)) }
    // This follows from `ok`, and is what `split` asks for.
    ensures of_sessions { IfOk result (λ script. All IsOfASession script.calls) }
    // Out of memory aside, a fault is the input's; memory is taken only for an input that isn't too long and is text.
    ensures err { IfErr result (λ fault. IsFaultOf bytes.now fault) }
{
    if bytes.len() > INPUT_BYTES {
        return Err(InputFault::TooLong);
    }
    let text = match str::from_utf8(bytes) {
        Ok(text) => text,
        Err(error) => return Err(InputFault::NotText(error.valid_up_to() as u32)),
    };
    let mut calls = read_calls(alloc, text)?;
    match add_ends(&mut calls) {
        Ok(()) => Ok(Script {
            calls: calls.into_list(),
        }),
        Err(AllocError) => {
            drop(calls);
            Err(InputFault::Memory)
        }
    }
}
