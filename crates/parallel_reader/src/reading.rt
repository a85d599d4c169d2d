//! The texts of an input's calls, read side by side.

ghost use Rattle.std.specs.Prelude.{◌≡◌, ◌<◌, ◌≤◌, Ok, length, All, IfOk, IfErr};
ghost use Rattle.std.specs.List.{AllByRecursion};
ghost use Rattle.own_model.specs.declared.limit.TheConstants.{INPUT_CALLS};
ghost use Rattle.script_model.specs.Script.{IsScript};
ghost use Rattle.script_model.specs.Split.{IsOfASession};
ghost use Rattle.sql_reader.specs.InputFaults.{IsFaultOf};
ghost use Rattle.parallel_reader.specs.Read.{AreAsked, AreReadFrom, IsOfOne, IsReadFrom, IsShort, NumbersTexts};

use crate::cutting::cut_texts;
use crate::unread::Unread;
use own_base::SessionNo;
use own_model::{INPUT_BYTES, InputFault, Request, Script};
use sql_reader::{number_calls, request_of};
use std::alloc::{AllocError, Global};
use std::mem::{drop, replace};
use std::thread;
use std::thread::Threads;

/// Reads a text.
fn read_text(alloc: Global, unread: &mut Unread<'_>)
    requires { IsShort unread.old }
    ensures { IsReadFrom unread.old unread.new }
{
    let read = request_of(alloc, unread.text, unread.closed).ok();
    drop(replace(&mut unread.request, read));
}

/// Reads the texts side by side, by so many threads.
fn read_texts<Rt: Threads + Sync>(rt: &Rt, alloc: Global, unread: &mut [Unread<'_>], threads: usize)
    requires threads { 0 < threads }
    requires short { AllByRecursion IsShort unread.old }
    ensures { AreReadFrom unread.old unread.new }
{
    thread::for_each_mut(
        rt,
        unread,
        threads,
        &|_, one: &mut Unread<'_>|
            requires { IsShort one.now }
            ensures { IsReadFrom one.entry.now one.exit.now }
        { read_text(alloc, one) },
    );
}

/// By how many threads the texts are read: as many as the greatest number of a session, so that each of the sessions that are there
/// may have one.
fn threads_for(unread: &[Unread<'_>]) -> usize
    ensures { 0 < result }
{
    let greatest = unread.iter().map(|one| one.session.0).max();
    usize::from(greatest.unwrap_or(1).max(1))
}

/// Reads all texts of an input side by side.
fn read_all<'a, Rt: Threads + Sync>(
    rt: &Rt,
    alloc: Global,
    unread: Vec<Unread<'a>>,
) -> Vec<Unread<'a>>
    requires short { AllByRecursion IsShort unread.items }
    ensures { AreReadFrom unread.entry.items result.items }
{
    let mut unread = unread;
    let threads = threads_for(&unread);
    read_texts(rt, alloc, unread.as_mut_slice(), threads);
    unread
}

/// What the sessions ask for, where each text was read.
fn asked_by(alloc: Global, unread: Vec<Unread<'_>>) -> Result<Vec<(SessionNo, Request)>, AllocError>
    ensures { IfOk result (λ asked. AreAsked unread.entry.items asked.items) }
{
    let mut asked = Vec::with_capacity(alloc, unread.len())?;
    for one in unread {
        let Unread {
            session,
            request,
            ..
        } = one;
        match request {
            Some(request) => asked.push_reserved((session, request)),
            None => return Err(AllocError),
        }
    }
    Ok(asked)
}

/// The calls of the texts, where each was read.
fn number_texts(alloc: Global, unread: Vec<Unread<'_>>) -> Result<Script, AllocError>
    requires sessions { AllByRecursion IsOfOne unread.items }
    requires few { length unread.items ≤ INPUT_CALLS }
    ensures { IfOk result (λ script. NumbersTexts unread.entry.items script.calls) }
{
    let asked = asked_by(alloc, unread)?;
    number_calls(alloc, asked)
}

/// The calls of an input in its order, each numbered in its session, and after them an End for each session that has a call, by session
/// number; or why the input has none. Its texts are read side by side, by as many threads as the greatest number of a session; where
/// no thread can be made they are read one after another. Takes memory for the texts, for the calls, and for reading each.
pub fn read_in_parallel<Rt: Threads + Sync>(
    rt: &Rt,
    alloc: Global,
    bytes: &[u8],
) -> Result<Script, InputFault>
    ensures ok { IfOk result (λ script. IsScript bytes.now (Ok script.calls)) }
    // This follows from `ok`, and is what `split` asks for.
    ensures of_sessions { IfOk result (λ script. All IsOfASession script.calls) }
    // Out of memory aside, a fault is the input's; memory is taken only for an input that isn't too long and is text.
    ensures err { IfErr result (λ fault. IsFaultOf bytes.now fault) }
{
    if bytes.len() > INPUT_BYTES {
        return Err(InputFault::TooLong);
    }
    let text = match str::from_utf8(bytes) {
        Ok(text) => text,
        Err(error) => return Err(InputFault::NotText(error.valid_up_to() as u32)),
    };
    let unread = cut_texts(alloc, text)?;
    let read = read_all(rt, alloc, unread);
    match number_texts(alloc, read) {
        Ok(script) => Ok(script),
        Err(AllocError) => Err(InputFault::Memory),
    }
}
