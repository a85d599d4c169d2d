//! The texts of an input's calls, cut from it one after another.

ghost use Rattle.std.specs.Prelude.{◌≡◌, ◌≤◌, length, IfErr, IfOk, OnOk};
ghost use Rattle.own_model.specs.declared.limit.TheConstants.{INPUT_BYTES, INPUT_CALLS, SESSIONS};
ghost use Rattle.sql_reader.specs.scripts.Stretches.{call_of_text};
ghost use Rattle.sql_reader.specs.scripts.TextCalls.{IsFaultIn, IsTextFault, TakesText};
ghost use Rattle.parallel_reader.specs.Cut.{Cuts};

use crate::unread::Unread;
use own_base::SessionNo;
use own_model::{INPUT_CALLS, InputFault};
use sql_reader::{Ending, Stretch, next_stretch};
use std::alloc::Global;
use std::mem::drop;

/// Puts the text of a stretch last, if it has one.
fn add_text<'a>(
    unread: &mut Vec<Unread<'a>>,
    session: u8,
    stretch: &Stretch<'a>,
) -> Result<(), InputFault>
    requires some { 1 ≤ session }
    requires within { session ≤ SESSIONS }
    requires few { length unread.old.items ≤ INPUT_CALLS }
    requires short { length stretch.now.text.now ≤ INPUT_BYTES }
    requires start { stretch.now.start ≤ INPUT_BYTES }
    ensures taken { OnOk result (Cuts unread.old.items (call_of_text session stretch.now) unread.new.items) }
    ensures few { OnOk result (length unread.new.items ≤ INPUT_CALLS) }
    ensures err { IfErr result (λ fault. IsFaultIn (length unread.old.items) (call_of_text session stretch.now) fault) }
{
    if stretch.text.is_empty() {
        return Ok(());
    }
    if unread.len() == INPUT_CALLS as usize {
        return Err(InputFault::TooManyCalls(stretch.start as u32));
    }
    if unread.reserve(1).is_err() {
        return Err(InputFault::Memory);
    }
    unread.push_reserved(Unread {
        session: SessionNo(session),
        text: stretch.text,
        closed: stretch.ending.closes(),
        request: None,
    });
    Ok(())
}

/// The texts of the calls of an input, without the Ends of its sessions.
pub(crate) fn cut_texts(alloc: Global, text: &str) -> Result<Vec<Unread<'_>>, InputFault>
    requires { length text.now ≤ INPUT_BYTES }
    ensures ok { IfOk result (λ unread. TakesText Cuts text.now unread.items) }
    ensures err { IfErr result (λ fault. IsTextFault text.now fault) }
{
    let mut unread = Vec::new(alloc);
    let mut session = 1;
    let mut at = 0;
    loop {
        let stretch = next_stretch(text, at);
        if let Err(fault) = add_text(&mut unread, session, &stretch) {
            drop(unread);
            return Err(fault);
        }
        match stretch.ending {
            Ending::Semicolon => {}
            Ending::Session(named) => session = named,
            Ending::BadLine(line) => {
                drop(unread);
                return Err(InputFault::BadSession(line as u32));
            }
            Ending::End => return Ok(unread),
        }
        at = stretch.next;
    }
}
