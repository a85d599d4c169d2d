//! The calls of a script, session by session.

ghost use Rattle.std.specs.Prelude.{◌≡◌, ◌<◌, [], ◌∷◌, ◌++◌, length, map, All, IfOk, OnOk};
ghost use Rattle.own_model.specs.declared.limit.TheConstants.{SESSIONS};
ghost use Rattle.script_model.specs.Session.{sessions};
ghost use Rattle.script_model.specs.Split.{IsOfASession, split};
ghost use Rattle.sql_reader.specs.scripts.Lists.{lists_of};

use own_base::{List, SessionNo};
use own_model::{Request, SESSIONS, Script, ScriptCall, SessionCalls};
use std::alloc::{AllocError, Global};

/// A list for each session.
type Lists = Vec<List<(u32, Request)>>;

/// An empty list for each session.
fn empty_lists(alloc: Global) -> Result<Lists, AllocError>
    ensures { IfOk result (λ lists. lists.items ≡ lists_of []) }
{
    let mut lists = Vec::new(alloc);
    for _session in 1..=SESSIONS {
        lists.push(List::new(alloc))?;
    }
    Ok(lists)
}

/// Moves each call to the list of its session. Where memory is refused, the calls that are left are given up.
fn deal(calls: Vec<ScriptCall>, lists: &mut Lists) -> Result<(), AllocError>
    requires sessions { All IsOfASession calls.items }
    requires empty { lists.old.items ≡ lists_of [] }
    ensures { OnOk result (lists.new.items ≡ lists_of calls.items) }
{
    for call in calls {
        let place = call.session.0 as usize - 1;
        lists[place].add((call.call, call.request))?;
    }
    Ok(())
}

/// Puts the calls of a session last, if it has any.
fn gather(
    sessions: &mut List<SessionCalls>,
    session: u8,
    calls: List<(u32, Request)>,
) -> Result<(), AllocError>
    ensures none { length calls ≡ 0 → OnOk result (sessions.new ≡ sessions.old) }
    ensures some { 0 < length calls → OnOk result (sessions.new ≡ sessions.old ++ record { session = record { 0 = session }; calls = calls } ∷ []) }
{
    if calls.items().is_empty() {
        return Ok(());
    }
    sessions.add(SessionCalls {
        session: SessionNo(session),
        calls,
    })
}

/// The calls of each session that has one.
fn split_calls(alloc: Global, calls: Vec<ScriptCall>) -> Result<List<SessionCalls>, AllocError>
    requires { All IsOfASession calls.items }
    ensures { IfOk result (λ sessions. sessions ≡ split calls.items) }
{
    let mut lists = empty_lists(alloc)?;
    deal(calls, &mut lists)?;
    let mut sessions = List::new(alloc);
    let mut session = 1;
    for calls in lists {
        gather(&mut sessions, session, calls)?;
        session += 1;
    }
    Ok(sessions)
}

/// What has calls of sessions, and can be split by them.
pub trait Split {
    ghost use Rattle.std.specs.Prelude.{List as Seq};
    ghost use Rattle.own_model.specs.declared.script.ScriptCall.{ScriptCall as Call};

    ghost calls: { Self → Seq Call };

    /// The calls of each session that has one, by session number, and each session's in their order. Where memory is
    /// refused, the calls are given up.
    fn split(self, alloc: Global) -> Result<List<SessionCalls>, AllocError>
        requires { All IsOfASession (calls self) }
        ensures { IfOk result (λ sessions. sessions ≡ split (calls self)) };
}

impl Split for Script {
    ghost calls = { λ script. script.calls };

    fn split(self, alloc: Global) -> Result<List<SessionCalls>, AllocError> {
        split_calls(alloc, self.calls.into_vec())
    }
}
