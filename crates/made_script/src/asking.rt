//! Calls of the first session, put one behind the other.

ghost use Rattle.std.specs.Prelude.{◌≡◌, ◌<◌, ◌^◌, ◌+◌, [], ◌∷◌, ◌++◌, length, IfOk, OnOk};
ghost use Rattle.script_model.specs.Asked.{IsRead};
ghost use Rattle.made_script.specs.Asking.{AskMore};

use own_base::{Boxed, SessionNo};
use own_model::{Request, ScriptCall};
use sql_reader::{ReadFault, read_statement};
use std::alloc::{AllocError, Global};

/// What a text asks for.
fn request_of(alloc: Global, text: &str) -> Result<Request, AllocError>
    requires { length text.now < 2 ^ 32 }
    ensures { IfOk result (λ request. IsRead text.now request) }
{
    match read_statement(alloc, text) {
        Ok(statement) => Ok(Request::Run(Boxed::new(alloc, statement)?)),
        Err(ReadFault::Syntax(at)) => Ok(Request::Syntax(at)),
        Err(ReadFault::Limit(limit)) => Ok(Request::Limit(limit)),
        Err(ReadFault::Memory) => Err(AllocError),
    }
}

/// Puts a call with the session's next number last.
pub(crate) fn put(calls: &mut Vec<ScriptCall>, request: Request) -> Result<(), AllocError>
    requires { length calls.old.items < 2 ^ 31 }
    ensures { OnOk result (calls.new.items ≡ calls.old.items ++ record { session = record { 0 = 1 }; call = length calls.old.items + 1; request = request } ∷ []) }
{
    let call = calls.len() as u32 + 1;
    calls.push(ScriptCall {
        session: SessionNo(1),
        call,
        request,
    })?;
    Ok(())
}

/// Puts a call that asks for this text last.
pub(crate) fn ask(calls: &mut Vec<ScriptCall>, alloc: Global, text: &str) -> Result<(), AllocError>
    requires room { length calls.old.items < 2 ^ 31 }
    requires short { length text.now < 2 ^ 32 }
    ensures asks { OnOk result (AskMore calls.old.items (text.now ∷ []) calls.new.items) }
    ensures longer { OnOk result (length calls.new.items ≡ length calls.old.items + 1) }
{
    let request = request_of(alloc, text)?;
    put(calls, request)
}
