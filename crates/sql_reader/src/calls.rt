//! The calls of an input so far, numbered in their sessions.

ghost use Rattle.std.specs.Prelude.{◌≡◌, ◌<◌, ◌≤◌, ◌^◌, ◌+◌, [], ◌∷◌, ◌++◌, length, nat_lt, slice_index, vec_len, vec_capacity, IfOk, OnOk, OnErr};
ghost use Rattle.own_model.specs.declared.limit.TheConstants.{SESSIONS, STATEMENT_BYTES};
ghost use Rattle.own_model.specs.declared.request.Request.TheVariants as request;
ghost use Rattle.script_model.specs.Asked.{IsAskedWhere};
ghost use Rattle.script_model.specs.Numbered.{call_after, count_of};
ghost use Rattle.sql_reader.specs.scripts.Counts.{AreCounted, AddsText, asking};

use crate::fault::ReadFault;
use crate::names::Names;
use crate::read::read_sharing;
use own_base::{Boxed, List, SessionNo};
use own_model::{LimitName, Request, STATEMENT_BYTES, ScriptCall};
use std::alloc::{AllocError, Global};
use std::mem::drop;

/// The calls so far, and how many of them each session has.
#[derive(Drop)]
pub struct Calls {
    list: Vec<ScriptCall>,
    counts: [u32; 16],
    /// The names in their statements.
    names: Names,
    ghost counted: { AreCounted counts list.items },
}

/// What a text asks for, by whether it is closed. Its names are shared with those of the texts before.
fn request_sharing(
    alloc: Global,
    text: &str,
    closed: bool,
    names: &mut Names,
) -> Result<Request, AllocError>
    requires { length text.now < 2 ^ 32 }
    ensures { IfOk result (λ request. IsAskedWhere closed (nat_lt STATEMENT_BYTES (length text.now)) text.now request) }
{
    if !closed {
        return Ok(Request::Syntax(text.len() as u32));
    }
    if text.len() > STATEMENT_BYTES {
        return Ok(Request::Limit(LimitName::Statement));
    }
    match read_sharing(alloc, text, names) {
        Ok(statement) => Ok(Request::Run(Boxed::new(alloc, statement)?)),
        Err(ReadFault::Syntax(at)) => Ok(Request::Syntax(at)),
        Err(ReadFault::Limit(limit)) => Ok(Request::Limit(limit)),
        Err(ReadFault::Memory) => Err(AllocError),
    }
}

/// What a text asks for, by whether it is closed. Takes memory for its tokens and its statement.
pub fn request_of(alloc: Global, text: &str, closed: bool) -> Result<Request, AllocError>
    requires { length text.now < 2 ^ 32 }
    ensures { IfOk result (λ request. IsAskedWhere closed (nat_lt STATEMENT_BYTES (length text.now)) text.now request) }
{
    let mut names = Names::new(alloc);
    let request = request_sharing(alloc, text, closed, &mut names);
    drop(names);
    request
}

/// Puts what a session asks for last, with the session's next number.
fn put(list: &mut Vec<ScriptCall>, counts: &mut [u32; 16], session: u8, request: Request)
    requires counted { AreCounted counts.old list.old.items }
    requires some { 1 ≤ session }
    requires within { session ≤ SESSIONS }
    requires few { length list.old.items < 2 ^ 31 }
    requires room { vec_len list.old < vec_capacity list.old }
    ensures added { list.new.items ≡ list.old.items ++ call_after list.old.items (asking session request) ∷ [] }
    ensures counted { AreCounted counts.new list.new.items }
{
    let place = session as usize - 1;
    let call = counts[place] + 1;
    counts[place] = call;
    list.push_reserved(ScriptCall {
        session: SessionNo(session),
        call,
        request,
    });
}

impl Calls {
    /// No calls. Takes no memory.
    pub fn new(alloc: Global) -> Calls
        ensures { result.list.items ≡ [] }
    {
        Calls {
            list: Vec::new(alloc),
            counts: [0; 16],
            names: Names::new(alloc),
        }
    }

    /// How many calls there are.
    pub fn len(&self) -> usize
        ensures { result ≡ length self.now.list.items }
    {
        self.list.len()
    }

    /// How many of the calls are the session's.
    pub fn count(&self, session: u8) -> u32
        requires some { 1 ≤ session }
        requires within { session ≤ SESSIONS }
        ensures { result ≡ count_of session self.now.list.items }
    {
        self.counts[session as usize - 1]
    }

    /// Puts the call of a text last.
    pub fn add_text(
        &mut self,
        alloc: Global,
        session: u8,
        text: &str,
        closed: bool,
    ) -> Result<(), AllocError>
        requires some { 1 ≤ session }
        requires within { session ≤ SESSIONS }
        requires few { length self.old.list.items < 2 ^ 31 }
        requires short { length text.now < 2 ^ 32 }
        ensures added { OnOk result (AddsText session closed text.now self.old.list.items self.new.list.items) }
        ensures unchanged { OnErr result (self.new.list.items ≡ self.old.list.items) }
    {
        self.list.reserve(1)?;
        let request = request_sharing(alloc, text, closed, &mut self.names)?;
        put(&mut self.list, &mut self.counts, session, request);
        Ok(())
    }

    /// Puts what a session asks for last.
    pub fn add_request(&mut self, session: u8, request: Request) -> Result<(), AllocError>
        requires some { 1 ≤ session }
        requires within { session ≤ SESSIONS }
        requires few { length self.old.list.items < 2 ^ 31 }
        ensures added { OnOk result (self.new.list.items ≡ self.old.list.items ++ call_after self.old.list.items (asking session request) ∷ []) }
    {
        self.list.reserve(1)?;
        put(&mut self.list, &mut self.counts, session, request);
        Ok(())
    }

    /// Puts the session's End last.
    pub fn add_end(&mut self, session: u8) -> Result<(), AllocError>
        requires some { 1 ≤ session }
        requires within { session ≤ SESSIONS }
        requires few { length self.old.list.items < 2 ^ 31 }
        ensures added { OnOk result (self.new.list.items ≡ self.old.list.items ++ call_after self.old.list.items (asking session request.End) ∷ []) }
        ensures unchanged { OnErr result (self.new.list.items ≡ self.old.list.items) }
    {
        self.list.reserve(1)?;
        put(&mut self.list, &mut self.counts, session, Request::End);
        Ok(())
    }

    /// The calls as a list.
    pub fn into_list(self) -> List<ScriptCall>
        ensures { result ≡ self.list.items }
    {
        let Calls {
            list,
            counts: _,
            names,
        } = self;
        drop(names);
        List::from_vec(list)
    }
}
