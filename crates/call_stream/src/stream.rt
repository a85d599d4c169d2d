//! A stream: bytes go in as they come, and calls come out.

ghost use Rattle.std.specs.Prelude.{◌≡◌, ◌<◌, ◌≤◌, ◌^◌, ◌+◌, None, ◌++◌, [], ℕ, List as Seq, true, false, length, drop, slice_index, slice_set, ◌-◌, if◌then◌else◌, IfNone, IfOk, IfErr, MatchOption, OnOk, OnErr, is_some};
ghost use Rattle.std.specs.List.{AllByRecursion};
ghost use Rattle.std.specs.Str.{IsCharBoundary};
ghost use Rattle.own_model.specs.declared.limit.TheConstants.{SESSIONS};
ghost use Rattle.own_model.specs.declared.script.ScriptCall.{ScriptCall as Called};
ghost use Rattle.script_model.specs.CallText.{CallText};
ghost use Rattle.script_model.specs.Session.{session_of as session_named};
ghost use Rattle.script_model.specs.Numbered.{numbered_after};
ghost use Rattle.sql_reader.specs.scripts.Counts.{AreCounted};
ghost use Rattle.sql_reader.specs.scripts.TextCalls.{ends_after};
ghost use Rattle.call_stream.specs.Given.{HasAllClosed, IsEndFault, IsFaultMet};
ghost use Rattle.call_stream.specs.Scans.{IsMet};
ghost use Rattle.call_stream.specs.Stretches.{IsCallIn, IsCallFault, IsReadFault, IsRead as IsReadOf, IsSessionAfter, has_begun, line_of, session_open};
ghost use Rattle.call_stream.specs.Taken.{HasEnd, IsEndsFault, IsLastFault, IsLastRead, IsEndFaultAt, IsNamedLast, HasNext, HasPassed, HasTaken, IsPlain, IsPlainCall, IsPlainEnd, IsRead, IsSound, GivesUp, IsPushFault, count_now, ends_at, pending};

use crate::call::{StreamCall, StreamEnd};
use crate::fault::StreamFault;
use crate::lines::line_feeds;
use crate::scan::{Closing, Scan};
use crate::session_line::session_of;
use crate::stretch::Read;
use own_base::{List, SessionNo, Text};
use own_model::{Request, SESSIONS, ScriptCall};
use sql_reader::request_of;
use std::alloc::{AllocError, Global};

/// The most bytes that a stream takes.
pub const STREAM_BYTES: u64 = 4_611_686_018_427_387_904;

/// The most bytes that it holds of texts whose calls aren't given.
pub const HELD_BYTES: usize = 4_294_967_295;

/// Bytes that came in and aren't given up, and what came before them.
#[derive(Drop)]
pub struct CallStream {
    alloc: Global,
    held: Vec<u8>,
    /// How many of those are given up with the next piece.
    from: usize,
    /// How far the bytes after them are gone over.
    scan: Scan,
    /// How many bytes, and how many ends of lines, come before those.
    before: u64,
    lines: u64,
    session: u8,
    counts: [u32; 16],
}

/// No session has had a call.
fn no_counts() -> [u32; 16]
    ensures { AreCounted result [] }
{
    [0; 16]
}

/// The session has had a call more, if there was one.
fn with_call(mut counts: [u32; 16], session: u8, called: bool) -> [u32; 16]
    requires some { 1 ≤ session }
    requires within { session ≤ SESSIONS }
    requires room { called ≡ true → slice_index counts (session - 1) < 4294967295 }
    ensures { result ≡ (if called then slice_set counts (session - 1) (slice_index counts (session - 1) + 1) else counts) }
{
    if called {
        counts[session as usize - 1] += 1;
    }
    counts
}

/// Puts the End of a session last that has had that many calls, if it has had any.
fn add_end(
    ends: &mut List<ScriptCall>,
    session: u8,
    count: u32,
    length: u64,
) -> Result<(), StreamFault>
    ensures ok { OnOk result (ends.new ≡ ends.old ++ ends_at session count) }
    ensures err { IfErr result (λ fault. IsEndFaultAt count fault) }
{
    if count == 0 {
        return Ok(());
    }
    if count == u32::MAX {
        return Err(StreamFault::TooManyCalls(length));
    }
    match ends.add(ScriptCall {
        session: SessionNo(session),
        call: count + 1,
        request: Request::End,
    }) {
        Ok(()) => Ok(()),
        Err(AllocError) => Err(StreamFault::Memory),
    }
}

/// An End for each session that has a call, by session number.
fn ends_of(alloc: Global, counts: &[u32; 16], length: u64) -> Result<List<ScriptCall>, StreamFault>
    ensures ok { IfOk result (λ ends. (calls : Seq Called) → AreCounted counts.now calls → calls ++ ends ≡ calls ++ numbered_after calls (ends_after calls)) }
    ensures plain { IfOk result (λ ends. AllByRecursion IsPlainCall ends) }
    ensures err { IfErr result (λ fault. IsEndsFault counts.now fault) }
{
    let mut ends = List::new(alloc);
    for session in 1..=SESSIONS {
        match add_end(&mut ends, session, counts[session as usize - 1], length) {
            Ok(()) => {}
            Err(fault) => {
                std::mem::drop(ends);
                return Err(fault);
            }
        }
    }
    Ok(ends)
}

/// Gives up that many bytes at the front. Takes no memory.
fn drop_front(held: &mut Vec<u8>, from: usize)
    requires { from ≤ length held.old.items }
    ensures { held.new.items ≡ drop from held.old.items }
{
    let left = held.len() - from;
    held.rotate_left(from);
    held.truncate(left);
}

impl CallStream {
    /// Nothing came in yet. Takes no memory.
    pub fn new(alloc: Global) -> CallStream
        ensures sound { IsSound result }
        ensures taken { HasTaken result [] [] [] }
        ensures read { IsRead result }
    {
        let held = Vec::new(alloc);
        let scan = Scan::new(true);
        let counts = no_counts();
        CallStream {
            alloc,
            held,
            from: 0,
            scan,
            before: 0,
            lines: 0,
            session: 1,
            counts,
        }
    }

    /// Takes a piece in, of any length. Where it can't, the stream has taken nothing.
    pub fn push(&mut self, piece: &[u8]) -> Result<(), StreamFault>
        requires { IsSound self.old }
        ensures sound { IsSound self.new }
        ensures taken { OnOk result ((bytes : Seq ℕ) (texts : Seq CallText) (calls : Seq Called) → HasTaken self.old bytes texts calls → HasTaken self.new (bytes ++ piece.now) texts calls) }
        ensures unchanged { OnErr result ((bytes : Seq ℕ) (texts : Seq CallText) (calls : Seq Called) → HasTaken self.old bytes texts calls → HasTaken self.new bytes texts calls) }
        ensures err { IfErr result (λ fault. IsPushFault self.old piece.now fault) }
    {
        let left = self.held.len() - self.from;
        if piece.len() > HELD_BYTES - left {
            return Err(StreamFault::TooLong);
        }
        if piece.len() as u64 > STREAM_BYTES - self.before - left as u64 {
            return Err(StreamFault::TooLong);
        }
        drop_front(&mut self.held, self.from);
        self.from = 0;
        self.held.extend_from_slice(piece)?;
        Ok(())
    }

    /// The call of the text that stands between two places of a stretch, if they are two.
    fn call_of(
        &self,
        text: &str,
        start: usize,
        end: usize,
        closed: bool,
    ) -> Result<Option<StreamCall>, StreamFault>
        requires sound { IsSound self.now }
        requires short { length text.now < 2 ^ 32 }
        requires order { start ≤ end }
        requires start_boundary { IsCharBoundary text.now start }
        requires end_boundary { IsCharBoundary text.now end }
        ensures ok { IfOk result (λ call. IsCallIn text.now start end self.now.lines self.now.session (count_now self.now) closed call) }
        ensures err { IfErr result (λ fault. IsCallFault start end self.now.before (count_now self.now) fault) }
    {
        if start == end {
            return Ok(None);
        }
        let count = self.counts[self.session as usize - 1];
        if count == u32::MAX {
            return Err(StreamFault::TooManyCalls(self.before + start as u64));
        }
        let line = self.lines + line_feeds(&text.as_bytes()[..start]) + 1;
        let own = &text[start..end];
        let kept = Text::from_str(self.alloc, own)?;
        let request = request_of(self.alloc, own, closed)?;
        let call = ScriptCall {
            session: SessionNo(self.session),
            call: count + 1,
            request,
        };
        Ok(Some(StreamCall {
            call,
            line,
            text: kept,
        }))
    }

    /// The session that calls belong to after what closes a text.
    fn session_after(&self, closing: Closing) -> Result<u8, StreamFault>
        requires sound { IsSound self.now }
        requires met { IsMet (pending self.now) self.now.scan closing }
        ensures ok { IfOk result (λ session. IsSessionAfter (pending self.now) self.now.scan self.now.session closing session × (1 ≤ session) × (session ≤ SESSIONS)) }
        ensures err { IfErr result (λ fault. (closing ≡ Closing.Session) × (session_named (line_of (pending self.now) self.now.scan) ≡ None) × (fault ≡ StreamFault.BadSession (self.now.before + self.now.scan.piece))) }
    {
        match closing {
            Closing::Semicolon => Ok(self.session),
            Closing::Session => {
                let bytes = &self.held[self.from..];
                match session_of(self.scan.line_of(bytes)) {
                    Some(session) => Ok(session),
                    None => Err(StreamFault::BadSession(self.before + self.scan.piece() as u64)),
                }
            }
        }
    }

    /// Reads the stretch that is gone over, where it is closed.
    fn read(&self, closing: Closing) -> Result<Read, StreamFault>
        requires sound { IsSound self.now }
        requires met { IsMet (pending self.now) self.now.scan closing }
        ensures ok { IfOk result (λ read. IsReadOf (pending self.now) self.now.scan self.now.lines self.now.session (count_now self.now) closing read) }
        ensures err { IfErr result (λ fault. IsReadFault (pending self.now) self.now.scan self.now.before (count_now self.now) closing fault) }
    {
        let bytes = &self.held[self.from..];
        let next = self.scan.next(closing);
        let text = match str::from_utf8(&bytes[..next]) {
            Ok(text) => text,
            Err(error) => return Err(StreamFault::NotText(
                self.before + error.valid_up_to() as u64,
            )),
        };
        let session = self.session_after(closing)?;
        let call = self.call_of(text, self.scan.start(), self.scan.end(), closing.closes())?;
        Ok(Read {
            next,
            session,
            call,
        })
    }

    /// Gives up that many bytes, with the call that they were.
    fn give_up(&mut self, next: usize, session: u8, called: bool)
        requires sound { IsSound self.old }
        requires some { 1 ≤ session }
        requires session_within { session ≤ SESSIONS }
        requires within { next ≤ length (pending self.old) }
        requires room { called ≡ true → count_now self.old < 4294967295 }
        ensures sound { IsSound self.new }
        ensures gives_up { GivesUp self.old self.new next session called }
    {
        let counts = with_call(self.counts, self.session, called);
        let feeds = line_feeds(&self.held[self.from..self.from + next]);
        let scan = Scan::new(false);
        self.lines += feeds;
        self.before += next as u64;
        self.from += next;
        self.scan = scan;
        self.session = session;
        self.counts = counts;
    }

    /// Goes on to what closes the next text.
    fn seek(&mut self) -> Option<Closing>
        requires { IsSound self.old }
        ensures sound { IsSound self.new }
        ensures same { pending self.new ≡ pending self.old }
        ensures taken { (bytes : Seq ℕ) (texts : Seq CallText) (calls : Seq Called) → HasTaken self.old bytes texts calls → HasTaken self.new bytes texts calls }
        ensures met { MatchOption result (IsRead self.new) (λ closing. IsMet (pending self.new) self.new.scan closing) }
        ensures all { IfNone result ((bytes : Seq ℕ) (texts : Seq CallText) (calls : Seq Called) → HasTaken self.old bytes texts calls → HasAllClosed bytes texts) }
    {
        match self.scan.go_on(&self.held[self.from..]) {
            Some(closing) => Some(closing),
            None => None,
        }
    }

    /// Passes the stretch that is closed, and gives its call, if it has one.
    fn take(&mut self, closing: Closing) -> Result<Option<StreamCall>, StreamFault>
        requires sound { IsSound self.old }
        requires met { IsMet (pending self.old) self.old.scan closing }
        ensures sound { IsSound self.new }
        ensures ok { IfOk result (λ found. (bytes : Seq ℕ) (texts : Seq CallText) (calls : Seq Called) → HasTaken self.old bytes texts calls → HasPassed self.new bytes texts calls found) }
        ensures plain { IfOk result (λ found. IsPlain found) }
        ensures shorter { OnOk result (length (pending self.new) < length (pending self.old)) }
        ensures err { IfErr result (λ fault. (bytes : Seq ℕ) (texts : Seq CallText) (calls : Seq Called) → HasTaken self.old bytes texts calls → HasTaken self.new bytes texts calls × IsFaultMet bytes calls fault) }
    {
        let read = match self.read(closing) {
            Ok(read) => read,
            Err(fault) => return Err(fault),
        };
        self.give_up(read.next, read.session, read.call.is_some());
        let Read { call, .. } = read;
        Ok(call)
    }

    /// The next call that the bytes so far close.
    pub fn next(&mut self) -> Result<Option<StreamCall>, StreamFault>
        requires { IsSound self.old }
        ensures sound { IsSound self.new }
        ensures ok { IfOk result (λ found. (bytes : Seq ℕ) (texts : Seq CallText) (calls : Seq Called) → HasTaken self.old bytes texts calls → HasNext self.new bytes texts calls found) }
        ensures read { IfOk result (λ found. is_some found ≡ false → IsRead self.new) }
        // What follows from `ok`: each call is of a session, and asks for what can be read.
        ensures plain { IfOk result (λ found. IsPlain found) }
        // So a loop over all calls ends.
        ensures shorter { IfOk result (λ found. is_some found ≡ true → length (pending self.new) < length (pending self.old)) }
        ensures err { IfErr result (λ fault. (bytes : Seq ℕ) (texts : Seq CallText) (calls : Seq Called) → HasTaken self.old bytes texts calls → HasTaken self.new bytes texts calls × IsFaultMet bytes calls fault) }
    {
        'calls: loop {
            let closing = match self.seek() {
                Some(closing) => closing,
                None => return Ok(None),
            };
            let found = match self.take(closing) {
                Ok(found) => found,
                Err(fault) => return Err(fault),
            };
            if found.is_some() {
                return Ok(found);
            }
        }
    }

    /// A call's text has begun that isn't closed, as far as the bytes are gone over: all of them after `next` gave none.
    pub fn is_open(&self) -> bool
        ensures { result ≡ has_begun self.now.scan }
    {
        self.scan.has_begun()
    }

    /// The session line at the end, if there is one, names a session.
    fn last_line(&self) -> Result<(), StreamFault>
        requires sound { IsSound self.now }
        requires read { IsRead self.now }
        ensures ok { OnOk result (IsNamedLast self.now) }
        ensures err { IfErr result (λ fault. (session_open (pending self.now) self.now.scan ≡ true) × (session_named (line_of (pending self.now) self.now.scan) ≡ None) × (fault ≡ StreamFault.BadSession (self.now.before + self.now.scan.piece))) }
    {
        let bytes = &self.held[self.from..];
        if !self.scan.ends_in_session(bytes) {
            return Ok(());
        }
        match session_of(self.scan.line_of(bytes)) {
            Some(_) => Ok(()),
            None => Err(StreamFault::BadSession(self.before + self.scan.piece() as u64)),
        }
    }

    /// The call of the text that the end of the input leaves, if there is one.
    fn last_call(&self) -> Result<Option<StreamCall>, StreamFault>
        requires sound { IsSound self.now }
        requires read { IsRead self.now }
        ensures ok { IfOk result (λ call. IsLastRead self.now call) }
        ensures err { IfErr result (λ fault. IsLastFault self.now fault) }
    {
        let bytes = &self.held[self.from..];
        let text = match str::from_utf8(bytes) {
            Ok(text) => text,
            Err(error) => return Err(StreamFault::NotText(
                self.before + error.valid_up_to() as u64,
            )),
        };
        if let Err(fault) = self.last_line() {
            return Err(fault);
        }
        let last = self.scan.last(bytes);
        match self.call_of(text, last.start(), last.end(), false) {
            Ok(call) => Ok(call),
            Err(fault) => Err(fault),
        }
    }

    /// What is left where the input ends: the call of the open text, and the Ends.
    pub fn finish(self) -> Result<StreamEnd, StreamFault>
        requires sound { IsSound self }
        requires read { IsRead self }
        ensures ok { IfOk result (λ end. (bytes : Seq ℕ) (texts : Seq CallText) (calls : Seq Called) → HasTaken self bytes texts calls → HasEnd bytes calls end) }
        ensures plain { IfOk result (λ end. IsPlainEnd end) }
        ensures err { IfErr result (λ fault. (bytes : Seq ℕ) (texts : Seq CallText) (calls : Seq Called) → HasTaken self bytes texts calls → IsEndFault bytes calls fault) }
    {
        let open_call = match self.last_call() {
            Ok(call) => call,
            Err(fault) => return Err(fault),
        };
        let counts = with_call(self.counts, self.session, open_call.is_some());
        let length = self.before + (self.held.len() - self.from) as u64;
        match ends_of(self.alloc, &counts, length) {
            Ok(ends) => Ok(StreamEnd { open_call, ends }),
            Err(fault) => {
                std::mem::drop(open_call);
                Err(fault)
            }
        }
    }
}
