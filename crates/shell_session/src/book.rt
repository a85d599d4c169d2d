ghost use Rattle.std.specs.Prelude.{◌≡◌, ◌≤◌, ◌||◌, false, length, if◌then◌else◌, is_some, true, None, Some, OnOk, OnErr, List as Seq};
ghost use Rattle.std.specs.List.{list_any};
ghost use Rattle.own_model.specs.declared.limit.TheConstants.{SESSIONS};
ghost use Rattle.history_model.specs.History.{is_disk, is_doomed, is_failure};
ghost use Rattle.reply_json.specs.declared.columns.TableNames.{TableNames as Named};
ghost use Rattle.shell_session.specs.Kept.{effect_by, effect_of, marked};
ghost use Rattle.shell_session.specs.Names.{table_names};

use crate::answering::Answer;
use crate::naming::schema_names;
use own_base::{List, SessionNo};
use own_model::{INPUT_BYTES, Refusal, Reply, Request, Schema, Statement};
use reply_json::TableNames;
use std::alloc::{AllocError, Global};

/// After so many calls, or bytes of their texts, the store is opened anew, so that its history is let go.
const RENEWED_AFTER_CALLS: u32 = 65_536;

/// What a shell keeps of the calls made: the names of tables and columns, once they were told; which sessions may be in a
/// transaction; whether the disk failed; and how many calls were made since the store was opened, and of how many bytes.
#[derive(Drop)]
pub(crate) struct Book {
    pub(crate) tables: Option<List<TableNames>>,
    pub(crate) marks: [bool; 16],
    pub(crate) failed: bool,
    calls: u32,
    bytes: usize,
}

/// What a call may do to the transaction of its session.
#[derive(Clone, Copy, Debug, PartialEq, Eq)]
pub(crate) enum Effect {
    Opens,
    Closes,
    Leaves,
}

/// What a request may do to the transaction of its session: a COMMIT, a ROLLBACK and an End leave it outside any, unless the disk
/// fails; a BEGIN may leave it in one.
pub(crate) fn effect_of(request: &Request) -> Effect
    ensures { result ≡ effect_of request.now }
{
    match request {
        Request::Run(statement) => match statement.get() {
            Statement::Begin => Effect::Opens,
            Statement::Commit | Statement::Rollback => Effect::Closes,
            _ => Effect::Leaves,
        },
        Request::End => Effect::Closes,
        Request::Syntax(_) | Request::Limit(_) => Effect::Leaves,
    }
}

/// The marks after a request of a session.
fn marked(mut marks: [bool; 16], session: SessionNo, effect: Effect) -> [bool; 16]
    requires some { 1 ≤ session.0 }
    requires within { session.0 ≤ SESSIONS }
    ensures { result ≡ marked marks session.0 effect }
{
    match effect {
        Effect::Opens => marks[session.0 as usize - 1] = true,
        Effect::Closes => marks[session.0 as usize - 1] = false,
        Effect::Leaves => {}
    }
    marks
}

/// Whether a session is marked.
fn has_mark(marks: &[bool; 16]) -> bool
    ensures { result ≡ list_any (λ mark. mark) marks.now }
{
    marks.iter().any(|mark| *mark)
}

/// Whether a reply tells a fault of the disk.
fn is_disk(reply: &Reply) -> bool
    ensures { result ≡ is_disk reply.now }
{
    matches!(reply, Reply::Refused(Refusal::Disk))
}

/// Whether a reply tells the doom of a transaction.
fn is_doomed(reply: &Reply) -> bool
    ensures { result ≡ is_doomed reply.now }
{
    matches!(reply, Reply::Refused(Refusal::Doomed(_)))
}

/// What a request may have done by its reply: a session that is told its doom is outside any transaction.
fn effect_by(effect: Effect, reply: &Reply) -> Effect
    ensures { result ≡ effect_by effect reply.now }
{
    if is_doomed(reply) {
        Effect::Closes
    } else {
        effect
    }
}

/// Whether a reply came for want of the disk.
fn is_failure(reply: &Reply) -> bool
    ensures { result ≡ is_failure reply.now }
{
    matches!(reply, Reply::Refused(Refusal::Disk | Refusal::Down(_)))
}

impl Book {
    /// Of no calls yet.
    pub(crate) fn new() -> Book
        ensures marks { length result.marks ≡ 16 }
        ensures failed { result.failed ≡ false }
        ensures tables { result.tables ≡ None }
    {
        Book {
            tables: None,
            marks: [false; 16],
            failed: false,
            calls: 0,
            bytes: 0,
        }
    }

    /// Whether the store is to be opened anew: it was asked for enough, no session is in a transaction, and the disk didn't fail.
    pub(crate) fn is_due(&self) -> bool
        ensures failed { result ≡ true → self.now.failed ≡ false }
        ensures marks { result ≡ true → list_any (λ mark. mark) self.now.marks ≡ false }
    {
        if self.failed || has_mark(&self.marks) {
            return false;
        }
        self.calls >= RENEWED_AFTER_CALLS || self.bytes >= INPUT_BYTES
    }

    /// The store was opened anew, or is to be left as it is for some time. The names are to be read again.
    pub(crate) fn begin_anew(&mut self)
        ensures marks { self.new.marks ≡ self.old.marks }
        ensures failed { self.new.failed ≡ self.old.failed }
        ensures tables { self.new.tables ≡ None }
    {
        self.tables = None;
        self.calls = 0;
        self.bytes = 0;
    }

    /// A call of a session, with such a request and a text of so many bytes, was answered.
    pub(crate) fn note(&mut self, bytes: usize, session: SessionNo, effect: Effect, answer: &Answer)
        requires some { 1 ≤ session.0 }
        requires within { session.0 ≤ SESSIONS }
        ensures marks { self.new.marks ≡ (if is_some answer.now.place then (if is_failure answer.now.reply then self.old.marks else marked self.old.marks session.0 (effect_by effect answer.now.reply)) else self.old.marks) }
        ensures failed { self.new.failed ≡ (self.old.failed || is_disk answer.now.reply) }
        ensures tables { self.new.tables ≡ self.old.tables }
    {
        self.calls = self.calls.saturating_add(1);
        self.bytes = self.bytes.saturating_add(bytes);
        self.failed = self.failed || is_disk(&answer.reply);
        if answer.place.is_some() && !is_failure(&answer.reply) {
            self.marks = marked(self.marks, session, effect_by(effect, &answer.reply));
        }
    }

    /// Where a table or a view may be there more the names are to be read again.
    pub(crate) fn note_names(&mut self, creates: bool)
        ensures tables { self.new.tables ≡ (if creates then None else self.old.tables) }
        ensures marks { self.new.marks ≡ self.old.marks }
        ensures failed { self.new.failed ≡ self.old.failed }
    {
        if creates {
            self.tables = None;
        }
    }

    /// Reads the names of a schema, unless they are known.
    pub(crate) fn read_names(&mut self, alloc: Global, schema: &Schema) -> Result<(), AllocError>
        ensures tables { OnOk result (((known : Seq Named) → self.old.tables ≡ Some known → known ≡ table_names schema.now) → self.new.tables ≡ Some (table_names schema.now)) }
        ensures unread { OnErr result (self.new.tables ≡ self.old.tables) }
        ensures marks { self.new.marks ≡ self.old.marks }
        ensures failed { self.new.failed ≡ self.old.failed }
    {
        if self.tables.is_none() {
            self.tables = Some(schema_names(alloc, schema)?);
        }
        Ok(())
    }

    /// The names that are known.
    pub(crate) fn names(&self) -> &[TableNames]
        ensures { (known : Seq Named) → self.now.tables ≡ Some known → result.now ≡ known }
    {
        match &self.tables {
            Some(tables) => tables.items(),
            None => &[],
        }
    }
}
