use crate::refusal::Refusal;
use own_base::{List, Name, Place, Row, SessionNo, Text, Value};

/// The answer to a call.
#[derive(Debug, Drop)]
pub enum Reply {
    /// CREATE, BEGIN, COMMIT, ROLLBACK or CHECKPOINT was done.
    Done,
    /// INSERT put, or UPDATE or DELETE met, that many rows.
    Counted(u64),
    /// The rows of a SELECT.
    Rows(List<Row>),
    /// What a GDPR GET shows.
    Got(List<GotRow>),
    /// A GDPR FORGET removed that many rows, and changed that many of those that stay.
    Forgot { removed: u32, changed: u32 },
    /// The lines of EXPLAIN COMPLIANCE.
    Graph(List<Text>),
    /// The session has ended.
    Ended,
    /// Nothing was done, for this cause.
    Refused(Refusal),
}

/// A row that GDPR GET shows.
#[derive(Debug, Drop)]
pub struct GotRow {
    pub table: Name,
    pub cells: List<Cell>,
}

/// A value that GDPR GET shows or hides.
#[derive(Debug, Drop)]
pub enum Cell {
    Shown(Value),
    Hidden,
}

/// The replies to one session's calls, in order: each call's number, its place, if it has one, and its reply.
#[derive(Debug, Drop)]
pub struct SessionReplies {
    pub session: SessionNo,
    pub replies: List<(u32, Option<Place>, Reply)>,
}
