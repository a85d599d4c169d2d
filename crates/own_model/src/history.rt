use crate::request::Request;
use own_base::SessionNo;

/// How a call that reaches the disk went there.
#[derive(Clone, Copy, Debug, PartialEq, Eq)]
pub enum Verdict {
    /// The disk was not needed, or took it.
    Took,
    /// The disk failed.
    DiskFault,
    /// It would have passed the limit room.
    NoRoom,
}

/// One event of the store's history: which session's which call asked for what.
#[derive(Debug, Drop)]
pub struct Entry {
    pub session: SessionNo,
    pub verdict: Verdict,
    pub call: u32,
    pub request: Request,
}

/// What an entry takes besides its statement, in bytes.
const _: () = prove!(size_of::<Entry>() == 24);
