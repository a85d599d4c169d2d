use own_base::{List, Place, SessionNo, Text};

/// What is told of a call.
#[derive(Debug, Drop)]
pub struct Told {
    /// Its number in its session.
    pub call: u32,
    /// Its place in the history; none where memory was refused and the call wasn't made.
    pub place: Option<Place>,
    /// Whether it was answered with a fault of the disk.
    pub failed: bool,
    /// Its lines; none where memory for them was refused.
    pub lines: Option<Text>,
}

/// What is told of the calls of one session, in their order.
#[derive(Debug, Drop)]
pub struct SessionReplies {
    pub session: SessionNo,
    pub replies: List<Told>,
}
