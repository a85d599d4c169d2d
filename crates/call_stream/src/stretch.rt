use crate::call::StreamCall;

/// What is read of a stretch that is closed: the byte after it, the session that calls belong to from there on, and its
/// call, if it has one.
#[derive(Debug, Drop)]
pub struct Read {
    pub next: usize,
    pub session: u8,
    pub call: Option<StreamCall>,
}
