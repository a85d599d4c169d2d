use own_base::SessionNo;
use own_model::Request;

/// The text of a call, its session, whether a semicolon closes it, and what it asks for, once it was read.
#[derive(Drop)]
pub(crate) struct Unread<'a> {
    pub(crate) session: SessionNo,
    pub(crate) text: &'a str,
    pub(crate) closed: bool,
    /// None before the text is read, and where memory for that was refused.
    pub(crate) request: Option<Request>,
}
