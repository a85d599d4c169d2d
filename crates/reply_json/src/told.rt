use crate::columns::TableNames;
use own_base::{Name, Place, SessionNo};

/// Which call a reply is to: its place in the history, its session and number, and the line of the input on which its text
/// begins; and what is needed to name columns: those of a SELECT's reply, and those of each table.
#[derive(Clone, Copy)]
pub struct Told<'a> {
    pub place: Option<Place>,
    pub session: SessionNo,
    pub call: u32,
    pub line: u64,
    pub columns: &'a [Name],
    pub tables: &'a [TableNames],
}
