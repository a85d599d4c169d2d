/// The most bytes of a call's text.
pub const STATEMENT_BYTES: usize = 65_536;

/// The most levels of `(` and NOT that are open at a place of a condition.
pub const NESTING_LEVELS: usize = 64;

/// The most bytes of a text literal's value.
pub const TEXT_BYTES: usize = 4096;

/// The most items of a select.
pub const SELECT_ITEMS: usize = 64;

/// The most columns of a table.
pub const TABLE_COLUMNS: usize = 32;

/// The most tables.
pub const TABLES: usize = 64;

/// The most views.
pub const VIEWS: usize = 32;

/// The most rows of a SELECT's answer.
pub const REPLY_ROWS: u64 = 1_000_000;

/// The most rows of all tables.
pub const STORE_ROWS: u64 = 1_000_000;

/// The greatest weight of all rows and views.
pub const STORE_WEIGHT: u64 = 1_073_741_824;

/// The greatest epoch, number of commits and end of a journal.
pub const JOURNAL_ROOM: u64 = 4_611_686_018_427_387_904;

/// The most sessions; they are numbered from 1.
pub const SESSIONS: u8 = 16;

/// The most bytes of an input.
pub const INPUT_BYTES: usize = 67_108_864;

/// The most calls of an input, the End of each session not counted.
pub const INPUT_CALLS: u32 = 200_000;

/// The most bytes of a commit's payload.
pub const PAYLOAD_BYTES: u64 = 16_777_216;

/// A limit of the store. A count is refused exactly where it is greater than the limit's number.
#[derive(Clone, Copy, Debug, PartialEq, Eq)]
pub enum LimitName {
    /// Bytes of a call's text, `STATEMENT_BYTES`.
    Statement,
    /// Levels of `(` and NOT in a condition, `NESTING_LEVELS`.
    Nesting,
    /// Bytes of a text literal's value, `TEXT_BYTES`.
    Text,
    /// Items of a select, `SELECT_ITEMS`.
    Items,
    /// Bytes of a name, `NAME_BYTES`.
    Name,
    /// Columns of a table, `TABLE_COLUMNS`.
    Columns,
    /// Tables, `TABLES`.
    Tables,
    /// Views, `VIEWS`.
    Views,
    /// Rows of a SELECT's answer, `REPLY_ROWS`.
    Reply,
    /// Rows of all tables, `STORE_ROWS`.
    Rows,
    /// The weight of all rows and views, `STORE_WEIGHT`.
    Weight,
    /// The greatest epoch, number of commits and end of a journal, `JOURNAL_ROOM`.
    Room,
}
