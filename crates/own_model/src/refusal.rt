use crate::limit::LimitName;
use own_base::{Key, Name, Place, SessionNo};

/// Why a call was refused, with what shows it.
#[derive(Debug, Drop)]
pub enum Refusal {
    /// No statement continues at this byte of the call's text.
    Syntax(u32),
    NoTable(Name),
    NoColumn(Name),
    /// A value of this column is of another kind.
    WrongKind(Name),
    Count {
        got: u32,
        wanted: u32,
    },
    NameTaken(Name),
    BadSchema {
        rule: u32,
        name: Name,
    },
    Cycle {
        table: Name,
        through: Name,
    },
    /// OWNS names a table that holds rows.
    HasRows(Name),
    /// UPDATE sets this primary key.
    KeyWrite(Name),
    NotSubject(Name),
    /// This column may not be NULL.
    NullValue(Name),
    /// The primary key is there.
    Duplicate {
        table: Name,
        key: Key,
    },
    /// A sum for this column leaves the range of INT.
    Range(Name),
    /// The call isn't lawful in a transaction.
    Inside,
    /// The call isn't lawful outside a transaction.
    Outside,
    /// This session has a transaction open.
    Busy(SessionNo),
    /// This session holds the row, or with no key the whole table.
    Conflict {
        session: SessionNo,
        table: Name,
        key: Option<Key>,
    },
    /// A GDPR FORGET at this place ended the transaction.
    Doomed(Place),
    /// There is no such subject.
    NoSubject {
        table: Name,
        key: Key,
    },
    /// Another row holds this row's value.
    Unique {
        table: Name,
        key: Key,
        column: Name,
    },
    /// The value names no row.
    Reference {
        table: Name,
        key: Key,
        column: Name,
    },
    /// The private row has no owner.
    Owner {
        table: Name,
        key: Key,
    },
    /// The commit's payload has that many bytes.
    TooBig(u64),
    Limit(LimitName),
    /// The disk failed in this call.
    Disk,
    /// The disk failed at this place.
    Down(Place),
    /// Memory was refused.
    Memory,
}
