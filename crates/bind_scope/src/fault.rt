ghost use Rattle.std.specs.Prelude.{◌≡◌, IfOk};
ghost use Rattle.query_model.specs.Refused.{rank};
ghost use Rattle.bind_scope.specs.Reported.{reported};

use own_base::{MakeCopy, Name};
use own_model::{LimitName, Refusal};
use std::alloc::{AllocError, Global};

/// What is wrong with a statement. Its names are lent, so that a fault takes no memory until it is reported.
#[derive(Clone, Copy, Debug)]
pub enum Fault<'a> {
    NoTable(&'a Name),
    NoColumn(&'a Name),
    /// A value of this column is of another kind.
    WrongKind(&'a Name),
    Count { got: u32, wanted: u32 },
    NameTaken(&'a Name),
    BadSchema { rule: u32, name: &'a Name },
    /// UPDATE sets this primary key.
    KeyWrite(&'a Name),
    NotSubject(&'a Name),
    /// This column may not be NULL.
    NullValue(&'a Name),
    Limit(LimitName),
}

impl<'a> Fault<'a> {
    /// The place in the order of refusals.
    pub fn rank(&self) -> u8
        ensures { result ≡ rank (reported self.now) }
    {
        match self {
            Fault::NoTable(_) => 2,
            Fault::NoColumn(_) => 3,
            Fault::WrongKind(_) => 4,
            Fault::Count { .. } => 5,
            Fault::NameTaken(_) => 6,
            Fault::BadSchema { .. } => 7,
            Fault::KeyWrite(_) => 10,
            Fault::NotSubject(_) => 11,
            Fault::NullValue(_) => 12,
            Fault::Limit(_) => 25,
        }
    }

    /// The refusal that tells it.
    pub fn refusal(&self, alloc: Global) -> Result<Refusal, AllocError>
        ensures { IfOk result (λ refusal. refusal ≡ reported self.now) }
    {
        match self {
            Fault::NoTable(table) => Ok(Refusal::NoTable(table.copy(alloc)?)),
            Fault::NoColumn(column) => Ok(Refusal::NoColumn(column.copy(alloc)?)),
            Fault::WrongKind(column) => Ok(Refusal::WrongKind(column.copy(alloc)?)),
            Fault::Count { got, wanted } => Ok(Refusal::Count {
                got: *got,
                wanted: *wanted,
            }),
            Fault::NameTaken(name) => Ok(Refusal::NameTaken(name.copy(alloc)?)),
            Fault::BadSchema { rule, name } => Ok(Refusal::BadSchema {
                rule: *rule,
                name: name.copy(alloc)?,
            }),
            Fault::KeyWrite(column) => Ok(Refusal::KeyWrite(column.copy(alloc)?)),
            Fault::NotSubject(table) => Ok(Refusal::NotSubject(table.copy(alloc)?)),
            Fault::NullValue(column) => Ok(Refusal::NullValue(column.copy(alloc)?)),
            Fault::Limit(passed) => Ok(Refusal::Limit(*passed)),
        }
    }
}
