use crate::condition::Cond;
use crate::create::{CreateTable, CreateView};
use crate::expression::Expr;
use crate::select::Select;
use own_base::{Boxed, Key, List, Name, Value};

/// A statement as it is read: names folded to lower case, optional words left out. Its large parts lie on the heap, each
/// behind one pointer, so that a history of many small statements stays small.
#[derive(Debug, Drop)]
pub enum Statement {
    CreateTable(CreateTable),
    CreateView(Boxed<CreateView>),
    Insert {
        table: Name,
        columns: Option<List<Name>>,
        rows: List<List<Value>>,
    },
    Update {
        table: Name,
        sets: List<(Name, Expr)>,
        cond: Option<Boxed<Cond>>,
    },
    Delete {
        table: Name,
        cond: Option<Boxed<Cond>>,
    },
    Select(Boxed<Select>),
    Begin,
    Commit,
    Rollback,
    GdprGet {
        table: Name,
        key: Key,
    },
    GdprForget {
        table: Name,
        key: Key,
    },
    Explain,
    Checkpoint,
}

/// What a statement takes besides the lists and texts of its parts, in bytes.
const _: () = prove!(size_of::<Statement>() == 72);
