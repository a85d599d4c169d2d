//! Tables, rows and changes that tests make.

use own_base::{Change, ColNo, Key, List, Name, Row, RowName, TableNo, Value};
use own_model::{Column, Kind, RefKind, TableDef};
use std::process::Abort;

/// The number of the table.
pub const TABLE: TableNo = TableNo(0);

/// Its columns: the primary key, one that is UNIQUE, one that refers to the table itself, and one that is neither.
pub const UNIQUE: ColNo = ColNo(1);

pub const REFERS: ColNo = ColNo(2);

/// A column of numbers.
fn column(name: Name, unique: bool, refers: Option<(RefKind, TableNo)>) -> Column {
    Column {
        name,
        kind: Kind::Int,
        not_null: false,
        unique,
        refers,
    }
}

/// A table of four columns of numbers.
pub fn definition(rt: &(impl Abort + AllocGlobal)) -> TableDef {
    let id = column(
        Name::from_str(rt.alloc(), "id").expect(rt, "memory"),
        false,
        None,
    );
    let code = column(
        Name::from_str(rt.alloc(), "code").expect(rt, "memory"),
        true,
        None,
    );
    let link = Some((RefKind::Plain, TABLE));
    let above = column(
        Name::from_str(rt.alloc(), "above").expect(rt, "memory"),
        false,
        link,
    );
    let n = column(
        Name::from_str(rt.alloc(), "n").expect(rt, "memory"),
        false,
        None,
    );
    let columns = vec![in rt.alloc(); id, code, above, n].expect(rt, "memory");
    TableDef {
        name: Name::from_str(rt.alloc(), "parts").expect(rt, "memory"),
        subject: false,
        key: ColNo(0),
        columns: List::from_vec(columns),
    }
}

/// A number, or NULL.
fn value(number: Option<i64>) -> Value {
    match number {
        Some(number) => Value::Int(number),
        None => Value::Null,
    }
}

/// What stands in the UNIQUE column of a row, in the one that refers, and in the last.
pub type Cells = (Option<i64>, Option<i64>, i64);

/// The row of a key, where there is one.
fn row(rt: &(impl Abort + AllocGlobal), key: i64, cells: Option<Cells>) -> Option<Row> {
    let (code, above, n) = cells?;
    let values = vec![in rt.alloc();
        Value::Int(key),
        value(code),
        value(above),
        Value::Int(n),
    ].expect(rt, "memory");
    let row = Row::from_values(List::from_vec(values));
    Some(row.into_shared(rt.alloc()).expect(rt, "memory"))
}

/// A change of the row of a key.
pub fn change(
    rt: &(impl Abort + AllocGlobal),
    key: i64,
    before: Option<Cells>,
    after: Option<Cells>,
) -> Change {
    Change {
        name: RowName {
            table: TABLE,
            key: Key::Int(key),
        },
        before: row(rt, key, before),
        after: row(rt, key, after),
    }
}
