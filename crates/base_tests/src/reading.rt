//! What is read off rows and schemas.
use own_base::{ColNo, ColumnSet, EdgeNo, Key, List, Name, Row, RowName, TableNo, Text, Value};
use own_model::{Edge, Schema, TableDef};
use row_reading::{
    cell, compare_key, compare_key_to, copied_cell, has_column, has_key, is_among, is_name,
    is_null, is_private, is_public, is_same_name, is_subject, key_of, literal_key, row_name,
};
use std::cmp::Ordering;
use std::process::Abort;

/// What stands in a column.
#[derive(Clone, Copy)]
enum Stands {
    Nothing,
    Number(i64),
    Words(&'static str),
}

fn value_of(rt: &(impl Abort + AllocGlobal), stands: Stands) -> Value {
    match stands {
        Stands::Nothing => Value::Null,
        Stands::Number(number) => Value::Int(number),
        Stands::Words(words) => Value::Text(Text::from_str(rt.alloc(), words).expect(rt, "memory")),
    }
}

/// The key that a value names.
fn named_key(rt: &(impl Abort + AllocGlobal), stands: Stands) -> Option<Key> {
    match stands {
        Stands::Nothing => None,
        Stands::Number(number) => Some(Key::Int(number)),
        Stands::Words(words) => {
            Some(Key::Text(Text::from_str(rt.alloc(), words).expect(rt, "memory")))
        }
    }
}

/// A row whose second column is its key.
fn row_of(rt: &(impl Abort + AllocGlobal), key: Stands) -> Row {
    let key = value_of(rt, key);
    let values = vec![in rt.alloc(); Value::Int(9), key].expect(rt, "memory");
    Row::from_values(List::from_vec(values))
}

/// A table whose second column is its key.
fn table(rt: &(impl Abort + AllocGlobal), subject: bool) -> TableDef {
    TableDef {
        name: Name::from_str(rt.alloc(), "t").expect(rt, "memory"),
        subject,
        key: ColNo(1),
        columns: List::new(rt.alloc()),
    }
}

/// A row's key and a key, and how the one stands to the other. NULL in a row counts as 0.
const ORDERS: [(Stands, Stands, Ordering); 9] = [
    (Stands::Number(5), Stands::Number(5), Ordering::Equal),
    (Stands::Number(-5), Stands::Number(5), Ordering::Less),
    (Stands::Number(7), Stands::Number(5), Ordering::Greater),
    (Stands::Number(5), Stands::Words(""), Ordering::Less),
    (Stands::Words(""), Stands::Number(5), Ordering::Greater),
    (Stands::Words("b"), Stands::Words("ab"), Ordering::Greater),
    (Stands::Words("a"), Stands::Words("a"), Ordering::Equal),
    (Stands::Nothing, Stands::Number(0), Ordering::Equal),
    (Stands::Nothing, Stands::Words("0"), Ordering::Less),
];

/// Whether a row's key stands so to another, by each call.
fn is_so(rt: &(impl Abort + AllocGlobal), case: &(Stands, Stands, Ordering)) -> bool {
    let (left, right, wanted) = *case;
    let definition = table(rt, false);
    let row = row_of(rt, left);
    let value = value_of(rt, right);
    let key = named_key(rt, right).expect(rt, "a key");
    let own = key_of(rt.alloc(), &definition, &row).expect(rt, "memory");
    own.compare(&key) == wanted
        && compare_key(&definition, &row, &key) == wanted
        && compare_key_to(&definition, &row, &value) == wanted
        && has_key(&definition, &row, &key) == wanted.is_eq()
}

#[test]
fn keys_of_rows_are_compared(rt: HostRuntime) {
    for case in &ORDERS {
        assert!(rt; is_so(&rt, case));
    }
}

/// Whether what stands in a column is read as that, and names the key that it is.
fn is_read(rt: &(impl Abort + AllocGlobal), stands: Stands) -> bool {
    let row = row_of(rt, stands);
    let value = value_of(rt, stands);
    let wanted = named_key(rt, stands);
    let copy = copied_cell(rt.alloc(), &row, ColNo(1)).expect(rt, "memory");
    let key = literal_key(rt.alloc(), Some(&value)).expect(rt, "memory");
    cell(&row, ColNo(1)) == Some(&value)
        && copy == value
        && is_null(&value) == wanted.is_none()
        && key == wanted
}

#[test]
fn cells_are_read(rt: HostRuntime) {
    for stands in [Stands::Nothing, Stands::Number(3), Stands::Words("x")] {
        assert!(rt; is_read(&rt, stands));
    }
}

#[test]
fn columns_that_are_not_there_are_null(rt: HostRuntime) {
    let row = row_of(&rt, Stands::Number(3));
    assert!(rt; cell(&row, ColNo(2)).is_none());
    assert!(rt; is_null(&copied_cell(rt.alloc(), &row, ColNo(2)).expect(&rt, "memory")));
    assert!(rt;
        literal_key(rt.alloc(), None)
            .expect(&rt, "memory")
            .is_none()
    );
}

/// Whether the row 5 of a table has its name, and no other.
fn is_named(rt: &(impl Abort + AllocGlobal)) -> bool {
    let definition = table(rt, false);
    let row = row_of(rt, Stands::Number(5));
    let name = row_name(rt.alloc(), TableNo(2), &definition, &row).expect(rt, "memory");
    let same = RowName {
        table: TableNo(2),
        key: Key::Int(5),
    };
    let other_table = RowName {
        table: TableNo(1),
        key: Key::Int(5),
    };
    let other_key = RowName {
        table: TableNo(2),
        key: Key::Int(6),
    };
    is_name(&name, &same) && !is_name(&name, &other_table) && !is_name(&name, &other_key)
}

/// Whether a name is the same as itself alone, and among names that have it alone.
fn is_found(rt: &(impl Abort + AllocGlobal)) -> bool {
    let name = Name::from_str(rt.alloc(), "owner").expect(rt, "memory");
    let other = Name::from_str(rt.alloc(), "owners").expect(rt, "memory");
    let first = Name::from_str(rt.alloc(), "a").expect(rt, "memory");
    let second = Name::from_str(rt.alloc(), "owner").expect(rt, "memory");
    let both = vec![in rt.alloc(); first, second].expect(rt, "memory");
    is_same_name(&name, &name)
        && !is_same_name(&name, &other)
        && is_among(&both, &name)
        && !is_among(&both, &other)
}

#[test]
fn names_are_compared(rt: HostRuntime) {
    assert!(rt; is_named(&rt));
    assert!(rt; is_found(&rt));
}

#[test]
fn sets_of_columns_are_read(rt: HostRuntime) {
    let set = ColumnSet(0x8000_0005);
    for column in 0..40 {
        assert!(rt;
            has_column(set, column) == matches!(column, 0 | 2 | 31),
            "{column}"
        );
    }
}

/// An edge up to the table 0.
fn edge(number: u32, lower: u32, owner: bool) -> Edge {
    Edge {
        number: EdgeNo(number),
        lower: TableNo(lower),
        upper: TableNo(0),
        holder: TableNo(lower),
        column: ColNo(0),
        owner,
        get: ColumnSet(0),
        del: ColumnSet(0),
        strike: false,
    }
}

/// A table of subjects, one that they own, and one whose rows they may see.
fn schema(rt: &(impl Abort + AllocGlobal)) -> Schema {
    let tables = vec![in rt.alloc(); table(rt, true), table(rt, false), table(rt, false)].expect(
        rt, "memory",
    );
    let edges = vec![in rt.alloc(); edge(0, 1, true), edge(1, 2, false)].expect(rt, "memory");
    Schema {
        tables: List::from_vec(tables),
        views: List::new(rt.alloc()),
        edges: List::from_vec(edges),
    }
}

#[test]
fn tables_are_told_apart(rt: HostRuntime) {
    let schema = schema(&rt);
    for table in 0..4 {
        assert!(rt; is_subject(&schema, table) == (table == 0));
        assert!(rt; is_private(&schema, table) == (table == 1));
        assert!(rt; is_public(&schema, table) == (table >= 2));
    }
}
