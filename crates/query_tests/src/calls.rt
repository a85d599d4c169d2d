//! Calls over a small store, as texts.

use crate::created::table_of;
use crate::selects::reply_to;
use crate::small::Small;
use crate::within::{are_tables_within, are_views_within, is_select_within, is_statement_within};
use own_base::{List, Row, SessionNo, TableNo, Text};
use own_model::{Bound, BoundSelect, CreateTable, CreateView, Refusal, Reply, Statement};
use plan_bind::{bind, bind_view};
use sql_print::print_reply;
use sql_reader::read_statement;
use std::mem::{drop, replace};
use std::process::Abort;

/// What a statement means over the schema of a small store.
pub fn bound(
    rt: &(impl Abort + AllocGlobal),
    small: &Small,
    statement: &Statement,
) -> Result<Bound, Refusal> {
    let schema = &small.schema;
    assert!(rt; are_tables_within(schema) && are_views_within(schema));
    assert!(rt; is_statement_within(statement));
    bind(rt.alloc(), schema, statement)
}

/// Adds a view, or tells why it is refused.
fn create_view(rt: &(impl Abort + AllocGlobal), small: &mut Small, create: &CreateView) -> Reply {
    let schema = &mut small.schema;
    assert!(rt; are_tables_within(schema) && are_views_within(schema));
    assert!(rt; is_select_within(&create.select));
    match bind_view(rt.alloc(), schema, create) {
        Ok(view) => {
            schema.views.add(view).expect(rt, "memory");
            Reply::Done
        }
        Err(refusal) => Reply::Refused(refusal),
    }
}

/// Gives a table its rows.
pub fn put_rows(rt: &impl Abort, small: &mut Small, table: TableNo, rows: List<Row>) {
    let held = small.rows.get_mut(table.0 as usize).expect(rt, "a table");
    drop(replace(held, rows));
}

/// Gives a table the rows of an INSERT.
fn fill(rt: &impl Abort, small: &mut Small, table: TableNo, rows: List<Row>) -> Reply {
    let count = rows.items().len() as u64;
    put_rows(rt, small, table, rows);
    Reply::Counted(count)
}

/// The reply to a bound select.
fn answer(rt: &(impl Abort + AllocGlobal), small: &Small, query: BoundSelect) -> Reply {
    let reply = reply_to(rt, small, &query);
    drop(query);
    reply
}

/// The reply to a bound statement. Only selects and INSERTs are run.
fn run_bound(rt: &(impl Abort + AllocGlobal), small: &mut Small, bound: Bound) -> Reply {
    match bound {
        Bound::Select(query) => answer(rt, small, query),
        Bound::Insert { table, rows } => fill(rt, small, table, rows),
        bound => {
            drop(bound);
            Reply::Done
        }
    }
}

/// The reply to a statement other than a CREATE.
fn bind_and_run(
    rt: &(impl Abort + AllocGlobal),
    small: &mut Small,
    statement: &Statement,
) -> Reply {
    match bound(rt, small, statement) {
        Ok(bound) => run_bound(rt, small, bound),
        Err(refusal) => Reply::Refused(refusal),
    }
}

/// Adds a table without rows.
fn create_table(rt: &(impl Abort + AllocGlobal), small: &mut Small, create: &CreateTable) -> Reply {
    let table = table_of(rt, create);
    small.schema.tables.add(table).expect(rt, "memory");
    small.rows.push(List::new(rt.alloc())).expect(rt, "memory");
    Reply::Done
}

/// The reply to a statement.
fn run(rt: &(impl Abort + AllocGlobal), small: &mut Small, statement: &Statement) -> Reply {
    match statement {
        Statement::CreateTable(create) => create_table(rt, small, create),
        Statement::CreateView(create) => create_view(rt, small, create.get()),
        _ => bind_and_run(rt, small, statement),
    }
}

/// The statement that a text is.
pub fn read(rt: &(impl Abort + AllocGlobal), text: &str) -> Statement {
    assert!(rt; text.len() < 10000);
    read_statement(rt.alloc(), text).expect(rt, "memory")
}

/// The lines of a reply to the first call of session 1.
fn lines_of(rt: &(impl Abort + AllocGlobal), reply: Reply) -> Text {
    let lines = print_reply(rt.alloc(), None, SessionNo(1), 1, &reply).expect(rt, "memory");
    drop(reply);
    lines
}

/// The reply to a text.
fn reply(rt: &(impl Abort + AllocGlobal), small: &mut Small, text: &str) -> Reply {
    let statement = read(rt, text);
    let reply = run(rt, small, &statement);
    drop(statement);
    reply
}

/// Adds the line of this number of a reply.
fn add_line(rt: &impl Abort, text: &mut String, number: usize, line: &str) {
    text.push_str(if number == 0 { "- 1.1 " } else { "  " })
        .expect(rt, "memory");
    text.push_str(line).expect(rt, "memory");
    text.push('\n').expect(rt, "memory");
}

/// The lines of a reply, as a row has them: each row of it stands behind ` / `.
fn reply_lines(rt: &(impl Abort + AllocGlobal), wanted: &str) -> String {
    let mut text = String::new(rt.alloc());
    for (number, line) in wanted.split(" / ").enumerate() {
        add_line(rt, &mut text, number, line);
    }
    text
}

/// The two parts of a row, before and behind ` => `. A remark has none.
pub fn parts<'a>(rt: &impl Abort, row: &'a str) -> Option<(&'a str, &'a str)> {
    if row.starts_with("--") {
        None
    } else {
        Some(row.split_once(" => ").expect(rt, "a reply"))
    }
}

/// Compares the reply to a statement with the one that a row has.
pub fn check_reply(rt: &(impl Abort + AllocGlobal), text: &str, reply: Reply, wanted: &str) {
    let lines = lines_of(rt, reply);
    let wanted = reply_lines(rt, wanted);
    assert_eq!(rt; lines.as_str(), wanted.as_str(), "{text}");
}

/// One row of a table: a statement and its reply.
fn check_call(rt: &(impl Abort + AllocGlobal), small: &mut Small, text: &str, wanted: &str) {
    let reply = reply(rt, small, text);
    check_reply(rt, text, reply, wanted)
}

/// Makes the calls of a table, one behind the other.
pub fn check_calls(rt: &(impl Abort + AllocGlobal), small: &mut Small, rows: &str) {
    for row in rows.split('\n') {
        if let Some((text, wanted)) = parts(rt, row) {
            check_call(rt, small, text, wanted);
        }
    }
}

/// The calls of some tables, over one small store.
pub fn check_tables(rt: &(impl Abort + AllocGlobal), tables: &[&str]) {
    let mut small = Small::new(rt.alloc());
    for rows in tables {
        check_calls(rt, &mut small, rows);
    }
    drop(small);
}
