ghost use Rattle.std.specs.Prelude.{◌≡◌, ◌<◌, length, OnOk};
ghost use Rattle.own_model.specs.declared.limit.TheConstants.{NESTING_LEVELS};
ghost use Rattle.grammar_model.specs.Limits.{store_limits};
ghost use Rattle.sql_reader.specs.reading.Reader.{Does};
ghost use Rattle.sql_reader.specs.reading.Create as rules;
ghost use Rattle.sql_reader.specs.reading.Reader.{next_is};

use crate::cursor::Cursor;
use crate::fault::RuleFault;
use crate::list::list_of_one;
use crate::rule::{bracketed_names, one_name};
use crate::select::query;
use own_base::{Boxed, List, Name};
use own_model::{Attr, ColumnDef, CreateTable, CreateView, Kind, Part, RefDef, RefKind, Statement};
use std::alloc::Global;

/// The kind of a reference.
#[tactic(auto, unfolding(crate::specs::reading::Create::ref_kind))]
fn ref_kind(cursor: &mut Cursor) -> Result<RefKind, RuleFault>
    ensures does { Does rules.ref_kind cursor.old result cursor.new }
    ensures shorter { OnOk result (length cursor.new < length cursor.old) }
{
    if cursor.next_is_word(b"REFERENCES") {
        cursor.word(b"REFERENCES")?;
        if cursor.next_is_word(b"ONLY") {
            cursor.word(b"ONLY")?;
        }
        return Ok(RefKind::Plain);
    }
    if cursor.next_is_word(b"OWNED_BY") {
        cursor.word(b"OWNED_BY")?;
        return Ok(RefKind::OwnedBy);
    }
    if cursor.next_is_word(b"OWNS") {
        cursor.word(b"OWNS")?;
        return Ok(RefKind::Owns);
    }
    if cursor.next_is_word(b"ACCESSED_BY") {
        cursor.word(b"ACCESSED_BY")?;
        return Ok(RefKind::AccessedBy);
    }
    cursor.word(b"ACCESSES")?;
    Ok(RefKind::Accesses)
}

/// A reference.
#[tactic(auto, unfolding(crate::specs::reading::Create::refers))]
fn refers(cursor: &mut Cursor, alloc: Global) -> Result<RefDef, RuleFault>
    ensures does { Does (rules.refers store_limits) cursor.old result cursor.new }
    ensures shorter { OnOk result (length cursor.new < length cursor.old) }
{
    let kind = ref_kind(cursor)?;
    let table = cursor.name(alloc)?;
    let column = one_name(cursor, alloc)?;
    Ok(RefDef {
        kind,
        table,
        column,
    })
}

/// What stands after a column and its kind.
#[tactic(auto, unfolding(crate::specs::reading::Create::attr_rule))]
fn attr(cursor: &mut Cursor, alloc: Global) -> Result<Attr, RuleFault>
    ensures does { Does (rules.attr_rule store_limits) cursor.old result cursor.new }
    ensures shorter { OnOk result (length cursor.new < length cursor.old) }
{
    if cursor.next_is_word(b"PRIMARY") {
        cursor.word(b"PRIMARY")?;
        cursor.word(b"KEY")?;
        return Ok(Attr::Key);
    }
    if cursor.next_is_word(b"NOT") {
        cursor.word(b"NOT")?;
        cursor.word(b"NULL")?;
        return Ok(Attr::NotNull);
    }
    if cursor.next_is_word(b"UNIQUE") {
        cursor.word(b"UNIQUE")?;
        return Ok(Attr::Unique);
    }
    let found = refers(cursor, alloc)?;
    Ok(Attr::Refers(found))
}

/// Whether a reference comes next.
fn next_is_ref(cursor: &Cursor) -> bool
    ensures { result ≡ next_is rules.begins_ref cursor.now }
{
    cursor.next_is_word(b"REFERENCES")
        || cursor.next_is_word(b"OWNED_BY")
        || cursor.next_is_word(b"OWNS")
        || cursor.next_is_word(b"ACCESSED_BY")
        || cursor.next_is_word(b"ACCESSES")
}

/// Whether something that stands after a column's kind comes next.
fn next_is_attr(cursor: &Cursor) -> bool
    ensures { result ≡ next_is rules.begins_attr cursor.now }
{
    cursor.next_is_word(b"PRIMARY")
        || cursor.next_is_word(b"NOT")
        || cursor.next_is_word(b"UNIQUE")
        || next_is_ref(cursor)
}

/// What stands after a column and its kind, in order.
#[tactic(auto, unfolding(crate::specs::reading::Create::attrs))]
fn attrs(cursor: &mut Cursor, alloc: Global) -> Result<List<Attr>, RuleFault>
    ensures { Does (rules.attrs store_limits) cursor.old result cursor.new }
{
    let mut attrs = List::new(alloc);
    while next_is_attr(cursor) {
        let attr = match attr(cursor, alloc) {
            Ok(attr) => attr,
            Err(fault) => return Err(fault),
        };
        attrs.add(attr)?;
    }
    Ok(attrs)
}

/// The kind of a column.
#[tactic(auto, unfolding(crate::specs::reading::Create::kind_rule))]
fn kind(cursor: &mut Cursor) -> Result<Kind, RuleFault>
    ensures { Does rules.kind_rule cursor.old result cursor.new }
{
    if cursor.next_is_word(b"INT") {
        cursor.word(b"INT")?;
        return Ok(Kind::Int);
    }
    cursor.word(b"TEXT")?;
    Ok(Kind::Text)
}

/// A column.
#[tactic(auto, unfolding(crate::specs::reading::Create::column_part))]
fn column_part(cursor: &mut Cursor, alloc: Global) -> Result<Part, RuleFault>
    ensures { Does (rules.column_part store_limits) cursor.old result cursor.new }
{
    let name = cursor.name(alloc)?;
    let kind = kind(cursor)?;
    let attrs = attrs(cursor, alloc)?;
    Ok(Part::Column(ColumnDef { name, kind, attrs }))
}

/// A foreign key.
#[tactic(auto, unfolding(crate::specs::reading::Create::foreign_part))]
fn foreign_part(cursor: &mut Cursor, alloc: Global) -> Result<Part, RuleFault>
    ensures { Does (rules.foreign_part store_limits) cursor.old result cursor.new }
{
    cursor.word(b"FOREIGN")?;
    cursor.word(b"KEY")?;
    let column = one_name(cursor, alloc)?;
    let found = refers(cursor, alloc)?;
    Ok(Part::Foreign(column, found))
}

/// A rule on GET, after ON.
#[tactic(auto, unfolding(crate::specs::reading::Create::get_part))]
fn get_part(cursor: &mut Cursor, alloc: Global) -> Result<Part, RuleFault>
    ensures { Does (rules.get_part store_limits) cursor.old result cursor.new }
{
    cursor.word(b"GET")?;
    let column = cursor.name(alloc)?;
    cursor.word(b"ANON")?;
    let hidden = bracketed_names(cursor, alloc)?;
    Ok(Part::Get(column, hidden))
}

/// A rule on DEL, after ON.
#[tactic(auto, unfolding(crate::specs::reading::Create::del_part))]
fn del_part(cursor: &mut Cursor, alloc: Global) -> Result<Part, RuleFault>
    ensures { Does (rules.del_part store_limits) cursor.old result cursor.new }
{
    cursor.word(b"DEL")?;
    let column = cursor.name(alloc)?;
    if cursor.next_is_word(b"ANON") {
        cursor.word(b"ANON")?;
        let ruled = bracketed_names(cursor, alloc)?;
        return Ok(Part::Del(column, ruled));
    }
    cursor.word(b"DELETE_ROW")?;
    Ok(Part::DelRow(column))
}

/// A part of a CREATE TABLE.
#[tactic(auto, unfolding(crate::specs::reading::Create::part_rule))]
fn part(cursor: &mut Cursor, alloc: Global) -> Result<Part, RuleFault>
    ensures { Does (rules.part_rule store_limits) cursor.old result cursor.new }
{
    if cursor.next_is_name() {
        return column_part(cursor, alloc);
    }
    if cursor.next_is_word(b"PRIMARY") {
        cursor.word(b"PRIMARY")?;
        cursor.word(b"KEY")?;
        let column = one_name(cursor, alloc)?;
        return Ok(Part::Key(column));
    }
    if cursor.next_is_word(b"UNIQUE") {
        cursor.word(b"UNIQUE")?;
        let column = one_name(cursor, alloc)?;
        return Ok(Part::Unique(column));
    }
    if cursor.next_is_word(b"FOREIGN") {
        return foreign_part(cursor, alloc);
    }
    cursor.word(b"ON")?;
    if cursor.next_is_word(b"GET") {
        return get_part(cursor, alloc);
    }
    del_part(cursor, alloc)
}

/// The parts of a CREATE TABLE.
#[tactic(auto, unfolding(crate::specs::reading::Create::listed_parts))]
fn listed_parts(cursor: &mut Cursor, alloc: Global) -> Result<List<Part>, RuleFault>
    ensures { Does (rules.listed_parts store_limits) cursor.old result cursor.new }
{
    let first = part(cursor, alloc)?;
    let mut parts = list_of_one(alloc, first)?;
    while cursor.next_is_mark(b",") {
        cursor.mark(b",")?;
        let next = part(cursor, alloc)?;
        parts.add(next)?;
    }
    Ok(parts)
}

/// The parts of a CREATE TABLE, in brackets.
#[tactic(auto, unfolding(crate::specs::reading::Create::parts))]
fn parts(cursor: &mut Cursor, alloc: Global) -> Result<List<Part>, RuleFault>
    ensures { Does (rules.parts store_limits) cursor.old result cursor.new }
{
    cursor.mark(b"(")?;
    let parts = listed_parts(cursor, alloc)?;
    cursor.mark(b")")?;
    Ok(parts)
}

/// A table, after CREATE.
#[tactic(auto, unfolding(crate::specs::reading::Create::table))]
fn table(cursor: &mut Cursor, alloc: Global) -> Result<CreateTable, RuleFault>
    ensures { Does (rules.table store_limits) cursor.old result cursor.new }
{
    let subject = cursor.next_is_word(b"DATA_SUBJECT");
    if subject {
        cursor.word(b"DATA_SUBJECT")?;
    }
    cursor.word(b"TABLE")?;
    let name = cursor.name(alloc)?;
    let parts = parts(cursor, alloc)?;
    Ok(CreateTable {
        name,
        subject,
        parts,
    })
}

/// A view, after CREATE.
#[tactic(auto, unfolding(crate::specs::reading::Create::view))]
fn view(cursor: &mut Cursor, alloc: Global) -> Result<CreateView, RuleFault>
    ensures { Does (rules.view store_limits NESTING_LEVELS) cursor.old result cursor.new }
{
    cursor.word(b"VIEW")?;
    let name = cursor.name(alloc)?;
    cursor.word(b"AS")?;
    let select = query(cursor, alloc)?;
    Ok(CreateView { name, select })
}

/// A CREATE.
#[tactic(auto, unfolding(crate::specs::reading::Create::create))]
pub fn create(cursor: &mut Cursor, alloc: Global) -> Result<Statement, RuleFault>
    ensures { Does (rules.create store_limits NESTING_LEVELS) cursor.old result cursor.new }
{
    cursor.word(b"CREATE")?;
    if cursor.next_is_word(b"VIEW") {
        let found = view(cursor, alloc)?;
        let found = Boxed::new(alloc, found)?;
        return Ok(Statement::CreateView(found));
    }
    let found = table(cursor, alloc)?;
    Ok(Statement::CreateTable(found))
}
