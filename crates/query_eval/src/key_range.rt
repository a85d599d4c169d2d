ghost use Rattle.std.specs.Prelude.{◌≡◌, ◌<◌, Bool, length, map, not};
ghost use Rattle.std.specs.Option.{option_copied};
ghost use Rattle.own_model.specs.Db.{IsRising, Row as Values};
ghost use Rattle.own_model.specs.Stored.{rows_at};
ghost use Rattle.query_model.specs.Footprints.{key_column};
ghost use Rattle.query_model.specs.Stored.{AreStored, IsStored};
ghost use Rattle.query_model.specs.Truth.{is_true, keeps, least, truth};
ghost use Rattle.query_eval.specs.KeyRange.{IsPlaceOf, IsSeen, IsSpanOf, Narrows, NarrowsBy, is_before, is_compared, is_taken, row_in};
ghost use Rattle.query_eval.specs.Tables.{AreTables};

use own_base::{ColNo, Row, TableNo, Value};
use own_model::{BoundCond, BoundOperand, Cmp, StoreView, TableDef};
use row_reading::{compare_key_to, definition_of};
use std::cmp::Ordering;

/// Places of a table's rows: from the first on, and before the second.
#[derive(Clone, Copy)]
pub(crate) struct Span {
    pub from: u64,
    pub upto: u64,
}

impl Span {
    /// How many places there are. Takes no memory.
    pub(crate) fn count(self) -> u64 {
        self.upto.saturating_sub(self.from)
    }
}

/// Whether a row is before a value as a key, or with true of that key or before it. Takes no memory.
fn is_before(definition: &TableDef, value: &Value, behind: bool, row: &Row) -> bool
    ensures { result ≡ is_before definition.now value.now behind row.now }
{
    match compare_key_to(definition, row, value) {
        Ordering::Less => true,
        Ordering::Equal => behind,
        Ordering::Greater => false,
    }
}

/// Whether the row at a place is. Takes no memory.
fn is_before_at<V: StoreView>(
    view: &V,
    table: TableNo,
    definition: &TableDef,
    value: &Value,
    behind: bool,
    place: u64,
) -> bool
    requires there { table.0 < length (V.db view.now).schema.tables }
    requires within { place < length (rows_at (V.db view.now).rows table.0) }
    ensures { result ≡ is_before definition.now value.now behind (row_in (rows_at (V.db view.now).rows table.0) place) }
{
    match view.row_at(table, place) {
        None => false,
        Some(row) => is_before(definition, value, behind, row),
    }
}

/// The place of a bound, by halves. Takes no memory.
fn place_of<V: StoreView>(
    view: &V,
    table: TableNo,
    definition: &TableDef,
    value: &Value,
    behind: bool,
) -> u64
    requires there { table.0 < length (V.db view.now).schema.tables }
    requires rising { IsRising definition.now (rows_at (V.db view.now).rows table.0) }
    ensures { IsPlaceOf (is_before definition.now value.now behind) (rows_at (V.db view.now).rows table.0) result }
{
    let mut low = 0;
    let mut high = view.count(table);
    while low < high {
        let middle = low + (high - low) / 2;
        if is_before_at(view, table, definition, value, behind, middle) {
            low = middle + 1;
        } else {
            high = middle;
        }
    }
    low
}

/// What a bound leaves of a span where the rows before it are passed over. Takes no memory.
fn narrow_front<V: StoreView>(
    view: &V,
    table: TableNo,
    definition: &TableDef,
    value: &Value,
    behind: bool,
    span: Span,
) -> Span
    requires there { table.0 < length (V.db view.now).schema.tables }
    requires rising { IsRising definition.now (rows_at (V.db view.now).rows table.0) }
    ensures { Narrows (λ row. not (is_before definition.now value.now behind row)) (rows_at (V.db view.now).rows table.0) span result }
{
    let from = place_of(view, table, definition, value, behind);
    if from > span.from {
        Span {
            from,
            upto: span.upto,
        }
    } else {
        span
    }
}

/// What it leaves where only the rows before it are looked at. Takes no memory.
fn narrow_back<V: StoreView>(
    view: &V,
    table: TableNo,
    definition: &TableDef,
    value: &Value,
    behind: bool,
    span: Span,
) -> Span
    requires there { table.0 < length (V.db view.now).schema.tables }
    requires rising { IsRising definition.now (rows_at (V.db view.now).rows table.0) }
    ensures { Narrows (is_before definition.now value.now behind) (rows_at (V.db view.now).rows table.0) span result }
{
    let upto = place_of(view, table, definition, value, behind);
    if upto < span.upto {
        Span {
            from: span.from,
            upto,
        }
    } else {
        span
    }
}

/// What a comparison of the primary key with a value leaves of a span. Takes no memory.
fn narrow_to<V: StoreView>(
    view: &V,
    table: TableNo,
    definition: &TableDef,
    sign: Cmp,
    value: &Value,
    span: Span,
) -> Span
    requires there { table.0 < length (V.db view.now).schema.tables }
    requires rising { IsRising definition.now (rows_at (V.db view.now).rows table.0) }
    requires stored { AreStored (rows_at (V.db view.now).rows table.0) }
    requires key { IsStored value.now }
    ensures { NarrowsBy definition.now.key.0 (is_taken definition.now.key.0 sign value.now) (rows_at (V.db view.now).rows table.0) span result }
{
    match sign {
        Cmp::Eq => {
            let front = narrow_front(view, table, definition, value, false, span);
            narrow_back(view, table, definition, value, true, front)
        }
        Cmp::Ge => narrow_front(view, table, definition, value, false, span),
        Cmp::Gt => narrow_front(view, table, definition, value, true, span),
        Cmp::Le => narrow_back(view, table, definition, value, true, span),
        Cmp::Lt => narrow_back(view, table, definition, value, false, span),
        Cmp::Ne => span,
    }
}

/// What a comparison of a column with a literal leaves: less only where the column is the primary key and the literal
/// a number or a text. Takes no memory.
fn narrow<V: StoreView>(
    view: &V,
    table: TableNo,
    definition: &TableDef,
    column: ColNo,
    sign: Cmp,
    value: &Value,
    span: Span,
) -> Span
    requires there { table.0 < length (V.db view.now).schema.tables }
    requires rising { IsRising definition.now (rows_at (V.db view.now).rows table.0) }
    requires stored { AreStored (rows_at (V.db view.now).rows table.0) }
    ensures { NarrowsBy definition.now.key.0 (is_taken column.0 sign value.now) (rows_at (V.db view.now).rows table.0) span result }
{
    if column != definition.key {
        return span;
    }
    match value {
        Value::Int(_) | Value::Text(_) => narrow_to(view, table, definition, sign, value, span),
        Value::Null | Value::Sum(_) => span,
    }
}

/// What a comparison leaves; one with a column leaves all. Takes no memory.
fn narrow_by_operand<V: StoreView>(
    view: &V,
    table: TableNo,
    definition: &TableDef,
    column: ColNo,
    sign: Cmp,
    right: &BoundOperand,
    span: Span,
) -> Span
    requires there { table.0 < length (V.db view.now).schema.tables }
    requires rising { IsRising definition.now (rows_at (V.db view.now).rows table.0) }
    requires stored { AreStored (rows_at (V.db view.now).rows table.0) }
    ensures { NarrowsBy definition.now.key.0 (is_compared column.0 sign right.now) (rows_at (V.db view.now).rows table.0) span result }
{
    match right {
        BoundOperand::Literal(value) => narrow(view, table, definition, column, sign, value, span),
        BoundOperand::Column(_) => span,
    }
}

/// What a condition leaves that is one comparison; another leaves all. Takes no memory.
fn narrow_by<V: StoreView>(
    view: &V,
    table: TableNo,
    definition: &TableDef,
    part: &BoundCond,
    span: Span,
) -> Span
    requires there { table.0 < length (V.db view.now).schema.tables }
    requires rising { IsRising definition.now (rows_at (V.db view.now).rows table.0) }
    requires stored { AreStored (rows_at (V.db view.now).rows table.0) }
    ensures { NarrowsBy definition.now.key.0 (λ row. is_true (truth row part.now)) (rows_at (V.db view.now).rows table.0) span result }
{
    match part {
        BoundCond::Compare(column, sign, right) => {
            narrow_by_operand(view, table, definition, *column, *sign, right, span)
        }
        BoundCond::Every(_) | BoundCond::Some1(_) | BoundCond::Not(_) | BoundCond::IsNull(_, _) =>
            span,
    }
}

/// What the parts of an AND leave. Takes no memory.
fn narrow_by_each<V: StoreView>(
    view: &V,
    table: TableNo,
    definition: &TableDef,
    parts: &[BoundCond],
    span: Span,
) -> Span
    requires there { table.0 < length (V.db view.now).schema.tables }
    requires rising { IsRising definition.now (rows_at (V.db view.now).rows table.0) }
    requires stored { AreStored (rows_at (V.db view.now).rows table.0) }
    ensures { NarrowsBy definition.now.key.0 (λ row. is_true (least (map (truth row) parts.now))) (rows_at (V.db view.now).rows table.0) span result }
{
    let mut left = span;
    for part in parts {
        left = narrow_by(view, table, definition, part, left);
    }
    left
}

/// What a condition leaves. Takes no memory.
fn narrow_by_all<V: StoreView>(
    view: &V,
    table: TableNo,
    definition: &TableDef,
    cond: &BoundCond,
    span: Span,
) -> Span
    requires there { table.0 < length (V.db view.now).schema.tables }
    requires rising { IsRising definition.now (rows_at (V.db view.now).rows table.0) }
    requires stored { AreStored (rows_at (V.db view.now).rows table.0) }
    ensures { NarrowsBy definition.now.key.0 (λ row. is_true (truth row cond.now)) (rows_at (V.db view.now).rows table.0) span result }
{
    match cond {
        BoundCond::Every(parts) => narrow_by_each(view, table, definition, parts.items(), span),
        _ => narrow_by(view, table, definition, cond, span),
    }
}

/// The places of a table's rows that WHERE leaves by its bounds on the primary key: of the rows that it keeps, and of those
/// that stand in a pair which it keeps. Takes no memory.
pub(crate) fn span_of<V: StoreView>(view: &V, table: TableNo, cond: Option<&BoundCond>) -> Span
    requires there { table.0 < length (V.db view.now).schema.tables }
    requires tables { AreTables (V.db view.now).schema (V.db view.now).rows }
    ensures { (passes : Values → Bool) → IsSeen (key_column (V.db view.now).schema table) (keeps (option_copied cond.entry)) (rows_at (V.db view.now).rows table.0) passes
        → IsSpanOf passes (rows_at (V.db view.now).rows table.0) result }
{
    let whole = Span {
        from: 0,
        upto: view.count(table),
    };
    match cond {
        None => whole,
        Some(cond) => narrow_by_all(view, table, definition_of(view, table), cond, whole),
    }
}
