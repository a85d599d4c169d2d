ghost use Rattle.std.specs.Prelude.{◌≡◌, MatchOption, true, unwrap_or};
ghost use Rattle.std.specs.Option.{option_copied};
ghost use Rattle.query_model.specs.Truth.{cell, is_null};
ghost use Rattle.commit_check.specs.ValueCounts.{value_of};

use own_base::{ColNo, Row, Text, Value};
use row_reading::cell;

/// A value that isn't NULL, lent. Such values are ordered: numbers by value, texts by bytes, and no two that differ are tied.
#[derive(Drop, PartialEq, Eq, PartialOrd, Ord)]
pub(crate) enum LentValue<'a> {
    Int(i64),
    Text(&'a Text),
    Sum(i128),
}

/// A value that isn't NULL; no value is NULL. Takes no memory.
fn lent<'a>(value: Option<&'a Value>) -> Option<LentValue<'a>>
    ensures { MatchOption result (is_null (unwrap_or (option_copied value.entry) Value.Null) ≡ true) (λ lent. value_of lent ≡ unwrap_or (option_copied value.entry) Value.Null) }
{
    match value {
        Some(Value::Int(number)) => Some(LentValue::Int(*number)),
        Some(Value::Text(text)) => Some(LentValue::Text(text)),
        Some(Value::Sum(sum)) => Some(LentValue::Sum(sum.get())),
        Some(Value::Null) | None => None,
    }
}

/// What stands in a column of a row, where that isn't NULL; a column that the row doesn't have is NULL. Takes no memory.
pub(crate) fn lent_from<'a>(row: &'a Row, column: ColNo) -> Option<LentValue<'a>>
    ensures { MatchOption result (is_null (cell row.now column.0) ≡ true) (λ lent. value_of lent ≡ cell row.now column.0) }
{
    lent(cell(row, column))
}
