ghost use Rattle.std.specs.Prelude.{◌≡◌, IfOk};
ghost use Rattle.serde_json.specs.View.{view};
ghost use Rattle.reply_json.specs.Values.{cell_data, key_data, sum_data, value_data};

use itoa::Buffer;
use own_base::{Key, Value};
use own_model::Cell;
use serde_json::{Value as Json, json};
use std::alloc::{AllocError, Global};

/// A sum, which 64 bits may not hold: the object that tells its digits.
fn sum_json(alloc: Global, sum: i128) -> Result<Json, AllocError>
    ensures { IfOk result (λ json. view json ≡ sum_data sum) }
{
    let mut buffer = Buffer::new();
    let digits = buffer.format(sum);
    json!(in alloc; {"sum": digits})
}

/// A value: null, a number or a text.
pub(crate) fn value_json(alloc: Global, value: &Value) -> Result<Json, AllocError>
    ensures { IfOk result (λ json. view json ≡ value_data value.now) }
{
    match value {
        Value::Null => Ok(Json::Null),
        Value::Int(number) => Ok(Json::from(*number)),
        Value::Text(text) => Json::try_from_str(alloc, text.as_str()),
        Value::Sum(sum) => sum_json(alloc, sum.get()),
    }
}

/// A key: a number or a text.
pub(crate) fn key_json(alloc: Global, key: &Key) -> Result<Json, AllocError>
    ensures { IfOk result (λ json. view json ≡ key_data key.now) }
{
    match key {
        Key::Int(number) => Ok(Json::from(*number)),
        Key::Text(text) => Json::try_from_str(alloc, text.as_str()),
    }
}

/// A value that a GDPR GET shows, or the object that tells that it hides one.
pub(crate) fn cell_json(alloc: Global, cell: &Cell) -> Result<Json, AllocError>
    ensures { IfOk result (λ json. view json ≡ cell_data cell.now) }
{
    match cell {
        Cell::Shown(value) => value_json(alloc, value),
        Cell::Hidden => json!(in alloc; {"hidden": true}),
    }
}
