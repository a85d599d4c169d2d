ghost use Rattle.std.specs.Prelude.{◌≡◌};
ghost use Rattle.query_model.specs.Order.{value_cmp};
ghost use Rattle.query_model.specs.Truth.{compared};

use own_base::Value;
use std::cmp::Ordering;

/// How two values stand to each other in a comparison: NULL stands to nothing, nor does a number to a text.
#[tactic(auto, unfolding(query_model::specs::Truth::compared))]
pub fn compared(left: &Value, right: &Value) -> Option<Ordering>
    ensures { result ≡ compared left.now right.now }
{
    match (left, right) {
        (Value::Int(left), Value::Int(right)) => Some(left.cmp(right)),
        (Value::Int(left), Value::Sum(right)) => Some((*left as i128).cmp(&right.get())),
        (Value::Sum(left), Value::Int(right)) => Some(left.get().cmp(&(*right as i128))),
        (Value::Sum(left), Value::Sum(right)) => Some(left.get().cmp(&right.get())),
        (Value::Text(left), Value::Text(right)) => Some(left.cmp(right)),
        _ => None,
    }
}

/// How two values stand to each other in an order: NULL before all others, numbers by value, and texts behind them.
#[tactic(auto, unfolding(query_model::specs::Order::value_cmp))]
pub fn compare_values(left: &Value, right: &Value) -> Ordering
    ensures { result ≡ value_cmp left.now right.now }
{
    match (left, right) {
        (Value::Null, Value::Null) => Ordering::Equal,
        (Value::Null, _) => Ordering::Less,
        (_, Value::Null) => Ordering::Greater,
        (Value::Text(left), Value::Text(right)) => left.cmp(right),
        (Value::Text(_), _) => Ordering::Greater,
        (_, Value::Text(_)) => Ordering::Less,
        (Value::Int(left), Value::Int(right)) => left.cmp(right),
        (Value::Int(left), Value::Sum(right)) => (*left as i128).cmp(&right.get()),
        (Value::Sum(left), Value::Int(right)) => left.get().cmp(&(*right as i128)),
        (Value::Sum(left), Value::Sum(right)) => left.get().cmp(&right.get()),
    }
}
