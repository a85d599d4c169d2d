//! Which kinds go together.
ghost use Rattle.std.specs.Prelude.{◌≡◌};
ghost use Rattle.query_model.specs.Kinds as spec;

use own_base::Value;
use own_model::Kind;

/// Whether a kind is of texts; the others are of numbers.
pub fn is_text(kind: Kind) -> bool
    ensures { result ≡ spec.is_text kind }
{
    matches!(kind, Kind::Text)
}

/// Whether values of two kinds are compared: both numbers, or both texts.
pub fn are_compared(left: Kind, right: Kind) -> bool
    ensures { result ≡ spec.are_compared left right }
{
    is_text(left) == is_text(right)
}

/// The kind of a value; NULL has none.
pub fn kind_of(value: &Value) -> Option<Kind>
    ensures { result ≡ spec.kind_of value.now }
{
    match value {
        Value::Null => None,
        Value::Int(_) => Some(Kind::Int),
        Value::Text(_) => Some(Kind::Text),
        Value::Sum(_) => Some(Kind::Sum),
    }
}
