//! The kinds of values and keys.
ghost use Rattle.std.specs.Prelude.{◌≡◌};
ghost use Rattle.query_model.specs.Kinds as kinds;

use bind_scope::{are_compared, kind_of};
use own_base::{Key, Value};
use own_model::Kind;

/// Whether a value goes with a kind; NULL goes with each.
pub fn goes_with(kind: Kind, value: &Value) -> bool
    ensures { result ≡ kinds.goes_with kind value.now }
{
    match kind_of(value) {
        None => true,
        Some(other) => are_compared(kind, other),
    }
}

/// The kind of a key.
pub fn key_kind(key: &Key) -> Kind
    ensures { result ≡ kinds.key_kind key.now }
{
    match key {
        Key::Int(_) => Kind::Int,
        Key::Text(_) => Kind::Text,
    }
}
