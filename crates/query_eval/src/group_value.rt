ghost use Rattle.std.specs.Prelude.{◌≡◌, unwrap_or, IfOk};
ghost use Rattle.std.specs.Option.{option_copied};
ghost use Rattle.query_model.specs.Truth.{is_null};

use own_base::{MakeCopy, Value};
use pred_eval::compare_values;
use std::alloc::{AllocError, Global};
use std::cmp::Ordering;
use std::marker::Model;

/// A value where it is compared: NULL and numbers here, and all else where it stands.
#[derive(Drop)]
enum Compared<'a> {
    Null,
    Int(i64),
    Other(&'a Value),
}

/// A value by which rows are told apart and put in order, looked up once; contracts see the value. A column that a row
/// doesn't have is NULL. Values are ordered with NULL first, numbers by value, and texts by bytes behind them.
#[derive(Drop)]
pub(crate) struct GroupValue<'a> {
    value: Compared<'a>,
}

impl<'a> Model for GroupValue<'a> {
    ghost use Rattle.own_base.specs.declared.value.Value.{Value as Seen};
    ghost use Rattle.query_eval.specs.Compared.{compared_value};

    ghost Value = { Seen };

    ghost view = { λ group. compared_value group.value };
}

impl<'a> GroupValue<'a> {
    /// What stands in a column; none is NULL. Takes no memory.
    pub(crate) fn new(value: Option<&'a Value>) -> GroupValue<'a>
        ensures { result ≡ unwrap_or (option_copied value.entry) Value.Null }
    {
        let value = match value {
            None | Some(Value::Null) => Compared::Null,
            Some(Value::Int(number)) => Compared::Int(*number),
            Some(other) => Compared::Other(other),
        };
        GroupValue { value }
    }

    /// Whether it is NULL. Takes no memory.
    pub(crate) fn is_null(&self) -> bool
        ensures { result ≡ is_null self.now }
    {
        match &self.value {
            Compared::Null => true,
            Compared::Int(_) => false,
            Compared::Other(value) => matches!(value, Value::Null),
        }
    }

    /// A copy of the value.
    pub(crate) fn copied(&self, alloc: Global) -> Result<Value, AllocError>
        ensures { IfOk result (λ copy. copy ≡ self.now) }
    {
        match &self.value {
            Compared::Null => Ok(Value::Null),
            Compared::Int(number) => Ok(Value::Int(*number)),
            Compared::Other(value) => value.copy(alloc),
        }
    }
}

impl<'a> PartialEq for GroupValue<'a> {
    ghost use Rattle.std.specs.Ordering.{eq_by_cmp};
    ghost use Rattle.query_model.specs.Order.{value_cmp};
    ghost use Rattle.std.specs.Cmp.{eq_by_cmp_equiv, partial_equiv_from_equiv};
    ghost use Rattle.query_model.proofs.ValueOrder.{value_order};

    ghost eq = { eq_by_cmp value_cmp };

    ghost laws = { partial_equiv_from_equiv (eq_by_cmp_equiv value_order) };

    fn eq(&self, other: &GroupValue<'a>) -> bool {
        self.cmp(other).is_eq()
    }
}

impl<'a> Eq for GroupValue<'a> {
    ghost use Rattle.std.specs.Cmp.{eq_by_cmp_equiv};
    ghost use Rattle.query_model.proofs.ValueOrder.{value_order};

    ghost laws = { eq_by_cmp_equiv value_order };
}

impl<'a> Ord for GroupValue<'a> {
    ghost use Rattle.query_model.specs.Order.{value_cmp};
    ghost use Rattle.query_model.proofs.ValueOrder.{value_order};
    ghost use Rattle.std.specs.Prelude.{refl};

    ghost cmp = { value_cmp };

    ghost total = { value_order };

    ghost matches_partial_cmp = { λ x y. refl };

    ghost matches_eq = { λ x y. refl };

    #[tactic(auto, unfolding(query_model::specs::Order::value_cmp))]
    fn cmp(&self, other: &GroupValue<'a>) -> Ordering {
        match (&self.value, &other.value) {
            (Compared::Int(left), Compared::Int(right)) => left.cmp(right),
            (Compared::Null, Compared::Null) => Ordering::Equal,
            (Compared::Null, Compared::Int(_)) => Ordering::Less,
            (Compared::Int(_), Compared::Null) => Ordering::Greater,
            (Compared::Null, Compared::Other(right)) => compare_values(&Value::Null, right),
            (Compared::Other(left), Compared::Null) => compare_values(left, &Value::Null),
            (Compared::Int(left), Compared::Other(right)) => compare_values(
                &Value::Int(*left),
                right,
            ),
            (Compared::Other(left), Compared::Int(right)) => compare_values(
                left,
                &Value::Int(*right),
            ),
            (Compared::Other(left), Compared::Other(right)) => compare_values(left, right),
        }
    }
}

impl<'a> PartialOrd for GroupValue<'a> {
    ghost use Rattle.std.specs.Ordering.{as_partial_cmp};
    ghost use Rattle.query_model.specs.Order.{value_cmp};
    ghost use Rattle.std.specs.Cmp.{partial_order_from_agreeing_total};
    ghost use Rattle.std.specs.Prelude.{refl};
    ghost use Rattle.query_model.proofs.ValueOrder.{value_order};

    ghost partial_cmp = { as_partial_cmp value_cmp };

    ghost laws = { partial_order_from_agreeing_total value_cmp value_order (λ x y. refl) (λ x y. refl) };

    fn partial_cmp(&self, other: &GroupValue<'a>) -> Option<Ordering> {
        Some(self.cmp(other))
    }
}
