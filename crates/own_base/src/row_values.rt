ghost use Rattle.std.specs.Prelude.{◌≡◌, ◌<◌, ◌++◌, ◌∷◌, [], length, IfOk};
ghost use Rattle.own_base.specs.RowValues.{values_of};

use crate::list::List;
use crate::make_copy::MakeCopy;
use crate::value::Value;
use std::alloc::{AllocError, Global};
use std::sync::Arc;

/// The values of a row, and who has them. Where copies share a few, these lie in one piece of memory with the count of
/// the copies; a list of any number has a piece of its own besides.
#[derive(Debug, Drop)]
pub(crate) enum RowValues {
    /// The row has them for itself.
    Alone(List<Value>),
    /// It shares two with its copies.
    Two(Arc<[Value; 2], Global>),
    /// It shares three.
    Three(Arc<[Value; 3], Global>),
    /// It shares four.
    Four(Arc<[Value; 4], Global>),
    /// It shares as many as there are.
    Shared(Arc<List<Value>, Global>),
}

/// Takes the last of some values.
fn take_last(values: &mut Vec<Value>) -> Value
    requires { 0 < length values.old.items }
    ensures { values.old.items ≡ values.new.items ++ result ∷ [] }
{
    match values.pop() {
        Some(last) => last,
        None => unreachable!(),
    }
}

/// Two values in one piece of memory.
fn two_shared(alloc: Global, values: Vec<Value>) -> Result<RowValues, AllocError>
    requires { length values.items ≡ 2 }
    ensures { IfOk result (λ shared. values_of shared ≡ values.items) }
{
    let mut left = values;
    let second = take_last(&mut left);
    let first = take_last(&mut left);
    Ok(RowValues::Two(Arc::new(alloc, [first, second])?))
}

/// Three values in one piece of memory.
fn three_shared(alloc: Global, values: Vec<Value>) -> Result<RowValues, AllocError>
    requires { length values.items ≡ 3 }
    ensures { IfOk result (λ shared. values_of shared ≡ values.items) }
{
    let mut left = values;
    let third = take_last(&mut left);
    let second = take_last(&mut left);
    let first = take_last(&mut left);
    Ok(RowValues::Three(Arc::new(alloc, [first, second, third])?))
}

/// Four values in one piece of memory.
fn four_shared(alloc: Global, values: Vec<Value>) -> Result<RowValues, AllocError>
    requires { length values.items ≡ 4 }
    ensures { IfOk result (λ shared. values_of shared ≡ values.items) }
{
    let mut left = values;
    let fourth = take_last(&mut left);
    let third = take_last(&mut left);
    let second = take_last(&mut left);
    let first = take_last(&mut left);
    let values = [first, second, third, fourth];
    Ok(RowValues::Four(Arc::new(alloc, values)?))
}

/// The values of a list, to be shared.
fn shared(alloc: Global, values: List<Value>) -> Result<RowValues, AllocError>
    ensures { IfOk result (λ shared. values_of shared ≡ values) }
{
    let values = values.into_vec();
    match values.len() {
        2 => two_shared(alloc, values),
        3 => three_shared(alloc, values),
        4 => four_shared(alloc, values),
        _ => Ok(RowValues::Shared(Arc::new(alloc, List::from_vec(values))?)),
    }
}

impl RowValues {
    /// Lends the values.
    pub(crate) fn values(&self) -> &[Value]
        ensures { result.now ≡ values_of self.now }
    {
        match self {
            RowValues::Alone(values) => values.items(),
            RowValues::Two(values) => values.as_slice(),
            RowValues::Three(values) => values.as_slice(),
            RowValues::Four(values) => values.as_slice(),
            RowValues::Shared(values) => values.items(),
        }
    }

    /// The same values, to be shared.
    pub(crate) fn into_shared(self, alloc: Global) -> Result<RowValues, AllocError>
        ensures { IfOk result (λ values. values_of values ≡ values_of self) }
    {
        match self {
            RowValues::Alone(values) => shared(alloc, values),
            shared => Ok(shared),
        }
    }

    /// The same values, shared where these are.
    pub(crate) fn copy(&self, alloc: Global) -> Result<RowValues, AllocError>
        ensures { IfOk result (λ values. values_of values ≡ values_of self.now) }
    {
        match self {
            RowValues::Alone(values) => Ok(RowValues::Alone(values.copy(alloc)?)),
            RowValues::Two(values) => Ok(RowValues::Two(Arc::try_clone(values)?)),
            RowValues::Three(values) => Ok(RowValues::Three(Arc::try_clone(values)?)),
            RowValues::Four(values) => Ok(RowValues::Four(Arc::try_clone(values)?)),
            RowValues::Shared(values) => Ok(RowValues::Shared(Arc::try_clone(values)?)),
        }
    }
}
