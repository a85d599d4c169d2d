use crate::select::ColRef;
use own_base::{Boxed, List, Value};

/// A condition as it is read. The two lists have at least two members.
#[derive(Debug, Drop)]
pub enum Cond {
    /// AND of its members.
    Every(List<Cond>),
    /// OR of its members.
    Some1(List<Cond>),
    Not(Boxed<Cond>),
    Compare(ColRef, Cmp, Operand),
    /// IS NULL, or with true IS NOT NULL.
    IsNull(ColRef, bool),
}

/// The right side of a comparison.
#[derive(Debug, Drop)]
pub enum Operand {
    Column(ColRef),
    Literal(Value),
}

/// A comparison: `=`, `<>`, `<`, `<=`, `>` or `>=`.
#[derive(Clone, Copy, Debug, PartialEq, Eq)]
pub enum Cmp {
    Eq,
    Ne,
    Lt,
    Le,
    Gt,
    Ge,
}
