use own_base::{Name, Value};

/// What an UPDATE sets a column to: a literal, a column, or a column and a number more or less.
#[derive(Debug, Drop)]
pub enum Expr {
    Literal(Value),
    Column(Name),
    Plus(Name, i64),
    Minus(Name, i64),
}
