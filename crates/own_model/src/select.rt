use crate::condition::Cond;
use own_base::{Boxed, List, Name};

/// A select as it is read.
#[derive(Debug, Drop)]
pub struct Select {
    pub items: Items,
    pub from: Name,
    pub join: Option<Join>,
    pub cond: Option<Boxed<Cond>>,
    pub group: Option<ColRef>,
    pub order: Option<Order>,
}

/// What a select shows: `*`, or what it lists.
#[derive(Debug, Drop)]
pub enum Items {
    Star,
    Listed(List<Item>),
}

/// An item of a select, with its AS name.
#[derive(Debug, Drop)]
pub struct Item {
    pub what: What,
    pub alias: Option<Name>,
}

/// What an item shows.
#[derive(Debug, Drop)]
pub enum What {
    Column(ColRef),
    Count,
    SumOf(ColRef),
}

/// A column, with the table or view before the dot.
#[derive(Debug, Drop)]
pub struct ColRef {
    pub table: Option<Name>,
    pub column: Name,
}

/// JOIN table ON left = right.
#[derive(Debug, Drop)]
pub struct Join {
    pub table: Name,
    pub left: ColRef,
    pub right: ColRef,
}

/// ORDER BY column; `down` is DESC.
#[derive(Debug, Drop)]
pub struct Order {
    pub column: ColRef,
    pub down: bool,
}
