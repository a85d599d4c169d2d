//! What the store speaks of: statements and requests as they are read, the schema that they make, what a name in
//! them is bound to, histories, replies and refusals, and the limits by name. The definitions by which contracts say
//! what is true of them stand in the `_model` crates.
#![tactic(auto)]

mod bound;
mod condition;
mod create;
mod expression;
mod footprint;
mod history;
mod limit;
mod refusal;
mod reply;
mod request;
mod schema;
mod script;
mod select;
mod statement;
mod store_view;
mod truth;

pub use bound::{Bound, BoundCond, BoundExpr, BoundItem, BoundOperand, BoundSelect, Source1};
pub use condition::{Cmp, Cond, Operand};
pub use create::{Attr, ColumnDef, CreateTable, CreateView, Part, RefDef};
pub use expression::Expr;
pub use footprint::{FootItem, Footprint};
pub use history::{Entry, Verdict};
pub use limit::{
    INPUT_BYTES, INPUT_CALLS, JOURNAL_ROOM, LimitName, NESTING_LEVELS, PAYLOAD_BYTES, REPLY_ROWS,
    SELECT_ITEMS, SESSIONS, STATEMENT_BYTES, STORE_ROWS, STORE_WEIGHT, TABLE_COLUMNS, TABLES,
    TEXT_BYTES, VIEWS,
};
pub use own_base::NAME_BYTES;
pub use refusal::Refusal;
pub use reply::{Cell, GotRow, Reply, SessionReplies};
pub use request::Request;
pub use schema::{Column, CreateText, Edge, Kind, RefKind, Schema, TableDef, ViewDef};
pub use script::{InputFault, Script, ScriptCall, SessionCalls};
pub use select::{ColRef, Item, Items, Join, Order, Select, What};
pub use statement::Statement;
pub use store_view::StoreView;
pub use truth::Truth;
