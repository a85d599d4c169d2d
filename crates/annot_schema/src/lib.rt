//! The catalog of a store: its schema and the texts of its creates, what EXPLAIN COMPLIANCE shows of it, and which CREATE
//! TABLE it admits.
#![tactic(auto)]

mod admit;
mod admitted;
mod catalog;
mod explain;
mod fault;
mod limits;
mod line;
mod longer;
mod look_up;
mod rows;
mod walks;

pub use admitted::Admitted;
pub use catalog::Catalog;
pub use explain::explained;
pub use fault::SchemaFault;
