//! Which rows the open transactions hold, and which of them stands in a footprint's way.
#![tactic(auto)]

mod held_item;
mod hold;
mod lock_table;
mod row_holds;
mod session_locks;
mod sessions;
mod table_locks;

pub use held_item::HeldItem;
pub use lock_table::LockTable;
