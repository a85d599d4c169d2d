//! The ownership graph of a schema: its tables in an order that puts each behind the tables above it, its edges by their
//! lower table, and the cycle that keeps edges from having such an order.
#![tactic(auto)]

mod end;
mod fault;
mod found_cycle;
mod graph;
mod grouped;
mod incoming;
mod marks;
mod schema_graph;
mod topological_sort;

pub use fault::GraphFault;
pub use graph::Graph;
pub use schema_graph::graph_of;
