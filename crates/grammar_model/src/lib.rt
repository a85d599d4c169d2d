//! The grammar of the store's statements, as plain definitions: which tokens are which statement, where a text stops
//! being the front of one, and which limit it passes. Nothing here reads; `sql_reader` does, and is proved right by
//! these definitions.
#![tactic(auto)]

pub mod laws;
