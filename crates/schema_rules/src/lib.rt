//! The first rule that a CREATE TABLE breaks.
#![tactic(auto)]

mod broken;
mod columns;
mod keys;
mod on_rules;
mod owners;
mod references;
mod scene;

pub use broken::{Broken, broken_rule};
