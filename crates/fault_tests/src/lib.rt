//! Tests of the texts of faults that aren't replies: why a CREATE TABLE isn't admitted, and why a store isn't opened.
#![tactic(auto)]

#[cfg(test)]
mod texts;
