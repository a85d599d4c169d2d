//! Tests of streams, by their public calls, on inputs whose answers were worked out by hand, however they are cut.
#![tactic(auto)]

#[cfg(test)]
mod cuts;
