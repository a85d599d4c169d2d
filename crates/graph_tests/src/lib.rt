//! Tests of the ownership graph and of what its edges rule, by the public calls, on edges whose orders, cycles and
//! columns were worked out by hand.
#![tactic(auto)]

#[cfg(test)]
mod graphs;
#[cfg(test)]
mod ruled;
