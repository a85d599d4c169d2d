//! Tests of ordered pairs and of the index of a store, by the public calls, on lists that were worked out by hand.
#![tactic(auto)]

#[cfg(test)]
mod indexes;
#[cfg(test)]
mod made;
#[cfg(test)]
mod pairs;
