//! Tests of what queries give, by the public calls, on rows and statements whose answers were worked out by hand.
#![tactic(auto)]

#[cfg(test)]
mod calls;
#[cfg(test)]
mod conditions;
#[cfg(test)]
mod created;
#[cfg(test)]
mod expressions;
pub mod key_ref;
#[cfg(test)]
mod looks;
#[cfg(test)]
mod meanings;
#[cfg(test)]
mod queries;
#[cfg(test)]
mod refusals;
#[cfg(test)]
mod selects;
pub mod small;
pub mod tables;
pub mod within;
