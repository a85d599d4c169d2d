//! Tests of the data subjects' small databases: what they hold as a store changes, and how often it is looked at for them.
#![tactic(auto)]

#[cfg(test)]
mod alike;
#[cfg(test)]
mod counted;
#[cfg(test)]
mod erasing;
#[cfg(test)]
mod looks;
#[cfg(test)]
mod shelves;
#[cfg(test)]
mod store;
#[cfg(test)]
mod writing;
