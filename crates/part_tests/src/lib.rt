//! Tests of the rows of a table, by the public calls, on keys whose order was worked out by hand.
#![tactic(auto)]

#[cfg(test)]
mod handed_in;
#[cfg(test)]
mod made;
#[cfg(test)]
mod orders;
#[cfg(test)]
mod pages;
#[cfg(test)]
mod parts;
#[cfg(test)]
mod texts;
