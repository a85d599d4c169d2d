//! Tests of the lexer and of the readers, by their public calls, on texts and scripts whose answers were worked out by
//! hand from the grammar and from the definition of an input.
#![tactic(auto)]

#[cfg(test)]
mod check;
#[cfg(test)]
mod faults;
#[cfg(test)]
mod lexer;
#[cfg(test)]
mod limits;
#[cfg(test)]
mod places;
#[cfg(test)]
mod scripts;
#[cfg(test)]
mod values;
#[cfg(test)]
mod words;
