//! Tests of the printer, by its public calls, on statements, values and replies whose texts were worked out by hand.
#![tactic(auto)]

#[cfg(test)]
mod refusals;
#[cfg(test)]
mod replies;
#[cfg(test)]
mod statements;
#[cfg(test)]
mod values;
