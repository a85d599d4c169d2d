//! Tests of what is written to a disk, by the public calls, on bytes that were worked out by hand.
#![tactic(auto)]

#[cfg(test)]
mod damaged;
#[cfg(test)]
mod images;
#[cfg(test)]
mod journals;
#[cfg(test)]
mod opening;
#[cfg(test)]
mod parts;
#[cfg(test)]
mod payloads;
#[cfg(test)]
mod recovering;
#[cfg(test)]
mod storing;
#[cfg(test)]
mod words;
#[cfg(test)]
mod writing;
