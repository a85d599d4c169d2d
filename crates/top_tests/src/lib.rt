//! Tests of the store's public calls, over sources and sinks in memory.
#![tactic(auto)]

#[cfg(test)]
mod beside;
#[cfg(test)]
mod disks;
#[cfg(test)]
mod erasures;
#[cfg(test)]
mod failing;
#[cfg(test)]
mod pieces;
#[cfg(test)]
mod runs;
#[cfg(test)]
mod sessions;
#[cfg(test)]
mod stops;
#[cfg(test)]
mod streams;
#[cfg(test)]
mod views;
