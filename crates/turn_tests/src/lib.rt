//! Tests of the turn of threads, by its public calls: what comes out is compared at the end, when all threads have ended, so
//! that nothing depends on who came first.
#![tactic(auto)]

#[cfg(test)]
mod adding;
#[cfg(test)]
mod beside;
#[cfg(test)]
mod log;
#[cfg(test)]
mod tables;
