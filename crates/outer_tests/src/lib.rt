//! Tests of the sources, sinks, disks and gates: each public call once with ample memory, and what no contract says.
#![tactic(auto)]

#[cfg(test)]
mod disks;
#[cfg(test)]
mod files;
#[cfg(test)]
mod memory;
#[cfg(test)]
mod runs_of_calls;
#[cfg(test)]
mod system;
