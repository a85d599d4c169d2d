//! Tests of the values, of the plain types, and of what is read off rows and schemas: each public call once with ample memory.
#![tactic(auto)]

#[cfg(test)]
mod faults;
#[cfg(test)]
mod reading;
#[cfg(test)]
mod values;
