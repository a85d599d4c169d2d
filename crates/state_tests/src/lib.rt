//! Tests of what a store's state is made of, by the public calls, on statements whose outcomes were worked out by hand.
#![tactic(auto)]

#[cfg(test)]
mod changes;
#[cfg(test)]
mod engines;
#[cfg(test)]
mod erasing;
#[cfg(test)]
mod faults;
#[cfg(test)]
mod kept;
#[cfg(test)]
mod locks;
#[cfg(test)]
mod looks;
#[cfg(test)]
mod moving;
#[cfg(test)]
mod moving_looks;
#[cfg(test)]
mod owning;
#[cfg(test)]
mod reading;
#[cfg(test)]
mod sessions;
#[cfg(test)]
mod showing;
#[cfg(test)]
mod spaces;
#[cfg(test)]
mod store;
#[cfg(test)]
mod texts;
#[cfg(test)]
mod viewing_looks;
#[cfg(test)]
mod writing;
