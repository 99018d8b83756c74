//! Tests of maps of pointers, by their public calls alone.
#![tactic(auto)]

#[cfg(test)]
mod limits;
#[cfg(test)]
mod memory;
#[cfg(test)]
mod model;
#[cfg(test)]
mod owners;
#[cfg(test)]
mod plays;
#[cfg(test)]
mod racing;
#[cfg(test)]
mod weaks;
