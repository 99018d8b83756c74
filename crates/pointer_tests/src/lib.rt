//! Tests of pointers, by their public calls alone.
#![tactic(auto)]

#[cfg(test)]
mod cells;
#[cfg(test)]
mod compares;
#[cfg(test)]
mod crowds;
#[cfg(test)]
mod drops;
pub mod handed_out;
#[cfg(test)]
mod hands;
pub mod held;
#[cfg(test)]
mod keeping;
#[cfg(test)]
mod looks;
#[cfg(test)]
mod members;
#[cfg(test)]
mod memory;
#[cfg(test)]
mod numbers;
#[cfg(test)]
mod owners;
pub mod places;
#[cfg(test)]
mod players;
#[cfg(test)]
mod refusals;
#[cfg(test)]
mod snapshots;
#[cfg(test)]
mod texts;
pub mod trees;
#[cfg(test)]
mod values;
#[cfg(test)]
mod visits;
#[cfg(test)]
mod weaks;
