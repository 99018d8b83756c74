//! Tests of scripts, from their texts to the machine's steps, over the public functions of their crates alone: what no
//! script that runs reaches.
#![tactic(auto)]

pub mod calls;
#[cfg(test)]
mod gates;
#[cfg(test)]
mod leaks;
#[cfg(test)]
mod machine;
#[cfg(test)]
mod memory;
#[cfg(test)]
mod orders;
#[cfg(test)]
mod same;
#[cfg(test)]
mod texts;
#[cfg(test)]
mod workers;
