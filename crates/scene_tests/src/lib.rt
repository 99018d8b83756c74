//! Tests of the structures, over the public functions of their crate and of those below it alone.
#![tactic(auto)]

#[cfg(test)]
mod accesses;
#[cfg(test)]
mod calls;
#[cfg(test)]
mod memory;
#[cfg(test)]
mod observing;
pub mod shapes;
#[cfg(test)]
mod stacks;
#[cfg(test)]
mod trees;
