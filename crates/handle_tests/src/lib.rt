//! Tests of the runtime, from its words to handles and cells, over the public functions of its crates alone.
#![tactic(auto)]

#[cfg(test)]
mod bare;
#[cfg(test)]
mod desks;
#[cfg(test)]
mod ending;
#[cfg(test)]
mod example;
#[cfg(test)]
mod foundations;
#[cfg(test)]
mod listed;
#[cfg(test)]
mod memory;
#[cfg(test)]
mod parts;
#[cfg(test)]
mod same;
pub mod shapes;
