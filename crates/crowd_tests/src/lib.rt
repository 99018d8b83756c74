//! Tests of pointers by several workers, and by random calls.
#![tactic(auto)]

#[cfg(test)]
mod chance;
#[cfg(test)]
mod crowd;
#[cfg(test)]
mod leaders;
#[cfg(test)]
mod same;
#[cfg(test)]
mod teams;
#[cfg(test)]
mod waits;
#[cfg(test)]
mod walk;
