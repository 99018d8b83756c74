//! Tests of vectors of pointers, by their public calls alone.
#![tactic(auto)]

#[cfg(test)]
mod calls;
#[cfg(test)]
mod changes;
#[cfg(test)]
mod cursors;
#[cfg(test)]
mod limits;
#[cfg(test)]
mod memory;
#[cfg(test)]
mod model;
#[cfg(test)]
mod plays;
#[cfg(test)]
mod racing;
#[cfg(test)]
mod sorts;
#[cfg(test)]
mod walks;
#[cfg(test)]
mod weak_vectors;
