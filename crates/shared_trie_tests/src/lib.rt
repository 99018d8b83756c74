//! Tests of tries of objects, by their public calls alone.
#![tactic(auto)]

#[cfg(test)]
mod calls;
#[cfg(test)]
mod limits;
#[cfg(test)]
mod model;
#[cfg(test)]
mod plays;
#[cfg(test)]
mod racing;
#[cfg(test)]
mod walks;
