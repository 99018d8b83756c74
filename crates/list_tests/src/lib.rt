//! Tests of lists, of a desk's reserve, and of structures on pointers, with ample memory.
#![tactic(auto)]

#[cfg(test)]
mod lists;
#[cfg(test)]
mod plays;
#[cfg(test)]
mod reserves;
#[cfg(test)]
mod structures;
