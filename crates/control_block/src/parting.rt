//! Desks part, come together, and close their domain.

pub mod close;
mod join;
pub mod split;
