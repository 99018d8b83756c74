//! Words, layout, limits and refusals.
mod cells;
mod counts;
mod handles;
mod layout;
mod refusals;
