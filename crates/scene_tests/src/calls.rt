//! How a test makes its calls: seats for handles, kits of structures, and lists of calls with their answers.
pub(crate) mod handles;
pub(crate) mod kits;
pub(crate) mod listed;
pub(crate) mod lists;
pub(crate) mod running;
pub(crate) mod scenes;
pub(crate) mod seats;
