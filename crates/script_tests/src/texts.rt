//! Texts that are read, and texts that are written.
pub(crate) mod answers;
pub(crate) mod beginnings;
pub(crate) mod lines;
pub(crate) mod naming;
pub(crate) mod printing;
pub(crate) mod sinks;
pub(crate) mod writing;
