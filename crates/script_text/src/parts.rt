//! What a script is made of.
pub(crate) mod calls;
pub(crate) mod draft;
pub(crate) mod names;
pub(crate) mod statement;
pub(crate) mod thread;
pub(crate) mod version;
