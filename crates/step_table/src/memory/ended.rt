//! What is left of an object that ended.

/// An object that ended.
#[derive(Clone, Copy, Debug, PartialEq, Eq)]
pub enum Ended {
    /// Its fields 0 to 3.
    Fields([u64; 4]),
    /// It was an owned null pointer.
    Null,
}
