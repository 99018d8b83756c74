//! What a make wants its object to be.

/// What a make wants its object to be.
#[derive(Clone, Copy)]
pub struct Form {
    /// Fields 0 to 3.
    pub fields: [u64; 4],
    /// The object gives pointers to itself ([util.smartptr.enab]).
    pub enabled: bool,
    /// The owned pointer is null ([util.smartptr.shared.const], from a null pointer and a deleter).
    pub null: bool,
}
