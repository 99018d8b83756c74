//! Handles as histories speak of them: by the objects' numbers.

use crate::place::Place;

/// Owners are `shared_ptr`s, weak handles `weak_ptr`s.
#[derive(Clone, Copy, PartialEq, Eq, Debug, Drop)]
pub enum Kind {
    Owner,
    Weak,
}

/// A shared or weak pointer value: its kind, the number of its object if it has one, and its place.
#[derive(Clone, Copy, Drop)]
pub struct NumberedHandle {
    pub kind: Kind,
    pub object: Option<u64>,
    pub place: Option<Place>,
}
