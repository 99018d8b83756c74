//! What an object that ends leaves in its block.
ghost use Rattle.std.specs.Prelude.{◌≡◌};

use ghost_map::{Ghost, Tells};
use std::marker::Model;

/// A value tells itself.
struct Itself;

impl<V> Tells<V, V> for Itself {
    ghost told = { λ v. v };
}

/// The value of an object that ends, as clauses see it: it lies where it was made until the object's end hands it out.
/// This has no bytes.
#[derive(Drop)]
pub struct InPlace<V> {
    known: Ghost<V>,
}

impl<V> Model for InPlace<V> {
    ghost Value = { V };

    ghost view = { λ p. p.known.value };
}

impl<V> InPlace<V> {
    /// What is known of the value, of which nothing is read.
    pub(crate) fn of(value: &V) -> Self
        ensures { result ≡ value.now }
    {
        Self {
            known: Ghost::of::<V, Itself>(value),
        }
    }
}
