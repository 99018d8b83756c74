//! The domain of a desk that a call names.
use crate::domain::Domain;
use ghost_map::Named;
use std::marker::{Brand, PhantomData};

/// What a brand tells of a desk: the name of its claims, and the desk as it was when it was opened. The proof of each
/// call picks both.
pub trait Opens<V> {
    ghost use Rattle.std.specs.Prelude.{ℕ};
    ghost use Rattle.control_block.specs.Desks.{DeskNow};

    ghost claims: { ℕ };

    ghost desk: { DeskNow V };
}

impl<V> Opens<V> for Brand {
    ghost use Rattle.pointers.specs.Programs.{no_desk};

    ghost claims = { 0 };

    ghost desk = { no_desk };
}

/// The domain of a desk of which `N` tells.
pub struct Branded<V, N>(PhantomData<(V, N)>);

impl<V, N: Opens<V>> Named for Branded<V, N> {
    ghost name = { N.claims };
}

impl<V: Drop, N: Opens<V>> Domain for Branded<V, N> {
    type Value = V;

    ghost opened = { N.desk };
}
