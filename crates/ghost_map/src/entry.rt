//! The right to one entry.
ghost use Rattle.std.specs.Prelude.{ℕ};
ghost use Rattle.ghost_map.specs.Chain.{entry_owns, entry_shares};

use crate::map::Named;
use std::marker::{Model, PhantomData};

/// An entry of the map that `N` names, and the right to end it. It isn't over as long as this is there: forgotten or
/// dropped, it stays in the map as it is. It may be looked at through a `&`.
#[derive(Drop)]
pub struct GhostEntry<N: Named, T> {
    pub(crate) marker: PhantomData<(N, T)>,
    /// Where in the map it stands.
    pub ghost at: { ℕ },
    /// The lifetime that goes on as long as it isn't over. Clauses of callers have no use for it.
    pub ghost life: { ℕ },
    /// What the map says there.
    pub ghost value: { T },
}

// What `T` is made of enters by its code alone. The whole of `coded`, or of `row`, would name `T`'s type parameters by
// their numbers, and a caller's parameters have other numbers.
impl<N: Named, T> Model for GhostEntry<N, T> {
    ghost also_owns = { λ e. entry_owns T.row.coded.code N.name e.at e.life e.value };

    ghost also_shares = { λ e _ κ. entry_shares T.row.coded.code N.name e.at e.life e.value κ };
}

unsafe impl<N: Named, T> Send for GhostEntry<N, T> {}

unsafe impl<N: Named, T> Sync for GhostEntry<N, T> {}
