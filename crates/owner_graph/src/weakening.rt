//! Which owners are to be weak.
ghost use Rattle.std.specs.Prelude.{◌≡◌};
ghost use Rattle.owner_graph.specs.Ends.{is_weakened};

use crate::holding::{Holding, as_index, same_place};
use crate::search::components::at;

/// Owners that are asked about: what would end, if they were weak (own).
#[derive(Clone, Copy, Drop)]
pub(crate) enum Weakening {
    /// None.
    Nobody,
    /// The one at a place.
    One { handle: Holding },
    /// Those in vertices of the knot with this least vertex that have one of two labels.
    Labelled { least: u32, first: u32, second: u32 },
}

/// Whether a handle is among them.
pub(crate) fn is_weakened(knots: &[usize], weakening: Weakening, handle: Holding) -> bool
    ensures { result ≡ is_weakened knots.now weakening handle }
{
    match weakening {
        Weakening::Nobody => false,
        Weakening::One { handle: one } => same_place(handle, one),
        Weakening::Labelled {
            least,
            first,
            second,
        } => {
            handle.from > 0
                && at(knots, as_index(handle.from)) == as_index(least)
                && (handle.label == first || handle.label == second)
        }
    }
}
