//! Handles between vertices.
ghost use Rattle.std.specs.Prelude.{◌≡◌};
ghost use Rattle.owner_graph.specs.Ends.{same_place};

/// A handle in one vertex, on another one (own). Vertex 0 is no object, and stands for what holds
/// objects from outside.
#[derive(Clone, Copy, Drop)]
pub struct Holding {
    /// The vertex that the handle is in.
    pub from: u32,
    /// The vertex that it is on.
    pub to: u32,
    /// Which of the handles in that vertex it is.
    pub slot: u32,
    /// The number of its label.
    pub label: u32,
    /// Whether it is an owner; else it is weak, and keeps nothing.
    pub is_owner: bool,
}

/// Whether two handles are at one place: in one vertex, with one slot (own).
pub fn same_place(one: Holding, other: Holding) -> bool
    ensures { result ≡ same_place one other }
{
    one.from == other.from && one.slot == other.slot
}

/// A number as an index.
pub(crate) fn as_index(number: u32) -> usize
    ensures { result ≡ number }
{
    number as usize
}
