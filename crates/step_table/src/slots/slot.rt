//! What a name holds.
ghost use Rattle.std.specs.Prelude.{◌≡◌};
ghost use Rattle.step_table.specs.Contents.{is_of};
ghost use Rattle.step_table.specs.Registers.{place_of, pointer_of};

use control_word::Handle;
use control_word::model::handle::Kind;
use control_word::place::Place;

/// The value of a name, or the one that is in hand.
#[derive(Clone, Copy, Drop)]
pub enum Slot {
    /// A pointer without an object. A shared one may store a place all the same ([util.smartptr.shared.const], the
    /// aliasing constructor).
    Empty { place: Option<Place> },
    /// A pointer that has an object.
    Full(Handle),
}

impl Slot {
    /// The pointer, if it has an object.
    pub(crate) fn pointer(self) -> Option<Handle>
        ensures { result ≡ pointer_of self }
    {
        match self {
            Slot::Empty { .. } => None,
            Slot::Full(pointer) => Some(pointer),
        }
    }

    /// The place that it stores ([util.smartptr.shared.obs], `get`).
    pub fn place(self) -> Option<Place>
        ensures { result ≡ place_of self }
    {
        match self {
            Slot::Empty { place } => place,
            Slot::Full(pointer) => pointer.place,
        }
    }

    /// Whether it may go into a cell of this kind: an empty weak pointer has a null place.
    pub fn is_of(self, kind: Kind) -> bool
        ensures { result ≡ is_of kind self }
    {
        match (self, kind) {
            (Slot::Empty { .. }, Kind::Owner) => true,
            (Slot::Empty { place }, Kind::Weak) => place.is_none(),
            (Slot::Full(pointer), kind) => match (pointer.kind, kind) {
                (Kind::Owner, Kind::Owner) | (Kind::Weak, Kind::Weak) => true,
                _ => false,
            },
        }
    }
}
