//! What names and cells hold.

use step_core::{Field, Kind};

/// A field of the object in a block.
#[derive(Clone, Copy, Debug, PartialEq, Eq, Hash)]
pub(crate) struct Spot {
    pub block: u32,
    pub field: u8,
}

/// What a pointer has of the object in a block.
#[derive(Clone, Copy, Debug, PartialEq, Eq, Hash)]
pub(crate) enum Hold {
    Nothing,
    Owner(u32),
    Weak(u32),
}

/// A pointer: what it has of an object, and where it points.
#[derive(Clone, Copy, Debug, PartialEq, Eq, Hash)]
pub(crate) struct Pointer {
    pub hold: Hold,
    pub spot: Option<Spot>,
}

/// A pointer that has no object, and points at null.
pub(crate) fn empty() -> Pointer {
    without_object(None)
}

/// A pointer that has no object.
pub(crate) fn without_object(spot: Option<Spot>) -> Pointer {
    Pointer {
        hold: Hold::Nothing,
        spot,
    }
}

impl Pointer {
    /// The block of its object.
    pub fn block(self) -> Option<u32> {
        match self.hold {
            Hold::Nothing => None,
            Hold::Owner(block) | Hold::Weak(block) => Some(block),
        }
    }

    pub fn is_full(self) -> bool {
        self.block().is_some()
    }

    /// The block that it owns.
    pub fn owned(self) -> Option<u32> {
        match self.hold {
            Hold::Owner(block) => Some(block),
            Hold::Nothing | Hold::Weak(_) => None,
        }
    }

    /// The block that it watches.
    pub fn watched(self) -> Option<u32> {
        match self.hold {
            Hold::Weak(block) => Some(block),
            Hold::Nothing | Hold::Owner(_) => None,
        }
    }

    /// The block that it owns and points into, and at which field.
    pub fn inside(self) -> Option<Spot> {
        let block = self.owned()?;
        let spot = self.spot?;
        if spot.block == block {
            Some(spot)
        } else {
            None
        }
    }

    /// Whether it may go into a cell of this kind: an empty weak pointer points at null.
    pub fn is_of(self, kind: Kind) -> bool {
        match (self.hold, kind) {
            (Hold::Nothing, Kind::Owner) => true,
            (Hold::Nothing, Kind::Weak) => self.spot.is_none(),
            (Hold::Owner(_), kind) => kind == Kind::Owner,
            (Hold::Weak(_), kind) => kind == Kind::Weak,
        }
    }

    /// Whether both have one place, and one object or none.
    pub fn is_equivalent(self, other: Pointer) -> bool {
        self.spot == other.spot && self.block() == other.block()
    }

    /// Where it stands in owner order: before all blocks, which count from 1, where it has none.
    pub fn rank(self) -> u32 {
        self.block().unwrap_or(0)
    }
}

/// The field of a block itself.
pub(crate) fn first_field(block: u32) -> Option<Spot> {
    Some(Spot { block, field: 0 })
}

/// This field where a spot is; null without a field, and of null.
pub(crate) fn aliased(field: Option<Field>, spot: Option<Spot>) -> Option<Spot> {
    match (field, spot) {
        (Some(field), Some(spot)) => Some(Spot {
            block: spot.block,
            field: field.number(),
        }),
        _ => None,
    }
}
