//! What the leave of a handle releases.
ghost use Rattle.std.specs.Prelude.{◌≡◌};
ghost use Rattle.control_block.specs.Leaving.{nothing};

use crate::in_place::InPlace;

/// What the leave of a handle released. An owner's leave makes no block vacant, and a weak handle's gives no value.
#[derive(Drop)]
pub struct Released<V> {
    /// The object's value, where an owner left and was the last ([util.smartptr.shared.dest]).
    pub value: Option<InPlace<V>>,
    /// Whether the block is vacant now, where a weak handle left ([util.smartptr.weak.dest]).
    pub vacant: bool,
}

impl<V> Released<V> {
    /// What the leave of an empty handle releases.
    pub(crate) fn nothing() -> Self
        ensures { result ≡ nothing }
    {
        Self {
            value: None,
            vacant: false,
        }
    }
}
