//! A domain, by a type.
use ghost_map::Named;

/// A domain, by a type: what a desk's pointers are of. Whoever works with pointers writes `D: Domain<Value = V>`.
pub trait Domain: Named {
    ghost use Rattle.control_block.specs.Desks.{DeskNow};

    /// The objects' values.
    type Value: Drop;

    /// The desk as it was when it was opened.
    ghost opened: { DeskNow Self.Value };
}
