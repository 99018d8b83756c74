//! What a compare-and-swap says ([util.smartptr.atomic.shared], [util.smartptr.atomic.weak]).

/// What came of a compare-and-swap.
pub enum Compared<H> {
    /// The cell held what was expected: the desired pointer is in it, and this came out.
    Swapped(H),
    /// The cell holds something else: a copy of it, and the desired pointer.
    Differs { held: H, desired: H },
}
