//! What acts tell.

use crate::machine::pointer::Spot;

/// What an act tells.
#[derive(Clone, Copy, PartialEq, Eq, Hash)]
pub(crate) enum Line {
    Count(u32),
    Expired(bool),
    Locked(bool),
    Upgraded,
    Read(u64),
    Place(Option<Spot>),
    Same(bool),
    Before(bool),
    Compared(bool),
    Holds(bool),
    Refused(u8),
    Ended([u64; 4]),
    EndedNull,
}

/// A line of a thread, after what it told before, by the number of that: 0 where it was nothing.
#[derive(Clone, Copy, PartialEq, Eq, Hash)]
pub(crate) struct Told {
    pub before: u32,
    pub statement: u32,
    pub line: Line,
}
