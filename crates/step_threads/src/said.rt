//! What steps and turns answer.

use control_word::{Place, Refusal};
use step_table::memory::ended::Ended;

/// What an act answers, where it answers something.
#[derive(Clone, Copy, Debug, PartialEq, Eq)]
pub enum Answer {
    /// How many owners there are.
    Count(u32),
    /// Whether no owner is left.
    Expired(bool),
    /// Whether a lock gave an owner; else it is empty.
    Locked(bool),
    /// An upgrade gave an owner.
    Upgraded,
    /// The field that was read.
    Read(u64),
    /// Where an owner points, if not at null.
    Place(Option<Place>),
    /// Whether two owners point at one place.
    Same(bool),
    /// Whether the first comes before the second by what they own.
    Before(bool),
    /// Whether a cell was equivalent to what was expected.
    Compared(bool),
    /// Whether a cell holds what a name does.
    Holds(bool),
    /// The statement is refused, and does nothing.
    Refused(Refusal),
}

/// What an act or a step of it says.
#[derive(Clone, Copy, Debug, PartialEq, Eq)]
pub struct Said {
    /// The number of its statement, from 1; 0 at the end of its actor.
    pub statement: u32,
    pub answer: Option<Answer>,
    /// The object whose last owner left here.
    pub ended: Option<Ended>,
}

/// What a step was.
#[derive(Clone, Copy, Debug, PartialEq, Eq)]
pub enum Stepped {
    /// One event.
    Event(Said),
    /// An act that touches no word, or a step on the way to an event or after it.
    Quiet(Said),
    /// All funds of the value in a cell were taken, which it would load; nothing changed.
    Waited,
    /// The actor is at its end; nothing changed.
    Done,
}

/// What a turn was.
#[derive(Clone, Copy, Debug, PartialEq, Eq)]
pub enum Turned {
    /// One act, with the end of the object whose last owner left by it.
    Acted(Said),
    /// All funds of the value in a cell were taken, which it would load.
    Waited,
    /// The actor is at its end.
    Done,
}
