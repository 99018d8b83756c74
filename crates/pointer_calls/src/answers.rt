//! What calls answer.

use pointers::Fault;

/// What a call answers.
#[derive(Clone, Copy, PartialEq, Eq, Debug, Drop)]
pub enum Answer {
    /// It was done, and what it brings lies in its slot.
    Done,
    /// No pointer came or went.
    Nothing,
    Is(bool),
    Number(u64),
    Not(Fault),
}

impl Answer {
    /// Of a call that brought a pointer or none.
    pub fn came(some: bool) -> Answer {
        if some { Answer::Done } else { Answer::Nothing }
    }
}
