//! Calls as data, each with what it answers: a test is a list of them. What a call hands out is kept in a free cell.
use control_word::Refusal;

/// A free cell for a handle.
#[derive(Clone, Copy, Drop)]
pub(crate) enum Seat {
    A,
    B,
    C,
}

/// A call, with the handles that it works on by their seats.
#[derive(Clone, Copy, Drop)]
pub(crate) enum Call {
    /// A new object with this field and value.
    Make(Seat, u64),
    Reset(Seat),
    /// One more handle is in the desk's hands from now on.
    Forget,
    /// How many blocks are vacant.
    Vacant,
    Push(u64),
    /// The node that goes out is in the seat then.
    Pop(Seat),
    /// A node with value 9 is attached to the subject.
    Attach(Seat),
    Each,
    /// How many observers go out.
    Prune,
    /// A new child of the first with this field and value.
    AddChild(Seat, u64, Seat),
    /// The node goes out of its parent's children.
    Detach(Seat),
    /// The field of the node's parent.
    Parent(Seat),
    Teardown(Seat),
}

/// What a call answers.
#[derive(Clone, Copy, PartialEq, Eq, Drop)]
pub(crate) enum Answer {
    Done,
    Not(Refusal),
    /// It was refused, and the value that was handed in came back.
    Back(Refusal, u64),
    Nobody,
    Field(u64),
    Count(u32),
    /// How many subjects were told of, the sum of their fields, and these as digits by twos.
    Told(u64, u64, u64),
    /// The values of what ended, as digits.
    Values(u64),
}
