//! Calls on pointers, each with what it answers. A desk's pointers lie in slots.

use crate::answers::Answer;

/// A new object. Its fields are its number, 20, 30 and 40.
#[derive(Clone, Copy, Drop)]
pub enum New {
    Object,
    /// One with four fields of 0.
    Zeros,
    /// One that gives pointers of itself.
    Enabled,
    /// An owner of a null pointer.
    Null,
}

/// How a pointer comes of another.
#[derive(Clone, Copy, Drop)]
pub enum Way {
    Share,
    /// An alias that points at a field of its object's block.
    Field(u8),
    /// One that points nowhere.
    Nowhere,
    /// One that points where the owner in a slot does.
    Into(usize),
    This,
    WeakOfThis,
    Downgrade,
    Parent,
    Lock,
    Upgrade,
    /// A new object of that number, by the pointer's desk.
    AtItsDesk(u64),
}

/// A cell, for owners or for weak pointers.
#[derive(Clone, Copy, Drop)]
pub enum Cell {
    /// A free one, by the calls of a pointer and of a desk on it.
    Free(u32),
    /// The same, where a desk stores.
    Desk(u32),
    /// The same by its place.
    Place(u32),
    /// A member of the object that the owner in a slot owns.
    First(usize),
    Next(usize),
    /// A free one for weak pointers, by the same three ways.
    Weak(u32),
    WeakDesk(u32),
    WeakPlace(u32),
    Up(usize),
}

/// Which compare.
#[derive(Clone, Copy, Drop)]
pub enum Form {
    Strong,
    Weak,
    /// A weak one, until it answers true, 1,000 times at most.
    Until,
}

/// What a pointer is asked.
#[derive(Clone, Copy, Drop)]
pub enum Look {
    Read,
    UseCount,
    Expired,
    /// The field of the place where it points.
    Field,
    /// The value's number, by a visit.
    Visit,
    /// The same, where the visit sets it.
    Number(u64),
}

/// What two pointers are asked.
#[derive(Clone, Copy, Drop)]
pub enum Pair {
    Is,
    SamePlace,
    Before,
}

/// A call by a member of an owner's object as a link.
#[derive(Clone, Copy, Drop)]
pub enum ByLink {
    Load(usize),
    Store(usize),
    Exchange(usize),
    Take(usize),
    Clear,
}

/// A call, with the numbers of its slots. What comes into a slot replaces what lies there, which lets go.
#[derive(Clone, Copy, Drop)]
pub enum Step {
    Make(New, u64, usize),
    /// A chain of so many objects by their members `next`.
    Chain(u64, usize),
    Come(usize, Way, usize),
    /// So many copies of an owner, from a slot on.
    Shares(usize, usize, usize),
    Drop(usize),
    Look(usize, Look),
    Both(usize, Pair, usize),
    Load(Cell, usize),
    Lock(Cell, usize),
    Take(Cell, usize),
    Store(usize, Cell),
    Exchange(usize, Cell),
    Clear(Cell),
    /// The cell is compared with what lies in the first slot, and that in the second is desired.
    Compare(Form, Cell, usize, usize),
    First(usize, ByLink),
    Next(usize, ByLink),
    /// The numbers of the values that ended since this was asked last, as decimal digits, or how many did.
    Ends,
    EndsCount,
}

/// A call, and what it is to answer.
pub type Row = (Step, Answer);
