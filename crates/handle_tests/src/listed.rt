//! Calls on handles and cells as data, each with what it answers: a test is a list of them. A desk's handles lie in
//! slots.
ghost use Rattle.control_block.specs.Desks.{Belongs, IsSameDesk};
ghost use Rattle.handle_tests.specs.Hands.{HoldsSlots};

use crate::listed::cells::load;
use crate::listed::coming::{come, made};
use crate::listed::compares::{Offer, compare};
use crate::listed::holding::holds;
use crate::listed::looks::{tell, tell_both};
use crate::listed::slots::{arrive, let_go, take};
use crate::listed::trades::{exchange, store};
use control_block::desk::Desk;
use control_block::domain::Domain;
use control_block::handles::Held;
use control_word::{Place, Refusal};
use std::process::Abort;
use std::sync::Wait;

mod cells;
mod coming;
mod compares;
mod holding;
mod looks;
pub(crate) mod slots;
mod trades;

/// A handle that comes of none.
#[derive(Clone, Copy, Drop)]
pub(crate) enum New {
    /// The owner of an object with these fields, which gives pointers to itself or not, and this value.
    Object([u64; 4], bool, u64),
    /// The owner of an object with a null place, and this value.
    Null(u64),
    Owner,
    Weak,
}

/// How a handle comes of another.
#[derive(Clone, Copy, Drop)]
pub(crate) enum Way {
    Share,
    Alias(Option<Place>),
    FromThis,
    Lock,
    Upgrade,
}

/// What a handle is asked.
#[derive(Clone, Copy, Drop)]
pub(crate) enum Look {
    UseCount,
    Expired,
    Read,
    Place,
    /// 1 is added to the value, and what it is then is told.
    Visit,
}

/// What two handles are asked.
#[derive(Clone, Copy, Drop)]
pub(crate) enum Pair {
    SamePlace,
    OwnerBefore,
}

/// A cell: a free one by its number, or a member of the object that the owner in a slot owns.
#[derive(Clone, Copy, Drop)]
pub(crate) enum Cell {
    Shared(u32),
    First(usize),
    Next(usize),
    Up(usize),
}

/// A call, with the numbers of its slots. What comes into a slot replaces what lies there, which leaves.
#[derive(Clone, Copy, Drop)]
pub(crate) enum Call {
    New(New, usize),
    Come(usize, Way, usize),
    Release(usize),
    Tell(usize, Look),
    TellBoth(usize, Pair, usize),
    Load(Cell, usize),
    Holds(Cell, usize),
    Store(usize, Cell),
    Exchange(usize, Cell),
    /// The cell is compared with the handle in the first slot, and that in the second is desired. Where that doesn't go
    /// in, it stays in its slot, and the copy of what the cell holds leaves.
    Compare(Cell, usize, usize),
}

/// What a call answers.
#[derive(Clone, Copy, PartialEq, Eq, Debug, Drop)]
pub(crate) enum Answer {
    Done,
    Not(Refusal),
    /// It was refused, and something else came back than what was handed in.
    Changed(Refusal),
    /// No such handle lies there.
    NoSuch,
    Is(bool),
    Count(u32),
    Field(u64),
    At(Option<Place>),
    Value(u64),
    /// A handle left.
    Left(Outcome),
    /// The desired handle went into the cell, and what came out left.
    Swapped(Outcome),
    /// It didn't: where the copy of what the cell holds points, and how many owners its object has then.
    Differs(Option<Place>, u32),
}

/// What came of what left.
#[derive(Clone, Copy, PartialEq, Eq, Debug, Drop)]
pub(crate) enum Outcome {
    Empty,
    Others,
    /// The last owner left, and the object ended with this value.
    Ended(u64),
}

/// What the call answers.
pub(crate) fn answer_of<R: Wait>(
    rt: &R,
    domain: &Domain<u64>,
    desk: &mut Desk<u64>,
    slots: &mut [Option<Held>],
    call: Call,
) -> Answer
    requires domain { Belongs desk.old domain.now }
    requires holds { HoldsSlots desk.old slots.old }
    ensures desk { IsSameDesk desk.old desk.new }
    ensures holds { HoldsSlots desk.new slots.new }
{
    match call {
        Call::New(new, to) => {
            let came = made(domain, desk, slots, new);
            arrive(domain, desk, slots, to, came)
        }
        Call::Come(of, way, to) => {
            let came = come(rt, domain, desk, slots, (of, way));
            arrive(domain, desk, slots, to, came)
        }
        Call::Load(cell, to) => {
            let came = load(rt, domain, desk, slots, cell);
            arrive(domain, desk, slots, to, came)
        }
        Call::Holds(cell, of) => holds(domain, desk, slots, (cell, of)),
        Call::Tell(of, look) => tell(rt, domain, desk, slots, (of, look)),
        Call::TellBoth(a, pair, b) => tell_both(domain, desk, slots, (a, pair, b)),
        _ => hand_in(rt, domain, desk, slots, call),
    }
}

/// The same of a call by which a handle goes out of its slot.
fn hand_in<R: Wait>(
    rt: &R,
    domain: &Domain<u64>,
    desk: &mut Desk<u64>,
    slots: &mut [Option<Held>],
    call: Call,
) -> Answer
    requires domain { Belongs desk.old domain.now }
    requires holds { HoldsSlots desk.old slots.old }
    ensures desk { IsSameDesk desk.old desk.new }
    ensures holds { HoldsSlots desk.new slots.new }
{
    match call {
        Call::Release(at) => match take(desk, slots, at) {
            Some(handle) => Answer::Left(let_go(domain, desk, slots, handle)),
            None => Answer::NoSuch,
        },
        Call::Store(from, cell) => store(domain, desk, slots, from, cell),
        Call::Exchange(at, cell) => exchange(domain, desk, slots, at, cell),
        Call::Compare(cell, expected, desired) => {
            let offer = Offer {
                cell,
                expected,
                desired,
            };
            compare(rt, domain, desk, slots, offer)
        }
        _ => Answer::NoSuch,
    }
}

/// The call of this number answered what it should.
fn agree<R: Abort>(rt: &R, number: usize, told: Answer, wanted: Answer) {
    assert_eq!(rt; told, wanted, "call {number} of a list");
}

/// Calls, each of which answers what stands beside it.
pub(crate) fn all<R: Abort + Wait>(
    rt: &R,
    domain: &Domain<u64>,
    desk: &mut Desk<u64>,
    slots: &mut [Option<Held>],
    calls: &[(Call, Answer)],
)
    requires domain { Belongs desk.old domain.now }
    requires holds { HoldsSlots desk.old slots.old }
    ensures desk { IsSameDesk desk.old desk.new }
    ensures holds { HoldsSlots desk.new slots.new }
{
    for (number, (call, wanted)) in calls.iter().enumerate() {
        let told = answer_of(rt, domain, desk, slots, *call);
        agree(rt, number, told, *wanted);
    }
}
