//! Whether a cell holds a handle, by a desk that is alone.
use crate::bare::alone::answers;
use crate::listed::{Answer, Call, Cell, New, Outcome, Way};
use crate::shapes::shape_with_cells;
use control_word::{Block, Place};

/// The second field of the block in which the first object is made.
fn elsewhere() -> Option<Place> {
    Some(Place {
        block: Block::numbered(1),
        field: 1,
    })
}

/// Place and object, both as the cell has them; a load takes a fund meanwhile. Slot 5 has the owner of the object whose
/// members are cells.
fn owners(cell: Cell) -> [(Call, Answer); 17] {
    [
        (
            Call::New(New::Object([1, 2, 0, 0], false, 1), 5),
            Answer::Done,
        ),
        (Call::New(New::Owner, 1), Answer::Done),
        (Call::Holds(cell, 1), Answer::Is(true)),
        (Call::Holds(cell, 5), Answer::Is(false)),
        (
            Call::New(New::Object([2, 0, 0, 0], false, 2), 0),
            Answer::Done,
        ),
        (Call::Come(0, Way::Share, 2), Answer::Done),
        (Call::Store(2, cell), Answer::Left(Outcome::Empty)),
        (Call::Holds(cell, 1), Answer::Is(false)),
        (Call::Holds(cell, 0), Answer::Is(true)),
        (Call::Load(cell, 2), Answer::Done),
        (Call::Holds(cell, 2), Answer::Is(true)),
        (Call::Holds(cell, 5), Answer::Is(false)),
        (Call::Come(0, Way::Alias(elsewhere()), 2), Answer::Done),
        (Call::Holds(cell, 2), Answer::Is(false)),
        (Call::Store(2, cell), Answer::Left(Outcome::Others)),
        (Call::Holds(cell, 0), Answer::Is(false)),
        (Call::Holds(cell, 3), Answer::NoSuch),
    ]
}

#[test]
fn a_cell_holds_what_has_its_place_and_object(rt: HostRuntime) {
    for (cell, vacant) in [
        (Cell::Shared(0), 1),
        (Cell::First(5), 2),
        (Cell::Next(5), 2),
    ] {
        let shape = shape_with_cells(2, 1, 0, 8);
        answers(&rt, rt.alloc(), shape, &owners(cell), vacant);
    }
}

/// A weak member that nothing was stored in holds an empty weak pointer, and so does what was loaded from it.
const WATCHERS: [(Call, Answer); 5] = [
    (
        Call::New(New::Object([1, 2, 0, 0], false, 1), 5),
        Answer::Done,
    ),
    (Call::New(New::Weak, 1), Answer::Done),
    (Call::Holds(Cell::Up(5), 1), Answer::Is(true)),
    (Call::Load(Cell::Up(5), 2), Answer::Done),
    (Call::Holds(Cell::Up(5), 2), Answer::Is(true)),
];

#[test]
fn a_weak_member_holds_what_is_empty(rt: HostRuntime) {
    let shape = shape_with_cells(1, 0, 0, 8);
    answers(&rt, rt.alloc(), shape, &WATCHERS, 1);
}
