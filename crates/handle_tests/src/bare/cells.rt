//! Cells beside empty handles that point somewhere.
use crate::bare::alone::answers;
use crate::listed::{Answer, Call, Cell, New, Outcome, Pair, Way};
use crate::shapes::shape_with_cells;
use control_word::{Block, Place, Refusal};

/// The place of the first block.
fn first() -> Option<Place> {
    Some(Place {
        block: Block::numbered(1),
        field: 0,
    })
}

/// The place of the second. (Of three objects in three blocks the second is in the second one, from whichever end they
/// go.)
fn second() -> Option<Place> {
    Some(Place {
        block: Block::numbered(2),
        field: 0,
    })
}

const CELL: Cell = Cell::Shared(0);

/// An empty pointer to the place of an object that ends: it points at the object that is made there next, and owns
/// nothing of it.
fn used_again() -> [(Call, Answer); 9] {
    [
        (
            Call::New(New::Object([1, 0, 0, 0], false, 1), 0),
            Answer::Done,
        ),
        (Call::New(New::Owner, 1), Answer::Done),
        (Call::Come(1, Way::Alias(first()), 1), Answer::Done),
        (Call::Release(0), Answer::Left(Outcome::Ended(1))),
        (
            Call::New(New::Object([2, 0, 0, 0], false, 2), 0),
            Answer::Done,
        ),
        (Call::Come(0, Way::Share, 2), Answer::Done),
        (Call::Store(2, CELL), Answer::Left(Outcome::Empty)),
        (Call::TellBoth(1, Pair::SamePlace, 0), Answer::Is(true)),
        (Call::Compare(CELL, 1, 0), Answer::Differs(first(), 3)),
    ]
}

#[test]
fn a_pointer_to_a_block_that_is_used_again_owns_nothing(rt: HostRuntime) {
    let shape = shape_with_cells(1, 1, 0, 8);
    answers(&rt, rt.alloc(), shape, &used_again(), 0);
}

/// An owner of the null pointer, and an empty handle that points at a block, show no members.
fn no_members() -> [(Call, Answer); 9] {
    [
        (Call::New(New::Null(1), 0), Answer::Done),
        (Call::Load(Cell::First(0), 1), Answer::Not(Refusal::Null)),
        (Call::Load(Cell::Up(0), 1), Answer::Not(Refusal::Null)),
        (Call::New(New::Owner, 1), Answer::Done),
        (Call::Come(1, Way::Alias(second()), 1), Answer::Done),
        (Call::New(New::Object([2; 4], false, 2), 2), Answer::Done),
        (Call::Store(2, Cell::Next(1)), Answer::Not(Refusal::Outside)),
        (Call::Load(Cell::Up(1), 3), Answer::Not(Refusal::Outside)),
        (Call::Release(2), Answer::Left(Outcome::Ended(2))),
    ]
}

#[test]
fn members_are_those_of_the_object_that_an_owner_points_into(rt: HostRuntime) {
    let shape = shape_with_cells(2, 0, 0, 8);
    answers(&rt, rt.alloc(), shape, &no_members(), 2);
}
