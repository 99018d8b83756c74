//! What no script asks for: steps and turns of one world, mixed, and the shelf's steps on a table.
use crate::machine::worlds::TestWorld;
use crate::same::same;
use control_word::{Block, Shape};
use std::test::Fail;
use step_core::{Answer, Call, Ended, Name, Said, Stepped, Turned};
use step_table::limits::{SCRIPT_OWNERS, SCRIPT_WEAKS};
use step_table::memory::extent::Extent;
use step_table::memory::table::Table;

const A: Name = Name(0);

const CALLS: [Call; 3] = [
    Call::Make {
        target: A,
        fields: [1, 0, 0, 0],
    },
    Call::Reset { name: A },
    Call::Count { name: A },
];

/// What a step on the way to the Make tells, and its event too.
const MAKES: Said = Said {
    statement: 1,
    answer: None,
    ended: None,
};

/// The last owner leaves.
const ENDS: Said = Said {
    statement: 2,
    answer: None,
    ended: Some(Ended::Fields([1, 0, 0, 0])),
};

const COUNTS: Said = Said {
    statement: 3,
    answer: Some(Answer::Count(0)),
    ended: None,
};

#[test]
fn a_turn_ends_what_steps_began(rt: HostRuntime) -> Result<(), Fail> {
    let mut world = TestWorld::new(rt.alloc(), 2, CALLS.as_slice())?;
    let first = [world.step(), world.step(), world.step()];
    let mixed = (world.turn(), world.step(), world.turn());
    let last = (world.turn(), world.step());
    let makes = [Stepped::Quiet(MAKES); 3];
    let goes_on = (
        Turned::Acted(MAKES),
        Stepped::Event(ENDS),
        Turned::Acted(COUNTS),
    );
    same(
        &rt,
        (first, mixed, last),
        (makes, goes_on, (Turned::Done, Stepped::Done)),
    );
    Ok(())
}

#[test]
fn a_shelved_block_is_taken_once(rt: HostRuntime) -> Result<(), Fail> {
    let shape = Shape {
        blocks: 4,
        owners: SCRIPT_OWNERS,
        weaks: SCRIPT_WEAKS,
        shared_cells: 0,
        weak_cells: 0,
        allowance: 80,
    };
    let mut table = Table::new(rt.alloc(), &Extent { shape, actors: 2 })?;
    table.shelve(0, Block::numbered(1));
    table.shelve(1, Block::numbered(3));
    let taken = [
        table.unshelve(0, Block::numbered(2)),
        table.unshelve(1, Block::numbered(1)),
        table.unshelve(0, Block::numbered(1)),
        table.unshelve(0, Block::numbered(3)),
        table.unshelve(1, Block::numbered(3)),
    ];
    same(&rt, taken, [false, true, false, true, false]);
    Ok(())
}
