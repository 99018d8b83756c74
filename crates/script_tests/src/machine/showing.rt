//! What a world shows between any two steps.
ghost use Rattle.std.specs.Prelude.{◌<◌, ◌≤◌, OnOk, length};
ghost use Rattle.step_core.specs.Totals.{IsAtEnd};

use crate::same::same;
use control_word::{Block, Counts, Shape};
use std::alloc::{AllocError, Global};
use std::test::Fail;
use step_core::{
    Act, Actor, Call, CellName, Kind, Name, PendingCall, Program, RunRefusal, Stage, Stepped,
    Turned, World,
};
use step_table::limits::{SCRIPT_OWNERS, SCRIPT_WEAKS};

const A: Name = Name(0);

const W: Name = Name(1);

const CELL: CellName = CellName::Weak(0);

const FIRST: CellName = CellName::Member { name: A, member: 0 };

/// The object's last owner leaves, and the cell alone watches it; then that is taken out and leaves.
const WRITES: [Call; 7] = [
    Call::Make {
        target: A,
        fields: [1, 2, 3, 4],
    },
    Call::Weak {
        target: W,
        source: A,
    },
    Call::Store {
        cell: CELL,
        source: W,
    },
    Call::WeakReset { name: W },
    Call::Reset { name: A },
    Call::Exchange {
        cell: CELL,
        name: W,
    },
    Call::WeakReset { name: W },
];

const LOADS: [Call; 1] = [Call::Load {
    target: W,
    cell: CELL,
}];

/// An object whose first member holds an owner of another.
const OWNS: [Call; 4] = [
    Call::Make {
        target: A,
        fields: [5, 6, 7, 8],
    },
    Call::Make {
        target: Name(2),
        fields: [0; 4],
    },
    Call::Store {
        cell: FIRST,
        source: Name(2),
    },
    Call::Store {
        cell: CellName::Shared(0),
        source: A,
    },
];

/// An actor of an owner, a weak name and an owner.
fn actor(alloc: Global, calls: &[Call]) -> Result<Actor, AllocError> {
    Ok(Actor {
        kinds: vec![in alloc; Kind::Owner, Kind::Weak, Kind::Owner]?,
        calls: calls.to_vec(alloc)?,
    })
}

/// A world with two actors, four blocks and two cells, of which the second is weak.
#[derive(Drop)]
struct Pair {
    world: World,
    ghost two_actors: { 1 < length world.frame_views },
    ghost some_blocks: { 1 ≤ world.ghost_state.extent.shape.blocks },
}

impl Pair {
    fn new(alloc: Global, first: &[Call], second: &[Call]) -> Result<Self, Fail> {
        let actors = vec![in alloc; actor(alloc, first)?, actor(alloc, second)?]?;
        let shape = Shape {
            blocks: 4,
            owners: SCRIPT_OWNERS,
            weaks: SCRIPT_WEAKS,
            shared_cells: 1,
            weak_cells: 1,
            allowance: 80,
        };
        match World::new(alloc, shape, Program { actors }) {
            Ok(world) => Ok(Pair { world }),
            Err(refused) => Err(refused.why.into()),
        }
    }

    /// So many turns of the first actor, and what the last one did.
    fn turns(&mut self, count: usize) -> Turned {
        let mut told = Turned::Done;
        for _ in 0..count {
            told = self.world.turn(1);
        }
        told
    }

    /// A step of the first actor.
    fn first_step(&mut self) -> Stepped {
        self.world.step(1)
    }

    /// Each actor runs to its end.
    fn run(&mut self, alloc: Global) -> Result<(), RunRefusal>
        ensures { OnOk result (IsAtEnd self.new.world) }
    {
        match self.world.run(alloc, &[]) {
            Ok(_) => Ok(()),
            Err(why) => Err(why),
        }
    }

    /// A turn of the first actor, and how many owners and weak pointers the first object has then.
    fn turn(&mut self) -> Option<Counts> {
        self.world.turn(1);
        self.world.counts(Block::numbered(1))
    }

    /// The same of a step of the second.
    fn step(&mut self) -> Option<Counts> {
        self.world.step(2);
        self.world.counts(Block::numbered(1))
    }

    /// Whether a load of the second actor has a fund that isn't turned.
    fn is_loading(&self) -> bool {
        matches!(
            self.world.pending_call(2),
            PendingCall::Refill {
                stage: Stage::Turning,
                ..
            }
        )
    }
}

fn counts(owners: u32, weaks: u32) -> Option<Counts> {
    Some(Counts { owners, weaks })
}

/// A load took a fund of the cell, and has a weak pointer by that, which no word has yet. It is the last one once what
/// the cell held has left.
#[test]
fn a_load_under_way_is_counted(rt: HostRuntime) -> Result<(), Fail> {
    let mut pair = Pair::new(rt.alloc(), &WRITES, &LOADS)?;
    let stored = [pair.turn(), pair.turn(), pair.turn(), pair.turn()];
    let watched = [pair.turn(), pair.turn()];
    let looked = (pair.step(), pair.is_loading());
    let taken = (pair.step(), pair.is_loading());
    let left = [pair.turn(), pair.turn()];
    let turned = (pair.step(), pair.is_loading());
    let over = pair.step();
    same(
        &rt,
        stored,
        [counts(1, 0), counts(1, 1), counts(1, 2), counts(1, 2)],
    );
    same(&rt, watched, [counts(1, 1), counts(0, 1)]);
    same(
        &rt,
        [looked, taken],
        [(counts(0, 1), false), (counts(0, 2), true)],
    );
    same(&rt, left, [counts(0, 2), counts(0, 1)]);
    same(&rt, (turned, over), ((counts(0, 1), false), None));
    Ok(())
}

/// A make has put 1 into the weak number of its block by its first step, which is vacant until the last one.
#[test]
fn a_make_under_way_is_none(rt: HostRuntime) -> Result<(), Fail> {
    let mut pair = Pair::new(rt.alloc(), &OWNS, &LOADS)?;
    for _ in 0..6 {
        let is_quiet = matches!(pair.first_step(), Stepped::Quiet(_));
        let is_making = matches!(pair.world.pending_call(1), PendingCall::Making { .. });
        let told = (is_quiet, is_making, pair.world.counts(Block::numbered(1)));
        same(&rt, told, (true, true, None));
    }
    Ok(())
}

/// What the first actor is about to do, and what it has in hand: a make, the copy that goes into a cell, and then an
/// object's end.
#[test]
fn what_comes_next_is_told(rt: HostRuntime) -> Result<(), Fail> {
    let mut pair = Pair::new(rt.alloc(), &WRITES, &LOADS)?;
    let makes = matches!(pair.world.next_act(1), Some(Act::Make { .. }));
    same(&rt, (makes, pair.world.in_hand(1)), (true, None));
    pair.turns(2);
    let offers = matches!(pair.world.next_act(1), Some(Act::Offer { name: 1, .. }));
    pair.turns(1);
    let swaps = matches!(pair.world.next_act(1), Some(Act::Swap { .. }));
    let hand = pair.world.in_hand(1);
    same(
        &rt,
        (offers, swaps, hand),
        (true, true, pair.world.held(1, W)),
    );
    pair.turns(2);
    same(&rt, pair.world.has_ending(1), false);
    let ends = matches!(pair.first_step(), Stepped::Event(_));
    same(&rt, (ends, pair.world.has_ending(1)), (true, true));
    same(&rt, pair.turns(3), Turned::Done);
    same(&rt, pair.world.next_act(1).is_none(), true);
    Ok(())
}

/// What is left at the end: one object in a cell, which owns another.
#[test]
fn what_is_left_is_told(rt: HostRuntime) -> Result<(), Fail> {
    let mut pair = Pair::new(rt.alloc(), &OWNS, &[])?;
    pair.run(rt.alloc())?;
    pair.world.assert_invariant_at_end();
    let block = Block::numbered(1);
    same(&rt, pair.world.census(block), counts(1, 0));
    same(&rt, pair.world.fields(block), Some([5, 6, 7, 8]));
    same(&rt, (pair.world.made(), pair.world.ended()), (2, 0));
    Ok(())
}
