//! Programs that move blocks to the shelf and from it, as no script does: one actor's blocks serve another.
ghost use Rattle.std.specs.Prelude.{◌<◌, ◌≤◌, length};
ghost use Rattle.control_word.specs.Limits.{most_blocks};

use crate::same::same;
use control_word::{Block, Refusal, Shape};
use std::alloc::{AllocError, Global};
use std::test::Fail;
use step_core::{Actor, Answer, Call, Kind, Name, Program, RunRefusal, Said, Turned, World};
use step_table::limits::{SCRIPT_OWNERS, SCRIPT_WEAKS};

const A: Name = Name(0);

const B: Name = Name(1);

const C: Name = Name(2);

const D: Name = Name(3);

const E: Name = Name(4);

fn make(target: Name) -> Call {
    let fields = [0; 4];
    Call::Make { target, fields }
}

fn unshelve(number: u32) -> Call
    requires { (0 < number) × (number ≤ most_blocks) }
{
    let block = Block::numbered(number);
    Call::Unshelve { block }
}

/// It has blocks 1 and 2: the third shelve moves none, and there is none for the make. Then it would have block 2 back.
fn gives(alloc: Global) -> Result<Vec<Call>, AllocError> {
    Ok(vec![in alloc; Call::Shelve { count: 3 }, make(A), unshelve(2), make(A)]?)
}

/// Two makes take its own blocks, and two more those from the shelf, on which block 3 isn't.
fn takes(alloc: Global) -> Result<Vec<Call>, AllocError> {
    let (a, b, c) = (make(A), make(B), make(C));
    let (d, e) = (make(D), make(E));
    Ok(vec![in alloc; a, b, c, unshelve(1), unshelve(2), unshelve(3), c, d, e]?)
}

/// An act that tells nothing, or is refused.
fn acted(statement: u32, is_full: bool) -> Turned {
    let answer = if is_full {
        Some(Answer::Refused(Refusal::Full))
    } else {
        None
    };
    Turned::Acted(Said {
        statement,
        answer,
        ended: None,
    })
}

/// An actor with five owners.
fn actor(alloc: Global, calls: Vec<Call>) -> Result<Actor, AllocError> {
    match vec![in alloc; Kind::Owner; 5] {
        Ok(kinds) => Ok(Actor { kinds, calls }),
        Err(why) => Err(why),
    }
}

/// A world with two actors and four blocks.
#[derive(Drop)]
struct Pair {
    world: World,
    ghost two_actors: { 1 < length world.frame_views },
}

impl Pair {
    fn new(alloc: Global) -> Result<Self, Fail> {
        let first = actor(alloc, gives(alloc)?)?;
        let second = actor(alloc, takes(alloc)?)?;
        let actors = vec![in alloc; first, second]?;
        let shape = Shape {
            blocks: 4,
            owners: SCRIPT_OWNERS,
            weaks: SCRIPT_WEAKS,
            shared_cells: 0,
            weak_cells: 0,
            allowance: 80,
        };
        match World::new(alloc, shape, Program { actors }) {
            Ok(world) => Ok(Pair { world }),
            Err(refused) => Err(refused.why.into()),
        }
    }

    fn turn(&mut self, is_first: bool) -> Turned {
        if is_first {
            self.world.turn(1)
        } else {
            self.world.turn(2)
        }
    }

    fn run(&mut self, alloc: Global, turns: &[u8]) -> Result<(), RunRefusal> {
        match self.world.run(alloc, turns) {
            Ok(_) => Ok(()),
            Err(why) => Err(why),
        }
    }

    /// How many objects were made, and how many ended.
    fn totals(&self) -> (u32, u32) {
        (self.world.made(), self.world.ended())
    }
}

/// Whether a turn is the first actor's, its statement, and whether that finds no block.
const TURNS: [(bool, u32, bool); 15] = [
    (true, 1, false),
    (true, 1, false),
    (true, 1, false),
    (true, 2, true),
    (false, 1, false),
    (false, 2, false),
    (false, 3, true),
    (false, 4, false),
    (false, 5, false),
    (false, 6, false),
    (true, 3, false),
    (true, 4, true),
    (false, 7, false),
    (false, 8, false),
    (false, 9, true),
];

#[test]
fn blocks_change_actors_turn_by_turn(rt: HostRuntime) -> Result<(), Fail> {
    let mut pair = Pair::new(rt.alloc())?;
    for (is_first, statement, is_full) in TURNS {
        same(&rt, pair.turn(is_first), acted(statement, is_full));
    }
    same(&rt, pair.totals(), (4, 0));
    Ok(())
}

#[test]
fn blocks_change_actors_in_a_run(rt: HostRuntime) -> Result<(), Fail> {
    let mut pair = Pair::new(rt.alloc())?;
    pair.run(rt.alloc(), &[2, 1, 2, 1, 1])?;
    same(&rt, pair.totals(), (4, 4));
    Ok(())
}
