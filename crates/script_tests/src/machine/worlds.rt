//! A world that tests step.
ghost use Rattle.std.specs.Prelude.{◌<◌, length};

use control_word::{Refusal, Shape};
use std::alloc::{AllocError, Global};
use std::test::Fail;
use step_core::{Actor, Call, Kind, Program, RunRefusal, Stepped, Turned, World};
use step_table::limits::{SCRIPT_OWNERS, SCRIPT_WEAKS};

/// A world with an actor.
#[derive(Drop)]
pub(crate) struct TestWorld {
    world: World,
    ghost some_actor: { 0 < length world.frame_views },
}

impl TestWorld {
    /// A world of one actor with two owners that makes these calls, and of so many blocks.
    pub(crate) fn new(alloc: Global, blocks: u32, calls: &[Call]) -> Result<Self, Fail> {
        let actor = Actor {
            kinds: vec![in alloc; Kind::Owner; 2]?,
            calls: calls.to_vec(alloc)?,
        };
        let shape = Shape {
            blocks,
            owners: SCRIPT_OWNERS,
            weaks: SCRIPT_WEAKS,
            shared_cells: 0,
            weak_cells: 0,
            allowance: 40,
        };
        let actors = vec![in alloc; actor]?;
        match World::new(alloc, shape, Program { actors }) {
            Ok(world) => Ok(TestWorld { world }),
            Err(refused) => match refused.why {
                Refusal::Memory => Err(AllocError.into()),
                why => Err(why.into()),
            },
        }
    }

    pub(crate) fn step(&mut self) -> Stepped {
        self.world.step(1)
    }

    pub(crate) fn turn(&mut self) -> Turned {
        self.world.turn(1)
    }

    pub(crate) fn run(&mut self, alloc: Global, turns: &[u8]) -> Result<(), RunRefusal> {
        match self.world.run(alloc, turns) {
            Ok(_) => Ok(()),
            Err(why) => Err(why),
        }
    }

    /// How many objects were made, and how many ended.
    pub(crate) fn totals(&self) -> (u32, u32) {
        (self.world.made(), self.world.ended())
    }
}
