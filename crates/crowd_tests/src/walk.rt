//! Random calls, each of which answers what a model says that counts the owners of each object.

use crate::chance::Chance;
use crate::same::same;
use crate::walk::model::Model;
use pointer_calls::{Answer, Cell, Hands, Step, Told, Value, answer, new_ends, row};
use pointers::{Desk, Domain, Fault, Program, Team, run};
use std::alloc::Global;
use std::sync::Wait;
use std::thread::Threads;

mod calls;
mod model;

/// How many calls a walk makes.
const CALLS: u32 = 4_000;

/// A worker that makes random calls.
#[derive(Drop)]
struct Walker {
    told: Told,
    alloc: Global,
    seed: u64,
}

impl Walker {
    /// The calls, each of which answers what the model says. A fault has the number of its call.
    fn walk<R: Wait, D: Domain<Value = Value>>(
        &self,
        rt: &R,
        hands: &mut Hands<'_, D>,
        model: &mut Model,
    ) -> Result<(), Fault> {
        let mut chance = Chance::new(self.seed);
        for number in 0..CALLS {
            let (step, wanted) = model.next(&mut chance)?;
            row(number, answer(rt, hands, step) == wanted)?;
            let ended = Answer::Number(model.ended());
            row(number, answer(rt, hands, Step::EndsCount) == ended)?;
        }
        Ok(())
    }
}

impl<R: Threads + Wait + Sync> Program<Value, R> for Walker {
    fn work<D: Domain<Value = Value>>(
        &self,
        rt: &R,
        _number: usize,
        desk: &Desk<D>,
    ) -> Result<(), Fault> {
        let mut hands = Hands::new(desk, &self.told, self.alloc)?;
        let mut model = Model::new(self.alloc)?;
        self.walk(rt, &mut hands, &mut model)?;
        for cell in [Cell::Free(0), Cell::Free(1), Cell::Weak(0), Cell::Weak(1)] {
            answer(rt, &mut hands, Step::Clear(cell));
        }
        Ok(())
    }
}

/// The fault of a walk, and how many of 64 blocks are vacant after it.
fn walked<R: Threads + Wait + Sync>(
    rt: &R,
    alloc: Global,
    seed: u64,
) -> Result<(Option<Fault>, u32), Fault> {
    let told = new_ends(alloc)?;
    let walker = Walker { told, alloc, seed };
    let team = Team {
        workers: 1,
        pointers: 16,
    };
    match run(rt, alloc, team.shape(64, 2, 2), team, &walker) {
        Ok(ran) => Ok((ran.fault(), ran.census.vacant())),
        Err(_) => Err(Fault::Other(0)),
    }
}

#[test]
fn random_calls_answer_what_a_model_says(rt: HostRuntime) {
    for seed in 1..=8 {
        same(&rt, walked(&rt, rt.alloc(), seed), Ok((None, 64)));
    }
}
