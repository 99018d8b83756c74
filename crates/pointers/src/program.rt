//! A program over a domain of its own, with a desk for each of its threads.
ghost use Rattle.std.specs.Prelude.{◌≡◌, ◌⊎◌, ℕ, IfErr, IfOk, None, slice_get};
ghost use Rattle.pointers.specs.Beside.{seen_by};
ghost use Rattle.pointers.specs.Programs.{Runs};
ghost use Rattle.pointers.specs.Teams.{Fits, IsMisfit};

use crate::desk::Desk;
use crate::domain::Domain;
use crate::fault::Fault;
use crate::program::closing::close_whole;
use crate::program::not_run::NotRun;
use crate::program::opening::open_domain;
use crate::program::staff::lend;
use crate::program::team::Team;
use crate::program::work::Post;
use control_block::census::Census;
use control_word::{Refusal, Shape};
use std::alloc::Global;
use std::sync::Wait;
use std::thread::Threads;

pub(crate) mod brand;
mod closing;
pub mod leader;
mod leads;
pub mod not_run;
mod opening;
pub(crate) mod part;
pub(crate) mod staff;
pub mod team;
pub(crate) mod teams;
pub(crate) mod work;
pub(crate) mod worker;

/// What each worker of a team does, in a thread with a desk of its own. What it answers is told by `run`. `answers`
/// says what it may answer, by the program and the worker's number. A program that gives no such member says nothing.
pub trait Program<V: Drop, R: Threads + Wait> {
    ghost use Rattle.pointers.specs.Programs.{Answer, any_answer};

    ghost answers: { Self → ℕ → Answer } = { λ _ _. any_answer };

    fn work<D: Domain<Value = V>>(&self, rt: &R, number: usize, desk: &Desk<D>) -> Result<(), Fault>
        ensures { answers self.now number result };
}

/// A worker whose work ended with a fault.
#[derive(Clone, Copy, PartialEq, Eq, Debug, Drop)]
pub struct Failed {
    pub worker: usize,
    pub why: Fault,
}

/// What a program's run left: the census of its domain, how many workers worked, and the faults that their work ended
/// with. Of `run` these are all workers, and `fewer` is none. Of a leader's run they are those of all its teams, and
/// `fewer` says why one of them didn't work, where one didn't.
#[derive(Drop)]
pub struct Ran<V: Drop> {
    pub census: Census<V>,
    pub workers: usize,
    pub fewer: Option<Refusal>,
    pub failed: Vec<Failed, Global>,
}

impl<V: Drop> Ran<V> {
    /// The fault of the first worker that has one.
    pub fn fault(&self) -> Option<Fault>
        ensures { result ≡ seen_by (λ f. f.why) (slice_get self.now.failed.items 0) }
    {
        let first = self.failed.first()?;
        Some(first.why)
    }
}

/// A domain is opened, each worker of the team does its part of the program in a thread with a desk of its own, and the
/// domain is closed (own). What a worker left to end does so; a pointer that it forgot is in the census. All vacant
/// blocks are any worker's: they lie on the domain's shelf. All workers work, or none: where a number doesn't fit
/// (`Small`, `Large`), or where memory or a thread is refused for one (`Memory`).
pub fn run<V: Drop + Send, R: Threads + Wait + Sync, P: Program<V, R> + Sync>(
    rt: &R,
    alloc: Global,
    shape: Shape,
    team: Team,
    program: &P,
) -> Result<Ran<V>, NotRun>
    ensures runs { IfOk result (λ r. Runs V (P.answers program.now) shape team r.failed.items r.census) }
    ensures all { IfOk result (λ r. (r.workers ≡ team.workers) × (r.fewer ≡ None)) }
    ensures fits { IfOk result (λ _. Fits shape team) }
    ensures misfit { IfErr result (λ why. IsMisfit shape team why ⊎ ((why ≡ NotRun.Memory) × Fits shape team)) }
{
    if let Some(why) = team.misfit(&shape) {
        return Err(why);
    }
    let Some(opened) = open_domain::<V>(alloc, shape) else {
        return Err(NotRun::Memory);
    };
    let (domain, mut desk) = opened;
    let first = Post {
        alloc,
        domain: &domain,
        program,
        number: 0,
    };
    let failed = lend(rt, &mut desk, first, team);
    let census = close_whole(domain, desk);
    match failed {
        Some(failed) => Ok(Ran {
            census,
            workers: team.workers,
            fewer: None,
            failed,
        }),
        None => Err(NotRun::Memory),
    }
}
