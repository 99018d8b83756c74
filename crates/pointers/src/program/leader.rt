//! A program whose first thread has a desk too, and starts teams one after another.
ghost use Rattle.std.specs.Prelude.{◌≡◌, ◌⊎◌, ◌+◌, ◌<◌, ◌++◌, IfErr, IfOk, Option, length, vec_capacity};
ghost use Rattle.pointers.specs.Leading.{Led, Leads, leaders};
ghost use Rattle.pointers.specs.Teams.{Fits, IsMisfit};
ghost use Rattle.pointers.specs.declared.fault.Fault.{Fault};

use crate::desk::Desk;
use crate::domain::Domain;
use crate::fault::Fault;
use crate::program::closing::close_whole;
use crate::program::not_run::NotRun;
use crate::program::opening::open_domain;
use crate::program::team::Team;
use crate::program::teams::Teams;
use crate::program::{Failed, Program, Ran};
use crate::shared::Shared;
use control_word::{Refusal, Shape};
use std::alloc::Global;
use std::sync::Wait;
use std::thread::Threads;

/// How many workers of a team worked: all of it; or none, and why.
#[derive(Clone, Copy, PartialEq, Eq, Debug, Drop)]
pub struct Manned {
    pub workers: usize,
    pub fewer: Option<Refusal>,
}

/// A program that its first thread leads: it has a desk of its own, and starts teams one after another. `leads` says
/// what a call of `lead` may do, also to the pointers in `kept`. A program that gives no such member says nothing.
pub trait Leader<V: Drop, R: Threads + Wait + Sync>: Program<V, R> {
    ghost use Rattle.pointers.specs.Leading.{Lead, any_lead};

    ghost leads: { Lead Self V } = { any_lead };

    /// What the first thread does before the first team, between two, and after the last one. It answers the next team,
    /// or none where there is no more to do; a fault ends the program too. `before` says how many workers of the team
    /// before worked, and why none did, where none did. Pointers that it puts into `kept` are there again at the next
    /// call; all others let go, unless they are forgotten.
    fn lead<'t, D: Domain<Value = V>>(
        &mut self,
        rt: &R,
        before: Option<Manned>,
        desk: &'t Desk<'t, D>,
        kept: &mut Vec<Shared<'t, D>>,
    ) -> Result<Option<Team>, Fault>
        ensures { leads self.old before kept.old.items result self.new kept.new.items };
}

/// A domain is opened, and the first thread leads at a desk of its own with so many pointers: between two calls of
/// `lead` a team works, as in `run`, while the desk's vacant blocks are on the shelf. Where no further team is started
/// all that is kept lets go, what is left to end does so, and the domain is closed (own). A team that the domain has no
/// room for ends the program with the fault `Refused(Team, Limit)`, and none of its workers works. Where memory or a
/// thread is refused for a worker none of its team works, and the leader is told so. `failed` has the faults of all
/// teams, and last that of the leader, as of worker `usize::MAX`.
pub fn run_leader<V: Drop + Send, R: Threads + Wait + Sync, P: Leader<V, R> + Sync>(
    rt: &R,
    alloc: Global,
    shape: Shape,
    pointers: u32,
    leader: &mut P,
) -> Result<Ran<V>, NotRun>
    ensures runs { IfOk result (λ r. (last : Led P V) × (fault : Option Fault)
        × Leads V P.leads P.answers shape (pointers + 2) leader.old last fault r.census
        × (last.leader ≡ leader.new) × (r.workers ≡ last.workers) × (r.fewer ≡ last.fewer)
        × (r.failed.items ≡ last.failed ++ leaders fault)) }
    ensures fits { IfOk result (λ _. Fits shape (record { workers = 1; pointers = pointers })) }
    ensures misfit { IfErr result (λ why. IsMisfit shape (record { workers = 1; pointers = pointers }) why
        ⊎ ((why ≡ NotRun.Memory) × Fits shape (record { workers = 1; pointers = pointers }))) }
    ensures same { IfErr result (λ _. leader.new ≡ leader.old) }
{
    let alone = Team {
        workers: 1,
        pointers,
    };
    if let Some(why) = alone.misfit(&shape) {
        return Err(why);
    }
    let Ok(failed) = Vec::with_capacity(alloc, 1) else {
        return Err(NotRun::Memory);
    };
    let Some(opened) = open_domain::<V>(alloc, shape) else {
        return Err(NotRun::Memory);
    };
    let (domain, desk) = opened;
    let mut teams = Teams {
        alloc,
        domain: &domain,
        desk,
        before: None,
        workers: 0,
        fewer: None,
        failed,
    };
    let led = teams.led_at(rt, alone.each(), leader);
    let Teams {
        alloc: _,
        domain: _,
        desk,
        before: _,
        workers,
        fewer,
        failed,
    } = teams;
    let census = close_whole(domain, desk);
    match led {
        Some(fault) => Ok(Ran {
            census,
            workers,
            fewer,
            failed: with_leader(failed, fault),
        }),
        None => Err(NotRun::Memory),
    }
}

/// The workers' faults, and last that of the leader, if there is one.
fn with_leader(failed: Vec<Failed>, fault: Option<Fault>) -> Vec<Failed>
    requires { length failed.items < vec_capacity failed }
    ensures { result.items ≡ failed.items ++ leaders fault }
{
    let mut failed = failed;
    if let Some(why) = fault {
        let worker = usize::MAX;
        failed.push_reserved(Failed { worker, why });
    }
    failed
}
