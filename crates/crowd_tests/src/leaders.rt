//! Programs whose first thread leads.

use pointer_calls::row;
use pointers::{
    Call, Desk, Domain, Failed, Fault, Leader, Limit, Manned, NotRun, Number, Program, Refusal,
    Shared, SharedCell, Team, run_leader,
};
use std::alloc::Global;
use std::process::Abort;
use std::rt::{HostRuntime, Runtime};
use std::sync::Wait;
use std::sync::atomic::{AtomicU64, Ordering};
use std::thread::Threads;

const TEAM: Team = Team {
    workers: 3,
    pointers: 2,
};

/// Room for the team, and for a leader with two pointers.
const ALL: Team = Team {
    workers: 4,
    pointers: 2,
};

const SHOWN: SharedCell = SharedCell(0);

/// A leader that starts three teams, keeps an object over them, and shows it to each in a cell.
#[derive(Drop)]
struct Keeper {
    teams: u32,
    sum: AtomicU64,
}

impl<R: Threads + Wait + Sync> Program<u64, R> for Keeper {
    fn work<D: Domain<Value = u64>>(
        &self,
        rt: &R,
        number: usize,
        desk: &Desk<D>,
    ) -> Result<(), Fault> {
        if let Some(it) = desk.load(rt, SHOWN)? {
            self.sum.fetch_add(it.read()?, Ordering::SeqCst);
        }
        if number == 1 {
            return Err(Fault::Other(self.teams));
        }
        Ok(())
    }
}

impl<R: Threads + Wait + Sync> Leader<u64, R> for Keeper {
    fn lead<'t, D: Domain<Value = u64>>(
        &mut self,
        _rt: &R,
        before: Option<Manned>,
        desk: &'t Desk<D>,
        kept: &mut Vec<Shared<'t, D>>,
    ) -> Result<Option<Team>, Fault> {
        let all = Manned {
            workers: 3,
            fewer: None,
        };
        match kept.first() {
            None => {
                row(90, before.is_none())?;
                kept.push(desk.make([5, 0, 0, 0], 1)?)?;
            }
            Some(one) => {
                row(91, before == Some(all))?;
                desk.clear(SHOWN)?;
                row(92, one.read()? == 5 && one.use_count()? == 1)?;
            }
        }
        if self.teams == 3 {
            return Ok(None);
        }
        self.teams = self.teams.saturating_add(1);
        if let Some(one) = kept.first() {
            one.share()?.store(SHOWN)?;
        }
        Ok(Some(TEAM))
    }
}

#[test]
fn three_teams_work(rt: HostRuntime) {
    let mut leader = Keeper {
        teams: 0,
        sum: AtomicU64::new(0),
    };
    match run_leader(&rt, rt.alloc(), ALL.shape(4, 1, 0), 2, &mut leader) {
        Ok(ran) => {
            assert_eq!(&rt; ran.workers, 9);
            assert!(&rt; ran.fewer.is_none());
            assert_eq!(&rt; ran.failed.len(), 3);
            for (failed, team) in ran.failed.iter().zip([1, 2, 3]) {
                assert_eq!(&rt;
                    *failed,
                    Failed {
                        worker: 1,
                        why: Fault::Other(team)
                    }
                );
            }
            assert_eq!(&rt; ran.census.vacant(), 4);
        }
        Err(why) => panic!(&rt; "not run: {why}"),
    }
    assert_eq!(&rt; leader.sum.load(Ordering::SeqCst), 45);
}

/// A leader whose second call ends its program, by a team that doesn't fit or by a fault of its own.
#[derive(Drop)]
struct Ends {
    next: Result<Option<Team>, Fault>,
}

impl<R: Threads + Wait + Sync> Program<u64, R> for Ends {
    fn work<D: Domain<Value = u64>>(
        &self,
        _rt: &R,
        number: usize,
        _desk: &Desk<D>,
    ) -> Result<(), Fault> {
        Err(Fault::Other(u32::try_from(number).unwrap_or(99)))
    }
}

impl<R: Threads + Wait + Sync> Leader<u64, R> for Ends {
    fn lead<'t, D: Domain<Value = u64>>(
        &mut self,
        _rt: &R,
        before: Option<Manned>,
        desk: &'t Desk<D>,
        kept: &mut Vec<Shared<'t, D>>,
    ) -> Result<Option<Team>, Fault> {
        if before.is_some() {
            return self.next;
        }
        kept.push(desk.new(1)?)?;
        Ok(Some(TEAM))
    }
}

/// The workers' faults are told in their order, and then the leader's. All blocks are vacant.
fn ends_with<R: Abort + Threads + Wait + Sync>(
    rt: &R,
    alloc: Global,
    next: Result<Option<Team>, Fault>,
    why: Fault,
) {
    let mut leader = Ends { next };
    match run_leader(rt, alloc, ALL.shape(5, 0, 0), 2, &mut leader) {
        Ok(ran) => {
            assert_eq!(rt; ran.workers, 3);
            assert_eq!(rt; ran.failed.len(), 4);
            for (number, failed) in ran.failed.iter().enumerate() {
                let other = Fault::Other(u32::try_from(number).unwrap_or(99));
                let (worker, why) = if number < 3 {
                    (number, other)
                } else {
                    (usize::MAX, why)
                };
                assert_eq!(rt; *failed, Failed { worker, why });
            }
            assert_eq!(rt; ran.census.vacant(), 5);
        }
        Err(why) => panic!(rt; "not run: {why}"),
    }
}

#[test]
fn a_team_that_does_not_fit_ends_its_leader(rt: HostRuntime) {
    let large = Team {
        workers: 3,
        pointers: 3,
    };
    ends_with(
        &rt,
        rt.alloc(),
        Ok(Some(large)),
        Fault::Refused(Call::Team, Refusal::Limit),
    );
}

#[test]
fn a_fault_ends_its_leader(rt: HostRuntime) {
    ends_with(&rt, rt.alloc(), Err(Fault::Other(77)), Fault::Other(77));
}

/// A leader needs room for its own pointers.
#[test]
fn a_leader_needs_room(rt: HostRuntime) {
    let mut leader = Ends { next: Ok(None) };
    let alone = Team {
        workers: 1,
        pointers: 2,
    };
    let mut shape = alone.shape(5, 0, 0);
    assert_eq!(&rt; shape.allowance, 5);
    shape.allowance = 4;
    let why = run_leader(&rt, rt.alloc(), shape, 2, &mut leader).err();
    let limit = Limit {
        number: Number::Allowance,
        is: 4,
        limit: 5,
    };
    assert!(&rt; why == Some(NotRun::Small(limit)));
}
