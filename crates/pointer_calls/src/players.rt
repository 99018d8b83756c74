//! A player is a worker that makes lists of calls at its desk.

use crate::hands::Hands;
use crate::running::all;
use crate::steps::Row;
use crate::values::{Told, Value, new_ends, object};
use pointers::{Desk, Domain, Fault, Program, Ran, Team, run};
use std::alloc::Global;
use std::sync::Wait;
use std::thread::Threads;

/// How many blocks a player's domain has.
pub const BLOCKS: u32 = 64;

const TEAM: Team = Team {
    workers: 1,
    pointers: 16,
};

/// A worker that makes calls.
#[derive(Drop)]
struct Player<'p> {
    told: Told,
    alloc: Global,
    lists: Lists<'p>,
}

/// Lists of calls: the second one's are made within a visit of an object of number 9.
#[derive(Clone, Copy, Drop)]
pub struct Lists<'p> {
    pub before: &'p [Row],
    pub within: &'p [Row],
    pub after: &'p [Row],
    /// How often the first one is made.
    pub times: u32,
}

/// The numbers of the rows of the second list and of the third are counted from these.
const WITHIN: u32 = 200;

const AFTER: u32 = 300;

impl<'p> Player<'p> {
    /// The second list, within a visit of an object of number 9.
    fn visit<R: Wait, D: Domain<Value = Value>>(
        &self,
        rt: &R,
        hands: &mut Hands<'_, D>,
    ) -> Result<(), Fault> {
        if self.lists.within.is_empty() {
            return Ok(());
        }
        let of = object(hands.desk, hands.told, 9)?;
        of.visit(rt, |_| all(rt, hands, (WITHIN, self.lists.within)))?
    }
}

impl<'p, R: Threads + Wait + Sync> Program<Value, R> for Player<'p> {
    fn work<D: Domain<Value = Value>>(
        &self,
        rt: &R,
        _number: usize,
        desk: &Desk<D>,
    ) -> Result<(), Fault> {
        let mut hands = Hands::new(desk, &self.told, self.alloc)?;
        for _ in 0..self.lists.times {
            all(rt, &mut hands, (1, self.lists.before))?;
        }
        self.visit(rt, &mut hands)?;
        all(rt, &mut hands, (AFTER, self.lists.after))
    }
}

/// The lists by one worker with 16 pointers, over two free cells of each kind: its fault, which is `Other` with the
/// number of the row that answers something else, and how many blocks are vacant then. The rows of the second list and
/// of the third are counted from 200 and 300.
pub fn played<R: Threads + Wait + Sync>(
    rt: &R,
    alloc: Global,
    lists: Lists<'_>,
) -> Result<(Option<Fault>, u32), Fault> {
    let told = new_ends(alloc)?;
    let player = Player { told, alloc, lists };
    match run(rt, alloc, TEAM.shape(BLOCKS, 2, 2), TEAM, &player) {
        Ok(ran) => Ok(of_run(&ran)),
        Err(_) => Err(Fault::Other(0)),
    }
}

/// What is told of a run.
fn of_run(ran: &Ran<Value>) -> (Option<Fault>, u32) {
    (ran.fault(), ran.census.vacant())
}
