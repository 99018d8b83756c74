//! Random calls by four workers at once: each value that was made has ended, or lives in an object of the census.

use crate::chance::Chance;
use crate::same::same;
use pointer_calls::{
    ByLink, Cell, Form, Hands, Look, New, Pair, Step, Told, Value, Way, answer, ended, made,
    new_ends, row,
};
use pointers::{Desk, Domain, Fault, Program, Ran, Team, run};
use std::alloc::Global;
use std::sync::Wait;
use std::thread::Threads;

/// Slots of a worker, and one that isn't there.
const SLOTS: usize = 13;

/// How many calls each worker makes.
const CALLS: u32 = 5_000;

/// Workers that make random calls, some of them on slots and cells that aren't there.
#[derive(Drop)]
struct Crowd {
    told: Told,
    alloc: Global,
    seed: u64,
}

/// A cell by chance: now and then one that isn't there.
fn cell(chance: &mut Chance) -> Cell {
    let number = u32::try_from(chance.slot(3)).unwrap_or(0);
    match chance.below(8) {
        0 | 1 => Cell::Free(number),
        2 => Cell::Place(number),
        3 => Cell::Weak(number),
        4 => Cell::WeakPlace(number),
        5 => Cell::First(chance.slot(SLOTS)),
        6 => Cell::Next(chance.slot(SLOTS)),
        _ => Cell::Up(chance.slot(SLOTS)),
    }
}

/// How a pointer comes of another, by chance.
fn way(chance: &mut Chance) -> Way {
    match chance.below(12) {
        0 | 1 | 2 => Way::Share,
        3 => Way::Field(u8::try_from(chance.slot(5)).unwrap_or(0)),
        4 => Way::Nowhere,
        5 => Way::Into(chance.slot(SLOTS)),
        6 => Way::This,
        7 => Way::WeakOfThis,
        8 => Way::Downgrade,
        9 => Way::Parent,
        10 => Way::Lock,
        _ => Way::Upgrade,
    }
}

/// What a new object is, by chance.
fn new(chance: &mut Chance) -> New {
    match chance.below(4) {
        0 => New::Null,
        1 => New::Enabled,
        _ => New::Object,
    }
}

/// What a pointer is asked, by chance.
fn look(chance: &mut Chance) -> Look {
    match chance.below(5) {
        0 => Look::Read,
        1 => Look::UseCount,
        2 => Look::Expired,
        3 => Look::Field,
        _ => Look::Visit,
    }
}

/// A call by a link, by chance.
fn by_link(chance: &mut Chance) -> ByLink {
    let slot = chance.slot(SLOTS);
    match chance.below(4) {
        0 => ByLink::Load(slot),
        1 => ByLink::Store(slot),
        2 => ByLink::Exchange(slot),
        _ => ByLink::Take(slot),
    }
}

/// A call by chance.
fn step(chance: &mut Chance) -> Step {
    let (a, b) = (chance.slot(SLOTS), chance.slot(SLOTS));
    match chance.below(20) {
        0 | 1 | 2 => Step::Make(new(chance), 1, a),
        3 | 4 | 5 => Step::Come(a, way(chance), b),
        6 | 7 => Step::Drop(a),
        8 => Step::Look(a, look(chance)),
        9 => Step::Both(a, Pair::Before, b),
        10 => Step::Load(cell(chance), a),
        11 => Step::Lock(cell(chance), a),
        12 => Step::Take(cell(chance), a),
        13 | 14 => Step::Store(a, cell(chance)),
        15 => Step::Exchange(a, cell(chance)),
        16 => Step::Clear(cell(chance)),
        17 => Step::Compare(Form::Weak, cell(chance), a, b),
        18 => Step::First(a, by_link(chance)),
        _ => Step::Next(a, by_link(chance)),
    }
}

impl<R: Threads + Wait + Sync> Program<Value, R> for Crowd {
    fn work<D: Domain<Value = Value>>(
        &self,
        rt: &R,
        number: usize,
        desk: &Desk<D>,
    ) -> Result<(), Fault> {
        let mut hands = Hands::new(desk, &self.told, self.alloc)?;
        let mut chance = Chance::new(self.seed.wrapping_add(number as u64));
        for _ in 0..CALLS {
            let call = step(&mut chance);
            answer(rt, &mut hands, call);
        }
        Ok(())
    }
}

/// How many objects of a census have owners.
fn living(ran: &Ran<Value>) -> u32 {
    let mut living = 0u32;
    for (_, counts) in ran.census.each() {
        living = living.saturating_add(u32::from(counts.owners > 0));
    }
    living
}

/// Whether four workers' calls balance: as many values are in objects of the census as were made and have not ended;
/// with the census all have.
fn balances<R: Threads + Wait + Sync>(
    rt: &R,
    alloc: Global,
    (seed, blocks): (u64, u32),
) -> Result<(), Fault> {
    let told = new_ends(alloc)?;
    let crowd = Crowd {
        told: told.clone()?,
        alloc,
        seed,
    };
    let team = Team {
        workers: 4,
        pointers: 16,
    };
    let Ok(ran) = run(rt, alloc, team.shape(blocks, 2, 2), team, &crowd) else {
        return row(1, false);
    };
    row(2, ran.fault().is_none())?;
    let inside = made(&told).saturating_sub(ended(&told));
    row(3, living(&ran) == inside)?;
    drop(ran);
    row(4, ended(&told) == made(&told))
}

#[test]
fn random_calls_of_four_workers_balance(rt: HostRuntime) {
    for round in [(10, 16), (20, 64), (30, 1_024)] {
        same(&rt, balances(&rt, rt.alloc(), round), Ok(()));
    }
}
