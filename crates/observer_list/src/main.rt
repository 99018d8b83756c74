//! An observer list: a subject knows its observers by weak pointers, tells those that are there, and drops the others.
#![tactic(auto)]

use pointers::{Desk, Domain, Fault, Program, Team, Weak, run};
use std::io;
use std::sync::Wait;
use std::thread::Threads;

/// Each observer that is there is told, and the others are forgotten.
fn notify<D: Domain, R: Wait + Print>(rt: &R, observers: &mut Vec<Weak<'_, D>>) {
    observers.retain(|observer| match observer.lock(rt) {
        Ok(Some(told)) => {
            let _ = println!(rt; "{} is told", told.read().unwrap_or(0));
            true
        }
        Ok(None) => false,
        Err(_) => true,
    });
}

fn watch<D: Domain<Value = ()>, R: Wait + Print + AllocGlobal>(
    rt: &R,
    desk: &Desk<D>,
) -> Result<(), Fault> {
    let anna = desk.make([1, 0, 0, 0], ())?;
    let bert = desk.make([2, 0, 0, 0], ())?;
    let mut observers = Vec::new(rt.alloc());
    observers.push(anna.downgrade()?)?;
    observers.push(bert.downgrade()?)?;
    notify(rt, &mut observers);
    drop(anna);
    notify(rt, &mut observers);
    Ok(())
}

struct Watching;

impl<R: Threads + Wait + Sync + Print + AllocGlobal> Program<(), R> for Watching {
    fn work<D: Domain<Value = ()>>(
        &self,
        rt: &R,
        _number: usize,
        desk: &Desk<D>,
    ) -> Result<(), Fault> {
        watch(rt, desk)
    }
}

fn main(rt: HostRuntime) -> io::Result<()> {
    let team = Team {
        workers: 1,
        pointers: 8,
    };
    match run(&rt, rt.alloc(), team.shape(8, 0, 0), team, &Watching) {
        Ok(ran) => println!(&rt; "{} blocks vacant", ran.census.vacant()),
        Err(why) => println!(&rt; "not run: {why}"),
    }
}
