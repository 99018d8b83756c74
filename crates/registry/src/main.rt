//! A registry of live connections, by their numbers: 200,000 at one time, by four threads.
#![tactic(auto)]

use pointers::{Desk, Domain, Fault, Program, SharedCell, Team, run};
use shared_trie::SharedTrie;
use std::io;
use std::sync::Wait;
use std::sync::atomic::{AtomicU32, Ordering};
use std::thread::Threads;

const LIVE: u64 = 200_000;

/// A connection's user, or none in the map's nodes. Its number is its object's first field.
type Object = Option<String>;

#[derive(Drop)]
struct Registry {
    opened: AtomicU32,
    found: AtomicU32,
    closed: AtomicU32,
}

/// A worker's number, some turns of the team on from its first one.
fn number_of(me: usize, turns: u64) -> u64 {
    turns.wrapping_mul(4).wrapping_add(me as u64)
}

impl<R: Threads + Wait + Sync + AllocGlobal> Program<Object, R> for Registry {
    fn work<D: Domain<Value = Object>>(
        &self,
        rt: &R,
        me: usize,
        desk: &Desk<D>,
    ) -> Result<(), Fault> {
        let live = SharedTrie::open(rt, desk, &desk.cell(SharedCell(0)))?;
        for turn in 0..LIVE / 4 {
            let number = number_of(me, turn);
            let user = format!(in rt.alloc(); "user {number}")?;
            live.insert(rt, desk.make([number, 0, 0, 0], Some(user))?)?;
            self.opened.fetch_add(1, Ordering::SeqCst);
        }
        for turn in 0..LIVE / 4 {
            let number = number_of(me, turn);
            if let Some(connection) = live.get(rt, number)? {
                if connection.read()? == number {
                    self.found.fetch_add(1, Ordering::SeqCst);
                }
            }
        }
        for turn in 0..LIVE / 40 {
            if live
                .remove(rt, number_of(me, turn.wrapping_mul(10)))?
                .is_some()
            {
                self.closed.fetch_add(1, Ordering::SeqCst);
            }
        }
        Ok(())
    }
}

fn main(rt: HostRuntime) -> io::Result<()> {
    let team = Team {
        workers: 4,
        pointers: 10,
    };
    let registry = Registry {
        opened: AtomicU32::new(0),
        found: AtomicU32::new(0),
        closed: AtomicU32::new(0),
    };
    let shape = team.shape(250_000, 1, 0).with_members(8, 1);
    match run(&rt, rt.alloc(), shape, team, &registry) {
        Ok(ran) => {
            let opened = registry.opened.load(Ordering::SeqCst);
            let found = registry.found.load(Ordering::SeqCst);
            let closed = registry.closed.load(Ordering::SeqCst);
            println!(&rt; "{opened} opened, {found} found, {closed} closed")?;
            println!(&rt; "{} workers, {} faults", ran.workers, ran.failed.len())
        }
        Err(why) => println!(&rt; "not run: {why}"),
    }
}
