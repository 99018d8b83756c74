//! A published configuration: one thread publishes new versions of it, and others read the current one.
#![tactic(auto)]

use pointers::{Desk, Domain, Fault, Program, SharedCell, Team, run};
use std::io;
use std::sync::Wait;
use std::sync::atomic::{AtomicU32, Ordering};
use std::thread::Threads;

#[derive(Clone, Copy, Drop)]
struct Configuration {
    version: u64,
}

/// The cell with the current configuration.
const CURRENT: SharedCell = SharedCell(0);

/// Publishes so many versions, from 1 on.
fn publish<D: Domain<Value = Configuration>>(desk: &Desk<D>, versions: u64) -> Result<(), Fault> {
    for version in 1..=versions {
        desk.new(Configuration { version })?.store(CURRENT)?;
    }
    Ok(())
}

/// Reads the current version so often: how often it was older than the one before.
fn observe<D: Domain<Value = Configuration>, R: Wait>(
    rt: &R,
    desk: &Desk<D>,
    times: u32,
) -> Result<u32, Fault> {
    let mut current = desk.cached_value(CURRENT);
    let mut older = 0u32;
    let mut seen = 0;
    for _ in 0..times {
        if let Some(now) = current.get(rt)? {
            older = older.saturating_add(u32::from(now.version < seen));
            seen = now.version;
        }
    }
    Ok(older)
}

/// The first worker publishes, and the others observe: how often a version was older than the one before.
#[derive(Drop)]
struct Crowd {
    older: AtomicU32,
}

impl<R: Threads + Wait + Sync> Program<Configuration, R> for Crowd {
    fn work<D: Domain<Value = Configuration>>(
        &self,
        rt: &R,
        number: usize,
        desk: &Desk<D>,
    ) -> Result<(), Fault> {
        if number == 0 {
            return publish(desk, 100);
        }
        let older = observe(rt, desk, 1_000)?;
        self.older.fetch_add(older, Ordering::SeqCst);
        Ok(())
    }
}

fn main(rt: HostRuntime) -> io::Result<()> {
    let team = Team {
        workers: 3,
        pointers: 8,
    };
    let crowd = Crowd {
        older: AtomicU32::new(0),
    };
    match run(&rt, rt.alloc(), team.shape(512, 1, 0), team, &crowd) {
        Ok(ran) => {
            let older = crowd.older.load(Ordering::SeqCst);
            println!(&rt; "{older} versions older than the one before")?;
            println!(&rt;
                "{} workers, {} faults, {} blocks vacant",
                ran.workers,
                ran.failed.len(),
                ran.census.vacant()
            )
        }
        Err(why) => println!(&rt; "not run: {why}"),
    }
}
