//! One thread publishes versions of a configuration, and two read the current one.
#![tactic(auto)]

use pointers::{Desk, Domain, Fault, Program, SharedCell, Team, run};
use std::alloc::Global;
use std::io;
use std::sync::Wait;
use std::thread::Threads;

/// `std::atomic<std::shared_ptr<Configuration>> current;`
const CURRENT: SharedCell = SharedCell(0);
/// Objects that the domain has room for at one time.
const BLOCKS: u32 = 64;

#[derive(Drop)]
struct Configuration {
    name: String,
    limit: u64,
}

#[derive(Drop)]
struct Service {
    alloc: Global,
}

impl<R: Threads + Wait + Sync> Program<Configuration, R> for Service {
    // D is the domain that `run` opens, whose objects are configurations
    fn work<D: Domain<Value = Configuration>>(
        &self,
        rt: &R,
        me: usize,
        desk: &Desk<D>,
    ) -> Result<(), Fault> {
        for limit in 1..=100 {
            if me == 0 {
                let name = String::from_str(self.alloc, "night")?;
                // current.store(std::make_shared<Configuration>(name, limit));
                desk.new(Configuration { name, limit })?.store(CURRENT)?;
            } else if let Some(now) = desk.load(rt, CURRENT)? {
                // auto now = current.load(); now->limit
                now.visit(rt, |it| it.limit)?;
            } // now lets go, and the last owner of a version ends it
        }
        Ok(())
    }
}

fn main(rt: HostRuntime) -> io::Result<()> {
    let team = Team {
        workers: 3,
        pointers: 4,
    };
    let service = Service { alloc: rt.alloc() };
    match run(&rt, rt.alloc(), team.shape(BLOCKS, 1, 0), team, &service) {
        Ok(ran) => {
            for it in &ran.failed {
                println!(&rt; "worker {} of {} blocks: {}", it.worker, BLOCKS, it.why)?;
            }
            println!(&rt;
                "{} faults, {} vacant",
                ran.failed.len(),
                ran.census.vacant()
            )
        }
        Err(why) => println!(&rt; "not run: {why}"),
    }
}
