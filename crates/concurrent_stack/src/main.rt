//! The concurrent_stack of N4162 (2014), by four threads.
#![tactic(auto)]

use pointers::{Desk, Domain, Fault, OptionalPointer, Program, Shared, SharedCell, Team, run};
use std::io;
use std::sync::Wait;
use std::sync::atomic::{AtomicU32, Ordering};
use std::thread::Threads;

/// std::atomic<std::shared_ptr<Node>> head;
const HEAD: SharedCell = SharedCell(0);

const BLOCKS: u32 = 512;

fn find<'t, D: Domain<Value = ()>, R: Wait>(
    rt: &R,
    desk: &'t Desk<'t, D>,
    t: u64,
) -> Result<Option<Shared<'t, D>>, Fault> {
    let mut p = desk.load(rt, HEAD)?;
    for _ in rt.forever() {
        let Some(node) = &p else { break };
        if node.read()? == t {
            break;
        }
        let next = node.next().load(rt)?;
        p = next;
    }
    Ok(p)
}

fn push_front<D: Domain<Value = ()>, R: Wait>(rt: &R, desk: &Desk<D>, t: u64) -> Result<(), Fault> {
    let head = desk.cell(HEAD);
    let mut p = Some(desk.make([t, 0, 0, 0], ())?);
    let mut next = head.load(rt)?;
    for _ in rt.forever() {
        if let Some(node) = &p {
            node.next().store(next.share()?)?;
        }
        if head.compare_exchange_weak(rt, &mut next, &mut p)? {
            break;
        }
    }
    Ok(())
}

fn pop_front<D: Domain<Value = ()>, R: Wait>(rt: &R, desk: &Desk<D>) -> Result<(), Fault> {
    let head = desk.cell(HEAD);
    let mut p = head.load(rt)?;
    for _ in rt.forever() {
        let Some(node) = &p else { break };
        let mut next = node.next().load(rt)?;
        if head.compare_exchange_weak(rt, &mut p, &mut next)? {
            break;
        }
    }
    Ok(())
}

#[derive(Drop)]
struct Threaded {
    found: AtomicU32,
}

impl<R: Threads + Wait + Sync> Program<(), R> for Threaded {
    fn work<D: Domain<Value = ()>>(&self, rt: &R, me: usize, desk: &Desk<D>) -> Result<(), Fault> {
        for turn in 0..1000u64 {
            let mine = (me as u64).wrapping_mul(1000).wrapping_add(turn);
            push_front(rt, desk, mine)?;
            if find(rt, desk, mine)?.is_some() {
                self.found.fetch_add(1, Ordering::SeqCst);
            }
            if turn % 100 != 0 {
                pop_front(rt, desk)?;
            }
        }
        Ok(())
    }
}

fn main(rt: HostRuntime) -> io::Result<()> {
    let team = Team {
        workers: 4,
        pointers: 8,
    };
    let program = Threaded {
        found: AtomicU32::new(0),
    };
    match run(&rt, rt.alloc(), team.shape(BLOCKS, 1, 0), team, &program) {
        Ok(ran) => {
            let found = program.found.load(Ordering::SeqCst);
            let some = if found > 0 { "some" } else { "none" };
            let left = BLOCKS.saturating_sub(ran.census.vacant());
            println!(&rt; "{some} was found, {left} left")?;
            println!(&rt; "{} workers, {} faults", ran.workers, ran.failed.len())
        }
        Err(why) => println!(&rt; "not run: {why}"),
    }
}
