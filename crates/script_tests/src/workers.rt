//! Scripts on real workers.

use crate::same::same;
use control_block::census::close;
use control_word::Refusal;
use ownership_ledger::Totals;
use script_runner::{Gate, Report, run_script};
use script_text::{Script, parse};
use std::alloc::Global;
use std::hint::spin_loop;
use std::process::Abort;
use std::sync::Wait;
use std::sync::atomic::{AtomicU32, Ordering};
use std::test::Fail;
use std::thread::Threads;

/// What a script's workers report, and how many blocks are vacant once the desk that comes out has closed the domain.
fn run_and_close<R: Threads + Wait + Sync, G: Gate + Sync>(
    rt: &R,
    alloc: Global,
    script: &Script,
    gate: &G,
) -> Result<(Report, u32), Refusal> {
    let (report, domain, desk) = run_script(rt, alloc, script, gate)?;
    match close(domain, desk) {
        Ok(census) => Ok((report, census.vacant())),
        Err(_) => unreachable!(),
    }
}

/// Two threads meet before their statements; the thread `late` begins only once the other has.
#[derive(Drop)]
struct Meeting {
    late: usize,
    begun: AtomicU32,
    met: AtomicU32,
}

/// Whether so many threads have begun, within 1,000,000,000 looks.
fn have_begun(begun: &AtomicU32, threads: u32) -> bool {
    for _ in 0..1_000_000_000 {
        if begun.load(Ordering::SeqCst) >= threads {
            return true;
        }
        spin_loop();
    }
    false
}

impl Gate for Meeting {
    fn before(&self, thread: usize, _statement: u32) {
        if thread == self.late && !have_begun(&self.begun, 1) {
            return;
        }
        self.begun.fetch_add(1, Ordering::SeqCst);
        if have_begun(&self.begun, 2) {
            self.met.fetch_add(1, Ordering::SeqCst);
        }
    }

    fn after(&self, _thread: usize, _statement: u32) {}
}

/// How many of two threads, of which one begins late, met the other.
fn met<R: Threads + Wait + Sync>(rt: &R, alloc: Global, late: usize) -> Option<u32> {
    let script = parse(alloc, b"empty a\nthread\nempty a\n").ok()?;
    let gate = Meeting {
        late,
        begun: AtomicU32::new(0),
        met: AtomicU32::new(0),
    };
    run_and_close(rt, alloc, &script, &gate).ok()?;
    Some(gate.met.load(Ordering::SeqCst))
}

#[test]
fn threads_run_side_by_side(rt: HostRuntime) {
    let met = [met(&rt, rt.alloc(), 1), met(&rt, rt.alloc(), 2)];
    same(&rt, met, [Some(2), Some(2)]);
}

/// Counts the statements that have begun, and those that have run.
#[derive(Drop)]
struct Counting {
    begun: AtomicU32,
    run: AtomicU32,
}

impl Gate for Counting {
    fn before(&self, _thread: usize, _statement: u32) {
        self.begun.fetch_add(1, Ordering::SeqCst);
    }

    fn after(&self, _thread: usize, _statement: u32) {
        self.run.fetch_add(1, Ordering::SeqCst);
    }
}

/// What was made and ended, and how many blocks are vacant then. A run that is refused is made again.
fn run_again<R: Abort + Threads + Wait + Sync>(
    rt: &R,
    alloc: Global,
    script: &Script,
) -> Result<(Totals, u32), Refusal> {
    let gate = Counting {
        begun: AtomicU32::new(0),
        run: AtomicU32::new(0),
    };
    let ran = match run_and_close(rt, alloc, script, &gate) {
        Err(Refusal::Memory) => {
            let told = [&gate.begun, &gate.run].map(|it| it.load(Ordering::SeqCst));
            same(rt, told, [0, 0]);
            run_and_close(rt, alloc, script, &gate)
        }
        ran => ran,
    };
    match ran {
        Ok((report, vacant)) => Ok((report.totals, vacant)),
        Err(why) => Err(why),
    }
}

// `tests/refuse_allocations` refuses each allocation in turn, and `tests/refuse_threads` each start of a thread. A run
// that wants it is refused `Memory` before a statement begins, and the same script runs later.
#[test]
fn a_refused_run_leaves_nothing(rt: HostRuntime) -> Result<(), Fail> {
    let text = b"make a 1\ncopy b a\nthread\nmake c 2\nreset c\n";
    let script = match parse(rt.alloc(), text) {
        Err(_) => parse(rt.alloc(), text)?,
        Ok(script) => script,
    };
    let told = run_again(&rt, rt.alloc(), &script)?;
    same(&rt, told, (Totals { made: 2, ended: 2 }, 4094));
    Ok(())
}
