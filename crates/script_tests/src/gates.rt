//! What a gate is told of a run.
use crate::same::same;
use control_block::census::close;
use control_word::Refusal;
use script_runner::{Gate, run_script};
use script_text::{Script, parse};
use std::alloc::{AllocError, Global};
use std::sync::{Mutex, Wait};
use std::test::Fail;
use std::thread::Threads;

/// That a statement of a thread begins, or that it has run, by the numbers of both.
#[derive(Clone, Copy, PartialEq, Eq, Debug, Drop)]
enum Told {
    Before(usize, u32),
    After(usize, u32),
}

/// Writes down what it is told.
#[derive(Drop)]
struct Recording<'a, R: Wait> {
    rt: &'a R,
    told: Mutex<Vec<Told>>,
}

impl<R: Wait> Recording<'_, R> {
    fn note(&self, told: Told) {
        let mut all = self.told.lock(self.rt);
        let _ = all.push(told);
    }
}

impl<R: Wait> Gate for Recording<'_, R> {
    fn before(&self, thread: usize, statement: u32) {
        self.note(Told::Before(thread, statement));
    }

    fn after(&self, thread: usize, statement: u32) {
        self.note(Told::After(thread, statement));
    }
}

/// A thread of four statements, the third of which is refused, one of two, and one of none.
const SCRIPT: &[u8] = b"make a 1\nnull n\nread n\nreset a\nthread\nmake c 2\nreset c\nthread\n";

const FIRST: [Told; 8] = [
    Told::Before(1, 1),
    Told::After(1, 1),
    Told::Before(1, 2),
    Told::After(1, 2),
    Told::Before(1, 3),
    Told::After(1, 3),
    Told::Before(1, 4),
    Told::After(1, 4),
];

const SECOND: [Told; 4] = [
    Told::Before(2, 1),
    Told::After(2, 1),
    Told::Before(2, 2),
    Told::After(2, 2),
];

/// What the gate of a run of a script is told.
fn told_of_run<R: Threads + Wait + Sync>(
    rt: &R,
    alloc: Global,
    script: &Script,
) -> Result<Vec<Told>, Refusal> {
    let gate = Recording {
        rt,
        told: Mutex::new(Vec::new(alloc)),
    };
    let (_report, domain, desk) = run_script(rt, alloc, script, &gate)?;
    match close(domain, desk) {
        Ok(census) => drop(census),
        Err(_) => unreachable!(),
    }
    Ok(gate.told.into_inner())
}

/// What is told of a thread, in its order.
fn of_thread(alloc: Global, told: &[Told], thread: usize) -> Result<Vec<Told>, AllocError> {
    let is_of = |it: &&Told| match **it {
        Told::Before(of, _) | Told::After(of, _) => of == thread,
    };
    told.iter().filter(is_of).copied().collect(alloc)
}

#[test]
fn a_gate_is_told_of_each_statement_before_and_after(rt: HostRuntime) -> Result<(), Fail> {
    let alloc = rt.alloc();
    let script = parse(alloc, SCRIPT)?;
    let told = told_of_run(&rt, alloc, &script)?;
    let of_first = of_thread(alloc, told.as_slice(), 1)?;
    let of_second = of_thread(alloc, told.as_slice(), 2)?;
    same(&rt, of_first.as_slice(), FIRST.as_slice());
    same(&rt, of_second.as_slice(), SECOND.as_slice());
    same(&rt, told.len(), 12);
    Ok(())
}
