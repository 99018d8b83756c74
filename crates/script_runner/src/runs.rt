//! A script on real workers, one a thread.
ghost use Rattle.std.specs.Prelude.{◌≡◌, ◌*◌, ◌≤◌, [], All, length, map, IfErr, IfOk, vec_capacity};
ghost use Rattle.std.specs.List.{AllZip};
ghost use Rattle.control_word.specs.Layout.{IsWithinLimits};
ghost use Rattle.script_text.specs.Beginnings.{shape_for};
ghost use Rattle.script_text.specs.Scripts.{program_in};
ghost use Rattle.script_runner.specs.Assignments.{IsNewShare, IsAssignmentFor, asked_by_all};
ghost use Rattle.script_runner.specs.Reports.{IsCounted, IsReport};

use crate::gate::Gate;
use crate::reports::report::Report;
use crate::table::staff::{Share as TableShare, run_workers_open};
use crate::workers::assignment::Assignment;
use crate::workers::requirements::{assign, assignments_of, collect};
use crate::workers::worker::{SLOTS, Worker};
use control_block::desk::Desk;
use control_block::domain::Domain;
use control_word::{Refusal, Shape};
use ownership_ledger::{Book, Share};
use script_text::Script;
use std::alloc::Global;
use std::sync::Wait;
use std::thread::Threads;
use step_core::Said;
use step_table::limits::{
    SCRIPT_OWNERS, SCRIPT_SHARED_CELLS, SCRIPT_WEAK_CELLS, SCRIPT_WEAKS, WORKER_ALLOWANCE,
};

/// The shape of a script's domain: each thread has the same number of blocks and the same allowance.
fn shape_of(blocks: u32, threads: u32) -> Shape
    requires least { 64 ≤ blocks }
    requires most { blocks ≤ 65535 }
    requires some { 1 ≤ threads }
    requires few { threads ≤ 64 }
    ensures shape { result ≡ record (shape_for blocks threads) { allowance = 65536 * threads } }
    ensures within { IsWithinLimits result }
{
    Shape {
        blocks: blocks / threads * threads,
        owners: SCRIPT_OWNERS,
        weaks: SCRIPT_WEAKS,
        shared_cells: SCRIPT_SHARED_CELLS,
        weak_cells: SCRIPT_WEAK_CELLS,
        allowance: 65_536 * threads,
    }
}

/// Workers with these assignments do a script's threads, each with a share of the book. What each said goes into a
/// list, the shares come back, and the domain comes out with its sole desk. It is refused only where a growth or the
/// start of a thread was, and no worker has worked then: the domain has a share for each thread, and each worker leaves
/// its table the allowance that it had. No log is full: by the history of all, no thread says more than its worker has
/// room for.
fn perform<'a, R: Threads + Wait + Sync, G: Gate + Sync>(
    rt: &R,
    alloc: Global,
    script: &Script,
    gate: &'a G,
    assignments: Vec<Assignment>,
    book: &'a Book,
    shares: &mut Vec<Share>,
    lines: &mut Vec<Vec<Said>>,
) -> Result<(Domain<u64>, Desk<u64>), Refusal>
    requires assignments { AllZip (IsAssignmentFor (asked_by_all (program_in script.now.threads)))
        (program_in script.now.threads) assignments.items }
    requires objects { asked_by_all (program_in script.now.threads) ≤ 65536 }
    requires shares { All (IsNewShare book.now.id) shares.old.items }
    requires many { length shares.old.items ≡ length assignments.items }
    requires room { (lines.old.items ≡ []) × (length assignments.items ≤ vec_capacity lines.old)
        × (length assignments.items ≤ vec_capacity shares.old) }
    ensures shares { All (λ s. s.book ≡ book.now.id) shares.new.items }
    ensures many { length shares.new.items ≡ length shares.old.items }
    ensures run { IfOk result
        (λ r. IsCounted script.now (map (λ v. v.items) lines.new.items) r.0 r.1 shares.new.items) }
    ensures refused { IfErr result (λ why. why ≡ Refusal.Memory) }
{
    let mut assignments = assignments;
    let Ok(mut workers) = Vec::with_capacity(alloc, assignments.len()) else {
        return Err(Refusal::Memory);
    };
    assign(&mut assignments, shares, &mut workers, book, gate);
    let threads = script.threads();
    let share = TableShare {
        slots: SLOTS,
        allowance: WORKER_ALLOWANCE,
        blocks: script.blocks() / threads,
    };
    let shape = shape_of(script.blocks(), threads);
    let worked = run_workers_open::<u64, R, Worker<'a, G>>(rt, alloc, shape, share, &mut workers);
    collect(&mut workers, shares, lines);
    workers.destroy_empty();
    worked
}

/// Runs a script on real workers, one a thread, each with a table of its own: `gate` is told of each statement in its
/// thread. An object's value is its field 0. Answers what each thread said, in thread order, and the totals of a book
/// to whose shares the workers add each of their makes and of the ends that they are told of; and the domain with its
/// sole desk, which has seen all that the workers did, and has no handle and nothing to end. `close` by it isn't
/// refused. Each worker has an allowance of 65,535, and a store of the script's blocks over its threads.
///
/// It is refused `Memory` and nothing else, and only where a growth or the start of a thread was refused. A worker
/// begins once all threads are started: at a refusal none has worked, and there is no report. It answers once all
/// threads that were started have ended. There is memory for all that a thread may say, and a share has room for all
/// that may be added to it.
pub fn run_script<R: Threads + Wait + Sync, G: Gate + Sync>(
    rt: &R,
    alloc: Global,
    script: &Script,
    gate: &G,
) -> Result<(Report, Domain<u64>, Desk<u64>), Refusal>
    ensures report { IfOk result (λ r. IsReport script.now r.0 r.1 r.2) }
    ensures refused { IfErr result (λ why. why ≡ Refusal.Memory) }
{
    let assignments = assignments_of(alloc, script)?;
    let Ok(mut lines) = Vec::with_capacity(alloc, assignments.len()) else {
        return Err(Refusal::Memory);
    };
    let (book, mut shares) = Book::open(alloc, script.threads())?;
    let worked = perform(
        rt,
        alloc,
        script,
        gate,
        assignments,
        &book,
        &mut shares,
        &mut lines,
    );
    let totals = book.gather(shares);
    let (domain, desk) = match worked {
        Ok(open) => open,
        Err(why) => return Err(why),
    };
    Ok((Report { lines, totals }, domain, desk))
}
