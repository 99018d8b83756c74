//! Workers, from where each gets a part of a desk to where the desk has all again.
ghost use Rattle.std.specs.Prelude.{◌≡◌, ◌+◌, ◌<◌, ◌≤◌, ◌^◌, [], ◌∷◌, ◌++◌, All, IfNone, IfSome};
ghost use Rattle.std.specs.Prelude.{false, length, map, true, vec_capacity};
ghost use Rattle.std.specs.List.{AllZip};
ghost use Rattle.control_block.specs.Desks.{Belongs, allowance_of, endings_of};
ghost use Rattle.control_block.specs.Parting.{IsTooMuch, SplitsOff};
ghost use Rattle.shared_handle.specs.Piles.{Bears};
ghost use Rattle.pointers.specs.Programs.{Lends, faults_from};
ghost use Rattle.pointers.specs.Shares.{GivesBack, HasShares, IsPartedInto, JoinsAll};
ghost use Rattle.pointers.specs.Staffs.{AreHired, IsHired, Worked};

use crate::fault::Fault;
use crate::program::part::{Part, cut};
use crate::program::team::Team;
use crate::program::work::Post;
use crate::program::worker::Worker;
use crate::program::{Failed, Program};
use control_block::desk::Desk;
use control_block::domain::Domain;
use std::alloc::Global;
use std::sync::Wait;
use std::thread::Threads;
use thread_jobs::run_all;

/// A worker with a part of the desk that has so many handles. None where memory is refused for it.
fn hire<'w, V: Drop, P>(
    desk: &mut Desk<V>,
    post: Post<'w, V, P>,
    each: u32,
) -> Option<Worker<'w, V, P>>
    requires domain { Belongs desk.old post.domain.now }
    requires fits { IsTooMuch desk.old each 0 → ⊥ }
    ensures parts { IfSome result (λ w. SplitsOff desk.old each 0 [] desk.new w.part.desk) }
    ensures hired { IfSome result (IsHired post.entry.domain.now post.entry.program.now post.entry.number) }
    ensures same { IfNone result (desk.new ≡ desk.old) }
{
    let Some(part) = cut(desk, post.alloc, post.domain, each) else {
        return None;
    };
    let done = Ok(());
    Some(Worker { post, part, done })
}

/// So many workers, each with a part of the desk that has so many handles. Whether all are hired: else memory is
/// refused for one.
pub(crate) fn hire_all<'w, V: Drop, P>(
    desk: &mut Desk<V>,
    first: Post<'w, V, P>,
    each: u32,
    workers: usize,
    staff: &mut Vec<Worker<'w, V, P>>,
) -> bool
    requires domain { Belongs desk.old first.domain.now }
    requires room { (staff.old.items ≡ []) × (workers ≤ vec_capacity staff.old) }
    requires fits { HasShares desk.old each workers }
    ensures parts { IsPartedInto desk.old each (map (λ w. w.part.desk) staff.new.items) desk.new }
    ensures hired { AreHired first.entry.domain.now first.entry.program.now 0 staff.new.items }
    ensures all { result ≡ true → length staff.new.items ≡ workers }
    ensures few { (length staff.new.items ≤ workers) × (vec_capacity staff.new ≡ vec_capacity staff.old) }
    ensures here { Belongs desk.new first.entry.domain.now }
{
    let Post {
        alloc,
        domain,
        program,
        number: _,
    } = first;
    while staff.len() < workers {
        let number = staff.len();
        let post = Post {
            alloc,
            domain,
            program,
            number,
        };
        match hire(desk, post, each) {
            Some(worker) => staff.push_reserved(worker),
            None => return false,
        }
    }
    true
}

/// What the workers have comes back to the desk, the last one's first, and so do the faults that their work ended with.
pub(crate) fn dismiss_all<'w, V: Drop, P>(
    domain: &Domain<V>,
    desk: &mut Desk<V>,
    staff: Vec<Worker<'w, V, P>>,
    failed: &mut Vec<Failed>,
)
    requires domain { Belongs desk.old domain.now }
    requires parts { All (λ w. Belongs w.part.desk domain.now) staff.items }
    requires room { (failed.old.items ≡ []) × (length staff.items ≤ vec_capacity failed.old) }
    ensures joined { JoinsAll desk.old (map (λ w. w.part.desk) staff.entry.items) desk.new }
    ensures failed { failed.new.items ≡ faults_from 0 (map (λ w. w.done) staff.entry.items) }
    ensures here { Belongs desk.new domain.now }
{
    let mut staff = staff;
    while let Some(worker) = staff.pop() {
        let Worker {
            post: _,
            part,
            done,
        } = worker;
        note(staff.len(), done, failed);
        let Part { desk: other, pile } = part;
        pile.close();
        desk.join(domain, other);
    }
    staff.destroy_empty();
    failed.reverse();
}

/// A worker's fault is noted, if its work ended with one.
fn note(worker: usize, done: Result<(), Fault>, failed: &mut Vec<Failed>)
    requires { length failed.old.items < vec_capacity failed.old }
    ensures items { failed.new.items ≡ failed.old.items ++ faults_from worker (done ∷ []) }
    ensures room { vec_capacity failed.new ≡ vec_capacity failed.old }
{
    if let Err(why) = done {
        failed.push_reserved(Failed { worker, why });
    }
}

/// The workers work, each in a thread, if all are hired, and a thread is had for each. Whether they did.
fn work_all<'w, V: Drop + Send, R: Threads + Wait + Sync, P: Program<V, R> + Sync>(
    rt: &R,
    alloc: Global,
    hired: bool,
    staff: Vec<Worker<'w, V, P>>,
) -> (bool, Vec<Worker<'w, V, P>>)
    requires bears { All (λ w. Bears w.post.domain.now w.part.desk w.part.pile) staff.items }
    ensures hired { result.0 ≡ true → hired ≡ true }
    ensures worked { result.0 ≡ true → AllZip (Worked P.answers) staff.entry.items result.1.items }
    ensures same { result.0 ≡ false → result.1.items ≡ staff.entry.items }
{
    if hired {
        run_all(rt, alloc, staff)
    } else {
        (false, staff)
    }
}

/// The workers of a team work, each in a thread with a part of the desk, or none, where memory or a thread is refused
/// for one. All that they leave comes back to the desk. The faults that their work ended with, by their numbers.
pub(crate) fn lend<V: Drop + Send, R: Threads + Wait + Sync, P: Program<V, R> + Sync>(
    rt: &R,
    desk: &mut Desk<V>,
    first: Post<'_, V, P>,
    team: Team,
) -> Option<Vec<Failed>>
    requires domain { Belongs desk.old first.domain.now }
    requires fits { HasShares desk.old (team.pointers + 2) team.workers }
    requires few { 0 < team.workers → team.pointers + 2 < 2 ^ 32 }
    ensures lends { IfSome result
        (λ failed. Lends (P.answers first.entry.program.now) team desk.old failed.items desk.new) }
    ensures back { IfNone result (GivesBack desk.old (team.pointers + 2) desk.new) }
    ensures whole { (allowance_of desk.new ≡ allowance_of desk.old) × (endings_of desk.new ≡ endings_of desk.old) }
    ensures here { Belongs desk.new first.entry.domain.now }
{
    let (alloc, domain) = (first.alloc, first.domain);
    let Ok(mut failed) = Vec::with_capacity(alloc, team.workers) else {
        return None;
    };
    let Ok(mut staff) = Vec::with_capacity(alloc, team.workers) else {
        return None;
    };
    let hired = hire_all(desk, first, team.each(), team.workers, &mut staff);
    let (worked, staff) = work_all(rt, alloc, hired, staff);
    dismiss_all(domain, desk, staff, &mut failed);
    if worked { Some(failed) } else { None }
}
