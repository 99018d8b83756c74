//! What a job is, and how all run or none.
//!
//! What a thread writes into a value that it borrows no clause says, so a job goes to its thread by value and comes
//! back as the thread's result, by which its promise is kept. A started job waits for a signal: it is given once all
//! are started, and says that they run; or where one can't be started, and says that none does.
ghost use Rattle.std.specs.Prelude.{◌≡◌, ◌≤◌, ℕ, All, List, [], length, reverse, vec_capacity};
ghost use Rattle.std.specs.List.{AllZip};
ghost use Rattle.thread_jobs.specs.Jobs.{IsStarted, Keeps};

use std::alloc::Global;
use std::marker::PhantomData;
use std::mem::ManuallyDrop;
use std::snapshot::Snapshot;
use std::sync::{OnceLock, OnceToken, Wait};
use std::thread::{self, Promise, PromisedHandle, Scope, Threads};

/// What a thread does with a value of its own: `needs` says what has to be true of it, and `does` what it becomes.
pub trait Job<R>: Sized {
    ghost needs: { Self → Type 0 };

    ghost does: { Self → Self → Type 0 };

    fn run(self, rt: &R) -> Self
        requires needs { needs self }
        ensures { does self result };
}

/// A job that comes back, and what was told: whether all run.
#[derive(Drop)]
struct Back<'g, J> {
    job: ManuallyDrop<J>,
    all: OnceToken<'g, bool>,
}

/// A value on its way into a thread and back, which may lie in a closure so. It is taken out at the end of the way.
fn carried<J>(job: J) -> ManuallyDrop<J>
    ensures { result.value ≡ job }
{
    unsafe { ManuallyDrop::new_unchecked(job) }
}

/// What a job was before its thread was started.
#[derive(Drop)]
struct Before<'g, J, R> {
    signal: &'g OnceLock<bool>,
    job: Snapshot<J>,
    of: PhantomData<R>,
}

impl<'g, J: Job<R>, R> Promise<Back<'g, J>> for Before<'g, J, R> {
    ghost use Rattle.std.specs.Prelude.{◌≡◌};
    ghost use Rattle.thread_jobs.specs.Jobs.{Keeps};

    ghost kept_by = { λ p b. (b.all.of ≡ p.signal.now.id) × Keeps J.does b.all.value p.job.value b.job.value };
}

/// A job's thread, or the job itself where it has none.
type Started<'g, J, R> = Result<PromisedHandle<Back<'g, J>, Before<'g, J, R>>, Back<'g, J>>;

/// Waits until it is told whether all run.
fn told<'g, R: Wait>(rt: &R, signal: &'g OnceLock<bool>) -> OnceToken<'g, bool>
    ensures { result.of ≡ signal.now.id }
{
    for _ in rt.forever() {
        signal.wait(rt);
        if let Some(token) = signal.witness() {
            return token;
        }
    }
    unreachable!()
}

/// What a thread does: its job, if all run.
fn run_told<'g, J: Job<R>, R: Wait>(
    rt: &R,
    signal: &'g OnceLock<bool>,
    job: ManuallyDrop<J>,
) -> Back<'g, J>
    requires needs { J.needs job.value }
    ensures { (result.all.of ≡ signal.now.id) × Keeps J.does result.all.value job.value result.job.value }
{
    let job = ManuallyDrop::into_inner(job);
    let all = told(rt, signal);
    let job = if *signal.value(&all) {
        job.run(rt)
    } else {
        job
    };
    let job = carried(job);
    Back { job, all }
}

/// A job in a thread of its own, which waits until it is told whether all run. Where it has none, none runs.
fn start<'g, 's, E, J: Job<R> + Send + 's, R: Wait + Sync>(
    scope: &Scope<'s, E>,
    rt: &'s R,
    signal: &'g OnceLock<bool>,
    job: J,
) -> Started<'g, J, R>
where
    'g: 's,
    requires needs { J.needs job }
    ensures { IsStarted J.does signal.now.id job result }
{
    let before = Before {
        signal,
        job: Snapshot::of(&job),
        of: PhantomData,
    };
    let job = carried(job);
    match scope.spawn_with(before, move || run_told(rt, signal, job)) {
        Ok(handle) => Ok(handle),
        Err(refused) => {
            let _ = signal.try_set(false);
            Err((refused.value)())
        }
    }
}

/// The job, when its thread has ended.
fn ended<'g, J: Job<R>, R: Threads>(rt: &R, started: Started<'g, J, R>) -> Back<'g, J>
    ensures { (n : ℕ) (j : J) → IsStarted J.does n j started.entry
        → (result.all.of ≡ n) × Keeps J.does result.all.value j result.job.value }
{
    match started {
        Ok(handle) => handle.join(rt),
        Err(back) => back,
    }
}

/// All jobs are started, the last one first: by what they were, so many have a thread or are back.
fn start_all<'g, 's, E, J: Job<R> + Send + 's, R: Wait + Sync>(
    scope: &Scope<'s, E>,
    rt: &'s R,
    signal: &'g OnceLock<bool>,
    jobs: &mut Vec<J>,
    started: &mut Vec<Started<'g, J, R>>,
)
where
    'g: 's,
    requires room { (started.old.items ≡ []) × (length jobs.old.items ≤ vec_capacity started.old) }
    requires needs { All J.needs jobs.old.items }
    ensures jobs { (went : List J) × (jobs.old.items ≡ reverse went)
        × AllZip (IsStarted J.does signal.now.id) went started.new.items }
    ensures none { (jobs.new.items ≡ []) × (vec_capacity jobs.new ≡ vec_capacity jobs.old) }
{
    while let Some(job) = jobs.pop() {
        started.push_reserved(start(scope, rt, signal, job));
    }
}

/// It is told whether all run, and the jobs come back, the first one first. Whether all ran.
fn end_all<'g, J: Job<R>, R: Threads + Wait>(
    rt: &R,
    signal: &'g OnceLock<bool>,
    started: &mut Vec<Started<'g, J, R>>,
    jobs: &mut Vec<J>,
) -> bool
    requires started { (went : List J) × AllZip (IsStarted J.does signal.now.id) went started.old.items }
    requires room { (jobs.old.items ≡ []) × (length started.old.items ≤ vec_capacity jobs.old) }
    ensures jobs { (went : List J) → AllZip (IsStarted J.does signal.now.id) went started.old.items
        → AllZip (Keeps J.does result) (reverse went) jobs.new.items }
    ensures none { started.new.items ≡ [] }
{
    let all = signal.init(rt, || true);
    while let Some(one) = started.pop() {
        let Back { job, all: theirs } = ended(rt, one);
        all.agrees(&theirs);
        jobs.push_reserved(ManuallyDrop::into_inner(job));
    }
    *signal.value(&all)
}

/// Jobs that are to be started, with room for those that were.
struct Jobs<'g, J: Job<R>, R> {
    rt: &'g R,
    signal: &'g OnceLock<bool>,
    jobs: Vec<J>,
    started: Vec<Started<'g, J, R>>,
}

/// The jobs come back, the first one first, when the threads of all have ended. Whether all ran.
fn run_in<'g, 's, E, J: Job<R> + Send + 's, R: Threads + Wait + Sync>(
    scope: &Scope<'s, E>,
    jobs: Jobs<'g, J, R>,
) -> (bool, Vec<J>)
where
    'g: 's,
    requires room { (jobs.started.items ≡ []) × (length jobs.jobs.items ≤ vec_capacity jobs.started) }
    requires needs { All J.needs jobs.jobs.items }
    ensures { AllZip (Keeps J.does result.0) jobs.entry.jobs.items result.1.items }
{
    let Jobs {
        rt,
        signal,
        jobs,
        started,
    } = jobs;
    let mut jobs = jobs;
    let mut started = started;
    start_all(scope, rt, signal, &mut jobs, &mut started);
    let all = end_all(rt, signal, &mut started, &mut jobs);
    started.destroy_empty();
    (all, jobs)
}

/// The same in a scope of its own.
fn in_scope<'g, R: Threads + Wait + Sync, J: Job<R> + Send>(
    rt: &R,
    jobs: Jobs<'g, J, R>,
) -> (bool, Vec<J>)
    requires room { (jobs.started.items ≡ []) × (length jobs.jobs.items ≤ vec_capacity jobs.started) }
    requires needs { All J.needs jobs.jobs.items }
    ensures { AllZip (Keeps J.does result.0) jobs.entry.jobs.items result.1.items }
{
    let held = carried(jobs);
    thread::scope(
        thread::scope_env(),
        rt,
        move |scope| -> (bool, Vec<J>)
            requires { (held.value.started.items ≡ [])
                × (length held.value.jobs.items ≤ vec_capacity held.value.started)
                × All J.needs held.value.jobs.items }
            ensures { AllZip (Keeps J.does result.0) held.entry.value.jobs.items result.1.items }
        { run_in(scope, ManuallyDrop::into_inner(held)) },
    )
}

/// All jobs run, each in a thread of its own, and come back in their order, when all threads have ended; or none runs,
/// where memory or a thread is refused for one. Whether all ran. Condition: each has what it needs.
pub fn run_all<R: Threads + Wait + Sync, J: Job<R> + Send>(
    rt: &R,
    alloc: Global,
    jobs: Vec<J>,
) -> (bool, Vec<J>)
    requires needs { All J.needs jobs.items }
    ensures { AllZip (Keeps J.does result.0) jobs.items result.1.items }
{
    let Ok(started) = Vec::with_capacity(alloc, jobs.len()) else {
        return (false, jobs);
    };
    let signal = OnceLock::new();
    in_scope(
        rt,
        Jobs {
            rt,
            signal: &signal,
            jobs,
            started,
        },
    )
}
