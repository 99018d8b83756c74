//! Workers at their posts.
ghost use Rattle.std.specs.Prelude.{◌≡◌, ◌≤◌, [], All, false, length, map, reverse, true, vec_capacity};
ghost use Rattle.script_runner.specs.Staffs.{EachDoes};

use crate::table::staff::Work;
use crate::table::{Home, WorkerTable};
use std::alloc::Global;
use std::sync::Wait;
use std::thread::Threads;
use thread_jobs::{Job, run_all};

/// A worker with its table.
pub(crate) struct Post<'d, V: Drop, H: Home, W> {
    pub worker: W,
    pub table: WorkerTable<'d, V, H>,
}

/// Each worker is with the table of its number.
fn man<'d, V: Drop, H: Home, W>(
    tables: &mut Vec<WorkerTable<'d, V, H>>,
    workers: &mut Vec<W>,
    posts: &mut Vec<Post<'d, V, H, W>>,
)
    requires many { length tables.old.items ≡ length workers.old.items }
    requires room { (posts.old.items ≡ []) × (length workers.old.items ≤ vec_capacity posts.old) }
    ensures tables { tables.old.items ≡ reverse (map (λ p. p.table) posts.new.items) }
    ensures workers { workers.old.items ≡ reverse (map (λ p. p.worker) posts.new.items) }
    ensures none { (tables.new.items ≡ []) × (workers.new.items ≡ []) }
    ensures room { (vec_capacity tables.new ≡ vec_capacity tables.old)
        × (vec_capacity workers.new ≡ vec_capacity workers.old) }
{
    while let Some(table) = tables.pop() {
        match workers.pop() {
            Some(worker) => posts.push_reserved(Post { worker, table }),
            None => unreachable!(),
        }
    }
}

/// The workers, and the tables that they leave.
fn dismiss<'d, V: Drop, H: Home, W>(
    posts: &mut Vec<Post<'d, V, H, W>>,
    tables: &mut Vec<WorkerTable<'d, V, H>>,
    workers: &mut Vec<W>,
)
    requires tables { (tables.old.items ≡ []) × (length posts.old.items ≤ vec_capacity tables.old) }
    requires workers { (workers.old.items ≡ []) × (length posts.old.items ≤ vec_capacity workers.old) }
    ensures tables { tables.new.items ≡ reverse (map (λ p. p.table) posts.old.items) }
    ensures workers { workers.new.items ≡ reverse (map (λ p. p.worker) posts.old.items) }
    ensures none { posts.new.items ≡ [] }
{
    while let Some(post) = posts.pop() {
        let Post { worker, table } = post;
        tables.push_reserved(table);
        workers.push_reserved(worker);
    }
}

impl<'d, V: Drop + Send, H: Home + Send + Sync, R: Threads + Wait + Sync, W: Work<V, R> + Send> Job<
    R,
> for Post<'d, V, H, W> {
    ghost needs = { λ p. W.needs p.worker p.table };

    ghost does = { λ p q. W.does p.worker p.table q.worker q.table };

    fn run(self, rt: &R) -> Self {
        let Self {
            mut worker,
            mut table,
        } = self;
        worker.work::<H>(rt, &mut table);
        Post { worker, table }
    }
}

/// Each worker works, in a thread with the table of its number, or none, where memory is refused for one: then whether
/// all worked is false. Each has what it needs in any of these tables.
pub(crate) fn worked<
    'd,
    V: Drop + Send,
    H: Home + Send + Sync,
    R: Threads + Wait + Sync,
    W: Work<V, R> + Send,
>(rt: &R, alloc: Global, tables: &mut Vec<WorkerTable<'d, V, H>>, workers: &mut Vec<W>) -> bool
    requires many { length tables.old.items ≡ length workers.old.items }
    requires needs { All (λ w. All (W.needs w) tables.old.items) workers.old.items }
    ensures worked { result ≡ true
        → EachDoes W.does workers.old.items tables.old.items workers.new.items tables.new.items }
    ensures same { result ≡ false
        → (workers.new.items ≡ workers.old.items) × (tables.new.items ≡ tables.old.items) }
{
    let Ok(mut posts) = Vec::with_capacity(alloc, workers.len()) else {
        return false;
    };
    man(tables, workers, &mut posts);
    let (all, posts) = run_all(rt, alloc, posts);
    let mut posts = posts;
    dismiss(&mut posts, tables, workers);
    posts.destroy_empty();
    all
}
