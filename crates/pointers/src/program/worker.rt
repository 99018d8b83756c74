//! A worker in a thread.

use crate::fault::Fault;
use crate::program::Program;
use crate::program::part::Part;
use crate::program::work::{Post, work_alone};
use std::sync::Wait;
use std::thread::Threads;
use thread_jobs::Job;

/// A worker: at first with a part of the domain for its work, then with what it answered, and what it left.
pub(crate) struct Worker<'w, V: Drop, P> {
    pub post: Post<'w, V, P>,
    pub part: Part<V>,
    pub done: Result<(), Fault>,
}

impl<'w, V: Drop + Send, R: Threads + Wait + Sync, P: Program<V, R> + Sync> Job<R>
    for Worker<'w, V, P> {
    ghost use Rattle.pointers.specs.Staffs.{Worked};
    ghost use Rattle.shared_handle.specs.Piles.{Bears};

    ghost needs = { λ w. Bears w.post.domain.now w.part.desk w.part.pile };

    ghost does = { Worked P.answers };

    fn run(self, rt: &R) -> Self {
        let Worker {
            post,
            part,
            done: _,
        } = self;
        let (part, done) = work_alone(rt, &post, part);
        Worker { post, part, done }
    }
}
