//! A worker at a desk of its own.
ghost use Rattle.std.specs.Prelude.{◌≡◌, []};
ghost use Rattle.shared_handle.specs.Piles.{Bears};
ghost use Rattle.pointers.specs.Programs.{HasWorked};

use crate::context::Context;
use crate::desk::Desk;
use crate::domain::Domain;
use crate::fault::Fault;
use crate::program::Program;
use crate::program::brand::{Branded, Opens};
use crate::program::part::Part;
use control_block::domain;
use ghost_map::Blank;
use std::alloc::Global;
use std::marker::Brand;
use std::sync::Wait;
use std::thread::Threads;

/// What a worker does, and where.
#[derive(Drop)]
pub(crate) struct Post<'w, V: Drop, P> {
    pub alloc: Global,
    pub domain: &'w domain::Domain<V>,
    pub program: &'w P,
    pub number: usize,
}

/// The worker works at this desk.
fn work_there<V: Drop, D: Domain<Value = V>, R: Threads + Wait, P: Program<V, R>>(
    rt: &R,
    post: &Post<'_, V, P>,
    desk: Desk<'_, D>,
) -> (Part<V>, Result<(), Fault>)
    ensures worked { HasWorked (P.answers post.now.program.now post.now.number) D.opened result.1 result.0.desk }
    ensures bears { Bears desk.entry.domain.now result.0.desk result.0.pile }
    ensures settled { result.0.pile.endings.items ≡ [] }
{
    let done = post.program.work(rt, post.number, &desk);
    (desk.into_part(rt), done)
}

/// The same at a desk that `N` tells of.
fn work_at<V: Drop, N: Opens<V>, R: Threads + Wait, P: Program<V, R>>(
    rt: &R,
    post: &Post<'_, V, P>,
    blank: Blank,
    part: Part<V>,
) -> (Part<V>, Result<(), Fault>)
    requires named { blank.name ≡ N.claims }
    requires opened { part.desk ≡ N.desk }
    requires bears { Bears post.now.domain.now part.desk part.pile }
    ensures worked { HasWorked (P.answers post.now.program.now post.now.number) part.desk result.1 result.0.desk }
    ensures bears { Bears post.now.domain.now result.0.desk result.0.pile }
    ensures settled { result.0.pile.endings.items ≡ [] }
{
    let context = Context::<Branded<V, N>>::new(post.domain, blank, part);
    let desk = Desk::over(post.domain, context, post.alloc);
    work_there(rt, post, desk)
}

/// The worker works at a desk of its own, and all that it left comes back, with nothing left to end.
pub(crate) fn work_alone<V: Drop, R: Threads + Wait, P: Program<V, R>>(
    rt: &R,
    post: &Post<'_, V, P>,
    part: Part<V>,
) -> (Part<V>, Result<(), Fault>)
    requires bears { Bears post.now.domain.now part.desk part.pile }
    ensures worked { HasWorked (P.answers post.now.program.now post.now.number) part.desk result.1 result.0.desk }
    ensures bears { Bears post.now.domain.now result.0.desk result.0.pile }
    ensures settled { result.0.pile.endings.items ≡ [] }
{
    work_at::<V, Brand, R, P>(rt, post, Blank::new(), part)
}
