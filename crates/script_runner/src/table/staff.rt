//! Workers with a state of their own over a domain of their own, with a table for each.
ghost use Rattle.std.specs.Prelude.{◌≡◌, ◌⊎◌, ◌↔◌, length};
ghost use Rattle.std.specs.Prelude.{IfErr, IfNone, IfOk, IfSome};
ghost use Rattle.control_word.specs.Layout.{IsWithinLimits};
ghost use Rattle.script_runner.specs.Openings.{GoesOn, IsFirstPart};
ghost use Rattle.script_runner.specs.Parting.{IsRefusedPart};
ghost use Rattle.script_runner.specs.Staffs.{CanShare, HasShares, IsParted, KeepsAllowance, MeetsNeeds};
ghost use Rattle.script_runner.specs.Staffs.{Staffs, StaffsOpen, StaffsOrNot};

use crate::table::closing::{close_bare, keep_sole};
use crate::table::opening::{first_table, open_domain};
use crate::table::parting::parts::Part;
use crate::table::program::Crew;
use crate::table::staff::posts::worked;
use crate::table::{Home, WorkerTable};
use control_block::desk::Desk;
use control_block::domain::Domain;
use control_word::{Refusal, Shape};
use std::alloc::Global;
use std::marker::Brand;
use std::sync::Wait;
use std::thread::Threads;

pub(crate) mod posts;

/// What a worker with a state of its own does, in a thread with a table of its own. `needs` says what has to be true of
/// the worker and its table before, and `does` what comes of it: by both before and after. A worker that gives no such
/// member says nothing, and needs nothing.
pub(crate) trait Work<V: Drop, R: Threads + Wait + Sync> {
    ghost use Rattle.script_runner.specs.Tables.{TableNow};

    ghost needs: { Self → TableNow V → Type 0 } = { λ _ _. Unit {0} };

    ghost does: { Self → TableNow V → Self → TableNow V → Type 0 } = { λ _ _ _ _. Unit {0} };

    fn work<H: Home>(&mut self, rt: &R, table: &mut WorkerTable<'_, V, H>)
        requires needs { needs self.old table.old }
        ensures { does self.old table.old self.new table.new };
}

/// What each worker gets: slots, a part of the allowance, and vacant blocks.
#[derive(Clone, Copy, Drop)]
pub(crate) struct Share {
    pub slots: usize,
    pub allowance: u32,
    pub blocks: u32,
}

impl<'d, V: Drop + Send, H: Home + Send + Sync> WorkerTable<'d, V, H> {
    /// Each worker works, in a thread with a table of its own, and all that they leave with these comes back: the
    /// handles in their slots leave, and what is left to end does so (own). Or why a worker had no table or no thread:
    /// then none works.
    pub(crate) fn staff<R: Threads + Wait + Sync, W: Work<V, R> + Send>(
        &mut self,
        rt: &R,
        alloc: Global,
        share: Share,
        workers: &mut Vec<W>,
    ) -> Option<Refusal>
        requires needs { MeetsNeeds W.needs self.old.desk.shape share workers.old.items }
        ensures staffs { IfNone result (Staffs W.does self.old share workers.old.items workers.new.items self.new) }
        ensures refused { IfSome result (λ why. IsRefusedPart why × (workers.new.items ≡ workers.old.items)) }
        ensures shared { CanShare self.old.desk share (length workers.old.items)
            → IfSome result (λ why. why ≡ Refusal.Memory) }
    {
        let crew = self.team(alloc, workers.len(), share);
        let Crew { tables, fewer } = crew;
        let mut tables = tables;
        if let Some(why) = fewer {
            self.absorb_all(rt, tables);
            return Some(why);
        }
        if !worked::<V, H, R, W>(rt, alloc, &mut tables, workers) {
            self.absorb_all(rt, tables);
            return Some(Refusal::Memory);
        }
        self.absorb_all(rt, tables);
        None
    }
}

/// The same with a domain's first table, whose desk comes out.
fn staff_in<V: Drop + Send, H: Home + Send + Sync, R: Threads + Wait + Sync, W: Work<V, R> + Send>(
    rt: &R,
    alloc: Global,
    domain: &Domain<V>,
    part: Part<V>,
    share: Share,
    workers: &mut Vec<W>,
) -> (Desk<V>, Option<Refusal>)
    requires home { domain.now ≡ H.domain }
    requires first { IsFirstPart domain.now part }
    requires needs { MeetsNeeds W.needs domain.now.shape share workers.old.items }
    ensures { GoesOn (λ t u. StaffsOrNot W.does share workers.old.items t result.1 workers.new.items u)
        domain.now (length part.slots.items) result.0 }
{
    let mut table = first_table::<V, H>(domain, part);
    let refused = table.staff::<R, W>(rt, alloc, share, workers);
    (table.into_desk(rt), refused)
}

/// A domain is opened, each worker does its part in a thread with a table of its own, and the
/// domain comes out with its sole desk (own): that has seen the whole history, has no handle and
/// nothing to end, and can close the domain. The handles that a worker leaves in its slots leave,
/// and what is left to end does so. What `Work::does` says of a worker and its table holds of each,
/// and the tables are parts of a first one, which has all again at the end.
///
/// It has one condition: each worker has what it says by `Work::needs`, whichever table it is lent.
/// Such a table is a new one, without a handle, with the slots, the allowance and as many blocks as
/// the share has, of a domain of this shape. A worker that says nothing of its needs has all.
///
/// It is refused `Shape` just where the shape is outside the limits, `Memory` only where a growth or
/// the start of a thread was really refused, `Limit` or `Full` where there is no such share for
/// each, and `NotSole` where a worker kept a table for itself. Only with the last has any worked,
/// and then `Work::does` holds of each too: a worker begins once the threads of all are started. At
/// each refusal the domain is gone: closed, or with its last desk given up.
pub(crate) fn run_workers_open<V: Drop + Send, R: Threads + Wait + Sync, W: Work<V, R> + Send>(
    rt: &R,
    alloc: Global,
    shape: Shape,
    share: Share,
    workers: &mut Vec<W>,
) -> Result<(Domain<V>, Desk<V>), Refusal>
    requires needs { MeetsNeeds W.needs shape share workers.old.items }
    ensures works { IfOk result
        (λ r. StaffsOpen W.does shape share workers.old.items workers.new.items r.0 r.1) }
    ensures within { IfOk result (λ _. IsWithinLimits shape) }
    ensures shape { IfErr result (λ why. why ≡ Refusal.Shape ↔ (IsWithinLimits shape → ⊥)) }
    ensures refused { IfErr result
        (λ why. (why ≡ Refusal.Shape) ⊎ ((why ≡ Refusal.NotSole) ⊎ IsRefusedPart why)) }
    ensures shared { HasShares shape share (length workers.old.items) → IfErr result
        (λ why. (why ≡ Refusal.Shape) ⊎ ((why ≡ Refusal.NotSole) ⊎ (why ≡ Refusal.Memory))) }
    ensures sole { KeepsAllowance W.does → IfErr result (λ why. why ≡ Refusal.NotSole → ⊥) }
    ensures kept { IfErr result
        (λ why. (why ≡ Refusal.NotSole) ⊎ (workers.new.items ≡ workers.old.items)) }
    ensures parted { IfErr result
        (λ why. why ≡ Refusal.NotSole → IsParted V W.does shape share workers.old.items workers.new.items) }
{
    let (domain, part) = open_domain::<V>(alloc, shape, share.slots)?;
    let (desk, refused) = staff_in::<V, Brand, R, W>(rt, alloc, &domain, part, share, workers);
    match refused {
        None => keep_sole(domain, desk),
        Some(why) => {
            drop(close_bare(domain, desk));
            Err(why)
        }
    }
}
