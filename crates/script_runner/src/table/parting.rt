//! A second table of the domain, for another thread, and its end.
ghost use Rattle.std.specs.Prelude.{◌≡◌, [], IfErr, IfOk};
ghost use Rattle.control_block.specs.Desks.{Belongs, allowance_of, endings_of};
ghost use Rattle.control_block.specs.Parting.{SplitsOff};
ghost use Rattle.shared_handle.specs.Piles.{Bears};
ghost use Rattle.script_runner.specs.Parting.{Absorbs, IsNew, LeaveSlots, WhyNoPart, WindsUp};
ghost use Rattle.script_runner.specs.Tables.{FitsSlots, on_pile};

use crate::table::parting::parts::{Part, part_of};
use crate::table::slots::assignments::let_go;
use crate::table::staff::Share;
use crate::table::{Home, WorkerTable};
use control_block::desk::Desk;
use control_block::domain::Domain;
use control_word::Refusal;
use shared_handle::{Held, Pile};
use std::alloc::Global;
use std::marker::PhantomData;
use std::sync::Wait;

pub(crate) mod parts;

/// All handles leave their slots, the last one first.
fn let_all_go<V: Drop>(
    domain: &Domain<V>,
    desk: &mut Desk<V>,
    pile: &mut Pile<V>,
    slots: Vec<Option<Held>>,
)
    requires bears { Bears domain.now desk.old pile.old }
    requires fits { FitsSlots desk.old slots.items }
    ensures bears { Bears domain.now desk.new pile.new }
    ensures none { FitsSlots desk.new [] }
    ensures left { LeaveSlots desk.old (on_pile pile.old) slots.items desk.new (on_pile pile.new) }
    ensures allowance { allowance_of desk.new ≡ allowance_of desk.old }
{
    let mut slots = slots;
    while let Some(slot) = slots.pop() {
        match slot {
            None => {}
            Some(handle) => {
                let_go(domain, desk, pile, handle);
            }
        }
    }
    slots.destroy_empty();
}

impl<'d, V: Drop, H: Home> WorkerTable<'d, V, H> {
    /// A further table with so many vacant slots. It is refused as a split is.
    pub(crate) fn recruit(
        &mut self,
        alloc: Global,
        share: Share,
    ) -> Result<WorkerTable<'d, V, H>, Refusal>
        ensures parts { IfOk result
            (λ t. SplitsOff self.old.desk share.allowance share.blocks [] self.new.desk t.desk) }
        ensures new { IfOk result (IsNew share.slots) }
        ensures rest { (self.new.slots ≡ self.old.slots) × (self.new.endings ≡ self.old.endings) }
        ensures refused { IfErr result
            (λ why. WhyNoPart self.old.desk share.allowance share.blocks why × (self.new ≡ self.old)) }
    {
        match part_of(self.domain, &mut self.desk, alloc, share) {
            Ok(part) => {
                let Part { desk, slots, pile } = part;
                Ok(WorkerTable {
                    domain: self.domain,
                    home: PhantomData,
                    desk,
                    slots,
                    pile,
                })
            }
            Err(why) => Err(why),
        }
    }

    /// All handles leave, the last slot's first, and then all that is left to end does so.
    #[tactic(auto, using(shared_handle::proofs::Piles::bears_after))]
    pub(crate) fn into_desk<R: Wait>(self, rt: &R) -> Desk<V>
        ensures here { Belongs result H.domain }
        ensures none { FitsSlots result [] × (endings_of result ≡ 0) }
        ensures wound { WindsUp self.entry result }
    {
        let WorkerTable {
            domain,
            home: _,
            desk,
            slots,
            pile,
        } = self;
        let mut desk = desk;
        let mut pile = pile;
        let_all_go(domain, &mut desk, &mut pile, slots);
        pile.settle(rt, domain, &mut desk);
        pile.close();
        desk
    }

    /// The other table's handles leave, the last slot's first, and then all that is left to end with it does so; what
    /// it had of the domain comes to this table (own). It refuses nothing.
    pub(crate) fn absorb<R: Wait>(&mut self, rt: &R, other: WorkerTable<'d, V, H>)
        ensures { Absorbs self.old other.entry self.new }
    {
        let desk = other.into_desk(rt);
        self.desk.join(self.domain, desk);
    }
}
