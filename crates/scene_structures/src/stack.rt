//! A stack in a free shared cell, which threads push on and pop from without a lock (own).
ghost use Rattle.std.specs.Prelude.{◌≡◌, ◌↔◌, ◌+◌, ◌<◌, [], MatchOption, IfErr, IfOk, IfSome};
ghost use Rattle.std.specs.Prelude.{IsErr, IsTrue, OnOk};
ghost use Rattle.control_word.specs.declared.model.event.Cell.TheVariants.{Free};
ghost use Rattle.control_word.specs.declared.model.handle.Kind.TheVariants.{Owner};
ghost use Rattle.control_block.specs.Desks.{Belongs, IsSameDesk, KeepsEndings, allowance_of, bag_of, endings_of};
ghost use Rattle.control_block.specs.Desks.{held_of, stock_of};
ghost use Rattle.control_block.specs.Own.{IsSole};
ghost use Rattle.control_block.specs.Refusals.{IsFullOrLimit};
ghost use Rattle.control_block.specs.CellCalls.{HoldsHandle, with_handle};
ghost use Rattle.scene_structures.specs.Pops.{TakesNode};
ghost use Rattle.scene_structures.specs.Stacks.{FindsNone, IsEmptyList, IsPopped, IsPushed, Pushes, StandsIn};
ghost use Rattle.scene_structures.specs.Orders.{EndsInOrder};

use crate::lists::pops::take;
use crate::lists::pushes::{Attempt, raise};
use atomic_cells::SharedAt;
use control_block::desk::Desk;
use control_block::domain::Domain;
use control_word::{Refusal, Refused};
use shared_handle::{Pile, Shared, make};
use std::alloc::Global;
use std::marker::Model;
use std::sync::Wait;

/// So many handles a call has in hand at most: they must be free.
const HANDLES: u32 = 6;

/// Whether fewer than 6 handles are free.
pub(crate) fn is_near_limit<V: Drop>(desk: &Desk<V>) -> bool
    ensures { IsTrue result ↔ (allowance_of desk.now < held_of desk.now + 6) }
{
    desk.assert_invariant();
    desk.allowance() - desk.held() < HANDLES
}

/// A thread's own access to a stack of nodes in a free shared cell: each node owns the one below it by its member
/// `next`. All that have the same cell share the stack.
pub struct Stack<V: Drop> {
    cell: u32,
    pile: Pile<V>,
}

impl<V: Drop> Model for Stack<V> {
    ghost use Rattle.std.specs.Prelude.{◌≡◌, [], vec_capacity};
    ghost use Rattle.scene_structures.specs.Stacks.{StackNow};

    ghost Value = { StackNow };

    ghost view = { λ s. record { cell = s.cell; room = vec_capacity s.pile.endings } };

    ghost invariant = { λ s. s.pile.endings.items ≡ [] };
}

impl<V: Drop> Stack<V> {
    /// The stack in a free shared cell of the domain, by its number from 0 (own). It makes room for the ends of as many
    /// objects as there are blocks; no other call takes memory. Condition: the cell is one of the domain's. It is
    /// refused `Memory` where a growth was really refused.
    pub fn new(alloc: Global, domain: &Domain<V>, cell: u32) -> Result<Self, Refusal>
        requires cell { cell < domain.now.shape.shared_cells }
        ensures refused { IfErr result (λ why. why ≡ Refusal.Memory) }
        ensures stands { IfOk result (λ s. (s.cell ≡ cell) × StandsIn s domain.now) }
    {
        let pile = Pile::new(alloc, domain)?;
        Ok(Self { cell, pile })
    }

    /// A new node with four fields and an owned value, without the from-this flag, goes on top (own). It waits while
    /// others change the cell. It is refused `Limit` just where fewer than 6 handles are free, and else `Full` just
    /// where the desk's store is empty: then the value comes back, and nothing changes. What ends in the desk's
    /// hands stays as it is.
    pub fn push<R: Wait>(
        &mut self,
        rt: &R,
        domain: &Domain<V>,
        desk: &mut Desk<V>,
        fields: [u64; 4],
        value: V,
    ) -> Result<(), Refused<V>>
        requires domain { Belongs desk.old domain.now }
        requires stands { StandsIn self.old domain.now }
        ensures refusals { IsFullOrLimit (allowance_of desk.old < held_of desk.old + 6)
            (stock_of desk.old ≡ []) result }
        ensures refused { IfErr result (λ r. (r.back ≡ value) × (desk.new ≡ desk.old)) }
        ensures stands { (self.new.cell ≡ self.old.cell) × StandsIn self.new domain.now }
        ensures endings { KeepsEndings desk.old desk.new }
        ensures count { endings_of desk.new ≡ endings_of desk.old }
        ensures order { OnOk result (EndsInOrder desk.old [] desk.new []) }
        ensures desk { IsSameDesk desk.old desk.new }
        ensures bag { bag_of desk.new ≡ bag_of desk.old }
        ensures held { desk.new.held ≡ desk.old.held }
        ensures own { OnOk result (Pushes desk.old (Free self.old.cell) fields value desk.new) }
        ensures list { OnOk result (IsSole desk.old → IsPushed desk.old (Free self.old.cell) desk.new) }
    {
        if is_near_limit(desk) {
            return Err(Refused {
                why: Refusal::Limit,
                back: value,
            });
        }
        desk.assert_invariant();
        let node = make(domain, desk, fields, false, value)?;
        let at = SharedAt::free(self.cell);
        let Ok(top) = at.load(rt, domain, desk) else {
            unreachable!()
        };
        raise(rt, domain, desk, &at, &mut self.pile, Attempt { node, top });
        Ok(())
    }

    /// The top node goes out of the stack, and this is its owner, or none where there was no node (own). It keeps what
    /// its `next` owns. It waits while others change the cell. It is refused `Limit` just where fewer than 6 handles
    /// are free, and then nothing changes. What ends in the desk's hands stays as it is.
    pub fn pop<R: Wait>(
        &mut self,
        rt: &R,
        domain: &Domain<V>,
        desk: &mut Desk<V>,
    ) -> Result<Option<Shared>, Refusal>
        requires domain { Belongs desk.old domain.now }
        requires stands { StandsIn self.old domain.now }
        ensures limit { IsErr result ↔ (allowance_of desk.old < held_of desk.old + 6) }
        ensures refused { IfErr result (λ why. (why ≡ Refusal.Limit) × (desk.new ≡ desk.old)) }
        ensures stands { (self.new.cell ≡ self.old.cell) × StandsIn self.new domain.now }
        ensures endings { KeepsEndings desk.old desk.new }
        ensures count { endings_of desk.new ≡ endings_of desk.old }
        ensures order { OnOk result (EndsInOrder desk.old [] desk.new []) }
        ensures desk { IsSameDesk desk.old desk.new }
        ensures bag { IfOk result (λ r. MatchOption r (bag_of desk.new ≡ bag_of desk.old)
            (λ h. bag_of desk.new ≡ with_handle Owner h.block h.place (bag_of desk.old))) }
        ensures held { IfOk result
            (λ r. MatchOption r (desk.new.held ≡ desk.old.held) (λ h. desk.new.held ≡ desk.old.held + 1)) }
        ensures holds { IfOk result (λ r. IfSome r (λ h. HoldsHandle desk.new Owner h.block h.place)) }
        ensures own { IfOk result (λ r. MatchOption r (FindsNone desk.old (Free self.old.cell) desk.new)
            (λ h. TakesNode desk.old (Free self.old.cell) h desk.new)) }
        ensures list { IfOk result (λ r. IsSole desk.old → MatchOption r
            (IsEmptyList desk.old (Free self.old.cell) desk.new)
            (λ h. IsPopped desk.old (Free self.old.cell) h desk.new)) }
    {
        if is_near_limit(desk) {
            return Err(Refusal::Limit);
        }
        desk.assert_invariant();
        let Ok(top) = SharedAt::free(self.cell).load(rt, domain, desk) else {
            unreachable!()
        };
        let cell = self.cell;
        Ok(take(rt, domain, desk, cell, &mut self.pile, top))
    }

    /// The access is given up (own); the stack stays as it is.
    pub fn close(self) {
        let Self { cell: _, pile } = self;
        pile.close();
    }
}
