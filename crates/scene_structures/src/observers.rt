//! Observers in a free shared cell: a list of nodes, each of which watches a subject by a weak pointer (own).
ghost use Rattle.std.specs.Prelude.{◌≡◌, ◌↔◌, ◌+◌, ◌<◌, ◌%◌, ◌^◌, ℕ, List, [], None};
ghost use Rattle.std.specs.Prelude.{IfErr, IfOk, IsErr, OnOk};
ghost use Rattle.control_word.specs.declared.model.event.Cell.TheVariants.{Free};
ghost use Rattle.control_word.specs.declared.model.handle.Kind.TheVariants.{Owner};
ghost use Rattle.control_block.specs.Desks.{Belongs, IsSameDesk, KeepsEndings, allowance_of, bag_of, endings_of};
ghost use Rattle.control_block.specs.Desks.{held_of, stock_of};
ghost use Rattle.control_block.specs.Own.{IsSole};
ghost use Rattle.control_block.specs.Refusals.{IsFullOrLimit};
ghost use Rattle.control_block.specs.CellCalls.{HoldsHandle};
ghost use Rattle.shared_handle.specs.Piles.{FoldsBack};
ghost use Rattle.scene_structures.specs.Observers.{Attaches, IsAttached};
ghost use Rattle.scene_structures.specs.Prunes.{IsPruned, Prunes};
ghost use Rattle.scene_structures.specs.Stacks.{StandsIn};
ghost use Rattle.scene_structures.specs.Walks.{IsToldList, WalksOver};
ghost use Rattle.scene_structures.specs.Orders.{EndsInOrder};

use crate::lists::prunes::clear_list;
use crate::lists::pushes::{Attempt, raise};
use crate::lists::subjects::watch;
use crate::lists::walks::walk;
use crate::stack::is_near_limit;
use atomic_cells::SharedAt;
use control_block::desk::Desk;
use control_block::domain::Domain;
use control_word::{Refusal, Refused};
use shared_handle::{Pile, Shared, make};
use std::alloc::Global;
use std::marker::Model;
use std::sync::Wait;

/// A thread's own access to observers in a free shared cell: each node owns the one that was attached before it by its
/// member `next`, and watches its subject by its member `up`. All that have the same cell share the observers.
pub struct Observers<V: Drop> {
    cell: u32,
    pile: Pile<V>,
}

impl<V: Drop> Model for Observers<V> {
    ghost use Rattle.std.specs.Prelude.{◌≡◌, [], vec_capacity};
    ghost use Rattle.scene_structures.specs.Stacks.{StackNow};

    ghost Value = { StackNow };

    ghost view = { λ s. record { cell = s.cell; room = vec_capacity s.pile.endings } };

    ghost invariant = { λ s. s.pile.endings.items ≡ [] };
}

impl<V: Drop> Observers<V> {
    /// The observers in a free shared cell of the domain, by its number from 0 (own). It makes room for the ends of as
    /// many objects as there are blocks; no other call takes memory. Condition: the cell is one of the domain's. It is
    /// refused `Memory` where a growth was really refused.
    pub fn new(alloc: Global, domain: &Domain<V>, cell: u32) -> Result<Self, Refusal>
        requires cell { cell < domain.now.shape.shared_cells }
        ensures refused { IfErr result (λ why. why ≡ Refusal.Memory) }
        ensures stands { IfOk result (λ s. (s.cell ≡ cell) × StandsIn s domain.now) }
    {
        let pile = Pile::new(alloc, domain)?;
        Ok(Self { cell, pile })
    }

    /// A new node with fields 0 and an owned value, without the from-this flag, goes in front, and watches the subject
    /// (own). It waits while others change the cell. It is refused `Limit` just where fewer than 6 handles are free,
    /// and else `Full` just where the desk's store is empty: then the value comes back, and nothing changes. What
    /// ends in the desk's hands stays as it is.
    pub fn attach<R: Wait>(
        &mut self,
        rt: &R,
        domain: &Domain<V>,
        desk: &mut Desk<V>,
        subject: &Shared,
        value: V,
    ) -> Result<(), Refused<V>>
        requires domain { Belongs desk.old domain.now }
        requires stands { StandsIn self.old domain.now }
        requires holds { HoldsHandle desk.old Owner subject.now.block subject.now.place }
        ensures refusals { IsFullOrLimit (allowance_of desk.old < held_of desk.old + 6)
            (stock_of desk.old ≡ []) result }
        ensures refused { IfErr result (λ r. (r.back ≡ value) × (desk.new ≡ desk.old)) }
        ensures stands { (self.new.cell ≡ self.old.cell) × StandsIn self.new domain.now }
        ensures endings { KeepsEndings desk.old desk.new }
        ensures count { endings_of desk.new ≡ endings_of desk.old }
        ensures order { OnOk result (EndsInOrder desk.old [] desk.new []) }
        ensures desk { IsSameDesk desk.old desk.new }
        ensures bag { bag_of desk.new ≡ bag_of desk.old }
        ensures held { desk.new.held ≡ desk.old.held }
        ensures own { OnOk result (Attaches desk.old (Free self.old.cell) subject.now value desk.new) }
        ensures list { OnOk result (IsSole desk.old → IsAttached desk.old (Free self.old.cell) subject.now desk.new) }
    {
        if is_near_limit(desk) {
            return Err(Refused {
                why: Refusal::Limit,
                back: value,
            });
        }
        desk.assert_invariant();
        let node = make(domain, desk, [0; 4], false, value)?;
        watch(domain, desk, &node, subject);
        let at = SharedAt::free(self.cell);
        let Ok(top) = at.load(rt, domain, desk) else {
            unreachable!()
        };
        raise(rt, domain, desk, &at, &mut self.pile, Attempt { node, top });
        Ok(())
    }

    /// `tell` gets field 0 of the subject of each node, the one that was attached last first, where the subject has an
    /// owner when the call comes to it (own). It waits while others change what it looks at. It is refused `Limit` just
    /// where fewer than 6 handles are free, and then nothing changes, and `tell` gets nothing. What ends in
    /// the desk's hands stays as it is.
    pub fn each<R: Wait, F: FnMut(u64)>(
        &mut self,
        rt: &R,
        domain: &Domain<V>,
        desk: &mut Desk<V>,
        tell: F,
    ) -> Result<(), Refusal>
        requires domain { Belongs desk.old domain.now }
        requires stands { StandsIn self.old domain.now }
        requires callable { F.IsAlwaysCallable tell }
        ensures limit { IsErr result ↔ (allowance_of desk.old < held_of desk.old + 6) }
        ensures refused { IfErr result (λ why. (why ≡ Refusal.Limit) × (desk.new ≡ desk.old)) }
        ensures stands { (self.new.cell ≡ self.old.cell) × StandsIn self.new domain.now }
        ensures endings { KeepsEndings desk.old desk.new }
        ensures count { endings_of desk.new ≡ endings_of desk.old }
        ensures order { OnOk result (EndsInOrder desk.old [] desk.new []) }
        ensures desk { IsSameDesk desk.old desk.new }
        ensures bag { bag_of desk.new ≡ bag_of desk.old }
        ensures held { desk.new.held ≡ desk.old.held }
        ensures own { OnOk result ((told : List ℕ) × WalksOver desk.old (Free self.old.cell) told desk.new
            × ((last : F) × FoldsBack (λ p x q. F.step p x tt q) tell told last)
            × (IsSole desk.old → IsToldList desk.old (Free self.old.cell) told desk.new)) }
    {
        if is_near_limit(desk) {
            return Err(Refusal::Limit);
        }
        desk.assert_invariant();
        let Ok(top) = SharedAt::free(self.cell).load(rt, domain, desk) else {
            unreachable!()
        };
        walk(rt, domain, desk, top, &mut self.pile, tell);
        Ok(())
    }

    /// The nodes whose subject has no owner when the call comes to them go out of the list and end, if nobody else owns
    /// them (own). How many: exactly so where the cell's nodes are a list, and else modulo 2^32. It is refused `Limit`
    /// just where fewer than 6 handles are free, and then nothing changes. What ends in the desk's hands stays as
    /// it is. Condition: the desk is sole.
    pub fn prune<R: Wait>(
        &mut self,
        rt: &R,
        domain: &Domain<V>,
        desk: &mut Desk<V>,
    ) -> Result<u32, Refusal>
        requires domain { Belongs desk.old domain.now }
        requires stands { StandsIn self.old domain.now }
        requires sole { IsSole desk.old }
        ensures limit { IsErr result ↔ (allowance_of desk.old < held_of desk.old + 6) }
        ensures refused { IfErr result (λ why. (why ≡ Refusal.Limit) × (desk.new ≡ desk.old)) }
        ensures stands { (self.new.cell ≡ self.old.cell) × StandsIn self.new domain.now }
        ensures endings { KeepsEndings desk.old desk.new }
        ensures count { endings_of desk.new ≡ endings_of desk.old }
        ensures order { OnOk result (EndsInOrder desk.old [] desk.new []) }
        ensures desk { IsSameDesk desk.old desk.new }
        ensures bag { bag_of desk.new ≡ bag_of desk.old }
        ensures held { desk.new.held ≡ desk.old.held }
        ensures own { IfOk result (λ count. (n : ℕ) × (count ≡ n % 2 ^ 32)
            × ((kept : List ℕ) × Prunes desk.old (Free self.old.cell) kept n None desk.new)
            × IsPruned desk.old (Free self.old.cell) count desk.new) }
    {
        if is_near_limit(desk) {
            return Err(Refusal::Limit);
        }
        desk.assert_invariant();
        Ok(clear_list(rt, domain, desk, self.cell, &mut self.pile))
    }

    /// The access is given up (own); the observers stay as they are.
    pub fn close(self) {
        let Self { cell: _, pile } = self;
        pile.close();
    }
}
