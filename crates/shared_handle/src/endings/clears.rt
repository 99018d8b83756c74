//! The members of an object that ends are emptied before its end, in the order of their numbers.
ghost use Rattle.std.specs.Prelude.{◌≡◌, ℕ, ◌+◌, ◌<◌, false, length, true};
ghost use Rattle.control_word.specs.State.{kind_of_member};
ghost use Rattle.control_word.specs.declared.model.handle.Kind.TheVariants.{Owner, Weak};
ghost use Rattle.control_block.specs.Desks.{Belongs, IsCleared, IsSameDesk, KeepsOtherEndings, bag_of, endings_of};
ghost use Rattle.control_block.specs.Desks.{stock_of};
ghost use Rattle.control_block.specs.Own.{Does, KeepsLatest};
ghost use Rattle.shared_handle.specs.Endings.{ClearsMember, ClearsWeakly, EndsInHand, IsApart, IsBeside, IsClearing};
ghost use Rattle.shared_handle.specs.Endings.{IsAllClear, more_ending, with_clear};
ghost use Rattle.shared_handle.specs.Piles.{ClearsByLooks, IsParting};

use crate::endings::{Ending, Left};
use control_block::clear_calls;
use control_block::desk::Desk;
use control_block::domain::Domain;
use control_word::model::handle::Kind;

impl<V: Drop> Ending<V> {
    // The next member, which holds an owner or nothing, is emptied; that it is cleared is noted by the caller.
    #[inline(always)]
    fn clear_owner(&self, domain: &Domain<V>, desk: &mut Desk<V>) -> Left<V>
        requires domain { Belongs desk.old domain.now }
        requires ends { EndsInHand desk.old self.now }
        requires some { self.now.cleared < self.now.members }
        requires kind { kind_of_member desk.old.shape.owners self.now.cleared ≡ Owner }
        ensures clears { ClearsMember desk.old self.now self.now.cleared result desk.new }
        ensures ends { EndsInHand desk.new self.now }
        ensures cleared { IsCleared desk.new self.now.block.0 self.now.cleared }
        ensures bag { bag_of desk.new ≡ bag_of desk.old }
        ensures held { desk.new.held ≡ desk.old.held }
        ensures desk { IsSameDesk desk.old desk.new }
        ensures stock { length (stock_of desk.new) ≡ length (stock_of desk.old) }
        ensures endings { KeepsOtherEndings desk.old self.now.block.0 desk.new }
        ensures count { endings_of desk.new ≡ endings_of desk.old + more_ending result }
        ensures beside { IsBeside self.now.block.0 result }
        ensures apart { IsApart desk.old result }
    {
        let member = self.cleared;
        let (held, released) = clear_calls::clear(domain, desk, self.block, member, Kind::Owner);
        Left::of_parts(domain, held.word.block(), released.value)
    }

    // The same of one that holds a weak handle or nothing.
    #[inline(always)]
    fn clear_weak(&self, domain: &Domain<V>, desk: &mut Desk<V>) -> Left<V>
        requires domain { Belongs desk.old domain.now }
        requires ends { EndsInHand desk.old self.now }
        requires some { self.now.cleared < self.now.members }
        requires kind { kind_of_member desk.old.shape.owners self.now.cleared ≡ Weak }
        ensures clears { ClearsWeakly desk.old self.now self.now.cleared result desk.new }
        ensures ends { EndsInHand desk.new self.now }
        ensures cleared { IsCleared desk.new self.now.block.0 self.now.cleared }
        ensures bag { bag_of desk.new ≡ bag_of desk.old }
        ensures held { desk.new.held ≡ desk.old.held }
        ensures desk { IsSameDesk desk.old desk.new }
        ensures endings { KeepsOtherEndings desk.old self.now.block.0 desk.new }
        ensures count { endings_of desk.new ≡ endings_of desk.old + more_ending result }
        ensures beside { IsBeside self.now.block.0 result }
        ensures apart { IsApart desk.old result }
    {
        let member = self.cleared;
        let (held, released) = clear_calls::clear(domain, desk, self.block, member, Kind::Weak);
        Left::of_parts(domain, held.word.block(), released.value)
    }

    /// The first member that isn't cleared is emptied, and what it held leaves (own): it answers what a release of that
    /// answers, and for a weak member never `Last`. An object that ends for it is another than this one and than all
    /// that end in the desk's hands, and they may be finished in any order. It refuses nothing, at the allowance too:
    /// the desk keeps one place of its allowance free while an object ends in its hands. Condition: not all are clear.
    #[inline(always)]
    pub fn clear_next(&mut self, domain: &Domain<V>, desk: &mut Desk<V>) -> Left<V>
        requires domain { Belongs desk.old domain.now }
        requires ends { EndsInHand desk.old self.old }
        requires some { self.old.cleared < self.old.members }
        ensures clears { IsClearing desk.old self.old result desk.new }
        ensures noted { self.new ≡ with_clear self.old }
        ensures object { (self.new.block ≡ self.old.block) × (self.new.value ≡ self.old.value) }
        ensures ends { EndsInHand desk.new self.new }
        ensures bag { bag_of desk.new ≡ bag_of desk.old }
        ensures held { desk.new.held ≡ desk.old.held }
        ensures desk { IsSameDesk desk.old desk.new }
        ensures endings { KeepsOtherEndings desk.old self.old.block.0 desk.new }
        ensures count { endings_of desk.new ≡ endings_of desk.old + more_ending result }
        ensures beside { IsBeside self.old.block.0 result }
        ensures apart { IsApart desk.old result }
    {
        match domain.kind_of_member(self.cleared) {
            Kind::Owner => {
                let left = self.clear_owner(domain, desk);
                self.cleared += 1;
                left
            }
            Kind::Weak => {
                let left = self.clear_weak(domain, desk);
                self.cleared += 1;
                left
            }
        }
    }

    /// The first member that isn't cleared is cleared by a look, just where it held nothing then (own): whether it was.
    /// Else nothing changes. Condition: not all are clear.
    #[inline(always)]
    pub fn clear_empty(&mut self, domain: &Domain<V>, desk: &mut Desk<V>) -> bool
        requires domain { Belongs desk.old domain.now }
        requires ends { EndsInHand desk.old self.old }
        requires some { self.old.cleared < self.old.members }
        ensures clears { result ≡ true → IsClearing desk.old self.old Left.Empty desk.new }
        ensures noted { result ≡ true → self.new ≡ with_clear self.old }
        ensures same { result ≡ false → (self.new ≡ self.old) × (desk.new ≡ desk.old) }
        ensures object { (self.new.block ≡ self.old.block) × (self.new.value ≡ self.old.value) }
        ensures ends { EndsInHand desk.new self.new }
        ensures bag { bag_of desk.new ≡ bag_of desk.old }
        ensures held { desk.new.held ≡ desk.old.held }
        ensures latest { KeepsLatest desk.old desk.new }
        ensures desk { IsSameDesk desk.old desk.new }
        ensures endings { KeepsOtherEndings desk.old self.old.block.0 desk.new }
        ensures count { endings_of desk.new ≡ endings_of desk.old }
    {
        if !clear_calls::clear_empty(domain, desk, self.block, self.cleared) {
            return false;
        }
        self.cleared += 1;
        true
    }

    /// Members that hold nothing are cleared by looks, one after another, until one holds something (own): whether all
    /// are clear now.
    #[inline(always)]
    pub(crate) fn clear_empties(&mut self, domain: &Domain<V>, desk: &mut Desk<V>) -> bool
        requires domain { Belongs desk.old domain.now }
        requires ends { EndsInHand desk.old self.old }
        ensures all { result ≡ true → IsAllClear self.new }
        ensures clears { ClearsByLooks desk.old self.old desk.new self.new }
        ensures object { (self.new.block ≡ self.old.block) × (self.new.value ≡ self.old.value) }
        ensures ends { EndsInHand desk.new self.new }
        ensures parting { Does IsParting desk.old desk.new }
        ensures bag { bag_of desk.new ≡ bag_of desk.old }
        ensures held { desk.new.held ≡ desk.old.held }
        ensures latest { KeepsLatest desk.old desk.new }
        ensures desk { IsSameDesk desk.old desk.new }
        ensures endings { KeepsOtherEndings desk.old self.old.block.0 desk.new }
        ensures count { endings_of desk.new ≡ endings_of desk.old }
    {
        while !self.is_clear() {
            if !self.clear_empty(domain, desk) {
                return false;
            }
        }
        true
    }
}
