//! Objects of a pile end, the top first, and what ends for an object before it is finished.
ghost use Rattle.std.specs.Prelude.{◌≡◌, ◌⊎◌, ◌+◌, ◌<◌, [], ◌∷◌, List, IfNone, IfSome, MatchOption, length};
ghost use Rattle.control_block.specs.Desks.{IsSameDesk, bag_of};
ghost use Rattle.control_block.specs.Own.{Does, KeepsLatest};
ghost use Rattle.shared_handle.specs.Piles.{AreRounds, CameLast, Carries, ClearsNext, EndsAtOnce, EndsTop};
ghost use Rattle.shared_handle.specs.Piles.{IsParting, IsRound};
ghost use Rattle.shared_handle.specs.Piles.{KeepsElsewhere, Past, Stacked, next_member, values_of};

use crate::endings::{Ending, Left};
use crate::pile::{Pile, Round};
use control_block::desk::Desk;
use control_block::domain::Domain;

impl<V: Drop> Ending<V> {
    /// The number of the first member that isn't cleared yet (own).
    #[inline(always)]
    fn next_member(&self) -> Option<u8>
        ensures { result ≡ next_member self.now }
    {
        if self.cleared < self.members {
            Some(self.cleared)
        } else {
            None
        }
    }
}

impl<V: Drop> Pile<V> {
    /// One round (own): the first member of the top that isn't cleared is emptied, and what ends for it lies above the
    /// top; or the top is finished, where all are clear, and its value comes out. So an object is finished after
    /// what its members alone owned. What ends in the desk's hands elsewhere stays as it is.
    #[inline(always)]
    pub fn round(&mut self, domain: &Domain<V>, desk: &mut Desk<V>) -> Round<V>
        requires carries { Carries domain.now desk.old self.old }
        ensures carries { Carries domain.now desk.new self.new }
        ensures elsewhere { KeepsElsewhere
            desk.old self.old.endings.items desk.new self.new.endings.items }
        ensures round { IsRound desk.old self.old.endings.items result desk.new self.new.endings.items }
        ensures parting { Does IsParting desk.old desk.new }
        ensures bag { bag_of desk.new ≡ bag_of desk.old }
        ensures held { desk.new.held ≡ desk.old.held }
        ensures desk { IsSameDesk desk.old desk.new }
    {
        let Some(top) = self.endings.last_mut() else {
            return Round::Settled;
        };
        let Some(member) = top.next_member() else {
            let top = self.endings.take_last();
            return Round::Ended(top.finish(domain, desk));
        };
        let left = top.clear_next(domain, desk);
        desk.assert_invariant();
        Round::Cleared(member, self.put(left))
    }

    /// The first member of the one in hand that isn't cleared is emptied.
    fn clear_once(&mut self, domain: &Domain<V>, desk: &mut Desk<V>, ending: &mut Ending<V>)
        requires stacked { Stacked domain.now desk.old self.old ending.old }
        requires some { ending.old.cleared < ending.old.members }
        ensures stacked { Stacked domain.now desk.new self.new ending.new }
        ensures elsewhere { KeepsElsewhere desk.old (ending.old ∷ self.old.endings.items)
            desk.new (ending.new ∷ self.new.endings.items) }
        ensures clears { ClearsNext (record { desk = desk.old; pile = self.old.endings.items; ending = ending.old })
            (record { desk = desk.new; pile = self.new.endings.items; ending = ending.new }) }
        ensures parting { Does IsParting desk.old desk.new }
        ensures bag { bag_of desk.new ≡ bag_of desk.old }
        ensures held { desk.new.held ≡ desk.old.held }
        ensures desk { IsSameDesk desk.old desk.new }
    {
        let left = ending.clear_next(domain, desk);
        desk.assert_invariant();
        self.put(left);
    }

    /// Rounds, so many at most, until a value comes out (own): `rounds` is how many are left of them. `None` where none
    /// is left, or nothing to end. What ends in the desk's hands elsewhere stays as it is. It waits for nobody.
    // The top stays in hand: to write it to the pile and read it back in each round took most of an object's time.
    #[inline(always)]
    pub fn next_value(
        &mut self,
        domain: &Domain<V>,
        desk: &mut Desk<V>,
        rounds: &mut u32,
    ) -> Option<V>
        requires carries { Carries domain.now desk.old self.old }
        ensures carries { Carries domain.now desk.new self.new }
        ensures elsewhere { KeepsElsewhere
            desk.old self.old.endings.items desk.new self.new.endings.items }
        ensures rounds { (rs : List (Past V)) × AreRounds desk.old self.old.endings.items rs desk.new
            self.new.endings.items × (length rs + rounds.new ≡ rounds.old)
            × MatchOption result (values_of rs ≡ []) (λ v. CameLast v rs) }
        ensures none { IfNone result ((rounds.new ≡ 0) ⊎ (self.new.endings.items ≡ [])) }
        ensures parting { Does IsParting desk.old desk.new }
        ensures bag { bag_of desk.new ≡ bag_of desk.old }
        ensures held { desk.new.held ≡ desk.old.held }
        ensures desk { IsSameDesk desk.old desk.new }
    {
        let mut top = self.endings.pop()?;
        while *rounds > 0 {
            *rounds -= 1;
            if top.is_clear() {
                return Some(top.finish(domain, desk));
            }
            let left = top.clear_next(domain, desk);
            desk.assert_invariant();
            match left {
                Left::Empty => {}
                Left::Others => {}
                Left::Last(next) => {
                    self.endings.push_reserved(top);
                    top = next;
                }
            }
        }
        desk.assert_invariant();
        self.endings.push_reserved(top);
        None
    }

    /// The object on top ends (own): its members are emptied, what ends for it goes onto the pile, and its value comes
    /// out. `None` just where the pile was empty. It waits for nobody: what goes onto the pile is left there.
    pub fn end_next(&mut self, domain: &Domain<V>, desk: &mut Desk<V>) -> Option<V>
        requires carries { Carries domain.now desk.old self.old }
        ensures carries { Carries domain.now desk.new self.new }
        ensures elsewhere { KeepsElsewhere
            desk.old self.old.endings.items desk.new self.new.endings.items }
        ensures none { IfNone result
            ((self.old.endings.items ≡ []) × (self.new.endings.items ≡ []) × (desk.new ≡ desk.old)) }
        ensures ended { IfSome result
            (λ v. EndsTop desk.old self.old.endings.items v desk.new self.new.endings.items) }
        ensures parting { Does IsParting desk.old desk.new }
        ensures bag { bag_of desk.new ≡ bag_of desk.old }
        ensures held { desk.new.held ≡ desk.old.held }
        ensures desk { IsSameDesk desk.old desk.new }
    {
        let mut ending = self.endings.pop()?;
        while !ending.is_clear() {
            self.clear_once(domain, desk, &mut ending);
        }
        Some(ending.finish(domain, desk))
    }

    /// An object that ends, and whose members hold nothing, does so at once (own): looks clear them, and its value
    /// comes out. Else it goes onto the pile, with the members cleared that come before the first that holds
    /// something. It waits for nobody.
    #[inline(always)]
    pub fn end_at_once(
        &mut self,
        domain: &Domain<V>,
        desk: &mut Desk<V>,
        ending: Ending<V>,
    ) -> Option<V>
        requires stacked { Stacked domain.now desk.old self.old ending }
        ensures carries { Carries domain.now desk.new self.new }
        ensures elsewhere { KeepsElsewhere desk.old (ending ∷ self.old.endings.items)
            desk.new self.new.endings.items }
        ensures ends { EndsAtOnce
            desk.old self.old.endings.items ending result desk.new self.new.endings.items }
        ensures parting { Does IsParting desk.old desk.new }
        ensures bag { bag_of desk.new ≡ bag_of desk.old }
        ensures held { desk.new.held ≡ desk.old.held }
        ensures latest { KeepsLatest desk.old desk.new }
        ensures desk { IsSameDesk desk.old desk.new }
    {
        let mut ending = ending;
        if ending.clear_empties(domain, desk) {
            return Some(ending.finish(domain, desk));
        }
        desk.assert_invariant();
        self.endings.push_reserved(ending);
        None
    }
}
