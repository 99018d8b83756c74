//! All that ends with a desk does so.
ghost use Rattle.std.specs.Prelude.{◌≡◌, [], List};
ghost use Rattle.control_block.specs.Desks.{DeskNow, IsSameDesk, bag_of};
ghost use Rattle.control_block.specs.Own.{Does};
ghost use Rattle.shared_handle.specs.Piles.{AreRounds, Carries, FoldsBack, IsParting, KeepsElsewhere, Past};
ghost use Rattle.shared_handle.specs.Piles.{values_of};

use crate::pile::Pile;
use control_block::desk::Desk;
use control_block::domain::Domain;
use std::sync::Wait;

impl<V: Drop> Pile<V> {
    /// Rounds until nothing is left to end (own); the values are dropped as they come out, which is the deleters'
    /// calls. What ends in the desk's hands elsewhere stays as it is. It waits, since other desks may lengthen a chain
    /// that ends meanwhile.
    pub fn settle<R: Wait>(&mut self, rt: &R, domain: &Domain<V>, desk: &mut Desk<V>)
        requires carries { Carries domain.now desk.old self.old }
        ensures carries { Carries domain.now desk.new self.new }
        ensures elsewhere { KeepsElsewhere
            desk.old self.old.endings.items desk.new self.new.endings.items }
        ensures none { self.new.endings.items ≡ [] }
        ensures rounds { (rs : List (Past V))
            × AreRounds desk.old self.old.endings.items rs desk.new self.new.endings.items }
        ensures parting { Does IsParting desk.old desk.new }
        ensures bag { bag_of desk.new ≡ bag_of desk.old }
        ensures held { desk.new.held ≡ desk.old.held }
        ensures desk { IsSameDesk desk.old desk.new }
    {
        self.settle_with(rt, domain, desk, |value| drop(value));
    }

    /// The same, and `take` gets each value as it comes out (own).
    #[inline(always)]
    pub fn settle_with<R: Wait, F: FnMut(V)>(
        &mut self,
        rt: &R,
        domain: &Domain<V>,
        desk: &mut Desk<V>,
        mut take: F,
    )
        requires carries { Carries domain.now desk.old self.old }
        requires callable { F.IsAlwaysCallable take }
        ensures carries { Carries domain.now desk.new self.new }
        ensures elsewhere { KeepsElsewhere
            desk.old self.old.endings.items desk.new self.new.endings.items }
        ensures none { self.new.endings.items ≡ [] }
        ensures rounds { (rs : List (Past V)) × AreRounds desk.old self.old.endings.items rs desk.new
            self.new.endings.items × ((last : F) × FoldsBack (λ p x q. F.step p x tt q) take (values_of rs) last) }
        ensures parting { Does IsParting desk.old desk.new }
        ensures bag { bag_of desk.new ≡ bag_of desk.old }
        ensures held { desk.new.held ≡ desk.old.held }
        ensures desk { IsSameDesk desk.old desk.new }
    {
        for _ in rt.forever() {
            let mut rounds = u32::MAX;
            match self.next_value(domain, desk, &mut rounds) {
                Some(value) => take(value),
                None => {
                    if rounds > 0 {
                        return;
                    }
                }
            }
        }
        unreachable!()
    }
}
