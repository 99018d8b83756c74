//! Two desks become one.
ghost use Rattle.std.specs.Prelude.{◌≡◌, ◌+◌, List, ◌++◌, length};
ghost use Rattle.std.specs.List.Sorted.{IsPermutation};
ghost use Rattle.control_word.specs.declared.model.handle.NumberedHandle.{NumberedHandle};
ghost use Rattle.control_block.specs.Desks.{Belongs, KeepsEndings, allowance_of, bag_of, endings_of, stock_of};
ghost use Rattle.control_block.specs.Parting.{AreIn, JoinsWith};

use crate::desk::Desk;
use crate::domain::Domain;
use crate::parting::split::append_all;
use crate::steps::seats;

impl<V: Drop> Desk<V> {
    /// The other desk's blocks, allowance, handles and endings become this one's, which has then seen all that either
    /// had (own). It takes no memory. Condition: both desks are the domain's.
    pub fn join(&mut self, domain: &Domain<V>, other: Desk<V>)
        requires domain { Belongs self.old domain.now × Belongs other domain.now }
        ensures event { JoinsWith self.old other self.new }
        ensures allowance { allowance_of self.new ≡ allowance_of self.old + allowance_of other }
        ensures held { self.new.held ≡ self.old.held + other.held }
        ensures stock { length (stock_of self.new) ≡ length (stock_of self.old) + length (stock_of other) }
        ensures bag { IsPermutation (bag_of self.old ++ bag_of other) (bag_of self.new) }
        ensures handles { (hs ks : List NumberedHandle) → AreIn hs (bag_of self.old) → AreIn ks (bag_of other)
            → AreIn (hs ++ ks) (bag_of self.new) }
        ensures endings { KeepsEndings self.old self.new × KeepsEndings other self.new }
        ensures count { endings_of self.new ≡ endings_of self.old + endings_of other }
    {
        let Desk {
            seat,
            allowance,
            held,
            endings,
            store,
            shelf_word: _,
        } = other;
        seats::join(&domain.table.shared, &mut self.seat, seat);
        append_all(&mut self.store, store.as_slice());
        self.allowance += allowance;
        self.held += held;
        self.endings += endings;
    }
}
