//! Looks at any word of a domain, which say what the words stand for (own). They change nothing and make no event.
ghost use Rattle.std.specs.Prelude.{◌≡◌, ◌≢◌, ◌<◌, [], ◌∷◌};
ghost use Rattle.control_word.specs.Layout.{table_size};
ghost use Rattle.control_block.specs.Desks.{Belongs};
ghost use Rattle.control_block.specs.Observations.{ShowsOneHistory};

use crate::desk::Desk;
use crate::domain::Domain;
use crate::steps::observation;

impl<V: Drop> Desk<V> {
    /// What a word of the domain is (own), by `control_word`'s layout: at this step there is one legal history, all
    /// words show its state, and the desk has seen a beginning of it. Conditions: the desk is the domain's, which has
    /// that many words.
    pub fn observe(&mut self, domain: &Domain<V>, word: usize) -> u64
        requires domain { Belongs self.old domain.now }
        requires word { word < table_size domain.now.shape }
        ensures same { self.new ≡ self.old }
        ensures history { ShowsOneHistory domain.now.shape (self.old ∷ []) word result }
    {
        observation::observe(&domain.table.shared, &mut self.seat, word)
    }

    /// The same by two desks (own): it is one history of which both have seen a beginning. The other desk comes back as
    /// it was. It takes three loads. Conditions: both desks are the domain's, which has that many words.
    pub fn observe_with(
        &mut self,
        domain: &Domain<V>,
        other: Desk<V>,
        word: usize,
    ) -> (u64, Desk<V>)
        requires domain { Belongs self.old domain.now × Belongs other domain.now }
        requires word { word < table_size domain.now.shape }
        ensures same { (self.new ≡ self.old) × (result.1 ≡ other) }
        ensures history { ShowsOneHistory domain.now.shape (self.old ∷ other ∷ []) word result.0 }
        ensures apart { self.old.name ≢ other.name }
    {
        let Desk {
            seat,
            allowance,
            held,
            endings,
            store,
            shelf_word,
        } = other;
        let table = &domain.table.shared;
        let (found, seat) = observation::observe_both(table, &mut self.seat, seat, word);
        let other = Desk {
            seat,
            allowance,
            held,
            endings,
            store,
            shelf_word,
        };
        (found, other)
    }
}
