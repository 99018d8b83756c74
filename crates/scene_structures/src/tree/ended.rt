//! The values of objects that end, in the order in which these do.
ghost use Rattle.std.specs.Prelude.{◌≡◌, ◌≢◌, ◌⊎◌, ℕ, ◌<◌, ◌≤◌, ◌+◌};
ghost use Rattle.std.specs.Prelude.{◌*◌, List, [], ◌∷◌, ◌++◌, None, length, IfOk, IsTrue};
ghost use Rattle.std.specs.Prelude.{IsFalse};
ghost use Rattle.shared_handle.specs.declared.endings.Ending.{Ending};
ghost use Rattle.scene_structures.specs.Teardowns.{AreOut, HasRoomForEnds, RoundStepsBy, empty_slots, filled_values};

use shared_handle::{Gone, Round};
use std::alloc::{AllocError, Global};

/// A slot for the value of each object that ended, in the order in which they did, which slots are empty still, and
/// room for the values.
pub(crate) struct Ended<V> {
    slots: Vec<Option<V>>,
    vacant: Vec<usize>,
    values: Vec<V>,
}

impl<V: Drop> Ended<V> {
    /// None, and room for so many.
    pub(crate) fn new(alloc: Global, room: usize) -> Result<Self, AllocError>
        ensures room { IfOk result (λ e. HasRoomForEnds room e) }
        ensures none { IfOk result (λ e. (e.slots.items ≡ []) × (e.vacant.items ≡ [])) }
    {
        let slots = Vec::with_capacity(alloc, room)?;
        let vacant = Vec::with_capacity(alloc, room)?;
        let values = Vec::with_capacity(alloc, room)?;
        Ok(Self {
            slots,
            vacant,
            values,
        })
    }

    /// Whether no more rounds are to be made: no slot is empty, or it was as many as there may be, or more objects have
    /// ended than there are blocks.
    pub(crate) fn is_over(&self, rounds: usize, most: usize, blocks: u32) -> bool
        ensures over { IsTrue result → (self.now.vacant.items ≡ [])
            ⊎ ((most ≤ rounds) ⊎ (blocks < length self.now.slots.items)) }
        ensures not { IsFalse result → (self.now.vacant.items ≢ []) × (rounds < most)
            × (length self.now.slots.items ≤ blocks) }
    {
        self.vacant.is_empty() || most <= rounds || (blocks as usize) < self.slots.len()
    }

    /// One more ends.
    #[tactic(auto, using(crate::proofs::Slots::few_empty))]
    pub(crate) fn begin(&mut self)
        requires vacant { self.old.vacant.items ≡ empty_slots 0 self.old.slots.items }
        requires room { (n : ℕ) × HasRoomForEnds n self.old × (length self.old.slots.items < n) }
        ensures vacant { self.new.vacant.items ≡ empty_slots 0 self.new.slots.items }
        ensures slots { self.new.slots.items ≡ self.old.slots.items ++ None ∷ [] }
        ensures room { (n : ℕ) → HasRoomForEnds n self.old → HasRoomForEnds n self.new }
    {
        self.vacant.push_reserved(self.slots.len());
        self.slots.push_reserved(None);
    }

    /// The value of the one that began last of those whose slots are empty.
    #[tactic(auto, using(crate::proofs::Slots::some_length, crate::proofs::Slots::slot_there))]
    pub(crate) fn finish(&mut self, value: V)
        requires vacant { self.old.vacant.items ≡ empty_slots 0 self.old.slots.items }
        requires some { self.old.vacant.items ≢ [] }
        ensures vacant { self.new.vacant.items ≡ empty_slots 0 self.new.slots.items }
        ensures out { (zs : List (Ending V)) (x : Ending V) (vs : List V) → value ≡ x.value
            → AreOut self.old.slots.items (zs ++ x ∷ []) vs → AreOut self.new.slots.items zs vs }
        ensures room { (n : ℕ) → HasRoomForEnds n self.old → HasRoomForEnds n self.new }
        ensures many { length self.new.slots.items ≡ length self.old.slots.items }
    {
        let slot = self.vacant.take_last();
        self.slots[slot] = Some(value);
    }

    /// What a round did. Condition: some slot is empty, and there is room for one more.
    pub(crate) fn take(&mut self, round: Round<V>)
        requires vacant { self.old.vacant.items ≡ empty_slots 0 self.old.slots.items }
        requires some { self.old.vacant.items ≢ [] }
        requires room { (n : ℕ) × HasRoomForEnds n self.old × (length self.old.slots.items < n) }
        ensures vacant { self.new.vacant.items ≡ empty_slots 0 self.new.slots.items }
        ensures steps { RoundStepsBy round self.old.slots.items self.new.slots.items }
        ensures room { (n : ℕ) → HasRoomForEnds n self.old → HasRoomForEnds n self.new }
        ensures few { length self.new.slots.items ≤ length self.old.slots.items + 1 }
    {
        match round {
            Round::Settled => {}
            Round::Cleared(_, gone) => match gone {
                Gone::Last => self.begin(),
                Gone::Empty => {}
                Gone::Others => {}
            },
            Round::Ended(value) => self.finish(value),
        }
    }

    /// The values, in the order of their slots.
    pub(crate) fn into_values(self) -> Vec<V>
        requires room { (n : ℕ) × HasRoomForEnds n self × (length self.slots.items ≤ n) }
        ensures { result.items ≡ filled_values self.slots.items }
    {
        let Self {
            mut slots,
            vacant: _,
            mut values,
        } = self;
        while let Some(slot) = slots.pop() {
            match slot {
                Some(value) => values.push_reserved(value),
                None => {}
            }
        }
        values.reverse();
        values
    }
}
