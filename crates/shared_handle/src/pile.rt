//! A desk's pile of objects that end, with room for all blocks of its domain.
ghost use Rattle.std.specs.Prelude.{◌≡◌, ◌↔◌, ◌+◌, ◌-◌, ◌<◌, ◌≤◌, [], ◌++◌, length};
ghost use Rattle.std.specs.Prelude.{slice_get};
ghost use Rattle.std.specs.Prelude.{vec_capacity, Some, IfErr, IfNone, IfOk, IfSome, IsTrue};
ghost use Rattle.control_block.specs.Desks.{Belongs, DeskNow, DomainNow, endings_of};
ghost use Rattle.shared_handle.specs.Endings.{EndsInHand, more_ending};
ghost use Rattle.shared_handle.specs.Piles.{Bears, Carries, gone_of, piled};

use crate::endings::{Ending, Left};
use control_block::domain::Domain;
use control_word::Refusal;
use std::alloc::Global;

mod rounds;
mod settlement;

/// What is told of an owner that left ([util.smartptr.shared.dest]).
#[derive(Clone, Copy, Drop)]
pub enum Gone {
    /// It owned nothing.
    Empty,
    /// Others own the object still.
    Others,
    /// It was the last, and the object ends.
    Last,
}

/// What a round of a pile did.
#[derive(Drop)]
pub enum Round<V> {
    /// Nothing: the pile was empty.
    Settled,
    /// A member of the top, by its number, was emptied, and this was what it held.
    Cleared(u8, Gone),
    /// The top was finished, and this is its value.
    Ended(V),
}

/// Objects that end in one desk's hands, one upon the other.
pub struct Pile<V> {
    pub(crate) endings: Vec<Ending<V>, Global>,
}

impl<V: Drop> Pile<V> {
    /// An empty pile, with room for all blocks of the domain (own). It serves any desk of the domain. It is refused
    /// `Memory` where a growth was really refused.
    pub fn new(alloc: Global, domain: &Domain<V>) -> Result<Self, Refusal>
        ensures refused { IfErr result (λ why. why ≡ Refusal.Memory) }
        ensures empty { IfOk result (λ p. p.endings.items ≡ []) }
        ensures carries { IfOk result (λ p. (d : DeskNow V) → Belongs d domain.now → Carries domain.now d p) }
        ensures bears { IfOk result
            (λ p. (d : DeskNow V) → Belongs d domain.now → endings_of d ≡ 0 → Bears domain.now d p) }
    {
        match Vec::with_capacity(alloc, domain.blocks() as usize) {
            Ok(endings) => Ok(Self { endings }),
            Err(_) => Err(Refusal::Memory),
        }
    }

    /// Whether nothing is left to end (own).
    pub fn is_empty(&self) -> bool
        ensures { IsTrue result ↔ (self.now.endings.items ≡ []) }
    {
        self.endings.is_empty()
    }

    /// The object that was last left to end (own). `None` just where nothing is left.
    pub fn top(&self) -> Option<&Ending<V>>
        ensures none { IfNone result (self.now.endings.items ≡ []) }
        ensures some { IfSome result
            (λ x. slice_get self.now.endings.items (length self.now.endings.items - 1) ≡ Some x.now) }
        ensures ends { IfSome result
            (λ x. (domain : DomainNow) (d : DeskNow V) → Carries domain d self.now → EndsInHand d x.now) }
    {
        let top = self.endings.last()?;
        Some(top)
    }

    /// What came of an owner that left goes onto the pile, where an object ends for it (own): what is told of it. It is
    /// for the crates whose calls end handles. Condition: there is room, as there is for what ends with the pile's own
    /// desk.
    #[inline(always)]
    pub fn put(&mut self, left: Left<V>) -> Gone
        requires room { length self.old.endings.items + more_ending left ≤ vec_capacity self.old.endings }
        ensures told { result ≡ gone_of left }
        ensures endings { self.new.endings.items ≡ piled self.old.endings.items left }
        ensures room { vec_capacity self.new.endings ≡ vec_capacity self.old.endings }
    {
        match left {
            Left::Empty => Gone::Empty,
            Left::Others => Gone::Others,
            Left::Last(ending) => {
                self.endings.push_reserved(ending);
                Gone::Last
            }
        }
    }

    /// What is left to end with another pile goes on top of this one, in its order (own). There is room for all that
    /// ends with one desk, so that it takes memory at most where this pile has no room for both. Where that is refused,
    /// the other pile comes back, and nothing changes.
    pub fn join(&mut self, other: Self) -> Result<(), Self>
        ensures joined { IfOk result (λ _. self.new.endings.items ≡ self.old.endings.items ++ other.endings.items) }
        ensures room { vec_capacity self.old.endings ≤ vec_capacity self.new.endings }
        ensures full { IfErr result (λ _. vec_capacity self.old.endings
            < length self.old.endings.items + length other.endings.items) }
        ensures back { IfErr result (λ p. (p.endings.items ≡ other.endings.items)
            × (vec_capacity p.endings ≡ vec_capacity other.endings)) }
        ensures same { IfErr result (λ _. self.new.endings.items ≡ self.old.endings.items) }
    {
        let Self { mut endings } = other;
        match self.endings.append(&mut endings) {
            Ok(()) => {
                endings.destroy_empty();
                Ok(())
            }
            Err(_) => Err(Self { endings }),
        }
    }

    /// The end of the pile: how many are left on it, and are given up, each as by `Ending::forget` (own).
    pub fn close(self) -> usize
        ensures left { result ≡ length self.endings.items }
    {
        let Self { mut endings } = self;
        let left = endings.len();
        while let Some(ending) = endings.pop() {
            let _block = ending.forget();
        }
        endings.destroy_empty();
        left
    }
}
