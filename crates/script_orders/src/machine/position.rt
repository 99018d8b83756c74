//! Where a thread stands.

use crate::machine::pointer::{Pointer, empty};
use crate::machine::store::Store;
use step_threads::programs::act::Task;

/// An object that ends: its members before `stage` are emptied, and behind the last it is gone. Its last owner left by
/// this statement.
#[derive(Clone, Copy, PartialEq, Eq, Hash)]
pub(crate) struct End {
    pub block: u32,
    pub stage: u8,
    pub statement: u32,
}

/// A thread before one of its acts: which is next, what its names hold, what is in hand, what is to be dropped at the
/// end of its statement, its vacant blocks, and the objects that end in its hands, the one begun first in front. Where
/// `has_taken`, an act has taken a value into the hand, an empty one perhaps.
#[derive(Clone, PartialEq, Eq, Hash, Drop)]
pub(crate) struct Standing {
    pub at: usize,
    pub has_taken: bool,
    pub hand: Pointer,
    pub aside: Pointer,
    pub names: Vec<Pointer>,
    pub ends: Vec<End>,
    pub store: Store,
}

impl Standing {
    /// What a name holds.
    pub fn name(&self, name: u8) -> Pointer {
        match self.names.as_slice().get(usize::from(name)) {
            Some(pointer) => *pointer,
            None => empty(),
        }
    }

    pub fn set_name(&mut self, name: u8, pointer: Pointer) {
        let at = usize::from(name);
        if at < self.names.len() {
            self.names[at] = pointer;
        }
    }

    /// Takes a value into the hand.
    pub fn take(&mut self, pointer: Pointer) {
        self.hand = pointer;
        self.has_taken = true;
    }

    /// What is in hand, which then is empty.
    pub fn let_go(&mut self) -> Pointer {
        let pointer = self.hand;
        self.hand = empty();
        self.has_taken = false;
        pointer
    }

    /// Whether the thread, which has these tasks, has an act left.
    pub fn has_act(&self, tasks: &[Task]) -> bool {
        !self.ends.is_empty() || self.at < tasks.len()
    }
}
