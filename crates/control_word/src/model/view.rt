//! What a desk knows of the words. Values of these types live in proofs alone.

use crate::model::event::Entry;
use crate::model::handle::Kind;
use crate::place::{Block, Place};
use std::collections::LinkedList;

/// A half-done call.
pub enum Pending<V> {
    Idle,
    /// A make: the weak word of the vacant block is 1, and its flags and fields are known.
    Making {
        block: Block,
        known: LinkedList<u64>,
    },
    /// A cell call: funds are out on the word that counts the handle, and `loads` of the desk, one at
    /// most, are under way.
    Paying {
        kind: Kind,
        object: u64,
        place: Option<Place>,
        word: u64,
        funds: u64,
        loads: u64,
    },
    /// A visit: the door in the object's flag word is shut, and the value is in hand.
    Visiting {
        object: u64,
        place: Option<Place>,
        word: u64,
        value: V,
    },
    /// A split: the new desk has its name, and no view of its own yet.
    Parting {
        to: u64,
    },
    /// A join: the other desk's view is spent. What each of the two had seen before.
    Merging {
        other: u64,
        mine: LinkedList<Entry<V>>,
        others: LinkedList<Entry<V>>,
    },
}

/// What a desk knows: its name, its half-done call, and the events that it has seen, newest first.
pub struct View<V> {
    pub name: u64,
    pub spent: bool,
    pub pending: Pending<V>,
    pub seen: LinkedList<Entry<V>>,
}
