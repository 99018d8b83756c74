//! Pointers in slots.

use crate::answers::Answer;
use crate::values::{Told, Value};
use pointers::{Desk, Domain, Fault, Shared, Weak};
use std::alloc::Global;

/// What lies in a slot.
#[derive(Drop)]
pub(crate) enum Hand<'t, D: Domain<Value = Value>> {
    Vacant,
    Owner(Shared<'t, D>),
    Weak(Weak<'t, D>),
}

impl<'t, D: Domain<Value = Value>> Hand<'t, D> {
    /// What a call brought.
    pub(crate) fn owner(came: Option<Shared<'t, D>>) -> Hand<'t, D> {
        match came {
            Some(owner) => Hand::Owner(owner),
            None => Hand::Vacant,
        }
    }

    /// The same of a weak pointer.
    pub(crate) fn weak(came: Option<Weak<'t, D>>) -> Hand<'t, D> {
        match came {
            Some(weak) => Hand::Weak(weak),
            None => Hand::Vacant,
        }
    }

    /// Whether a pointer lies there.
    pub(crate) fn is_some(&self) -> bool {
        !matches!(self, Hand::Vacant)
    }

    /// An owner or none; a weak pointer lets go.
    pub(crate) fn into_owner(self) -> Option<Shared<'t, D>> {
        match self {
            Hand::Owner(owner) => Some(owner),
            Hand::Weak(_) => None,
            Hand::Vacant => None,
        }
    }

    /// A weak pointer or none; an owner lets go.
    pub(crate) fn into_weak(self) -> Option<Weak<'t, D>> {
        match self {
            Hand::Weak(weak) => Some(weak),
            Hand::Owner(_) => None,
            Hand::Vacant => None,
        }
    }
}

/// The pointers of a worker's calls, in slots.
#[derive(Drop)]
pub struct Hands<'t, D: Domain<Value = Value>> {
    pub(crate) desk: &'t Desk<'t, D>,
    pub(crate) told: &'t Told,
    slots: Vec<Hand<'t, D>>,
}

/// How many slots there are: more than a desk may have pointers.
const SLOTS: usize = 24;

/// The fault of a call on a slot where nothing of its kind lies.
pub(crate) const VACANT: Fault = Fault::Other(1_000);

impl<'t, D: Domain<Value = Value>> Hands<'t, D> {
    /// Vacant slots of a desk.
    pub fn new(
        desk: &'t Desk<'t, D>,
        told: &'t Told,
        alloc: Global,
    ) -> Result<Hands<'t, D>, Fault> {
        let mut slots = Vec::with_capacity(alloc, SLOTS)?;
        for _ in 0..SLOTS {
            slots.push(Hand::Vacant)?;
        }
        Ok(Hands { desk, told, slots })
    }

    /// What lies in a slot.
    pub(crate) fn at(&self, at: usize) -> Result<&Hand<'t, D>, Fault> {
        match self.slots.get(at) {
            Some(hand) => Ok(hand),
            None => Err(VACANT),
        }
    }

    /// The owner in a slot.
    pub(crate) fn owner(&self, at: usize) -> Result<&Shared<'t, D>, Fault> {
        match self.slots.get(at) {
            Some(Hand::Owner(owner)) => Ok(owner),
            _ => Err(VACANT),
        }
    }

    /// What lies in a slot comes out.
    pub(crate) fn take(&mut self, at: usize) -> Hand<'t, D> {
        match self.slots.get_mut(at) {
            Some(slot) => std::mem::replace(slot, Hand::Vacant),
            None => Hand::Vacant,
        }
    }

    /// What a call brought comes into a slot, and what lay there lets go.
    pub(crate) fn put(&mut self, at: usize, hand: Hand<'t, D>) -> Answer {
        let answer = Answer::came(hand.is_some());
        if let Some(slot) = self.slots.get_mut(at) {
            *slot = hand;
        }
        answer
    }
}
