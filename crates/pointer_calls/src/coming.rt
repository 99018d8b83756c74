//! Pointers that come new, or of other pointers.

use crate::answers::Answer;
use crate::hands::{Hand, Hands, VACANT};
use crate::steps::{New, Way};
use crate::values::{Value, numbered, object};
use pointers::{Desk, Domain, Fault, Place, Shared, Weak};
use std::sync::Wait;

/// The number of the fault of a make that hands back another value.
const OTHER_VALUE: u32 = 1_001;

/// The owner of a new object; where it is refused, its value came back.
pub(crate) fn make<'t, D: Domain<Value = Value>>(
    hands: &Hands<'t, D>,
    new: New,
    number: u64,
) -> Result<Hand<'t, D>, Fault> {
    let value = numbered(hands.told, number)?;
    let fields = [number, 20, 30, 40];
    let desk: &'t Desk<'t, D> = hands.desk;
    let made = match new {
        New::Object => desk.make(fields, value),
        New::Zeros => desk.new(value),
        New::Enabled => desk.make_enabled(fields, value),
        New::Null => desk.make_null(value),
    };
    match made {
        Ok(owner) => Ok(Hand::Owner(owner)),
        Err(refused) if refused.back.number == number => Err(refused.why),
        Err(_) => Err(Fault::Other(OTHER_VALUE)),
    }
}

/// A chain of so many objects by their members `next`.
pub(crate) fn chain<'t, D: Domain<Value = Value>>(
    hands: &Hands<'t, D>,
    length: u64,
) -> Result<Hand<'t, D>, Fault> {
    let mut head = object(hands.desk, hands.told, 0)?;
    for _ in 1..length {
        let node = object(hands.desk, hands.told, 0)?;
        node.next().store(Some(head))?;
        head = node;
    }
    Ok(Hand::Owner(head))
}

/// A pointer that comes of the one in a slot.
pub(crate) fn come<'t, R: Wait, D: Domain<Value = Value>>(
    rt: &R,
    hands: &Hands<'t, D>,
    of: usize,
    way: Way,
) -> Result<Hand<'t, D>, Fault> {
    match (hands.at(of)?, way) {
        (Hand::Owner(owner), Way::Downgrade) => Ok(Hand::Weak(owner.downgrade()?)),
        (Hand::Owner(owner), Way::WeakOfThis) => Ok(Hand::Weak(owner.weak_from_this()?)),
        (Hand::Owner(owner), Way::Parent) => Ok(Hand::owner(owner.parent(rt)?)),
        (Hand::Owner(owner), _) => Ok(Hand::Owner(of_owner(hands, owner, way)?)),
        (Hand::Weak(weak), Way::Lock) => Ok(Hand::owner(weak.lock(rt)?)),
        (Hand::Weak(weak), _) => of_weak(rt, hands, weak, way),
        (Hand::Vacant, _) => Err(VACANT),
    }
}

/// An owner that comes of another one.
fn of_owner<'t, D: Domain<Value = Value>>(
    hands: &Hands<'t, D>,
    owner: &Shared<'t, D>,
    way: Way,
) -> Result<Shared<'t, D>, Fault> {
    match way {
        Way::Share => owner.share(),
        Way::Field(field) => { owner.alias(owner.place().map(|place| Place { field, ..place })) }
        Way::Nowhere => owner.alias(None),
        Way::Into(other) => owner.alias(hands.owner(other)?.place()),
        Way::This => owner.shared_from_this(),
        Way::AtItsDesk(number) => object(owner.desk(), hands.told, number),
        _ => Err(VACANT),
    }
}

/// A pointer that comes of a weak one.
fn of_weak<'t, R: Wait, D: Domain<Value = Value>>(
    rt: &R,
    hands: &Hands<'t, D>,
    weak: &Weak<'t, D>,
    way: Way,
) -> Result<Hand<'t, D>, Fault> {
    match way {
        Way::Share => Ok(Hand::Weak(weak.share()?)),
        Way::Upgrade => Ok(Hand::Owner(weak.upgrade(rt)?)),
        Way::AtItsDesk(number) => { Ok(Hand::Owner(object(weak.desk(), hands.told, number)?)) }
        _ => Err(VACANT),
    }
}

/// So many copies of the owner in a slot come into slots, from one on.
pub(crate) fn shares<D: Domain<Value = Value>>(
    hands: &mut Hands<'_, D>,
    of: usize,
    from: usize,
    count: usize,
) -> Result<Answer, Fault> {
    for number in 0..count {
        let copy = hands.owner(of)?.share()?;
        hands.put(from.saturating_add(number), Hand::Owner(copy));
    }
    Ok(Answer::Done)
}
