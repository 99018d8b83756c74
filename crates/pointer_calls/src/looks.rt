//! What pointers tell.

use crate::answers::Answer;
use crate::hands::{Hand, Hands, VACANT};
use crate::steps::{Look, Pair};
use crate::values::{Value, begin, ended, order};
use pointers::{Domain, Fault, Shared, Weak};
use std::sync::Wait;

/// What a pointer tells.
pub(crate) fn look<R: Wait, D: Domain<Value = Value>>(
    rt: &R,
    hands: &Hands<'_, D>,
    of: usize,
    look: Look,
) -> Result<Answer, Fault> {
    match hands.at(of)? {
        Hand::Owner(owner) => of_owner(rt, owner, look),
        Hand::Weak(weak) => of_weak(weak, look),
        Hand::Vacant => Err(VACANT),
    }
}

fn of_owner<R: Wait, D: Domain<Value = Value>>(
    rt: &R,
    owner: &Shared<'_, D>,
    look: Look,
) -> Result<Answer, Fault> {
    Ok(match look {
        Look::Read => Answer::Number(owner.read()?),
        Look::UseCount => Answer::Number(u64::from(owner.use_count()?)),
        Look::Field => field(owner),
        Look::Number(number) => Answer::Number(renumbered(rt, owner, number)?),
        _ => Answer::Number(owner.visit(rt, |value| value.number)?),
    })
}

/// The field of the place that an owner points at.
fn field<D: Domain<Value = Value>>(owner: &Shared<'_, D>) -> Answer {
    match owner.place() {
        Some(place) => Answer::Number(u64::from(place.field)),
        None => Answer::Nothing,
    }
}

/// The value gets another number in a visit, and what it has then is told.
fn renumbered<R: Wait, D: Domain<Value = Value>>(
    rt: &R,
    owner: &Shared<'_, D>,
    number: u64,
) -> Result<u64, Fault> {
    owner.visit(rt, |value| {
        value.number = number;
        value.number
    })
}

fn of_weak<D: Domain<Value = Value>>(weak: &Weak<'_, D>, look: Look) -> Result<Answer, Fault> {
    Ok(match look {
        Look::Expired => Answer::Is(weak.expired()?),
        _ => Answer::Number(u64::from(weak.use_count()?)),
    })
}

/// What two pointers tell.
pub(crate) fn both<D: Domain<Value = Value>>(
    hands: &Hands<'_, D>,
    a: usize,
    pair: Pair,
    b: usize,
) -> Result<bool, Fault> {
    match (hands.at(a)?, hands.at(b)?) {
        (Hand::Owner(a), Hand::Owner(b)) => Ok(owners(a, pair, b)),
        (Hand::Weak(a), Hand::Weak(b)) => Ok(weaks(a, pair, b)),
        (Hand::Owner(a), Hand::Weak(b)) => Ok(a.owner_before_weak(b)),
        (Hand::Weak(a), Hand::Owner(b)) => Ok(a.owner_before_shared(b)),
        _ => Err(VACANT),
    }
}

fn owners<D: Domain<Value = Value>>(a: &Shared<'_, D>, pair: Pair, b: &Shared<'_, D>) -> bool {
    match pair {
        Pair::Is => a.is(b),
        Pair::SamePlace => a.same_place(b),
        Pair::Before => a.owner_before(b),
    }
}

fn weaks<D: Domain<Value = Value>>(a: &Weak<'_, D>, pair: Pair, b: &Weak<'_, D>) -> bool {
    match pair {
        Pair::Is => a.is(b),
        _ => a.owner_before(b),
    }
}

/// What values tell of their ends, since it was asked last: the numbers of the ended ones as decimal digits.
pub(crate) fn ends<D: Domain<Value = Value>>(hands: &Hands<'_, D>) -> Answer {
    let told = order(hands.told);
    begin(hands.told);
    Answer::Number(told)
}

/// The same: how many ended.
pub(crate) fn ends_count<D: Domain<Value = Value>>(hands: &Hands<'_, D>) -> Answer {
    let told = ended(hands.told);
    begin(hands.told);
    Answer::Number(u64::from(told))
}
