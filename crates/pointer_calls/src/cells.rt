//! Free cells for owners, and members of objects.

use crate::answers::Answer;
use crate::hands::{Hand, Hands};
use crate::steps::{ByLink, Cell};
use crate::values::Value;
use crate::weak_cells;
use pointers::{Domain, Fault, Link, Member, Shared, SharedCell};
use std::sync::Wait;

/// The place of a cell for owners. None where it is one for weak pointers.
pub(crate) fn member<'p, 't, D: Domain<Value = Value>>(
    hands: &'p Hands<'t, D>,
    cell: Cell,
) -> Result<Option<Member<'p, 't, D>>, Fault> {
    Ok(match cell {
        Cell::First(of) => Some(hands.owner(of)?.first()),
        Cell::Next(of) => Some(hands.owner(of)?.next()),
        Cell::Free(number) => Some(hands.desk.cell(SharedCell(number))),
        Cell::Desk(number) => Some(hands.desk.cell(SharedCell(number))),
        Cell::Place(number) => Some(hands.desk.cell(SharedCell(number))),
        _ => None,
    })
}

/// A copy of what a cell holds.
pub(crate) fn load<'t, R: Wait, D: Domain<Value = Value>>(
    rt: &R,
    hands: &Hands<'t, D>,
    cell: Cell,
) -> Result<Hand<'t, D>, Fault> {
    if let Cell::Free(number) = cell {
        return Ok(Hand::owner(hands.desk.load(rt, SharedCell(number))?));
    }
    match member(hands, cell)? {
        Some(member) => Ok(Hand::owner(member.load(rt)?)),
        None => weak_cells::load(rt, hands, cell),
    }
}

/// What a cell holds comes out.
pub(crate) fn take<'t, D: Domain<Value = Value>>(
    hands: &Hands<'t, D>,
    cell: Cell,
) -> Result<Hand<'t, D>, Fault> {
    if let Cell::Free(number) = cell {
        return Ok(Hand::owner(hands.desk.take(SharedCell(number))?));
    }
    match member(hands, cell)? {
        Some(member) => Ok(Hand::owner(member.take()?)),
        None => weak_cells::take(hands, cell),
    }
}

/// What a cell holds lets go.
pub(crate) fn clear<'t, D: Domain<Value = Value>>(
    hands: &Hands<'t, D>,
    cell: Cell,
) -> Result<(), Fault> {
    if let Cell::Free(number) = cell {
        return hands.desk.clear(SharedCell(number));
    }
    match member(hands, cell)? {
        Some(member) => member.clear(),
        None => weak_cells::clear(hands, cell),
    }
}

/// A pointer or none goes into a cell.
pub(crate) fn store<'t, D: Domain<Value = Value>>(
    hands: &Hands<'t, D>,
    new: Hand<'t, D>,
    cell: Cell,
) -> Result<(), Fault> {
    match (cell, new) {
        (Cell::Free(number), Hand::Owner(owner)) => owner.store(SharedCell(number)),
        (Cell::Desk(number), new) => hands.desk.store(SharedCell(number), new.into_owner()),
        (cell, new) => store_in(hands, new, cell),
    }
}

fn store_in<'t, D: Domain<Value = Value>>(
    hands: &Hands<'t, D>,
    new: Hand<'t, D>,
    cell: Cell,
) -> Result<(), Fault> {
    match member(hands, cell)? {
        Some(member) => member.store(new.into_owner()),
        None => weak_cells::store(hands, new.into_weak(), cell),
    }
}

/// The same, and what it held comes out.
pub(crate) fn exchange<'t, D: Domain<Value = Value>>(
    hands: &Hands<'t, D>,
    new: Hand<'t, D>,
    cell: Cell,
) -> Result<Hand<'t, D>, Fault> {
    match (cell, new) {
        (Cell::Free(number), Hand::Owner(owner)) => {
            Ok(Hand::owner(owner.exchange(SharedCell(number))?))
        }
        (cell, new) => exchange_in(hands, new, cell),
    }
}

fn exchange_in<'t, D: Domain<Value = Value>>(
    hands: &Hands<'t, D>,
    new: Hand<'t, D>,
    cell: Cell,
) -> Result<Hand<'t, D>, Fault> {
    match member(hands, cell)? {
        Some(member) => Ok(Hand::owner(member.exchange(new.into_owner())?)),
        None => weak_cells::exchange(hands, new.into_weak(), cell),
    }
}

/// A call by the member `first` or `next` of an owner's object as a link, which is made of it and gives it back.
pub(crate) fn by_link<R: Wait, D: Domain<Value = Value>>(
    rt: &R,
    hands: &mut Hands<'_, D>,
    (of, is_next): (usize, bool),
    call: ByLink,
) -> Result<Answer, Fault> {
    let Hand::Owner(owner) = hands.take(of) else {
        return Ok(Answer::Nothing);
    };
    let link = if is_next {
        owner.into_next()
    } else {
        owner.into_first()
    };
    let answer = linked(rt, hands, &link, call);
    hands.put(of, Hand::Owner(link.into_owner()));
    answer
}

fn linked<'t, R: Wait, D: Domain<Value = Value>>(
    rt: &R,
    hands: &mut Hands<'t, D>,
    link: &Link<'t, D>,
    call: ByLink,
) -> Result<Answer, Fault> {
    let (to, came): (usize, Option<Shared<'t, D>>) = match call {
        ByLink::Load(to) => (to, link.load(rt)?),
        ByLink::Take(to) => (to, link.take()?),
        ByLink::Exchange(at) => (at, link.exchange(hands.take(at).into_owner())?),
        ByLink::Store(from) => {
            link.store(hands.take(from).into_owner())?;
            return Ok(Answer::Done);
        }
        ByLink::Clear => {
            link.member().clear()?;
            return Ok(Answer::Done);
        }
    };
    Ok(hands.put(to, Hand::owner(came)))
}
