//! Compares of cells.

use crate::cells::member;
use crate::hands::{Hand, Hands, VACANT};
use crate::steps::{Cell, Form};
use crate::values::Value;
use crate::weak_cells::up;
use pointers::{Domain, Fault, Member, Shared, Up, Weak};
use std::sync::Wait;

/// A compare of a cell with the pointer in a slot, where that in another is desired. What the call leaves is in the
/// slots.
pub(crate) fn compare<R: Wait, D: Domain<Value = Value>>(
    rt: &R,
    hands: &mut Hands<'_, D>,
    (form, cell): (Form, Cell),
    slots: (usize, usize),
) -> Result<bool, Fault> {
    match cell {
        Cell::Weak(_) | Cell::WeakDesk(_) | Cell::WeakPlace(_) | Cell::Up(_) => {
            weaks(rt, hands, (form, cell), slots)
        }
        _ => owners(rt, hands, (form, cell), slots),
    }
}

fn owners<R: Wait, D: Domain<Value = Value>>(
    rt: &R,
    hands: &mut Hands<'_, D>,
    (form, cell): (Form, Cell),
    (expected, desired): (usize, usize),
) -> Result<bool, Fault> {
    let mut hoped = hands.take(expected).into_owner();
    let mut new = hands.take(desired).into_owner();
    let done = match member(hands, cell) {
        Ok(Some(member)) => in_member(rt, &member, form, (&mut hoped, &mut new)),
        Ok(None) => Err(VACANT),
        Err(why) => Err(why),
    };
    hands.put(expected, Hand::owner(hoped));
    hands.put(desired, Hand::owner(new));
    done
}

/// The compare of a place for owners.
fn in_member<'t, R: Wait, D: Domain<Value = Value>>(
    rt: &R,
    place: &Member<'_, 't, D>,
    form: Form,
    (expected, desired): (&mut Option<Shared<'t, D>>, &mut Option<Shared<'t, D>>),
) -> Result<bool, Fault> {
    let times = match form {
        Form::Strong => return place.compare_exchange_strong(rt, expected, desired),
        Form::Weak => 1,
        Form::Until => 1_000,
    };
    for _ in 0..times {
        if place.compare_exchange_weak(rt, expected, desired)? {
            return Ok(true);
        }
    }
    Ok(false)
}

fn weaks<R: Wait, D: Domain<Value = Value>>(
    rt: &R,
    hands: &mut Hands<'_, D>,
    (form, cell): (Form, Cell),
    (expected, desired): (usize, usize),
) -> Result<bool, Fault> {
    let mut hoped = hands.take(expected).into_weak();
    let mut new = hands.take(desired).into_weak();
    let done = match up(hands, cell) {
        Ok(up) => in_up(rt, &up, form, (&mut hoped, &mut new)),
        Err(why) => Err(why),
    };
    hands.put(expected, Hand::weak(hoped));
    hands.put(desired, Hand::weak(new));
    done
}

/// The compare of a place for weak pointers.
fn in_up<'t, R: Wait, D: Domain<Value = Value>>(
    rt: &R,
    place: &Up<'_, 't, D>,
    form: Form,
    (expected, desired): (&mut Option<Weak<'t, D>>, &mut Option<Weak<'t, D>>),
) -> Result<bool, Fault> {
    let times = match form {
        Form::Strong => return place.compare_exchange_strong(rt, expected, desired),
        Form::Weak => 1,
        Form::Until => 1_000,
    };
    for _ in 0..times {
        if place.compare_exchange_weak(rt, expected, desired)? {
            return Ok(true);
        }
    }
    Ok(false)
}
