//! Free cells for weak pointers, and weak members of objects.

use crate::hands::{Hand, Hands, VACANT};
use crate::steps::Cell;
use crate::values::Value;
use pointers::{Domain, Fault, Up, Weak, WeakCell};
use std::sync::Wait;

/// The place of a cell for weak pointers.
pub(crate) fn up<'p, 't, D: Domain<Value = Value>>(
    hands: &'p Hands<'t, D>,
    cell: Cell,
) -> Result<Up<'p, 't, D>, Fault> {
    match cell {
        Cell::Up(of) => Ok(hands.owner(of)?.up()),
        Cell::Weak(number) => Ok(hands.desk.weak_cell(WeakCell(number))),
        Cell::WeakDesk(number) => Ok(hands.desk.weak_cell(WeakCell(number))),
        Cell::WeakPlace(number) => Ok(hands.desk.weak_cell(WeakCell(number))),
        _ => Err(VACANT),
    }
}

/// A copy of what a cell holds.
pub(crate) fn load<'t, R: Wait, D: Domain<Value = Value>>(
    rt: &R,
    hands: &Hands<'t, D>,
    cell: Cell,
) -> Result<Hand<'t, D>, Fault> {
    let came = match cell {
        Cell::Weak(number) => hands.desk.load_weak(rt, WeakCell(number))?,
        _ => up(hands, cell)?.load(rt)?,
    };
    Ok(Hand::weak(came))
}

/// An owner of what a cell holds.
pub(crate) fn lock<'t, R: Wait, D: Domain<Value = Value>>(
    rt: &R,
    hands: &Hands<'t, D>,
    cell: Cell,
) -> Result<Hand<'t, D>, Fault> {
    let came = match cell {
        Cell::Weak(number) => hands.desk.lock(rt, WeakCell(number))?,
        _ => up(hands, cell)?.lock(rt)?,
    };
    Ok(Hand::owner(came))
}

/// What a cell holds comes out.
pub(crate) fn take<'t, D: Domain<Value = Value>>(
    hands: &Hands<'t, D>,
    cell: Cell,
) -> Result<Hand<'t, D>, Fault> {
    Ok(Hand::weak(up(hands, cell)?.take()?))
}

/// What a cell holds lets go.
pub(crate) fn clear<'t, D: Domain<Value = Value>>(
    hands: &Hands<'t, D>,
    cell: Cell,
) -> Result<(), Fault> {
    match cell {
        Cell::Weak(number) => hands.desk.clear_weak(WeakCell(number)),
        _ => up(hands, cell)?.clear(),
    }
}

/// A weak pointer or none goes into a cell.
pub(crate) fn store<'t, D: Domain<Value = Value>>(
    hands: &Hands<'t, D>,
    new: Option<Weak<'t, D>>,
    cell: Cell,
) -> Result<(), Fault> {
    match (cell, new) {
        (Cell::Weak(number), Some(weak)) => weak.store(WeakCell(number)),
        (Cell::WeakDesk(number), new) => hands.desk.store_weak(WeakCell(number), new),
        (cell, new) => up(hands, cell)?.store(new),
    }
}

/// The same, and what it held comes out.
pub(crate) fn exchange<'t, D: Domain<Value = Value>>(
    hands: &Hands<'t, D>,
    new: Option<Weak<'t, D>>,
    cell: Cell,
) -> Result<Hand<'t, D>, Fault> {
    let came = match (cell, new) {
        (Cell::Weak(number), Some(weak)) => weak.exchange(WeakCell(number))?,
        (cell, new) => up(hands, cell)?.exchange(new)?,
    };
    Ok(Hand::weak(came))
}
