//! A pool of free cells that threads take and give back.
ghost use Rattle.std.specs.Prelude.{◌≡◌, IfNone, IfOk, IfSome, Some, false, slice_get, slice_set, true};
ghost use Rattle.std.specs.List.{All, Contains};
ghost use Rattle.pointers.specs.Pools.{cells_from};

use crate::cells::{SharedCell, WeakCell};
use std::alloc::{AllocError, Global};
use std::sync::{Mutex, Wait};

/// A pool of free cells, from which a program's threads take cells and give them back.
#[derive(Drop)]
pub struct FreeCells<C> {
    cells: Vec<C, Global>,
    free: Mutex<Free>,
}

/// Which cells of a pool are free, by their places in it.
#[derive(Drop)]
struct Free {
    places: Vec<bool, Global>,
}

impl Free {
    /// The first place that is free is so no more.
    fn take(&mut self) -> Option<usize>
        ensures none { IfNone result (All (λ free. free ≡ false) self.old.places.items) }
        ensures free { IfSome result (λ p. slice_get self.old.places.items p ≡ Some true) }
        ensures taken { IfSome result (λ p. self.new.places.items ≡ slice_set self.old.places.items p false) }
    {
        let place = self.places.iter().position(|free| *free)?;
        if let Some(free) = self.places.get_mut(place) {
            *free = false;
        }
        Some(place)
    }

    /// The place is free again, if there is such a one.
    fn give_back(&mut self, place: usize)
        ensures { self.new.places.items ≡ slice_set self.old.places.items place true }
    {
        if let Some(free) = self.places.get_mut(place) {
            *free = true;
        }
    }
}

impl FreeCells<SharedCell> {
    /// So many cells for owners, from that number on.
    pub fn shared(
        alloc: Global,
        first: u32,
        count: u32,
    ) -> Result<FreeCells<SharedCell>, AllocError>
        ensures { IfOk result (λ r. r.cells.items ≡ cells_from (λ n. record { 0 = n }) first count) }
    {
        let mut cells = Vec::with_capacity(alloc, count as usize)?;
        for number in 0..count {
            cells.push(SharedCell(first.saturating_add(number)))?;
        }
        FreeCells::of(alloc, cells)
    }
}

impl FreeCells<WeakCell> {
    /// So many cells for weak pointers, from that number on.
    pub fn weak(alloc: Global, first: u32, count: u32) -> Result<FreeCells<WeakCell>, AllocError>
        ensures { IfOk result (λ r. r.cells.items ≡ cells_from (λ n. record { 0 = n }) first count) }
    {
        let mut cells = Vec::with_capacity(alloc, count as usize)?;
        for number in 0..count {
            cells.push(WeakCell(first.saturating_add(number)))?;
        }
        FreeCells::of(alloc, cells)
    }
}

impl<C: Copy + PartialEq + Drop> FreeCells<C> {
    /// A pool of these cells.
    fn of(alloc: Global, cells: Vec<C, Global>) -> Result<FreeCells<C>, AllocError>
        ensures { IfOk result (λ r. r.cells.items ≡ cells.items) }
    {
        let mut places = Vec::with_capacity(alloc, cells.len())?;
        for _ in 0..cells.len() {
            places.push(true)?;
        }
        Ok(FreeCells {
            cells,
            free: Mutex::new(Free { places }),
        })
    }

    /// A cell that nobody has (waits), the first one of those. None where none is left.
    pub fn take<R: Wait>(&self, rt: &R) -> Option<C>
        ensures { IfSome result (Contains self.now.cells.items) }
    {
        let place = self.free.lock(rt).take()?;
        self.cells.get(place).copied()
    }

    /// The cell is free again (waits). What it holds stays in it. One that is free already, or none of the pool's, is
    /// left out.
    pub fn give_back<R: Wait>(&self, rt: &R, cell: C) {
        if let Some(place) = self.cells.iter().position(|it| *it == cell) {
            self.free.lock(rt).give_back(place);
        }
    }
}
