//! Places that are asked whether they hold a pointer.

use pointer_calls::row;
use pointers::{
    Cached, CachedWeak, Call, Desk, Domain, Fault, Place, Program, Refusal, Shared, SharedCell,
    Spot, WeakCell,
};
use std::sync::Wait;
use std::thread::Threads;

const CELL: SharedCell = SharedCell(0);

const WATCHED: WeakCell = WeakCell(0);

/// The second field of the block at whose first one the pointer points.
fn second_field(place: Option<Place>) -> Option<Place> {
    match place {
        Some(place) => Some(Place {
            block: place.block,
            field: 1,
        }),
        None => None,
    }
}

/// A free cell, by place and object; a load takes a fund meanwhile.
struct Owners;

impl<R: Threads + Wait + Sync> Program<u64, R> for Owners {
    fn work<D: Domain<Value = u64>>(
        &self,
        rt: &R,
        _number: usize,
        desk: &Desk<D>,
    ) -> Result<(), Fault> {
        let a = desk.make([1, 2, 0, 0], 1)?;
        row(1, !desk.holds(CELL, Some(&a))?)?;
        a.share()?.store(CELL)?;
        row(2, desk.holds(CELL, Some(&a))?)?;
        if let Some(copy) = desk.load(rt, CELL)? {
            row(3, desk.holds(CELL, Some(&copy))?)?;
        }
        row(4, desk.holds(CELL, Some(&a))?)?;
        let elsewhere = a.alias(second_field(a.place()))?;
        row(5, !desk.holds(CELL, Some(&elsewhere))?)?;
        let other = desk.make([1, 2, 0, 0], 2)?;
        row(6, !desk.holds(CELL, Some(&other))?)?;
        elsewhere.store(CELL)?;
        row(7, !desk.holds(CELL, Some(&a))?)?;
        desk.clear(CELL)?;
        row(8, !desk.holds(CELL, Some(&a))?)
    }
}

/// The members of an object.
fn members<D: Domain<Value = u64>>(desk: &Desk<D>, whole: &Shared<D>) -> Result<(), Fault> {
    let part = desk.make([2; 4], 2)?;
    row(1, !whole.first().holds(Some(&part))?)?;
    whole.first().store(Some(part.share()?))?;
    row(2, whole.first().holds(Some(&part))?)?;
    row(3, !whole.next().holds(Some(&part))?)?;
    row(4, !whole.first().holds(Some(whole))?)?;
    let weak = part.downgrade()?;
    row(5, !whole.up().holds(Some(&weak))?)?;
    whole.up().store(Some(weak.share()?))?;
    row(6, whole.up().holds(Some(&weak))?)
}

/// Those, a free weak cell, and why there is no answer.
struct Places;

impl<R: Threads + Wait + Sync> Program<u64, R> for Places {
    fn work<D: Domain<Value = u64>>(
        &self,
        rt: &R,
        _number: usize,
        desk: &Desk<D>,
    ) -> Result<(), Fault> {
        let whole = desk.make([1; 4], 1)?;
        members(desk, &whole)?;
        let weak = whole.downgrade()?;
        row(7, !desk.holds_weak(WATCHED, Some(&weak))?)?;
        weak.share()?.store(WATCHED)?;
        row(8, desk.holds_weak(WATCHED, Some(&weak))?)?;
        desk.clear_weak(WATCHED)?;
        let none = Fault::Cell(Call::Holds(Spot::Shared(2)));
        row(9, desk.holds(SharedCell(2), Some(&whole)) == Err(none))?;
        let none = Fault::Cell(Call::Holds(Spot::Weak(2)));
        row(10, desk.holds_weak(WeakCell(2), Some(&weak)) == Err(none))?;
        let nowhere = whole.alias(None)?;
        let null = Fault::Refused(Call::Holds(Spot::Owner(0)), Refusal::Null);
        row(11, nowhere.first().holds(Some(&whole)) == Err(null))?;
        let busy = Fault::Busy(Call::Holds(Spot::Shared(0)));
        let within = whole.visit(rt, |_| desk.holds(CELL, Some(&whole)))?;
        row(12, within == Err(busy))
    }
}

/// What a cached read finds, by its field, or nothing.
fn field<D: Domain<Value = u64>, R: Wait>(
    rt: &R,
    cached: &mut Cached<'_, '_, D>,
) -> Result<Option<u64>, Fault> {
    match cached.get(rt)? {
        Some(now) => Ok(Some(now.read()?)),
        None => Ok(None),
    }
}

/// A cell that is read again and again: what was found last lives on until the next read.
struct Reads;

impl<R: Threads + Wait + Sync> Program<u64, R> for Reads {
    fn work<D: Domain<Value = u64>>(
        &self,
        rt: &R,
        _number: usize,
        desk: &Desk<D>,
    ) -> Result<(), Fault> {
        let mut cached = desk.cached(CELL);
        row(1, field(rt, &mut cached)? == None)?;
        let first = desk.make([1; 4], 1)?;
        let watch = first.downgrade()?;
        first.store(CELL)?;
        row(2, field(rt, &mut cached)? == Some(1))?;
        row(3, watch.use_count()? == 2)?;
        row(4, field(rt, &mut cached)? == Some(1))?;
        row(5, watch.use_count()? == 2)?;
        desk.make([2; 4], 2)?.store(CELL)?;
        row(6, !watch.expired()?)?;
        row(7, field(rt, &mut cached)? == Some(2))?;
        row(8, watch.expired()?)?;
        desk.clear(CELL)?;
        row(9, field(rt, &mut cached)? == None)?;
        row(10, cached.found().is_none())
    }
}

/// What a cached read of a weak place finds, by the field of its object, or nothing where that has ended.
fn weak_field<D: Domain<Value = u64>, R: Wait>(
    rt: &R,
    cached: &mut CachedWeak<'_, '_, D>,
) -> Result<Option<u64>, Fault> {
    let Some(weak) = cached.get(rt)? else {
        return Ok(None);
    };
    match weak.lock(rt)? {
        Some(owner) => Ok(Some(owner.read()?)),
        None => Ok(None),
    }
}

/// A weak cell that is read again and again: what was found last is counted as no owner, and keeps no object.
struct WeakReads;

impl<R: Threads + Wait + Sync> Program<u64, R> for WeakReads {
    fn work<D: Domain<Value = u64>>(
        &self,
        rt: &R,
        _number: usize,
        desk: &Desk<D>,
    ) -> Result<(), Fault> {
        let mut cached = desk.cached_weak(WATCHED);
        row(1, cached.get(rt)?.is_none())?;
        let first = desk.make([1; 4], 1)?;
        first.downgrade()?.store(WATCHED)?;
        row(2, weak_field(rt, &mut cached)? == Some(1))?;
        row(3, weak_field(rt, &mut cached)? == Some(1))?;
        row(4, first.use_count()? == 1)?;
        drop(first);
        row(5, weak_field(rt, &mut cached)? == None)?;
        row(6, cached.found().is_some())?;
        let second = desk.make([2; 4], 2)?;
        second.downgrade()?.store(WATCHED)?;
        row(7, weak_field(rt, &mut cached)? == Some(2))?;
        desk.clear_weak(WATCHED)?;
        row(8, cached.get(rt)?.is_none())?;
        let mut up = second.up().cached();
        row(9, weak_field(rt, &mut up)? == None)?;
        second.up().store(Some(second.downgrade()?))?;
        up.look(rt)?;
        row(10, up.found().is_some())?;
        row(11, weak_field(rt, &mut up)? == Some(2))?;
        let none = Fault::Cell(Call::Load(Spot::Weak(2)));
        row(
            12,
            weak_field(rt, &mut desk.cached_weak(WeakCell(2))) == Err(none),
        )
    }
}

/// A member that is read so, and a wait for what a cell no longer holds.
struct Waits;

impl<R: Threads + Wait + Sync> Program<u64, R> for Waits {
    fn work<D: Domain<Value = u64>>(
        &self,
        rt: &R,
        _number: usize,
        desk: &Desk<D>,
    ) -> Result<(), Fault> {
        let whole = desk.make([1; 4], 1)?;
        let mut cached = whole.first().cached();
        row(1, field(rt, &mut cached)? == None)?;
        whole.first().store(Some(desk.make([2; 4], 2)?))?;
        cached.look(rt)?;
        match cached.found() {
            Some(part) => row(2, part.read()? == 2)?,
            None => row(2, false)?,
        }
        desk.wait_while(rt, CELL, Some(&whole))?;
        whole.first().wait_while(rt, Some(&whole))?;
        let none = Fault::Cell(Call::Holds(Spot::Shared(2)));
        row(
            3,
            desk.wait_while(rt, SharedCell(2), Some(&whole)) == Err(none),
        )?;
        row(4, desk.holds(CELL, None)?)?;
        whole.share()?.store(CELL)?;
        row(5, !desk.holds(CELL, None)?)?;
        desk.wait_while(rt, CELL, None)?;
        row(6, desk.holds_weak(WATCHED, None)?)?;
        whole.downgrade()?.store(WATCHED)?;
        desk.wait_while_weak(rt, WATCHED, None)?;
        row(7, !desk.holds_weak(WATCHED, None)?)?;
        desk.clear_weak(WATCHED)?;
        desk.clear(CELL)
    }
}

#[cfg(test)]
mod tests {
    use super::*;
    use crate::players::same;
    use pointer_calls::{BLOCKS, worked};
    use pointers::Team;
    use std::alloc::Global;
    use std::process::Abort;

    /// The program's rows are as they should be, by one worker, and all blocks are vacant then.
    fn plays<R, P>(rt: &R, alloc: Global, program: &P)
    where
        R: Abort + Threads + Wait + Sync,
        P: Program<u64, R> + Sync,
    {
        let team = Team {
            workers: 1,
            pointers: 8,
        };
        let told = worked(rt, alloc, team, (BLOCKS, 2), program);
        same(rt, told, Ok((None, 1, BLOCKS)));
    }

    #[test]
    fn a_cell_holds_what_has_its_place_and_object(rt: HostRuntime) {
        plays(&rt, rt.alloc(), &Owners);
    }

    #[test]
    fn a_member_is_asked_as_a_free_cell_is(rt: HostRuntime) {
        plays(&rt, rt.alloc(), &Places);
    }

    #[test]
    fn a_cached_read_finds_what_the_cell_holds(rt: HostRuntime) {
        plays(&rt, rt.alloc(), &Reads);
    }

    #[test]
    fn a_cached_read_of_a_weak_cell_keeps_no_object(rt: HostRuntime) {
        plays(&rt, rt.alloc(), &WeakReads);
    }

    #[test]
    fn a_wait_ends_where_the_cell_holds_something_else(rt: HostRuntime) {
        plays(&rt, rt.alloc(), &Waits);
    }
}
