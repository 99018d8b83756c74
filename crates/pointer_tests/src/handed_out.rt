//! Owners that hand out their object's value as they end, and copies of pointers that may be empty.

use pointer_calls::row;
use pointers::{Call, Desk, Domain, Fault, OptionalPointer, Program};
use std::sync::Wait;
use std::thread::Threads;

/// The value comes out just by the last owner's end, and what the object owned ends.
fn last<D: Domain<Value = u64>>(desk: &Desk<D>) -> Result<(), Fault> {
    let owner = desk.new(7)?;
    let watch = owner.downgrade()?;
    row(1, owner.share()?.end()? == None)?;
    row(2, owner.use_count()? == 1)?;
    let child = desk.new(8)?;
    let child_watch = child.downgrade()?;
    owner.first().store(Some(child))?;
    row(3, owner.end()? == Some(7))?;
    row(4, watch.expired()?)?;
    row(5, child_watch.expired()?)?;
    row(6, desk.make_null(9)?.end()? == Some(9))?;
    let first = desk.new(10)?;
    let second = desk.new(11)?;
    first.next().store(Some(second.share()?))?;
    row(7, first.end()? == Some(10))?;
    row(8, second.use_count()? == 1)
}

/// Within a visit an owner lets go when that is done.
fn within<D: Domain<Value = u64>, R: Wait>(rt: &R, desk: &Desk<D>) -> Result<(), Fault> {
    let visited = desk.new(1)?;
    let owner = desk.new(2)?;
    let watch = owner.downgrade()?;
    let mut lent = Some(owner);
    let answer = visited.visit(rt, |_| match lent.take() {
        Some(owner) => owner.end(),
        None => Ok(None),
    })?;
    row(9, answer == Err(Fault::Busy(Call::End)))?;
    row(10, watch.expired()?)?;
    row(11, visited.use_count()? == 1)
}

/// A copy of none is none, and that of a pointer is one more.
fn copies<D: Domain<Value = u64>>(desk: &Desk<D>) -> Result<(), Fault> {
    let owner = desk.new(3)?;
    let mut watch = Some(owner.downgrade()?);
    let mut head = Some(owner.share()?);
    let copy = head.share()?;
    row(12, copy.is_some())?;
    row(13, owner.use_count()? == 3)?;
    drop(copy);
    drop(head.take());
    row(14, owner.use_count()? == 1)?;
    row(15, head.share()?.is_none())?;
    drop(owner);
    let Some(copy) = watch.share()? else {
        return row(16, false);
    };
    row(17, copy.expired()?)?;
    drop(watch.take());
    row(18, watch.share()?.is_none())
}

struct HandedOut;

impl<R: Threads + Wait + Sync> Program<u64, R> for HandedOut {
    fn work<D: Domain<Value = u64>>(
        &self,
        rt: &R,
        _number: usize,
        desk: &Desk<D>,
    ) -> Result<(), Fault> {
        last(desk)?;
        within(rt, desk)?;
        copies(desk)
    }
}

#[cfg(test)]
mod tests {
    use super::HandedOut;
    use crate::players::same;
    use pointer_calls::{BLOCKS, worked};
    use pointers::Team;

    #[test]
    fn a_last_owner_hands_out_the_value(rt: HostRuntime) {
        let team = Team {
            workers: 1,
            pointers: 8,
        };
        let told = worked(&rt, rt.alloc(), team, (BLOCKS, 0), &HandedOut);
        same(&rt, told, Ok((None, 1, BLOCKS)));
    }
}
