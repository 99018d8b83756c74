//! Lists of pointers, with ample memory.

use crate::plays::plays;
use pointer_calls::row;
use pointers::{Call, Desk, Domain, Fault, List, Program, Shared, SharedCell, Spot, Weak};
use std::sync::Wait;
use std::thread::Threads;

/// The fields of what the elements own, as decimal digits.
fn digits<'t, R: Wait, D: Domain>(
    rt: &R,
    list: &List<'_, 't, D, Shared<'t, D>>,
) -> Result<u64, Fault> {
    let mut digits = 0u64;
    list.each(rt, |element| {
        let digit = element.read()?;
        digits = digits.wrapping_mul(10).wrapping_add(digit);
        Ok(())
    })?;
    Ok(digits)
}

/// A new object with the number as its first field.
fn numbered<'t, D: Domain<Value = u64>>(
    desk: &'t Desk<'t, D>,
    number: u64,
) -> Result<Shared<'t, D>, Fault> {
    Ok(desk.make([number, 0, 0, 0], number)?)
}

/// A list of owners, in a member.
struct Owners;

impl Owners {
    /// Five elements come, two of them in front, and others have them too.
    fn come<'t, R: Wait, D: Domain<Value = u64>>(
        rt: &R,
        desk: &'t Desk<'t, D>,
        list: &List<'_, 't, D, Shared<'t, D>>,
    ) -> Result<(), Fault> {
        row(1, list.count(rt)? == 0 && digits(rt, list)? == 0)?;
        for number in 2..5 {
            list.push(rt, numbered(desk, number)?)?;
        }
        list.push_front(rt, numbered(desk, 1)?)?;
        list.push_front_with(rt, numbered(desk, 5)?, 8)?;
        row(2, digits(rt, list)? == 51_234 && list.count(rt)? == 5)
    }

    /// What is found, and where a walk ends.
    fn found<'t, R: Wait, D: Domain<Value = u64>>(
        rt: &R,
        list: &List<'_, 't, D, Shared<'t, D>>,
    ) -> Result<(), Fault> {
        let mut asked = 0u32;
        let Some(three) = list.find(rt, |element| {
            asked = asked.saturating_add(1);
            Ok(element.read()? == 3)
        })?
        else {
            return row(3, false);
        };
        row(
            4,
            three.read()? == 3 && three.use_count()? == 2 && asked == 4,
        )?;
        row(5, list.find(rt, |it| Ok(it.read()? == 7))?.is_none())?;
        let twice = list.find_map(rt, |it| {
            let field = it.read()?;
            Ok(if field == 2 { Some(field + 40) } else { None })
        })?;
        row(6, twice == Some(42))?;
        let none: Option<u64> = list.find_map(rt, |_| Ok(None))?;
        row(7, none.is_none())?;
        let mut told = 0u32;
        let ended = list.each(rt, |_| {
            told = told.saturating_add(1);
            if told == 2 {
                return Err(Fault::Other(77));
            }
            Ok(())
        });
        row(8, ended == Err(Fault::Other(77)) && told == 2)
    }

    /// Elements go.
    fn go<'t, R: Wait, D: Domain<Value = u64>>(
        rt: &R,
        desk: &'t Desk<'t, D>,
        list: &List<'_, 't, D, Shared<'t, D>>,
    ) -> Result<(), Fault> {
        let Some(five) = list.pop_front(rt)? else {
            return row(9, false);
        };
        row(10, five.read()? == 5 && five.use_count()? == 1)?;
        row(11, digits(rt, list)? == 1_234)?;
        row(12, !list.remove(rt, &five)?)?;
        list.push(rt, five.share()?)?;
        row(13, digits(rt, list)? == 12_345)?;
        row(14, list.remove(rt, &five)? && five.use_count()? == 1)?;
        row(15, !list.remove(rt, &five)? && digits(rt, list)? == 1_234)?;
        let gone = list.retain(rt, |element| Ok(element.read()? % 2 == 0))?;
        row(16, gone == 2 && digits(rt, list)? == 24)?;
        let ended = list.retain(rt, |_| Err(Fault::Other(5)));
        row(17, ended == Err(Fault::Other(5)) && list.count(rt)? == 2)?;
        row(18, list.retain(rt, |_| Ok(false))? == 2)?;
        row(19, list.pop_front(rt)?.is_none())?;
        list.push(rt, numbered(desk, 6)?)?;
        list.clear()?;
        row(20, list.count(rt)? == 0)
    }
}

impl<R: Threads + Wait> Program<u64, R> for Owners {
    fn work<D: Domain<Value = u64>>(
        &self,
        rt: &R,
        _number: usize,
        desk: &Desk<D>,
    ) -> Result<(), Fault> {
        let of = numbered(desk, 9)?;
        let list = of.first().list();
        Owners::come(rt, desk, &list)?;
        Owners::found(rt, &list)?;
        Owners::go(rt, desk, &list)?;
        let why = Fault::Cell(Call::Load(Spot::Shared(2)));
        let beyond = desk.cell(SharedCell(2)).list();
        row(21, beyond.count(rt) == Err(why))?;
        row(22, beyond.push(rt, of.share()?) == Err(why))?;
        row(23, of.use_count()? == 1)
    }
}

#[test]
fn a_list_has_owners(rt: HostRuntime) {
    plays(&rt, rt.alloc(), &Owners);
}

/// A list of weak pointers, in a free cell.
struct Weaks;

impl Weaks {
    /// An element is removed where it is there, and no other one with it.
    fn removed<'t, R: Wait, D: Domain<Value = u64>>(
        rt: &R,
        desk: &'t Desk<'t, D>,
        list: &List<'_, 't, D, Weak<'t, D>>,
        left: &Weak<'t, D>,
    ) -> Result<(), Fault> {
        let other = numbered(desk, 3)?.downgrade()?;
        row(6, !list.remove(rt, &other)? && list.count(rt)? == 1)?;
        list.push(rt, other.share()?)?;
        row(7, list.remove(rt, &other)? && list.count(rt)? == 1)?;
        row(8, list.remove(rt, left)? && !list.remove(rt, left)?)
    }
}

impl<R: Threads + Wait> Program<u64, R> for Weaks {
    fn work<D: Domain<Value = u64>>(
        &self,
        rt: &R,
        _number: usize,
        desk: &Desk<D>,
    ) -> Result<(), Fault> {
        let list = desk.cell(SharedCell(0)).weak_list();
        let one = numbered(desk, 1)?;
        let two = numbered(desk, 2)?;
        list.push(rt, one.downgrade()?)?;
        list.push_with(rt, two.downgrade()?, 8)?;
        row(1, list.count(rt)? == 2)?;
        drop(one);
        let Some(left) = list.find(rt, |it| Ok(!it.expired()?))? else {
            return row(2, false);
        };
        row(3, left.is(&two.downgrade()?))?;
        row(4, list.retain(rt, |it| Ok(!it.expired()?))? == 1)?;
        row(5, list.count(rt)? == 1)?;
        Weaks::removed(rt, desk, &list, &left)?;
        list.push_front(rt, two.downgrade()?)?;
        let Some(first) = list.pop_front(rt)? else {
            return row(9, false);
        };
        row(10, first.lock(rt)?.is_some() && list.count(rt)? == 0)?;
        list.push(rt, first)?;
        drop(left);
        list.clear()
    }
}

#[test]
fn a_list_has_weak_pointers(rt: HostRuntime) {
    plays(&rt, rt.alloc(), &Weaks);
}
