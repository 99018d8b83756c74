//! A place of a trie that holds an entry, or nothing.
ghost use Rattle.std.specs.Prelude.{◌≡◌, ◌≤◌, IfErr, IfOk};
ghost use Rattle.shared_trie.specs.Refusals.{WhyNotFound, WhyNotPut};
ghost use Rattle.shared_trie.specs.Tries.{Sinks, Swaps, Takes};

use crate::key::number_at;
use crate::node::{key_of, new_node};
use pointers::{Desk, Domain, Fault, Member, Refused, Shared};
use std::sync::Wait;

/// What came of a pointer that was to go into a place: what was expected there came out, or the pointer came back.
#[derive(Drop)]
pub(crate) enum Swapped<T> {
    Out(Option<T>),
    Back(T),
}

/// The pointer goes into a place that holds what is expected (waits), and that comes out.
pub(crate) fn swap<'t, D: Domain, R: Wait>(
    rt: &R,
    place: &Member<'_, 't, D>,
    expected: Option<Shared<'t, D>>,
    new: Shared<'t, D>,
) -> Result<Swapped<Shared<'t, D>>, Refused<Shared<'t, D>>>
    ensures done { IfOk result (Swaps D.opened place.now expected.entry new.entry) }
    ensures back { IfErr result (λ r. r.back ≡ new.entry) }
    ensures refused { IfErr result (λ r. WhyNotFound r.why) }
{
    let mut expected = expected;
    let mut new = Some(new);
    let came = place.compare_exchange_strong(rt, &mut expected, &mut new);
    match came {
        Ok(_) => match new {
            Some(back) => Ok(Swapped::Back(back)),
            None => Ok(Swapped::Out(expected)),
        },
        Err(why) => match new {
            Some(back) => Err(Refused { why, back }),
            None => unreachable!(),
        },
    }
}

/// The entry comes out of a place (waits). None where it is there no more.
pub(crate) fn take<'t, D: Domain, R: Wait>(
    rt: &R,
    place: &Member<'_, 't, D>,
    entry: Shared<'t, D>,
) -> Result<Option<Shared<'t, D>>, Fault>
    ensures done { IfOk result (Takes D.opened place.now entry.entry) }
    ensures refused { IfErr result WhyNotFound }
{
    let mut held = Some(entry);
    let mut none = None;
    if place.compare_exchange_strong(rt, &mut held, &mut none)? {
        return Ok(held);
    }
    Ok(None)
}

/// The entry goes from a place into a new node of that level, which goes into the place if the entry is there still
/// (waits). Whether it was.
pub(crate) fn sink<'t, D: Domain, R: Wait>(
    rt: &R,
    desk: &'t Desk<'t, D>,
    place: &Member<'_, 't, D>,
    entry: Shared<'t, D>,
    level: u32,
) -> Result<bool, Fault>
where
    D::Value: Default,
    requires { level ≤ 21 }
    ensures sunk { IfOk result (Sinks D.opened place.now entry.entry level) }
    ensures refused { IfErr result WhyNotPut }
{
    let key = key_of(&entry)?;
    let new = new_node(desk)?;
    new.owner(number_at(key, level))
        .store(Some(entry.share()?))?;
    let mut held = Some(entry);
    let mut new = Some(new);
    place.compare_exchange_strong(rt, &mut held, &mut new)
}
