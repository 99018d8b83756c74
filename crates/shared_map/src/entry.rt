//! Entries of a map.
ghost use Rattle.std.specs.Prelude.{IfErr, IfOk, None, Option, Some, false};
ghost use Rattle.control_word.specs.declared.model.handle.Kind.TheVariants as kind;
ghost use Rattle.control_word.specs.declared.model.handle.Kind.TheVariants.{Owner};
ghost use Rattle.pointers.specs.Lists.{Leads, next_of};
ghost use Rattle.pointers.specs.Objects.{IsField};
ghost use Rattle.pointers.specs.declared.known.Known.{Known};
ghost use Rattle.shared_map.specs.Maps.{InsertsIn, LocksIn, Replaces};
ghost use Rattle.shared_map.specs.Refusals.{WhyNotFound};
ghost use Rattle.shared_map.specs.Sweeps.{IsExpired, Prunes, TakesWeak};
ghost use Rattle.pointers.specs.Cells.{IsOwnerOf};
ghost use Rattle.pointers.specs.SiteCalls.{Compared, Exchanged, Loaded};
ghost use Rattle.pointers.specs.Sites.{member_site};

use pointers::{Domain, Fault, Shared, Weak};
use std::sync::Wait;

/// An entry's key.
#[inline(always)]
pub(crate) fn key_of<'t, D: Domain>(entry: &Shared<'t, D>) -> Result<u64, Fault>
    ensures key { IfOk result (IsField D.opened entry.now) }
    ensures refused { IfErr result WhyNotFound }
{
    entry.read()
}

/// The entry behind another of its bucket (waits). None where there is none.
#[inline(always)]
pub(crate) fn behind<'t, D: Domain, R: Wait>(
    rt: &R,
    entry: &Shared<'t, D>,
) -> Result<Option<Shared<'t, D>>, Fault>
    ensures led { IfOk result (Leads D.opened (next_of entry.now)) }
    ensures refused { IfErr result WhyNotFound }
{
    entry.next().load(rt)
}

/// An owner of what a weak pointer is of, just where one remains (waits).
#[inline(always)]
fn owner_of<'t, D: Domain, R: Wait>(
    rt: &R,
    weak: &Option<Weak<'t, D>>,
) -> Result<Option<Shared<'t, D>>, Fault>
    ensures done { IfOk result (IsOwnerOf D.opened weak.now) }
    ensures refused { IfErr result WhyNotFound }
{
    match weak {
        Some(weak) => weak.lock(rt),
        None => Ok(None),
    }
}

/// An owner of what an entry's weak pointer is of (waits).
#[inline(always)]
pub(crate) fn lock<'t, D: Domain, R: Wait>(
    rt: &R,
    entry: &Shared<'t, D>,
) -> Result<Option<Shared<'t, D>>, Fault>
    ensures done { IfOk result (LocksIn D.opened entry.now) }
    ensures refused { IfErr result WhyNotFound }
{
    let weak = entry.up().load(rt)?;
    owner_of(rt, &weak)
}

/// A copy of an entry's owner (waits).
#[inline(always)]
pub(crate) fn get<'t, D: Domain, R: Wait>(
    rt: &R,
    entry: &Shared<'t, D>,
) -> Result<Option<Shared<'t, D>>, Fault>
    ensures done { IfOk result
        (Loaded D.opened Owner (member_site entry.now 0)) }
    ensures refused { IfErr result WhyNotFound }
{
    entry.first().load(rt)
}

/// An owner goes into an entry, or none, and the one that it had comes out.
#[inline(always)]
pub(crate) fn exchange<'t, D: Domain>(
    entry: &Shared<'t, D>,
    new: Option<Shared<'t, D>>,
) -> Result<Option<Shared<'t, D>>, Fault>
    ensures done { IfOk result
        (Exchanged D.opened Owner (member_site entry.now 0) new.entry) }
    ensures refused { IfErr result WhyNotFound }
{
    entry.first().exchange(new)
}

/// An owner goes into an entry that has none. Else a copy of the one that it has, and the new one lets go (waits).
pub(crate) fn put_if_absent<'t, D: Domain, R: Wait>(
    rt: &R,
    entry: &Shared<'t, D>,
    new: Shared<'t, D>,
) -> Result<Option<Shared<'t, D>>, Fault>
    ensures done { IfOk result (InsertsIn D.opened entry.now new.entry) }
    ensures refused { IfErr result WhyNotFound }
{
    let mut new = Some(new);
    let mut held = None;
    let place = entry.first();
    place.compare_exchange_strong(rt, &mut held, &mut new)?;
    Ok(held)
}

/// A copy of an entry's weak pointer (waits).
#[inline(always)]
pub(crate) fn get_weak<'t, D: Domain, R: Wait>(
    rt: &R,
    entry: &Shared<'t, D>,
) -> Result<Option<Weak<'t, D>>, Fault>
    ensures done { IfOk result
        (Loaded D.opened kind.Weak (member_site entry.now 0)) }
    ensures refused { IfErr result WhyNotFound }
{
    entry.up().load(rt)
}

/// A weak pointer goes into an entry, or none, and the one that it had comes out.
#[inline(always)]
pub(crate) fn exchange_weak<'t, D: Domain>(
    entry: &Shared<'t, D>,
    new: Option<Weak<'t, D>>,
) -> Result<Option<Weak<'t, D>>, Fault>
    ensures done { IfOk result
        (Exchanged D.opened kind.Weak (member_site entry.now 0) new.entry) }
    ensures refused { IfErr result WhyNotFound }
{
    entry.up().exchange(new)
}

/// The weak pointer becomes an entry's where that has none, or an expired one: `None`. Else an owner of what the
/// entry's is of (waits).
pub(crate) fn replace_expired<'t, D: Domain, R: Wait>(
    rt: &R,
    entry: &Shared<'t, D>,
    new: Weak<'t, D>,
) -> Result<Option<Shared<'t, D>>, Fault>
    ensures done { IfOk result (Replaces D.opened entry.now new.entry) }
    ensures refused { IfErr result WhyNotFound }
{
    let mut new = Some(new);
    for _ in rt.forever() {
        let mut held = entry.up().load(rt)?;
        let owner = owner_of(rt, &held)?;
        if let Some(owner) = owner {
            return Ok(Some(owner));
        }
        let place = entry.up();
        if place.compare_exchange_strong(rt, &mut held, &mut new)? {
            return Ok(None);
        }
    }
    unreachable!()
}

/// The owner comes out of an entry that still has it (waits). Whether it had.
pub(crate) fn take<'t, D: Domain, R: Wait>(
    rt: &R,
    entry: &Shared<'t, D>,
    held: Shared<'t, D>,
) -> Result<bool, Fault>
    ensures done { IfOk result (λ b. (after : Option (Known D.Value))
        × Compared D.opened Owner (member_site entry.now 0) false (Some held.entry) None b after None) }
    ensures refused { IfErr result WhyNotFound }
{
    let mut held = Some(held);
    let mut none = None;
    let place = entry.first();
    place.compare_exchange_strong(rt, &mut held, &mut none)
}

/// The weak pointer comes out of an entry that still has it (waits). Whether it had.
fn take_weak<'t, D: Domain, R: Wait>(
    rt: &R,
    entry: &Shared<'t, D>,
    held: Option<Weak<'t, D>>,
) -> Result<bool, Fault>
    ensures done { IfOk result (TakesWeak D.opened entry.now held.entry) }
    ensures refused { IfErr result WhyNotFound }
{
    let mut held = held;
    let mut none = None;
    let place = entry.up();
    place.compare_exchange_strong(rt, &mut held, &mut none)
}

/// The weak pointer comes out of an entry if its object has ended (waits). Whether it came out.
pub(crate) fn take_expired<D: Domain, R: Wait>(rt: &R, entry: &Shared<'_, D>) -> Result<bool, Fault>
    ensures pruned { IfOk result (Prunes D.opened entry.now) }
    ensures refused { IfErr result WhyNotFound }
{
    let held = get_weak(rt, entry)?;
    if is_expired(&held)? {
        return take_weak(rt, entry, held);
    }
    Ok(false)
}

/// Whether it is a weak pointer whose object has ended.
fn is_expired<D: Domain>(weak: &Option<Weak<'_, D>>) -> Result<bool, Fault>
    ensures looked { IfOk result (IsExpired D.opened weak.now) }
    ensures refused { IfErr result WhyNotFound }
{
    match weak {
        Some(weak) => weak.expired(),
        None => Ok(false),
    }
}
