//! Nodes of a vector: objects with eight members.
ghost use Rattle.std.specs.Prelude.{◌≡◌, ◌≤◌, IfErr, IfOk, Some, min, ℕ};
ghost use Rattle.control_word.specs.declared.model.handle.Kind.TheVariants.{Owner};
ghost use Rattle.pointers.specs.Objects.{IsField};
ghost use Rattle.pointers.specs.SiteCalls.{Loaded};
ghost use Rattle.shared_vec.specs.Refusals.{WhyNotFound, WhyNotPut};
ghost use Rattle.shared_vec.specs.Vectors.{IsLevel};

use crate::index::MOST;
use pointers::{Desk, Domain, Fault, Member, Shared};
use std::sync::Wait;

/// A root's level: how many levels are below it. No more than any index needs.
#[inline(always)]
pub(crate) fn level_of<D: Domain>(root: &Shared<'_, D>) -> Result<u32, Fault>
    ensures level { IfOk result (IsLevel D.opened root.now) }
    ensures refused { IfErr result WhyNotFound }
{
    let field = root.read()?;
    Ok(u32::try_from(field).unwrap_or(MOST).min(MOST))
}

/// The node in a place (waits): a new one of this level where the place was empty. Of several threads that find it
/// empty one is the first, and its node stays; those of the others end.
pub(crate) fn node_in<'t, D: Domain, R: Wait>(
    rt: &R,
    desk: &'t Desk<'t, D>,
    place: &Member<'_, 't, D>,
    level: u32,
) -> Result<Shared<'t, D>, Fault>
where
    D::Value: Default,
    ensures loaded { IfOk result (λ r. Loaded D.opened Owner place.now (Some r)) }
    ensures refused { IfErr result WhyNotPut }
{
    for _ in rt.forever() {
        if let Some(node) = place.load(rt)? {
            return Ok(node);
        }
        let mut new = Some(desk.make([u64::from(level), 0, 0, 0], Default::default())?);
        let mut none = None;
        place.compare_exchange_strong(rt, &mut none, &mut new)?;
    }
    unreachable!()
}
