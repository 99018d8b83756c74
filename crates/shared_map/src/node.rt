//! Objects of a map.
ghost use Rattle.std.specs.Prelude.{IfErr, IfOk, Some};
ghost use Rattle.control_word.specs.declared.model.handle.Kind.TheVariants.{Owner};
ghost use Rattle.pointers.specs.SiteCalls.{Loaded};
ghost use Rattle.shared_map.specs.Refusals.{WhyNoNode};

use pointers::{Desk, Domain, Fault, Member, Shared};
use std::sync::Wait;

/// The object in a place (waits): a new one with this first field where the place was empty. Of several threads that
/// find it empty one is the first, and its object stays; those of the others end.
pub(crate) fn node_in<'t, D: Domain, R: Wait>(
    rt: &R,
    desk: &'t Desk<'t, D>,
    place: &Member<'_, 't, D>,
    field: u64,
) -> Result<Shared<'t, D>, Fault>
where
    D::Value: Default,
    ensures loaded { IfOk result (λ r. Loaded D.opened Owner place.now (Some r)) }
    ensures refused { IfErr result (WhyNoNode D.opened place.now) }
{
    for _ in rt.forever() {
        if let Some(node) = place.load(rt)? {
            return Ok(node);
        }
        let mut new = Some(desk.make([field, 0, 0, 0], Default::default())?);
        let mut none = None;
        place.compare_exchange_strong(rt, &mut none, &mut new)?;
    }
    unreachable!()
}
