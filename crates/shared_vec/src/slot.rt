//! An element's place in its leaf.
ghost use Rattle.std.specs.Prelude.{◌≡◌, Bool, IfErr, IfOk, None, Option, Some, false};
ghost use Rattle.control_word.specs.declared.model.handle.Kind.TheVariants.{Owner};
ghost use Rattle.pointers.specs.SiteCalls.{Compared};
ghost use Rattle.pointers.specs.declared.known.Known.{Known};
ghost use Rattle.shared_vec.specs.Refusals.{WhyNotFound};
ghost use Rattle.shared_vec.specs.Vectors.{PutsIn, ReplacesIn};

use pointers::{Domain, Fault, Member, Refused, Shared};
use std::sync::Wait;

/// The pointer takes the place of an element (waits): `None`. It comes back where there is none.
pub(crate) fn replace<'t, D: Domain, R: Wait>(
    rt: &R,
    place: &Member<'_, 't, D>,
    new: Shared<'t, D>,
) -> Result<Option<Shared<'t, D>>, Refused<Shared<'t, D>>>
    ensures done { IfOk result (ReplacesIn D.opened place.now new.entry) }
    ensures back { IfErr result (λ r. r.back ≡ new.entry) }
    ensures refused { IfErr result (λ r. WhyNotFound r.why) }
{
    let mut new = new;
    for _ in rt.forever() {
        let held = match place.load(rt) {
            Ok(Some(held)) => held,
            Ok(None) => return Ok(Some(new)),
            Err(why) => return Err(Refused { why, back: new }),
        };
        match swap_in(rt, place, Some(held), new)? {
            None => return Ok(None),
            Some(back) => new = back,
        }
    }
    unreachable!()
}

/// The pointer goes into a place that holds what is expected (waits): `None`. Else it comes back.
pub(crate) fn swap_in<'t, D: Domain, R: Wait>(
    rt: &R,
    place: &Member<'_, 't, D>,
    expected: Option<Shared<'t, D>>,
    new: Shared<'t, D>,
) -> Result<Option<Shared<'t, D>>, Refused<Shared<'t, D>>>
    ensures done { IfOk result (PutsIn D.opened place.now expected.entry new.entry) }
    ensures back { IfErr result (λ r. r.back ≡ new.entry) }
    ensures refused { IfErr result (λ r. WhyNotFound r.why) }
{
    let mut expected = expected;
    let mut new = Some(new);
    let came = place.compare_exchange_strong(rt, &mut expected, &mut new);
    match came {
        Ok(_) => Ok(new),
        Err(why) => match new {
            Some(back) => Err(Refused { why, back }),
            None => unreachable!(),
        },
    }
}
