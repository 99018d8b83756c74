//! A desk alone in its domain makes calls.
ghost use Rattle.std.specs.Prelude.{◌≡◌, [], IfOk};
ghost use Rattle.control_block.specs.SlotLists.{handles_in};

use crate::desks::splits::abandon;
use crate::listed::slots::wind_up;
use crate::listed::{Answer, Call, all};
use crate::parts::shut;
use crate::same::same;
use control_block::domain::open;
use control_block::handles::Held;
use control_word::{Refusal, Shape};
use std::alloc::{AllocError, Global};
use std::process::Abort;
use std::sync::Wait;

/// Six vacant slots.
pub(crate) fn six_slots(alloc: Global) -> Result<Vec<Option<Held>>, AllocError>
    ensures { IfOk result (λ v. handles_in v.items ≡ []) }
{
    let mut slots = Vec::with_capacity(alloc, 6)?;
    slots.push_reserved(None);
    slots.push_reserved(None);
    slots.push_reserved(None);
    slots.push_reserved(None);
    slots.push_reserved(None);
    slots.push_reserved(None);
    Ok(slots)
}

/// A desk makes these calls in a domain of its own: how many blocks are vacant once all handles have left.
#[tactic(auto, using(crate::proofs::Hands::none_held))]
pub(crate) fn calls_alone<R: Abort + Wait>(
    rt: &R,
    alloc: Global,
    shape: Shape,
    calls: &[(Call, Answer)],
) -> Result<u32, Refusal> {
    let (domain, mut desk) = match open(alloc, shape) {
        Ok(opened) => opened,
        Err(why) => return Err(why),
    };
    let Ok(mut slots) = six_slots(alloc) else {
        abandon(domain, desk);
        return Err(Refusal::Memory);
    };
    all(rt, &domain, &mut desk, &mut slots, calls);
    wind_up(&domain, &mut desk, slots);
    Ok(shut(domain, desk))
}

/// The calls answer what stands beside them, and so many blocks are vacant then.
pub(crate) fn answers<R: Abort + Wait>(
    rt: &R,
    alloc: Global,
    shape: Shape,
    calls: &[(Call, Answer)],
    vacant: u32,
) {
    same(rt, calls_alone(rt, alloc, shape, calls), Ok(vacant));
}
