//! A pointer that is reset twice, and what a pile tells of what is left to it.
ghost use Rattle.std.specs.Prelude.{◌≡◌, None, IfSome};
ghost use Rattle.shared_handle.specs.Prelude.{Owner, Belongs, HoldsHandle};
ghost use Rattle.shared_handle.specs.Piles.{Carries};

use crate::desks::splits::abandon;
use crate::parts::{shape, spent};
use crate::same::is_told;
use control_block::desk::Desk;
use control_block::domain::{Domain, open};
use control_word::Refusal;
use shared_handle::{Gone, Pile, Shared, make, reset};
use std::alloc::Global;
use std::sync::Wait;
use std::test::Fail;

/// Whether the first reset told of a last owner, the second of an empty pointer, and something was left to end then and
/// nothing later; the fields of what was left, and the values that came out.
type Told = ([bool; 4], Option<[u64; 4]>, u64);

/// A pointer is reset twice, and its pile settles.
fn reset_twice<R: Wait>(
    rt: &R,
    domain: &Domain<u64>,
    desk: &mut Desk<u64>,
    pile: &mut Pile<u64>,
    pointer: &mut Option<Shared>,
) -> Told
    requires domain { Belongs desk.old domain.now }
    requires carries { Carries domain.now desk.old pile.old }
    requires holds { IfSome pointer.old (λ h. HoldsHandle desk.old Owner h.block h.place) }
    ensures spent { pointer.new ≡ None }
{
    let last = matches!(reset(domain, desk, pile, pointer), Gone::Last);
    let empty = matches!(reset(domain, desk, pile, pointer), Gone::Empty);
    let fields = match pile.top() {
        Some(ending) => Some(ending.fields(domain, desk)),
        None => None,
    };
    let left = !pile.is_empty();
    let mut sum: u64 = 0;
    pile.settle_with(rt, domain, desk, |value: u64| {
        sum = sum.wrapping_add(value);
    });
    ([last, empty, left, pile.is_empty()], fields, sum)
}

/// The owner of a new object is reset.
fn make_and_reset<R: Wait>(
    rt: &R,
    alloc: Global,
    domain: &Domain<u64>,
    desk: &mut Desk<u64>,
) -> Result<Told, Refusal>
    requires domain { Belongs desk.old domain.now }
{
    let mut pile = Pile::new(alloc, domain)?;
    let told = match make(domain, desk, [1, 2, 3, 4], false, 7) {
        Ok(owner) => {
            let mut pointer = Some(owner);
            let told = reset_twice(rt, domain, desk, &mut pile, &mut pointer);
            spent(pointer);
            Ok(told)
        }
        Err(refused) => Err(refused.why),
    };
    pile.close();
    told
}

/// The same in a domain of its own.
fn told<R: Wait>(rt: &R, alloc: Global) -> Result<Told, Refusal> {
    let (domain, mut desk) = match open(alloc, shape(1, 8)) {
        Ok(opened) => opened,
        Err(why) => return Err(why),
    };
    let told = make_and_reset(rt, alloc, &domain, &mut desk);
    abandon(domain, desk);
    told
}

#[test]
fn a_pointer_is_reset_once(rt: HostRuntime) -> Result<(), Fail> {
    let wanted = ([true; 4], Some([1, 2, 3, 4]), 7);
    is_told(&rt, told(&rt, rt.alloc()), wanted)
}
