//! What an object that ends gives and says of itself.
ghost use Rattle.std.specs.Prelude.{◌≡◌};
ghost use Rattle.shared_handle.specs.Prelude.{Owner, Belongs, IsSameDesk, HoldsHandle, EndsInHand};

use crate::parts::{end_of, shape, shut};
use crate::same::same;
use control_block::desk::Desk;
use control_block::domain::{Domain, open};
use control_word::Refusal;
use shared_handle::{Ending, Left, Shared, expired, make, release, release_weak};
use std::alloc::Global;

// What an object that ends says of itself: its fields, whether it is null, and clear before its clears, and why it
// gives no owner.
fn last_words(
    domain: &Domain<u64>,
    desk: &mut Desk<u64>,
    ending: &Ending<u64>,
) -> ([u64; 4], bool, bool, Option<Refusal>)
    requires domain { Belongs desk.old domain.now }
    requires ends { EndsInHand desk.old ending.now }
    ensures same { desk.new ≡ desk.old }
{
    let fields = ending.fields(domain, desk);
    let null = ending.is_null(domain, desk);
    let why = match ending.shared_from_this(domain, desk) {
        Ok(_) => unreachable!(),
        Err(why) => why,
    };
    (fields, null, ending.is_clear(), Some(why))
}

type Words = ([u64; 4], bool, Option<Refusal>, bool, u64, u32, u32);

// An object with one owner ends: its last words, whether a weak handle that it gave is expired, its value, and the
// stock after its end and after the weak handle's.
fn end_with_a_weak_handle(
    domain: &Domain<u64>,
    desk: &mut Desk<u64>,
    owner: Shared,
) -> Option<Words>
    requires domain { Belongs desk.old domain.now }
    requires holds { HoldsHandle desk.old Owner owner.block owner.place }
    ensures desk { IsSameDesk desk.old desk.new }
{
    let ending = match release(domain, desk, owner) {
        Left::Empty | Left::Others => return None,
        Left::Last(ending) => ending,
    };
    let (fields, _, clear, why) = last_words(domain, desk, &ending);
    let Ok(weak) = ending.weak_from_this(domain, desk) else {
        end_of(domain, desk, ending);
        return None;
    };
    let expired = expired(domain, desk, &weak);
    let (_, _, _, value) = end_of(domain, desk, ending);
    let before = desk.stock();
    release_weak(domain, desk, weak);
    Some((fields, clear, why, expired, value, before, desk.stock()))
}

// An enabled object is made and ends.
fn live_and_end(domain: &Domain<u64>, desk: &mut Desk<u64>) -> Option<Words>
    requires domain { Belongs desk.old domain.now }
    ensures desk { IsSameDesk desk.old desk.new }
{
    let Ok(owner) = make(domain, desk, [1, 2, 3, 4], true, 9) else {
        return None;
    };
    end_with_a_weak_handle(domain, desk, owner)
}

// The same, in a domain of its own.
fn seen(alloc: Global) -> Option<Words> {
    let Ok((domain, mut desk)) = open(alloc, shape(2, 8)) else {
        return None;
    };
    let seen = live_and_end(&domain, &mut desk);
    shut(domain, desk);
    seen
}

#[test]
fn an_enabled_object_gives_itself(rt: HostRuntime) {
    let wanted = ([1, 2, 3, 4], false, Some(Refusal::BadWeak), true, 9, 1, 2);
    same(&rt, seen(rt.alloc()), Some(wanted));
}
