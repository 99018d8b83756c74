//! An object that ends within another's end, as the last owner of it was a member of that.
ghost use Rattle.std.specs.Prelude.{◌≡◌, ◌+◌};
ghost use Rattle.shared_handle.specs.Prelude.{Owner, Belongs, IsSameDesk, bag_of, HoldsHandle, EndsInHand};
ghost use Rattle.shared_handle.specs.Prelude.{without_handle};

use crate::parts::{Found, Was, clear, end, end_of, shape, shut, told};
use crate::same::same;
use atomic_cells::{SharedAt, SharedMember};
use control_block::desk::Desk;
use control_block::domain::{Domain, open};
use shared_handle::{Ending, Left, Shared, make, release};
use std::alloc::Global;

// What two ends find: that within and that around it.
type Both = (Found<u64>, Found<u64>);

// The end of an object whose first member is the last owner of another. That ends first, while this one has a member
// left.
fn end_both(domain: &Domain<u64>, desk: &mut Desk<u64>, around: Ending<u64>) -> Option<Both>
    requires domain { Belongs desk.old domain.now }
    requires ends { EndsInHand desk.old around }
    ensures desk { IsSameDesk desk.old desk.new }
    ensures bag { bag_of desk.new ≡ bag_of desk.old }
    ensures held { desk.new.held ≡ desk.old.held }
{
    let mut around = around;
    if around.is_clear() {
        around.forget();
        return None;
    }
    match around.clear_next(domain, desk) {
        Left::Empty | Left::Others => {
            around.forget();
            None
        }
        Left::Last(within) => {
            let next = clear(domain, desk, &mut around);
            let inner = end_of(domain, desk, within);
            let (up, _, _, value) = end_of(domain, desk, around);
            Some((inner, (Was::Last, next, up, value)))
        }
    }
}

// The last owner leaves of an object that has the last owner of another in its first member.
fn leave_both(domain: &Domain<u64>, desk: &mut Desk<u64>, owner: Shared) -> Option<Both>
    requires domain { Belongs desk.old domain.now }
    requires held { HoldsHandle desk.old Owner owner.block owner.place }
    ensures desk { IsSameDesk desk.old desk.new }
    ensures bag { bag_of desk.new ≡ without_handle Owner owner.block owner.place (bag_of desk.old) }
    ensures held { desk.new.held + 1 ≡ desk.old.held }
{
    match release(domain, desk, owner) {
        Left::Empty | Left::Others => None,
        Left::Last(around) => end_both(domain, desk, around),
    }
}

// An owner goes into a member of the whole: what the store found.
#[tactic(auto, using(atomic_cells::proofs::Members::member_open))]
fn put_in(
    domain: &Domain<u64>,
    desk: &mut Desk<u64>,
    whole: &Shared,
    which: SharedMember,
    owner: Shared,
) -> Option<Was>
    requires domain { Belongs desk.old domain.now }
    requires whole { HoldsHandle desk.old Owner whole.now.block whole.now.place }
    requires held { HoldsHandle desk.old Owner owner.block owner.place }
    ensures desk { IsSameDesk desk.old desk.new }
    ensures bag { bag_of desk.new ≡ without_handle Owner owner.block owner.place (bag_of desk.old) }
    ensures held { desk.new.held + 1 ≡ desk.old.held }
{
    match SharedAt::member(whole, which) {
        Ok(at) => Some(told(at.store(domain, desk, owner))),
        Err(_) => {
            end(domain, desk, owner);
            None
        }
    }
}

// An object goes into the first member of another, whose only owner leaves.
#[tactic(auto, using(shared_handle::proofs::Callers::first_out))]
fn nest(domain: &Domain<u64>, desk: &mut Desk<u64>) -> Option<Both>
    requires domain { Belongs desk.old domain.now }
    ensures desk { IsSameDesk desk.old desk.new }
{
    let Ok(whole) = make(domain, desk, [1, 0, 0, 0], false, 1) else {
        return None;
    };
    let Ok(part) = make(domain, desk, [2, 0, 0, 0], false, 2) else {
        end(domain, desk, whole);
        return None;
    };
    put_in(domain, desk, &whole, SharedMember::First, part);
    leave_both(domain, desk, whole)
}

// The values of both, the one within first, and how many blocks are vacant then.
fn ended(alloc: Global) -> Option<(u64, u64, u32)> {
    let Ok((domain, mut desk)) = open(alloc, shape(2, 4)) else {
        return None;
    };
    let seen = nest(&domain, &mut desk);
    let vacant = shut(domain, desk);
    match seen {
        Some((inner, outer)) => Some((inner.3, outer.3, vacant)),
        None => None,
    }
}

#[test]
fn an_object_ends_within_anothers_end(rt: HostRuntime) {
    same(&rt, ended(rt.alloc()), Some((2, 1, 2)));
}
