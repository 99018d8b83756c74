//! The example of the README: an object that two threads own, watched by a weak pointer.
ghost use Rattle.std.specs.Prelude.{◌≡◌, ◌<◌, [], IfSome, None, Some, length};
ghost use Rattle.shared_handle.specs.Prelude.{Owner, Weak, Block, Belongs, IsSameDesk, allowance_of, bag_of, stock_of};
ghost use Rattle.shared_handle.specs.Prelude.{HoldsHandle, with_handle, without_handle};

use crate::parts::{end, hand_over, shape, shut, spent};
use crate::same::same;
use control_block::desk::Desk;
use control_block::domain::{Domain, open};
use control_block::handles;
use shared_handle::{Shared, downgrade, expired, make, release_weak, share, use_count};
use std::alloc::Global;
use std::thread::{Threads, join_mut};

// `std::shared_ptr::reset`.
fn reset(domain: &Domain<u64>, desk: &mut Desk<u64>, handle: &mut Option<Shared>)
    requires domain { Belongs desk.old domain.now }
    requires holds { IfSome handle.old (λ h. HoldsHandle desk.old Owner h.block h.place) }
    ensures desk { IsSameDesk desk.old desk.new }
    ensures bag { IfSome handle.old (λ h. bag_of desk.new ≡ without_handle Owner h.block h.place (bag_of desk.old)) }
    ensures spent { handle.new ≡ None }
{
    if let Some(owner) = handle.take() {
        end(domain, desk, owner);
    }
}

// No memory for a thread's part.
#[tactic(auto, using(shared_handle::proofs::Callers::first_out, shared_handle::proofs::Callers::under_out))]
fn give_up(
    domain: &Domain<u64>,
    desk: &mut Desk<u64>,
    a: Shared,
    b: Shared,
    w: handles::Weak,
) -> Option<(u32, bool)>
    requires domain { Belongs desk.old domain.now }
    requires same { (b.block ≡ a.block) × (b.place ≡ a.place) × (w.block ≡ a.block) × (x : Block)
        × (a.block ≡ Some x) }
    requires bag { bag_of desk.old ≡ with_handle Owner b.block b.place
        (with_handle Weak w.block w.place (with_handle Owner a.block a.place [])) }
    ensures desk { (desk.new.domain ≡ desk.old.domain) × (desk.new.shape ≡ desk.old.shape)
        × (allowance_of desk.new ≡ allowance_of desk.old) }
    ensures none { result ≡ None }
{
    end(domain, desk, b);
    end(domain, desk, a);
    release_weak(domain, desk, w);
    None
}

// Each desk's owner leaves in a thread of its own.
fn leave_in_threads<R: Threads>(
    rt: &R,
    domain: &Domain<u64>,
    desk: &mut Desk<u64>,
    other: &mut Desk<u64>,
    a: Shared,
    b: Shared,
)
    requires domain { Belongs desk.old domain.now × Belongs other.old domain.now }
    requires a { HoldsHandle desk.old Owner a.block a.place }
    requires b { HoldsHandle other.old Owner b.block b.place }
    ensures desk { IsSameDesk desk.old desk.new }
    ensures bag { bag_of desk.new ≡ without_handle Owner a.block a.place (bag_of desk.old) }
    ensures other { IsSameDesk other.old other.new }
{
    let (mut a, mut b) = (Some(a), Some(b));
    // std::thread t([b = std::move(b)]() mutable { b.reset(); }); a.reset(); t.join();
    join_mut(
        rt,
        &mut || reset(domain, other, &mut b),
        &mut || reset(domain, desk, &mut a),
    );
    // (a and b are empty now)
    spent(a);
    spent(b);
}

// How many owners there were, and whether the weak pointer saw them all leave.
#[tactic(auto, using(shared_handle::proofs::Callers::first_out, shared_handle::proofs::Callers::under_out))]
fn two_threads<R: Threads>(
    rt: &R,
    alloc: Global,
    domain: &Domain<u64>,
    desk: &mut Desk<u64>,
) -> Option<(u32, bool)>
    requires domain { Belongs desk.old domain.now }
    requires fresh { (bag_of desk.old ≡ []) × (desk.old.held ≡ 0) × (allowance_of desk.old ≡ 8)
        × (0 < length (stock_of desk.old)) }
    ensures desk { (desk.new.domain ≡ desk.old.domain) × (desk.new.shape ≡ desk.old.shape)
        × (allowance_of desk.new ≡ allowance_of desk.old) }
{
    // auto a = std::make_shared<Node>(1, 2, 3, 4);
    let a = make(domain, desk, [1, 2, 3, 4], false, 7).unwrap();
    // std::weak_ptr<Node> w = a;
    let w = downgrade(domain, desk, &a).unwrap();
    // auto b = a;
    let b = share(domain, desk, &a).unwrap();
    // long owners = a.use_count();
    let owners = use_count(domain, desk, &a);
    let (mut other, b) = match hand_over(domain, desk, alloc, 1, 0, b) {
        Ok(parted) => parted,
        Err(b) => return give_up(domain, desk, a, b, w),
    };
    leave_in_threads(rt, domain, desk, &mut other, a, b);
    // bool gone = w.expired();
    let gone = expired(domain, desk, &w);
    release_weak(domain, desk, w);
    desk.join(domain, other);
    Some((owners, gone))
}

// The same, and how many blocks are vacant then.
fn seen<R: Threads>(rt: &R, alloc: Global) -> Option<(Option<(u32, bool)>, u32)> {
    let Ok((domain, mut desk)) = open(alloc, shape(4, 8)) else {
        return None;
    };
    let seen = two_threads(rt, alloc, &domain, &mut desk);
    Some((seen, shut(domain, desk)))
}

#[test]
fn an_object_of_two_threads(rt: HostRuntime) {
    same(&rt, seen(&rt, rt.alloc()), Some((Some((2, true)), 4)));
}
