//! Objects of nine members, and which shapes a domain opens with.
ghost use Rattle.std.specs.Prelude.{◌≡◌, ◌+◌};
ghost use Rattle.shared_handle.specs.Prelude.{Owner, Belongs, HoldsHandle, IsSameDesk, bag_of, without_handle};
ghost use Rattle.control_word.specs.declared.model.handle.Kind.TheVariants.{Weak};

use crate::parts::{Was, end, shut, told};
use crate::same::same;
use crate::shapes::shape_of_members;
use atomic_cells::{SharedAt, WeakAt};
use control_block::desk::Desk;
use control_block::domain::{Domain, open};
use control_block::handles;
use control_word::Refusal;
use shared_handle::{Pile, Shared, downgrade, drop_shared, make, release_weak};
use std::alloc::Global;

// What the store into the member found, the values as the pile ends both, and how many are left on it.
type Ends = (Option<Was>, Option<u64>, Option<u64>, usize);

// An owner goes into the last member of the whole: what the store found.
#[tactic(auto, using(atomic_cells::proofs::Members::more_open))]
fn put_last(
    domain: &Domain<u64>,
    desk: &mut Desk<u64>,
    whole: &Shared,
    owner: Shared,
) -> Option<Was>
    requires domain { Belongs desk.old domain.now }
    requires eight { desk.old.shape.owners ≡ 8 }
    requires whole { HoldsHandle desk.old Owner whole.now.block whole.now.place }
    requires held { HoldsHandle desk.old Owner owner.block owner.place }
    ensures desk { IsSameDesk desk.old desk.new }
    ensures bag { bag_of desk.new ≡ without_handle Owner owner.block owner.place (bag_of desk.old) }
    ensures held { desk.new.held + 1 ≡ desk.old.held }
{
    match SharedAt::more(whole, 5) {
        Ok(at) => Some(told(at.store(domain, desk, owner))),
        Err(_) => {
            end(domain, desk, owner);
            None
        }
    }
}

// An object goes into the last member of another, whose only owner leaves.
fn nest(alloc: Global, domain: &Domain<u64>, desk: &mut Desk<u64>) -> Option<Ends>
    requires domain { Belongs desk.old domain.now }
    requires eight { domain.now.shape.owners ≡ 8 }
    ensures desk { IsSameDesk desk.old desk.new }
{
    let Ok(whole) = make(domain, desk, [1, 0, 0, 0], false, 1) else {
        return None;
    };
    let Ok(part) = make(domain, desk, [2, 0, 0, 0], false, 2) else {
        end(domain, desk, whole);
        return None;
    };
    let stored = put_last(domain, desk, &whole, part);
    let Ok(mut pile) = Pile::new(alloc, domain) else {
        end(domain, desk, whole);
        return None;
    };
    let _gone = drop_shared(domain, desk, &mut pile, whole);
    let first = pile.end_next(domain, desk);
    let then = pile.end_next(domain, desk);
    Some((stored, first, then, pile.close()))
}

// A weak handle goes into the last member of the whole: what the store found.
#[tactic(auto, using(atomic_cells::proofs::Members::more_weak_open))]
fn watch_last(
    domain: &Domain<u64>,
    desk: &mut Desk<u64>,
    whole: &Shared,
    weak: handles::Weak,
) -> Option<Was>
    requires domain { Belongs desk.old domain.now }
    requires seven { desk.old.shape.weaks ≡ 7 }
    requires whole { HoldsHandle desk.old Owner whole.now.block whole.now.place }
    requires held { HoldsHandle desk.old Weak weak.block weak.place }
    ensures desk { IsSameDesk desk.old desk.new }
    ensures bag { bag_of desk.new ≡ without_handle Weak weak.block weak.place (bag_of desk.old) }
    ensures held { desk.new.held + 1 ≡ desk.old.held }
{
    match WeakAt::more(whole, 5) {
        Ok(at) => Some(told(at.store(domain, desk, weak))),
        Err(_) => {
            release_weak(domain, desk, weak);
            None
        }
    }
}

// What the store into the weak member found, each object's value with the vacant blocks after its end.
type Watched = (Option<Was>, (Option<u64>, u32), (Option<u64>, u32));

// The last member of a whole watches a part, whose only owner leaves before the whole's.
fn watch(domain: &Domain<u64>, desk: &mut Desk<u64>) -> Option<Watched>
    requires domain { Belongs desk.old domain.now }
    requires seven { domain.now.shape.weaks ≡ 7 }
    ensures desk { IsSameDesk desk.old desk.new }
{
    let Ok(whole) = make(domain, desk, [1, 0, 0, 0], false, 1) else {
        return None;
    };
    let Ok(part) = make(domain, desk, [2, 0, 0, 0], false, 2) else {
        end(domain, desk, whole);
        return None;
    };
    let Ok(weak) = downgrade(domain, desk, &part) else {
        end(domain, desk, part);
        end(domain, desk, whole);
        return None;
    };
    let stored = watch_last(domain, desk, &whole, weak);
    let second = end(domain, desk, part);
    let between = desk.stock();
    let first = end(domain, desk, whole);
    Some((stored, (second, between), (first, desk.stock())))
}

// The same in a domain of its own.
fn watched(alloc: Global) -> Option<Watched> {
    let Ok((domain, mut desk)) = open(alloc, shape_of_members(2, 7, 2, 4)) else {
        return None;
    };
    let seen = watch(&domain, &mut desk);
    shut(domain, desk);
    seen
}

// Why no domain opens with so many owner and weak members, if none does.
fn refused(alloc: Global, owners: u32, weaks: u32) -> Option<Refusal> {
    match open::<u64>(alloc, shape_of_members(owners, weaks, 2, 4)) {
        Ok((domain, desk)) => {
            shut(domain, desk);
            None
        }
        Err(why) => Some(why),
    }
}

// The same as `nest` in a domain of its own, and how many blocks are vacant then.
fn ended(alloc: Global) -> Option<(Option<Ends>, u32)> {
    let Ok((domain, mut desk)) = open(alloc, shape_of_members(8, 1, 2, 4)) else {
        return None;
    };
    let seen = nest(alloc, &domain, &mut desk);
    Some((seen, shut(domain, desk)))
}

#[test]
fn what_the_last_of_nine_members_held_ends_too(rt: HostRuntime) {
    let seen = (Some(Was::Empty), Some(1), Some(2), 0);
    same(&rt, ended(rt.alloc()), Some((Some(seen), 2)));
}

#[test]
fn what_the_last_of_seven_weak_members_watched_has_its_block_till_then(rt: HostRuntime) {
    let seen = (Some(Was::Empty), (Some(2), 0), (Some(1), 2));
    same(&rt, watched(rt.alloc()), Some(seen));
}

/// Owner and weak members, and whether a domain opens with them.
const SPLITS: [(u32, u32, bool); 8] = [
    (8, 1, true),
    (2, 7, true),
    (2, 1, true),
    (9, 1, false),
    (8, 2, false),
    (2, 8, false),
    (1, 1, false),
    (2, 0, false),
];

#[test]
fn a_domain_opens_with_nine_members_at_most(rt: HostRuntime) {
    for (owners, weaks, opens) in SPLITS {
        let why = if opens { None } else { Some(Refusal::Shape) };
        let told = refused(rt.alloc(), owners, weaks);
        same(&rt, (owners, weaks, told), (owners, weaks, why));
    }
}
