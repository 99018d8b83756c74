//! Calls on blocks, as those on handles make them.
ghost use Rattle.std.specs.Prelude.{◌≡◌};
ghost use Rattle.control_word.specs.declared.model.handle.Kind.TheVariants as kind;
ghost use Rattle.shared_handle.specs.Prelude.{Owner, Belongs, IsSameDesk, HoldsHandle};

use crate::desks::splits::abandon;
use crate::parts::shape;
use crate::same::same;
use control_block::calls::{count_empty, is_enabled, is_expired, spend_empty};
use control_block::desk::Desk;
use control_block::domain::{Domain, open};
use control_block::handles::Held;
use control_word::model::handle::Kind;
use control_word::{Handle, Refusal};
use shared_handle::{Left, Shared, Weak, downgrade, make, release};
use std::alloc::Global;

// A desk counts one empty handle, and is asked for one more: whether it is full then, and why it gives none.
fn one_and_one_more(desk: &mut Desk<u64>) -> Option<(bool, Refusal)> {
    match count_empty(desk) {
        Ok(()) => {}
        Err(_) => return None,
    }
    let is_full = desk.is_full();
    match count_empty(desk) {
        Ok(()) => None,
        Err(why) => {
            spend_empty(desk);
            Some((is_full, why))
        }
    }
}

type Counted = ([bool; 2], Option<(bool, Refusal)>, [bool; 3]);

// Whether a desk of one handle is full before and after that, and which allowances it may give: none of them.
fn counted(alloc: Global) -> Option<Counted> {
    let Ok((domain, mut desk)) = open::<u64>(alloc, shape(1, 1)) else {
        return None;
    };
    let before = desk.is_full();
    let told = one_and_one_more(&mut desk);
    let after = desk.is_full();
    let gives = [
        desk.may_give(0, &[None::<Held>]),
        desk.may_give(1, &[None::<Held>]),
        desk.may_give(2, &[None::<Held>]),
    ];
    abandon(domain, desk);
    Some(([before, after], told, gives))
}

#[test]
fn an_empty_handle_counts(rt: HostRuntime) {
    let told = Some((true, Refusal::Limit));
    same(
        &rt,
        counted(rt.alloc()),
        Some(([false; 2], told, [false; 3])),
    );
}

// Which allowances a desk of four handles may give: it keeps one.
fn given(alloc: Global) -> Option<[bool; 4]> {
    let Ok((domain, desk)) = open::<u64>(alloc, shape(1, 4)) else {
        return None;
    };
    let gives = [
        desk.may_give(0, &[None::<Held>]),
        desk.may_give(1, &[None::<Held>]),
        desk.may_give(3, &[None::<Held>]),
        desk.may_give(4, &[None::<Held>]),
    ];
    abandon(domain, desk);
    Some(gives)
}

#[test]
fn a_desk_may_give_all_but_one(rt: HostRuntime) {
    same(&rt, given(rt.alloc()), Some([false, true, true, false]));
}

// Whether the object of an owner gives pointers to itself.
fn gives_itself(domain: &Domain<u64>, desk: &mut Desk<u64>, owner: &Shared) -> bool
    requires domain { Belongs desk.old domain.now }
    requires holds { HoldsHandle desk.old Owner owner.now.block owner.now.place }
    ensures same { desk.new ≡ desk.old }
{
    match owner.block() {
        Some(block) => is_enabled(domain, desk, block),
        None => false,
    }
}

// Whether the object of a weak handle has no owner.
fn is_over(domain: &Domain<u64>, desk: &mut Desk<u64>, weak: &Weak) -> bool
    requires domain { Belongs desk.old domain.now }
    requires holds { HoldsHandle desk.old kind.Weak weak.now.block weak.now.place }
    ensures desk { IsSameDesk desk.old desk.new }
{
    match weak.block() {
        Some(block) => {
            let of = Handle {
                kind: Kind::Weak,
                block,
                place: weak.place(),
            };
            is_expired(domain, desk, of)
        }
        None => true,
    }
}

// Of an object with an owner: whether it gives pointers to itself, and whether a weak handle of it is expired. Both
// handles are forgotten.
fn of_a_live_one(domain: &Domain<u64>, desk: &mut Desk<u64>, is_enabled: bool) -> Option<[bool; 2]>
    requires domain { Belongs desk.old domain.now }
    ensures desk { IsSameDesk desk.old desk.new }
{
    let Ok(owner) = make(domain, desk, [1, 2, 3, 4], is_enabled, 9) else {
        return None;
    };
    let gives = gives_itself(domain, desk, &owner);
    let told = match downgrade(domain, desk, &owner) {
        Ok(weak) => {
            let is_over = is_over(domain, desk, &weak);
            weak.into_word();
            Some([gives, is_over])
        }
        Err(_) => None,
    };
    owner.into_word();
    told
}

// Whether a weak handle of an object that ends is expired. It is forgotten.
fn of_one_that_ends(domain: &Domain<u64>, desk: &mut Desk<u64>) -> Option<bool>
    requires domain { Belongs desk.old domain.now }
{
    let Ok(owner) = make(domain, desk, [1, 2, 3, 4], true, 9) else {
        return None;
    };
    let ending = match release(domain, desk, owner) {
        Left::Empty | Left::Others => return None,
        Left::Last(ending) => ending,
    };
    let told = match ending.weak_from_this(domain, desk) {
        Ok(weak) => {
            let is_over = is_over(domain, desk, &weak);
            weak.into_word();
            Some(is_over)
        }
        Err(_) => None,
    };
    ending.forget();
    told
}

type Looked = (Option<[bool; 2]>, Option<[bool; 2]>, Option<bool>);

// The same of an object that gives pointers to itself, of one that doesn't, and of one that ends.
fn looked(alloc: Global) -> Option<Looked> {
    let Ok((domain, mut desk)) = open(alloc, shape(3, 8)) else {
        return None;
    };
    let enabled = of_a_live_one(&domain, &mut desk, true);
    let other = of_a_live_one(&domain, &mut desk, false);
    let ended = of_one_that_ends(&domain, &mut desk);
    abandon(domain, desk);
    Some((enabled, other, ended))
}

#[test]
fn blocks_tell_of_their_objects(rt: HostRuntime) {
    let wanted = (Some([true, false]), Some([false, false]), Some(true));
    same(&rt, looked(rt.alloc()), Some(wanted));
}
