ghost use Rattle.std.specs.Prelude.{◌≡◌, IfSome};
ghost use Rattle.shared_handle.specs.Prelude.{Owner, Belongs, HoldsHandle, IsSameDesk};
ghost use Rattle.control_block.specs.Desks.{KeepsEndings};

use crate::ending::forgotten::dropped_with_census;
use crate::parts::{end, shape, shut};
use crate::same::same;
use control_block::desk::Desk;
use control_block::domain::{Domain, open};
use control_word::Block;
use shared_handle::{Shared, make};
use std::alloc::Global;
use std::sync::atomic::{AtomicU64, Ordering};

// A value that counts its drops.
pub(crate) struct Counted<'a> {
    pub(crate) drops: &'a AtomicU64,
}

impl Drop for Counted<'_> {
    fn drop(self) {
        let Self { drops } = self;
        drops.fetch_add(1, Ordering::SeqCst);
    }
}

// An object with such a value, if it can be made.
pub(crate) fn made<'a>(
    domain: &Domain<Counted<'a>>,
    desk: &mut Desk<Counted<'a>>,
    drops: &'a AtomicU64,
) -> Option<Shared>
    requires domain { Belongs desk.old domain.now }
    ensures desk { IsSameDesk desk.old desk.new }
    ensures holds { IfSome result (λ h. HoldsHandle desk.new Owner h.block h.place) }
    ensures endings { KeepsEndings desk.old desk.new }
{
    match make(domain, desk, [0; 4], false, Counted { drops }) {
        Ok(owner) => Some(owner),
        Err(_) => None,
    }
}

// Makes an object and ends it: how often its value was dropped before its finish.
fn drop_by_finish<'a>(
    domain: &Domain<Counted<'a>>,
    desk: &mut Desk<Counted<'a>>,
    drops: &'a AtomicU64,
) -> u64
    requires domain { Belongs desk.old domain.now }
    ensures desk { IsSameDesk desk.old desk.new }
{
    match made(domain, desk, drops) {
        Some(owner) => drop_value(end(domain, desk, owner), drops),
        None => 9,
    }
}

// How often it was dropped before this.
fn drop_value<'a>(value: Option<Counted<'a>>, drops: &'a AtomicU64) -> u64 {
    let before = drops.load(Ordering::SeqCst);
    drop(value);
    before
}

// How often that value was dropped before its finish, after it, and after the domain's end.
fn drops_of_an_end(alloc: Global, drops: &AtomicU64) -> Option<[u64; 3]> {
    let Ok((domain, mut desk)) = open(alloc, shape(2, 8)) else {
        return None;
    };
    let before = drop_by_finish(&domain, &mut desk, drops);
    let after = drops.load(Ordering::SeqCst);
    shut(domain, desk);
    Some([before, after, drops.load(Ordering::SeqCst)])
}

#[test]
fn a_value_is_dropped_once(rt: HostRuntime) {
    let drops = AtomicU64::new(0);
    same(&rt, drops_of_an_end(rt.alloc(), &drops), Some([0, 1, 1]));
}

// Makes an object whose owner is never released: its block.
fn leave_behind<'a>(
    domain: &Domain<Counted<'a>>,
    desk: &mut Desk<Counted<'a>>,
    drops: &'a AtomicU64,
) -> Option<Block>
    requires domain { Belongs desk.old domain.now }
    ensures desk { IsSameDesk desk.old desk.new }
{
    match made(domain, desk, drops) {
        Some(owner) => owner.into_word().block(),
        None => None,
    }
}

// How that value is dropped.
fn left_behind(alloc: Global, drops: &AtomicU64) -> Option<[u64; 4]> {
    let Ok((domain, mut desk)) = open(alloc, shape(2, 8)) else {
        return None;
    };
    let block = leave_behind(&domain, &mut desk, drops);
    dropped_with_census(domain, desk, block, drops)
}

#[test]
fn a_value_left_is_dropped_with_the_census(rt: HostRuntime) {
    let drops = AtomicU64::new(0);
    same(&rt, left_behind(rt.alloc(), &drops), Some([0, 1, 1, 1]));
}
