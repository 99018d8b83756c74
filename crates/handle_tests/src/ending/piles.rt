//! A pile that becomes another's, what is left on a pile at its end, and what ends beside one.
ghost use Rattle.std.specs.Prelude.{◌≡◌, []};
ghost use Rattle.shared_handle.specs.Prelude.{Belongs, EndsInHand, IsSameDesk};
ghost use Rattle.shared_handle.specs.Piles.{Carries};

use crate::desks::splits::abandon;
use crate::ending::drops::{Counted, made};
use crate::ending::forgotten::dropped_with_census;
use crate::parts::{Found, Was, end_of, shut};
use crate::same::same;
use crate::shapes::shape;
use control_block::desk::Desk;
use control_block::domain::{Domain, open};
use control_word::{Block, Refusal};
use shared_handle::{Ending, Left, Pile, drop_shared, make, release};
use std::alloc::Global;
use std::sync::atomic::AtomicU64;

// An object whose only owner leaves, so that its end is left to the pile: its block.
fn leave_one<'a>(
    domain: &Domain<Counted<'a>>,
    desk: &mut Desk<Counted<'a>>,
    pile: &mut Pile<Counted<'a>>,
    drops: &'a AtomicU64,
) -> Option<Block>
    requires domain { Belongs desk.old domain.now }
    requires carries { Carries domain.now desk.old pile.old }
    ensures carries { Carries domain.now desk.new pile.new }
    ensures desk { IsSameDesk desk.old desk.new }
{
    let Some(owner) = made(domain, desk, drops) else {
        return None;
    };
    let block = owner.block();
    let _gone = drop_shared(domain, desk, pile, owner);
    block
}

// Two objects are left to one pile, and that joins another: how many are left on it at its end, and the block of one.
fn leave_two<'a>(
    alloc: Global,
    domain: &Domain<Counted<'a>>,
    desk: &mut Desk<Counted<'a>>,
    drops: &'a AtomicU64,
) -> Result<(usize, Option<Block>), Refusal>
    requires domain { Belongs desk.old domain.now }
    ensures desk { IsSameDesk desk.old desk.new }
{
    let mut pile = Pile::new(alloc, domain)?;
    leave_one(domain, desk, &mut pile, drops);
    let block = leave_one(domain, desk, &mut pile, drops);
    let mut all = match Pile::new(alloc, domain) {
        Ok(all) => all,
        Err(why) => {
            pile.close();
            return Err(why);
        }
    };
    let kept = match all.join(pile) {
        Ok(()) => 0,
        Err(back) => back.close(),
    };
    let left = all.close();
    Ok((left.saturating_sub(kept), block))
}

// How many are left on it, and how the values are dropped.
fn left_on_a_pile(alloc: Global, drops: &AtomicU64) -> Option<(usize, Option<[u64; 4]>)> {
    let Ok((domain, mut desk)) = open(alloc, shape(2, 8)) else {
        return None;
    };
    match leave_two(alloc, &domain, &mut desk, drops) {
        Ok((left, block)) => Some((left, dropped_with_census(domain, desk, block, drops))),
        Err(_) => {
            abandon(domain, desk);
            None
        }
    }
}

#[test]
fn a_pile_gives_up_at_its_end_what_is_left(rt: HostRuntime) {
    let drops = AtomicU64::new(0);
    let told = left_on_a_pile(rt.alloc(), &drops);
    same(&rt, told, Some((2, Some([0, 0, 2, 2]))));
}

// An object is ended by a pile while another, which is in hand, waits for its end: the value of the one, and what the
// other's end finds.
fn end_beside(
    domain: &Domain<u64>,
    desk: &mut Desk<u64>,
    pile: &mut Pile<u64>,
    ending: Ending<u64>,
) -> Option<(Option<u64>, Found<u64>)>
    requires carries { Carries domain.now desk.old pile.old }
    requires empty { pile.old.endings.items ≡ [] }
    requires ends { EndsInHand desk.old ending }
    ensures desk { IsSameDesk desk.old desk.new }
{
    let Ok(owner) = make(domain, desk, [0; 4], false, 2) else {
        ending.forget();
        return None;
    };
    let _gone = drop_shared(domain, desk, pile, owner);
    let value = pile.end_next(domain, desk);
    Some((value, end_of(domain, desk, ending)))
}

// The last owner of an object leaves, and its end is in hand while a pile ends another.
fn end_two(
    alloc: Global,
    domain: &Domain<u64>,
    desk: &mut Desk<u64>,
) -> Option<(Option<u64>, Found<u64>)>
    requires domain { Belongs desk.old domain.now }
    ensures desk { IsSameDesk desk.old desk.new }
{
    let Ok(owner) = make(domain, desk, [0; 4], false, 1) else {
        return None;
    };
    match release(domain, desk, owner) {
        Left::Empty | Left::Others => None,
        Left::Last(ending) => {
            let Ok(mut pile) = Pile::new(alloc, domain) else {
                ending.forget();
                return None;
            };
            let seen = end_beside(domain, desk, &mut pile, ending);
            pile.close();
            seen
        }
    }
}

// The same, and how many blocks are vacant then.
fn ended_beside(alloc: Global) -> Option<(Option<(Option<u64>, Found<u64>)>, u32)> {
    let Ok((domain, mut desk)) = open(alloc, shape(2, 8)) else {
        return None;
    };
    let seen = end_two(alloc, &domain, &mut desk);
    Some((seen, shut(domain, desk)))
}

#[test]
fn a_pile_leaves_alone_what_ends_in_hand(rt: HostRuntime) {
    let ended = (Some(2), (Was::Empty, Was::Empty, Was::Empty, 1));
    same(&rt, ended_beside(rt.alloc()), Some((Some(ended), 2)));
}
