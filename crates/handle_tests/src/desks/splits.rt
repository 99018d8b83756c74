//! What a split gives and keeps.
ghost use Rattle.std.specs.Prelude.{◌≡◌, ◌+◌, ◌-◌, ◌<◌, ◌≤◌, [], ◌∷◌, length, IfOk};
ghost use Rattle.std.specs.Prelude.{IfErr, IfSome, IsTrue, None, Some};
ghost use Rattle.control_block.specs.Desks.{Belongs, allowance_of, bag_of, stock_of};
ghost use Rattle.control_block.specs.Parting.{listed};

use crate::same::same;
use crate::shapes::shape;
use control_block::census::{Census, close};
use control_block::desk::Desk;
use control_block::domain::{Domain, open};
use control_block::handles::Held;
use control_word::{Block, Refusal, Refused};
use std::alloc::Global;

pub(crate) fn abandon<V: Drop>(domain: Domain<V>, desk: Desk<V>) {
    drop(domain);
    desk.give_up();
}

// What a split of vacant slots answers.
pub(crate) fn cut(
    domain: &Domain<u64>,
    desk: &mut Desk<u64>,
    alloc: Global,
    allowance: u32,
    blocks: u32,
) -> Result<Desk<u64>, Refusal>
    requires domain { Belongs desk.old domain.now }
    requires blocks { blocks ≤ length (stock_of desk.old) }
    ensures desk { (desk.new.domain ≡ desk.old.domain) × (desk.new.shape ≡ desk.old.shape) }
    ensures stock { IfOk result
        (λ d. length (stock_of desk.new) + length (stock_of d) ≡ length (stock_of desk.old)) }
    ensures same { IfErr result (λ _. desk.new ≡ desk.old) }
    ensures other { IfOk result (λ d. (d.domain ≡ desk.old.domain) × (d.shape ≡ desk.old.shape)) }
{
    desk.split_slots(alloc, domain, allowance, blocks, &[None::<Held>, None])
}

// Allowance, handles, vacant blocks.
pub(crate) fn numbers(desk: &Desk<u64>) -> (u32, u32, u32) {
    (desk.allowance(), desk.held(), desk.stock())
}

// The number of the refusal of a split without handles; 0 where it is given, and joined again.
pub(crate) fn refusal(
    domain: &Domain<u64>,
    desk: &mut Desk<u64>,
    alloc: Global,
    allowance: u32,
    blocks: u32,
) -> u8
    requires domain { Belongs desk.old domain.now }
    requires blocks { blocks ≤ length (stock_of desk.old) }
    ensures desk { (desk.new.domain ≡ desk.old.domain) × (desk.new.shape ≡ desk.old.shape) }
    ensures stock { length (stock_of desk.new) ≡ length (stock_of desk.old) }
{
    match cut(domain, desk, alloc, allowance, blocks) {
        Ok(other) => {
            desk.join(domain, other);
            0
        }
        Err(why) => why.number(),
    }
}

// What splits answer of the most, all, no and more allowance than all, and what the desk has then.
fn refusals(alloc: Global) -> Option<([u8; 4], (u32, u32, u32))> {
    let Ok((domain, mut desk)) = open::<u64>(alloc, shape(4, 8)) else {
        return None;
    };
    let most = refusal(&domain, &mut desk, alloc, 7, 0);
    let all = refusal(&domain, &mut desk, alloc, 8, 0);
    let none = refusal(&domain, &mut desk, alloc, 0, 1);
    let more = refusal(&domain, &mut desk, alloc, u32::MAX, 0);
    let after = numbers(&desk);
    desk.assert_invariant();
    abandon(domain, desk);
    Some(([most, all, none, more], after))
}

#[test]
fn a_split_keeps_one_and_gives_one(rt: HostRuntime) {
    same(&rt, refusals(rt.alloc()), Some(([0, 4, 4, 4], (8, 0, 4))));
}

// The census of a domain that its desk closes; none where that is not sole.
pub(crate) fn closed<V: Drop>(domain: Domain<V>, desk: Desk<V>) -> Option<Census<V>>
    requires { Belongs desk domain }
{
    match close(domain, desk) {
        Ok(census) => Some(census),
        Err(refused) => {
            let Refused {
                why: _,
                back: (domain, desk),
            } = refused;
            abandon(domain, desk);
            None
        }
    }
}

// Which of four blocks are vacant once the desk closes its domain.
pub(crate) fn vacant_blocks(domain: Domain<u64>, desk: Desk<u64>) -> Option<[bool; 4]>
    requires { Belongs desk domain }
{
    match closed(domain, desk) {
        Some(census) => {
            Some([
                census.is_vacant(Block::numbered(1)),
                census.is_vacant(Block::numbered(2)),
                census.is_vacant(Block::numbered(3)),
                census.is_vacant(Block::numbered(4)),
            ])
        }
        None => None,
    }
}

// A desk that isn't sole can't close its domain: both come back, with the number of the refusal.
fn refused_close(domain: Domain<u64>, desk: Desk<u64>) -> Option<(Domain<u64>, Desk<u64>, u8)>
    requires { Belongs desk domain }
    ensures { IfSome result (λ r. (r.0 ≡ domain) × (r.1 ≡ desk)) }
{
    match close(domain, desk) {
        Ok(census) => {
            drop(census);
            None
        }
        Err(refused) => {
            let Refused {
                why,
                back: (domain, desk),
            } = refused;
            Some((domain, desk, why.number()))
        }
    }
}

// What a desk has that was cut, what the other has, and the first once they are joined.
pub(crate) type Parts = [(u32, u32, u32); 3];

// A desk is joined with the one that was cut from it: why it can't close its domain before that, and which blocks are
// vacant then.
fn join_and_close(
    domain: Domain<u64>,
    desk: Desk<u64>,
    child: Desk<u64>,
) -> Option<(Parts, u8, Option<[bool; 4]>)>
    requires { Belongs desk domain × Belongs child domain }
{
    let kept = numbers(&desk);
    let given = numbers(&child);
    let Some((domain, mut desk, why)) = refused_close(domain, desk) else {
        child.give_up();
        return None;
    };
    desk.join(&domain, child);
    let joined = numbers(&desk);
    Some(([kept, given, joined], why, vacant_blocks(domain, desk)))
}

// A desk is cut and joined.
fn cut_and_join(alloc: Global) -> Option<(Parts, u8, Option<[bool; 4]>)> {
    let Ok((domain, mut desk)) = open::<u64>(alloc, shape(4, 8)) else {
        return None;
    };
    match cut(&domain, &mut desk, alloc, 3, 1) {
        Ok(child) => join_and_close(domain, desk, child),
        Err(_) => {
            abandon(domain, desk);
            None
        }
    }
}

#[test]
fn a_desk_is_cut_and_joined(rt: HostRuntime) {
    let parts = [(5, 0, 3), (3, 0, 1), (8, 0, 4)];
    same(
        &rt,
        cut_and_join(rt.alloc()),
        Some((parts, 9, Some([true; 4]))),
    );
}
