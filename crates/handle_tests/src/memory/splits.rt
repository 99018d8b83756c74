//! A split with handles of both kinds that wants memory.
ghost use Rattle.std.specs.Prelude.{◌≡◌, ◌<◌, ◌≤◌, length, IfErr, IfOk};
ghost use Rattle.control_block.specs.Desks.{Belongs, IsSameDesk, bag_of, stock_of};
ghost use Rattle.control_block.specs.Parting.{HoldsAll};

use crate::desks::splits::{abandon, numbers};
use crate::listed::slots::leave;
use crate::parts::end;
use crate::same::is_told;
use crate::shapes::shape;
use control_block::desk::Desk;
use control_block::domain::{Domain, open};
use control_block::handles::Held;
use control_word::{Block, Place, Refusal, Refused};
use shared_handle::{downgrade, make};
use std::alloc::Global;
use std::test::Fail;

/// Whether a handle is an owner, and where it points.
type Shown = (bool, Option<Place>);

/// The first two of a list.
fn shown(handles: &[Held]) -> [Option<Shown>; 2] {
    let show = |handle: &Held| match handle {
        Held::Owner(owner) => (true, owner.place()),
        Held::Weak(weak) => (false, weak.place()),
    };
    [handles.get(0).map(show), handles.get(1).map(show)]
}

/// All handles of a list leave.
#[tactic(auto, using(crate::proofs::Parting::last_held))]
fn leave_all(domain: &Domain<u64>, desk: &mut Desk<u64>, handles: Vec<Held>)
    requires domain { Belongs desk.old domain.now }
    requires holds { HoldsAll desk.old handles.items }
    ensures { IsSameDesk desk.old desk.new }
{
    let mut handles = handles;
    while let Some(handle) = handles.pop() {
        leave(domain, desk, handle);
    }
    handles.destroy_empty();
}

/// A weak handle of a new object, and its owner.
#[tactic(auto, using(crate::proofs::Parting::both_held, crate::proofs::Hands::keeps_desk))]
fn two_handles(
    domain: &Domain<u64>,
    desk: &mut Desk<u64>,
    alloc: Global,
) -> Result<Vec<Held>, Refusal>
    requires domain { Belongs desk.old domain.now }
    ensures desk { IsSameDesk desk.old desk.new }
    ensures holds { IfOk result (λ v. HoldsAll desk.new v.items) }
{
    desk.assert_invariant();
    let Ok(mut handles) = Vec::with_capacity(alloc, 2) else {
        return Err(Refusal::Memory);
    };
    let Ok(owner) = make(domain, desk, [0; 4], false, 7) else {
        handles.destroy_empty();
        return Err(Refusal::Full);
    };
    desk.assert_invariant();
    match downgrade(domain, desk, &owner) {
        Ok(weak) => {
            handles.push_reserved(Held::Weak(weak));
            handles.push_reserved(Held::Owner(owner));
            Ok(handles)
        }
        Err(why) => {
            end(domain, desk, owner);
            handles.destroy_empty();
            Err(why)
        }
    }
}

/// A desk parts with these handles, which leave on the second one, and both are joined: what came back, or why not, and
/// the handles.
#[tactic(auto, using(crate::proofs::Parting::given_away, crate::proofs::Parting::same_held))]
fn part_with(
    domain: &Domain<u64>,
    desk: &mut Desk<u64>,
    alloc: Global,
    handles: Vec<Held>,
) -> Result<[Option<Shown>; 2], (Refusal, Vec<Held>)>
    requires domain { Belongs desk.old domain.now }
    requires holds { HoldsAll desk.old handles.items }
    ensures domain { Belongs desk.new domain.now }
    ensures back { IfErr result (λ r. HoldsAll desk.new r.1.items) }
{
    match desk.split(alloc, domain, 3, 0, handles) {
        Ok((mut two, handles)) => {
            let told = shown(handles.as_slice());
            leave_all(domain, &mut two, handles);
            desk.join(domain, two);
            Ok(told)
        }
        Err(refused) => {
            let Refused { why, back } = refused;
            Err((why, back))
        }
    }
}

/// What comes back of two splits, the first of which may be refused, and what the desk has then.
type Told = ([[Option<Shown>; 2]; 2], (u32, u32, u32));

/// A refused split is tried again, with what it handed back.
fn part_again(
    domain: &Domain<u64>,
    desk: &mut Desk<u64>,
    alloc: Global,
    handles: Vec<Held>,
) -> Result<Told, Refusal>
    requires domain { Belongs desk.old domain.now }
    requires holds { HoldsAll desk.old handles.items }
{
    let back = match part_with(domain, desk, alloc, handles) {
        Ok(first) => return Ok(([first, first], numbers(desk))),
        Err((_, back)) => back,
    };
    let first = shown(back.as_slice());
    match part_with(domain, desk, alloc, back) {
        Ok(second) => Ok(([first, second], numbers(desk))),
        Err((why, back)) => {
            leave_all(domain, desk, back);
            Err(why)
        }
    }
}

/// The same in a domain of its own.
fn parted(alloc: Global) -> Result<Told, Refusal> {
    let (domain, mut desk) = match open(alloc, shape(1, 8)) {
        Ok(opened) => opened,
        Err(why) => return Err(why),
    };
    let told = match two_handles(&domain, &mut desk, alloc) {
        Ok(handles) => part_again(&domain, &mut desk, alloc, handles),
        Err(why) => Err(why),
    };
    abandon(domain, desk);
    told
}

#[test]
fn a_refused_split_hands_its_handles_back_in_order(rt: HostRuntime) -> Result<(), Fail> {
    let at = Some(Place {
        block: Block::numbered(1),
        field: 0,
    });
    let both = [Some((false, at)), Some((true, at))];
    let told = match parted(rt.alloc()) {
        Err(Refusal::Memory) => parted(rt.alloc()),
        told => told,
    };
    is_told(&rt, told, ([both, both], (8, 0, 1)))
}
