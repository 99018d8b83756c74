//! Growths that are refused. `tests/refuse_allocations` runs this with each allocation refused in turn.
ghost use Rattle.std.specs.Prelude.{◌≡◌};
ghost use Rattle.control_block.specs.Desks.{Belongs, IsSameDesk, allowance_of};
ghost use Rattle.scene_structures.specs.Stacks.{ServesDomain, StandsIn};

use crate::calls::kits::{Kit, kit_in, opened, put_away, shut};
use crate::calls::listed::{Answer, Call, Seat};
use crate::calls::running::{all, answer_of};
use control_block::desk::Desk;
use control_block::domain::Domain;
use control_word::Refusal;
use std::alloc::Global;
use std::process::Abort;
use std::sync::Wait;
use std::test::Fail;

/// A root 1 with a child 2.
const GROWN: [(Call, Answer); 3] = [
    (Call::Make(Seat::A, 1), Answer::Done),
    (Call::AddChild(Seat::A, 2, Seat::B), Answer::Done),
    (Call::Reset(Seat::B), Answer::Done),
];

/// The root is back, with its child.
const BACK: [(Call, Answer); 1] = [(Call::Vacant, Answer::Count(0))];

/// The root leaves, and ends with its child.
const LEFT: [(Call, Answer); 1] = [(Call::Reset(Seat::A), Answer::Done)];

/// The root ends with its child: by its teardown, which is asked for once more where it was refused for memory, or else
/// as it leaves.
fn fell<R: Abort + Wait>(
    rt: &R,
    alloc: Global,
    domain: &Domain<u64>,
    desk: &mut Desk<u64>,
    kit: &mut Kit,
) -> Option<Answer>
    requires domain { Belongs desk.old domain.now }
    requires cells { domain.now.shape.shared_cells ≡ 5 }
    requires stands { StandsIn kit.old.stack domain.now × StandsIn kit.old.observers domain.now }
    requires serves { ServesDomain domain.now kit.old.scene × ServesDomain domain.now kit.old.pile }
    ensures desk { IsSameDesk desk.old desk.new }
{
    all(rt, alloc, domain, desk, kit, &GROWN);
    let told = answer_of(rt, alloc, domain, desk, kit, Call::Teardown(Seat::A));
    if told != Some(Answer::Not(Refusal::Memory)) {
        return told;
    }
    all(rt, alloc, domain, desk, kit, &BACK);
    let again = answer_of(rt, alloc, domain, desk, kit, Call::Teardown(Seat::A));
    if again == Some(Answer::Not(Refusal::Memory)) {
        all(rt, alloc, domain, desk, kit, &BACK);
        all(rt, alloc, domain, desk, kit, &LEFT);
    }
    again
}

/// What the teardown answers, if there is memory for it, and how many blocks are vacant then.
fn felled<R: Abort + Wait>(
    rt: &R,
    alloc: Global,
    domain: Domain<u64>,
    desk: Desk<u64>,
) -> Result<(Option<Answer>, u32), Refusal>
    requires domain { Belongs desk domain }
    requires sole { allowance_of desk ≡ domain.shape.allowance }
    requires cells { domain.shape.shared_cells ≡ 5 }
{
    let mut desk = desk;
    let Some(mut kit) = kit_in(alloc, &domain) else {
        shut(domain, desk);
        return Err(Refusal::Memory);
    };
    let told = fell(rt, alloc, &domain, &mut desk, &mut kit);
    put_away(kit);
    Ok((told, shut(domain, desk)))
}

/// The same with a domain of its own.
fn opened_and_felled<R: Abort + Wait>(
    rt: &R,
    alloc: Global,
) -> Result<(Option<Answer>, u32), Refusal> {
    match opened(alloc, 2, 8) {
        Ok((domain, desk)) => felled(rt, alloc, domain, desk),
        Err(why) => Err(why),
    }
}

/// Both have ended, and both blocks are vacant, unless a teardown was refused for memory twice.
fn is_felled<R: Abort>(rt: &R, told: Result<(Option<Answer>, u32), Refusal>) -> Result<(), Fail> {
    let is_felled = match told {
        Ok((Some(Answer::Values(digits)), vacant)) => digits == 12 && vacant == 2,
        Ok((Some(Answer::Not(why)), 2)) => return Err(why.into()),
        Ok(_) => false,
        Err(why) => return Err(why.into()),
    };
    assert!(rt; is_felled);
    Ok(())
}

#[test]
fn a_refused_teardown_gives_its_root_back(rt: HostRuntime) -> Result<(), Fail> {
    let told = match opened_and_felled(&rt, rt.alloc()) {
        Err(Refusal::Memory) => opened_and_felled(&rt, rt.alloc()),
        told => told,
    };
    is_felled(&rt, told)
}
