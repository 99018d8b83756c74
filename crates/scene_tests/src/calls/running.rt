//! Lists of calls, made by a desk with a kit.
ghost use Rattle.std.specs.Prelude.{◌≡◌};
ghost use Rattle.control_block.specs.Desks.{Belongs, IsSameDesk, allowance_of};
ghost use Rattle.scene_structures.specs.Stacks.{ServesDomain, StandsIn};

use crate::calls::handles::on_handles;
use crate::calls::kits::{Kit, kit_again, opened, put_away, shut};
use crate::calls::listed::{Answer, Call};
use crate::calls::lists::{attach, each, pop, prune, push};
use crate::calls::scenes::on_scene;
use control_block::desk::Desk;
use control_block::domain::Domain;
use std::alloc::Global;
use std::process::Abort;
use std::sync::Wait;

/// What a call on the stack or the observers answers.
fn on_lists<R: Wait>(
    rt: &R,
    domain: &Domain<u64>,
    desk: &mut Desk<u64>,
    kit: &mut Kit,
    call: Call,
) -> Option<Answer>
    requires domain { Belongs desk.old domain.now }
    requires cells { domain.now.shape.shared_cells ≡ 5 }
    requires stands { StandsIn kit.old.stack domain.now × StandsIn kit.old.observers domain.now }
    requires serves { ServesDomain domain.now kit.old.scene × ServesDomain domain.now kit.old.pile }
    ensures stands { StandsIn kit.new.stack domain.now × StandsIn kit.new.observers domain.now }
    ensures serves { ServesDomain domain.now kit.new.scene × ServesDomain domain.now kit.new.pile }
    ensures desk { IsSameDesk desk.old desk.new }
{
    Some(match call {
        Call::Push(field) => push(rt, domain, desk, &mut kit.stack, field),
        Call::Pop(seat) => pop(rt, domain, desk, &mut kit.stack, seat, &mut kit.pile),
        Call::Attach(seat) => { attach(rt, domain, desk, &mut kit.observers, seat, &mut kit.pile) }
        Call::Each => each(rt, domain, desk, &mut kit.observers),
        Call::Prune => prune(rt, domain, desk, &mut kit.observers),
        _ => return None,
    })
}

/// What a call answers.
pub(crate) fn answer_of<R: Wait>(
    rt: &R,
    alloc: Global,
    domain: &Domain<u64>,
    desk: &mut Desk<u64>,
    kit: &mut Kit,
    call: Call,
) -> Option<Answer>
    requires domain { Belongs desk.old domain.now }
    requires cells { domain.now.shape.shared_cells ≡ 5 }
    requires stands { StandsIn kit.old.stack domain.now × StandsIn kit.old.observers domain.now }
    requires serves { ServesDomain domain.now kit.old.scene × ServesDomain domain.now kit.old.pile }
    ensures stands { StandsIn kit.new.stack domain.now × StandsIn kit.new.observers domain.now }
    ensures serves { ServesDomain domain.now kit.new.scene × ServesDomain domain.now kit.new.pile }
    ensures desk { IsSameDesk desk.old desk.new }
{
    if let Some(answer) = on_handles(rt, domain, desk, &mut kit.pile, call) {
        return Some(answer);
    }
    if let Some(answer) = on_lists(rt, domain, desk, kit, call) {
        return Some(answer);
    }
    on_scene(rt, alloc, domain, desk, &mut kit.scene, &mut kit.pile, call)
}

/// The call of this number answered what it should.
fn agree<R: Abort>(rt: &R, number: usize, told: Option<Answer>, wanted: Answer) {
    assert!(rt; told == Some(wanted), "call {number} of a list");
}

/// Calls, each of which answers what stands beside it.
pub(crate) fn all<R: Abort + Wait>(
    rt: &R,
    alloc: Global,
    domain: &Domain<u64>,
    desk: &mut Desk<u64>,
    kit: &mut Kit,
    calls: &[(Call, Answer)],
)
    requires domain { Belongs desk.old domain.now }
    requires cells { domain.now.shape.shared_cells ≡ 5 }
    requires stands { StandsIn kit.old.stack domain.now × StandsIn kit.old.observers domain.now }
    requires serves { ServesDomain domain.now kit.old.scene × ServesDomain domain.now kit.old.pile }
    ensures stands { StandsIn kit.new.stack domain.now × StandsIn kit.new.observers domain.now }
    ensures serves { ServesDomain domain.now kit.new.scene × ServesDomain domain.now kit.new.pile }
    ensures desk { IsSameDesk desk.old desk.new }
{
    for (number, (call, wanted)) in calls.iter().enumerate() {
        let told = answer_of(rt, alloc, domain, desk, kit, *call);
        agree(rt, number, told, *wanted);
    }
}

/// The calls of a sole desk with a kit; whether there was memory for that.
pub(crate) fn with_kit<R: Abort + Wait>(
    rt: &R,
    alloc: Global,
    domain: Domain<u64>,
    desk: Desk<u64>,
    calls: &[(Call, Answer)],
) -> bool
    requires domain { Belongs desk domain }
    requires sole { allowance_of desk ≡ domain.shape.allowance }
    requires cells { domain.shape.shared_cells ≡ 5 }
{
    let mut desk = desk;
    let had_memory = match kit_again(alloc, &domain) {
        Some(mut kit) => {
            all(rt, alloc, &domain, &mut desk, &mut kit, calls);
            put_away(kit);
            true
        }
        None => false,
    };
    shut(domain, desk);
    had_memory
}

/// The calls of a desk that is alone in a domain of so many blocks and handles.
pub(crate) fn alone<R: Abort + Wait>(
    rt: &R,
    alloc: Global,
    blocks: u32,
    allowance: u32,
    calls: &[(Call, Answer)],
) {
    let had_memory = match opened(alloc, blocks, allowance) {
        Ok((domain, desk)) => with_kit(rt, alloc, domain, desk, calls),
        Err(_) => false,
    };
    assert!(rt; had_memory);
}
