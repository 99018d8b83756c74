//! Calls on a scene, with nodes in seats.
ghost use Rattle.std.specs.Prelude.{◌≡◌, []};
ghost use Rattle.control_block.specs.Desks.{Belongs, IsSameDesk};
ghost use Rattle.scene_structures.specs.Stacks.{ServesDomain};

use crate::calls::handles::take;
use crate::calls::listed::{Answer, Call, Seat};
use crate::calls::seats::{keep, load, spend};
use control_block::desk::Desk;
use control_block::domain::Domain;
use control_word::{Refusal, Refused};
use scene_structures::Scene;
use shared_handle::{Pile, read};
use std::alloc::Global;
use std::sync::Wait;

/// The node in a seat gets a child, which goes into another.
fn add_child<R: Wait>(
    rt: &R,
    domain: &Domain<u64>,
    desk: &mut Desk<u64>,
    scene: &mut Scene<u64>,
    of: Seat,
    value: u64,
    to: Seat,
    pile: &mut Pile<u64>,
) -> Answer
    requires domain { Belongs desk.old domain.now }
    requires cells { domain.now.shape.shared_cells ≡ 5 }
    requires scene { ServesDomain domain.now scene.old }
    requires serves { ServesDomain domain.now pile.old }
    ensures scene { ServesDomain domain.now scene.new }
    ensures serves { ServesDomain domain.now pile.new }
    ensures desk { IsSameDesk desk.old desk.new }
{
    let parent = match load(rt, domain, desk, of) {
        Ok(parent) => parent,
        Err(why) => return Answer::Not(why),
    };
    let told = scene.add_child(rt, domain, desk, &parent, [value, 0, 0, 0], value);
    spend(rt, domain, desk, parent, pile);
    match told {
        Ok(child) => {
            keep(rt, domain, desk, child, to, pile);
            Answer::Done
        }
        Err(refused) => {
            let Refused { why, back } = refused;
            Answer::Back(why, back)
        }
    }
}

/// The node in a seat goes out of its parent's children.
fn detach<R: Wait>(
    rt: &R,
    domain: &Domain<u64>,
    desk: &mut Desk<u64>,
    scene: &mut Scene<u64>,
    of: Seat,
    pile: &mut Pile<u64>,
) -> Answer
    requires domain { Belongs desk.old domain.now }
    requires cells { domain.now.shape.shared_cells ≡ 5 }
    requires scene { ServesDomain domain.now scene.old }
    requires serves { ServesDomain domain.now pile.old }
    ensures scene { ServesDomain domain.now scene.new }
    ensures serves { ServesDomain domain.now pile.new }
    ensures desk { IsSameDesk desk.old desk.new }
{
    let node = match load(rt, domain, desk, of) {
        Ok(node) => node,
        Err(why) => return Answer::Not(why),
    };
    let told = scene.detach(rt, domain, desk, &node);
    spend(rt, domain, desk, node, pile);
    match told {
        Ok(()) => Answer::Done,
        Err(why) => Answer::Not(why),
    }
}

/// The field of a handle, if it has an object.
fn field_of(told: Result<u64, Refusal>) -> Answer {
    match told {
        Ok(field) => Answer::Field(field),
        Err(_) => Answer::Nobody,
    }
}

/// The field of the parent of the node in a seat.
fn parent<R: Wait>(
    rt: &R,
    domain: &Domain<u64>,
    desk: &mut Desk<u64>,
    scene: &Scene<u64>,
    of: Seat,
    pile: &mut Pile<u64>,
) -> Answer
    requires domain { Belongs desk.old domain.now }
    requires cells { domain.now.shape.shared_cells ≡ 5 }
    requires serves { ServesDomain domain.now pile.old }
    ensures serves { ServesDomain domain.now pile.new }
    ensures desk { IsSameDesk desk.old desk.new }
{
    let node = match load(rt, domain, desk, of) {
        Ok(node) => node,
        Err(why) => return Answer::Not(why),
    };
    match scene.parent(rt, domain, desk, &node) {
        Ok(parent) => {
            let field = read(domain, desk, &parent);
            spend(rt, domain, desk, parent, pile);
            spend(rt, domain, desk, node, pile);
            field_of(field)
        }
        Err(why) => {
            spend(rt, domain, desk, node, pile);
            Answer::Not(why)
        }
    }
}

/// Waits until nothing is left on the scene's pile.
fn settled<R: Wait>(rt: &R, scene: &Scene<u64>)
    ensures { scene.now.endings.items ≡ [] }
{
    for _ in rt.forever() {
        if scene.is_settled() {
            return;
        }
    }
    unreachable!()
}

/// The values of what ends by the root in a seat; where memory is refused, the root is there again.
pub(crate) fn tear_down<R: Wait>(
    rt: &R,
    alloc: Global,
    domain: &Domain<u64>,
    desk: &mut Desk<u64>,
    scene: &mut Scene<u64>,
    seat: Seat,
    pile: &mut Pile<u64>,
) -> Result<Vec<u64>, Answer>
    requires domain { Belongs desk.old domain.now }
    requires cells { domain.now.shape.shared_cells ≡ 5 }
    requires scene { ServesDomain domain.now scene.old }
    requires serves { ServesDomain domain.now pile.old }
    ensures scene { ServesDomain domain.now scene.new }
    ensures serves { ServesDomain domain.now pile.new }
    ensures desk { IsSameDesk desk.old desk.new }
{
    let root = match take(domain, desk, seat) {
        Ok(root) => root,
        Err(why) => return Err(Answer::Not(why)),
    };
    match scene.teardown(alloc, domain, desk, root) {
        Ok(values) => {
            settled(rt, scene);
            Ok(values)
        }
        Err(refused) => {
            let Refused { why, back } = refused;
            keep(rt, domain, desk, back, seat, pile);
            Err(Answer::Not(why))
        }
    }
}

/// What ended, as digits.
fn ended(told: Result<Vec<u64>, Answer>) -> Answer {
    match told {
        Ok(values) => {
            let mut digits = 0u64;
            for value in &values {
                digits = digits.wrapping_mul(10).wrapping_add(*value);
            }
            Answer::Values(digits)
        }
        Err(answer) => answer,
    }
}

/// What a call on a scene answers.
pub(crate) fn on_scene<R: Wait>(
    rt: &R,
    alloc: Global,
    domain: &Domain<u64>,
    desk: &mut Desk<u64>,
    scene: &mut Scene<u64>,
    pile: &mut Pile<u64>,
    call: Call,
) -> Option<Answer>
    requires domain { Belongs desk.old domain.now }
    requires cells { domain.now.shape.shared_cells ≡ 5 }
    requires scene { ServesDomain domain.now scene.old }
    requires serves { ServesDomain domain.now pile.old }
    ensures scene { ServesDomain domain.now scene.new }
    ensures serves { ServesDomain domain.now pile.new }
    ensures desk { IsSameDesk desk.old desk.new }
{
    Some(match call {
        Call::AddChild(of, value, to) => add_child(rt, domain, desk, scene, of, value, to, pile),
        Call::Detach(of) => detach(rt, domain, desk, scene, of, pile),
        Call::Parent(of) => parent(rt, domain, desk, scene, of, pile),
        Call::Teardown(seat) => ended(tear_down(rt, alloc, domain, desk, scene, seat, pile)),
        _ => return None,
    })
}
