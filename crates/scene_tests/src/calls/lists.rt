//! Calls on a stack and on observers.
ghost use Rattle.std.specs.Prelude.{◌≡◌};
ghost use Rattle.control_block.specs.Desks.{Belongs, IsSameDesk};
ghost use Rattle.scene_structures.specs.Stacks.{ServesDomain, StandsIn};

use crate::calls::listed::{Answer, Seat};
use crate::calls::seats::{keep, load, spend};
use control_block::desk::Desk;
use control_block::domain::Domain;
use control_word::{Refusal, Refused};
use scene_structures::{Observers, Stack};
use shared_handle::{Pile, read};
use std::sync::Wait;

/// What a call that was handed a value answers.
pub(crate) fn handed(told: Result<(), Refused<u64>>) -> Answer {
    match told {
        Ok(()) => Answer::Done,
        Err(refused) => {
            let Refused { why, back } = refused;
            Answer::Back(why, back)
        }
    }
}

/// A node with this field and value goes on top.
pub(crate) fn push<R: Wait>(
    rt: &R,
    domain: &Domain<u64>,
    desk: &mut Desk<u64>,
    stack: &mut Stack<u64>,
    field: u64,
) -> Answer
    requires domain { Belongs desk.old domain.now }
    requires stands { StandsIn stack.old domain.now }
    ensures stands { StandsIn stack.new domain.now }
    ensures desk { IsSameDesk desk.old desk.new }
{
    handed(stack.push(rt, domain, desk, [field, 0, 0, 0], field))
}

/// The top node goes out and into a seat: its field.
pub(crate) fn pop<R: Wait>(
    rt: &R,
    domain: &Domain<u64>,
    desk: &mut Desk<u64>,
    stack: &mut Stack<u64>,
    seat: Seat,
    pile: &mut Pile<u64>,
) -> Answer
    requires domain { Belongs desk.old domain.now }
    requires cells { domain.now.shape.shared_cells ≡ 5 }
    requires stands { StandsIn stack.old domain.now }
    requires serves { ServesDomain domain.now pile.old }
    ensures stands { StandsIn stack.new domain.now }
    ensures serves { ServesDomain domain.now pile.new }
    ensures desk { IsSameDesk desk.old desk.new }
{
    match stack.pop(rt, domain, desk) {
        Ok(Some(node)) => {
            let field = read(domain, desk, &node);
            keep(rt, domain, desk, node, seat, pile);
            match field {
                Ok(field) => Answer::Field(field),
                Err(why) => Answer::Not(why),
            }
        }
        Ok(None) => Answer::Nobody,
        Err(why) => Answer::Not(why),
    }
}

/// A node with value 9 is attached to the subject in a seat.
pub(crate) fn attach<R: Wait>(
    rt: &R,
    domain: &Domain<u64>,
    desk: &mut Desk<u64>,
    observers: &mut Observers<u64>,
    seat: Seat,
    pile: &mut Pile<u64>,
) -> Answer
    requires domain { Belongs desk.old domain.now }
    requires cells { domain.now.shape.shared_cells ≡ 5 }
    requires stands { StandsIn observers.old domain.now }
    requires serves { ServesDomain domain.now pile.old }
    ensures stands { StandsIn observers.new domain.now }
    ensures serves { ServesDomain domain.now pile.new }
    ensures desk { IsSameDesk desk.old desk.new }
{
    match load(rt, domain, desk, seat) {
        Ok(subject) => {
            let told = observers.attach(rt, domain, desk, &subject, 9);
            spend(rt, domain, desk, subject, pile);
            handed(told)
        }
        Err(why) => Answer::Not(why),
    }
}

/// How many were told of, their fields' sum, and these as digits by twos.
#[derive(Drop)]
struct Sums {
    nodes: u64,
    sum: u64,
    digits: u64,
}

impl Sums {
    fn add(&mut self, field: u64) {
        self.nodes = self.nodes.wrapping_add(1);
        self.sum = self.sum.wrapping_add(field);
        self.digits = self.digits.wrapping_mul(100).wrapping_add(field);
    }
}

/// What `each` tells.
pub(crate) fn each<R: Wait>(
    rt: &R,
    domain: &Domain<u64>,
    desk: &mut Desk<u64>,
    observers: &mut Observers<u64>,
) -> Answer
    requires domain { Belongs desk.old domain.now }
    requires stands { StandsIn observers.old domain.now }
    ensures stands { StandsIn observers.new domain.now }
    ensures desk { IsSameDesk desk.old desk.new }
{
    let mut sums = Sums {
        nodes: 0,
        sum: 0,
        digits: 0,
    };
    let each = observers.each(rt, domain, desk, |field: u64| sums.add(field));
    match each {
        Ok(()) => Answer::Told(sums.nodes, sums.sum, sums.digits),
        Err(why) => Answer::Not(why),
    }
}

/// How many observers `prune` takes out. A desk that isn't sole may not ask.
pub(crate) fn prune<R: Wait>(
    rt: &R,
    domain: &Domain<u64>,
    desk: &mut Desk<u64>,
    observers: &mut Observers<u64>,
) -> Answer
    requires domain { Belongs desk.old domain.now }
    requires stands { StandsIn observers.old domain.now }
    ensures stands { StandsIn observers.new domain.now }
    ensures desk { IsSameDesk desk.old desk.new }
{
    if !desk.is_sole(domain) {
        return Answer::Not(Refusal::NotSole);
    }
    match observers.prune(rt, domain, desk) {
        Ok(count) => Answer::Count(count),
        Err(why) => Answer::Not(why),
    }
}
