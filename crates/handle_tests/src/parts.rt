//! What the tests have in common: shapes, ends, and handles that go from one desk to another.
ghost use Rattle.std.specs.Prelude.{◌≡◌, ◌+◌, ◌<◌, ◌≤◌, ◌∷◌, [], IfErr, IfOk, IfSome, None, Some};
ghost use Rattle.std.specs.Prelude.{length};
ghost use Rattle.shared_handle.specs.Prelude.{Owner, Block, Belongs, IsSameDesk, allowance_of, bag_of, stock_of};
ghost use Rattle.shared_handle.specs.Prelude.{HoldsHandle};
ghost use Rattle.shared_handle.specs.Prelude.{with_handle, without_handle, EndsInHand};
ghost use Rattle.control_block.specs.Desks.{KeepsOtherEndings};
ghost use Rattle.shared_handle.specs.Endings.{with_clear};

pub(crate) use crate::shapes::shape;
use control_block::census::close;
use control_block::desk::Desk;
use control_block::domain::Domain;
use control_word::Refused;
use shared_handle::{Ending, Held, Left, Shared, release};
use std::alloc::{AllocFailed, Global};

// A sole desk closes its domain: how many vacant blocks it had.
pub(crate) fn shut<V: Drop>(domain: Domain<V>, desk: Desk<V>) -> u32
    requires domain { Belongs desk domain }
    requires sole { allowance_of desk ≡ domain.shape.allowance }
{
    let stock = desk.stock();
    match close(domain, desk) {
        Ok(census) => drop(census),
        Err(_) => unreachable!(),
    }
    stock
}

// What was left of an object when an owner left.
#[derive(Clone, Copy, PartialEq, Eq, Debug, Drop)]
pub(crate) enum Was {
    Empty,
    Others,
    Last,
}

// What was left of what a cell held: where that was an object's last owner, the object is given up.
pub(crate) fn told<V: Drop>(left: Left<V>) -> Was {
    match left {
        Left::Empty => Was::Empty,
        Left::Others => Was::Others,
        Left::Last(ending) => {
            ending.forget();
            Was::Last
        }
    }
}

// What the first member that isn't cleared yet held; an empty one where all are clear.
pub(crate) fn clear<V: Drop>(domain: &Domain<V>, desk: &mut Desk<V>, ending: &mut Ending<V>) -> Was
    requires domain { Belongs desk.old domain.now }
    requires ends { EndsInHand desk.old ending.old }
    ensures ends { EndsInHand desk.new ending.new }
    ensures noted { ending.old.cleared < ending.old.members → ending.new ≡ with_clear ending.old }
    ensures block { ending.new.block ≡ ending.old.block }
    ensures desk { IsSameDesk desk.old desk.new }
    ensures bag { bag_of desk.new ≡ bag_of desk.old }
    ensures held { desk.new.held ≡ desk.old.held }
    ensures endings { KeepsOtherEndings desk.old ending.old.block.0 desk.new }
{
    if ending.is_clear() {
        return Was::Empty;
    }
    told(ending.clear_next(domain, desk))
}

// What an object's end finds: in first, next and up, and its value.
pub(crate) type Found<V> = (Was, Was, Was, V);

// The end of an object whose members are the last owners of none.
pub(crate) fn end_of<V: Drop>(domain: &Domain<V>, desk: &mut Desk<V>, ending: Ending<V>) -> Found<V>
    requires domain { Belongs desk.old domain.now }
    requires ends { EndsInHand desk.old ending }
    ensures desk { IsSameDesk desk.old desk.new }
    ensures bag { bag_of desk.new ≡ bag_of desk.old }
    ensures held { desk.new.held ≡ desk.old.held }
    ensures endings { KeepsOtherEndings desk.old ending.block.0 desk.new }
{
    let mut ending = ending;
    let first = clear(domain, desk, &mut ending);
    let next = clear(domain, desk, &mut ending);
    let up = clear(domain, desk, &mut ending);
    while !ending.is_clear() {
        clear(domain, desk, &mut ending);
    }
    let value = ending.finish(domain, desk);
    (first, next, up, value)
}

// The value of the object that the handle was the last owner of.
pub(crate) fn end<V: Drop>(domain: &Domain<V>, desk: &mut Desk<V>, handle: Shared) -> Option<V>
    requires domain { Belongs desk.old domain.now }
    requires holds { HoldsHandle desk.old Owner handle.block handle.place }
    ensures desk { IsSameDesk desk.old desk.new }
    ensures bag { bag_of desk.new ≡ without_handle Owner handle.block handle.place (bag_of desk.old) }
    ensures held { desk.new.held + 1 ≡ desk.old.held }
{
    match release(domain, desk, handle) {
        Left::Empty | Left::Others => None,
        Left::Last(ending) => {
            let (_, _, _, value) = end_of(domain, desk, ending);
            Some(value)
        }
    }
}

// A second desk that has this handle.
pub(crate) fn hand_over(
    domain: &Domain<u64>,
    desk: &mut Desk<u64>,
    alloc: Global,
    allowance: u32,
    blocks: u32,
    handle: Shared,
) -> Result<(Desk<u64>, Shared), Shared>
    requires domain { Belongs desk.old domain.now }
    requires held { HoldsHandle desk.old Owner handle.block handle.place }
    requires blocks { blocks ≤ length (stock_of desk.old) }
    ensures one { (desk.new.domain ≡ desk.old.domain) × (desk.new.shape ≡ desk.old.shape)
        × (desk.new.name ≡ desk.old.name) }
    ensures two { IfOk result (λ r. (r.0.domain ≡ desk.old.domain) × (r.0.shape ≡ desk.old.shape)) }
    ensures sum { IfOk result
        (λ r. (allowance_of r.0 ≡ allowance) × (allowance_of desk.new + allowance ≡ allowance_of desk.old)) }
    ensures bag { IfOk result
        (λ r. bag_of desk.new ≡ without_handle Owner handle.block handle.place (bag_of desk.old)) }
    ensures other { IfOk result (λ r. (r.1.block ≡ handle.block) × (r.1.place ≡ handle.place)) }
    ensures given { IfOk result (λ r. bag_of r.0 ≡ with_handle Owner r.1.block r.1.place []) }
    ensures held { IfOk result (λ r. HoldsHandle r.0 Owner r.1.block r.1.place) }
    ensures same { IfErr result (λ h. (h ≡ handle) × (desk.new ≡ desk.old)) }
{
    let mut handles = Vec::new(alloc);
    match handles.push(Held::Owner(handle)) {
        Ok(()) => {}
        Err(failed) => {
            let AllocFailed { value } = failed;
            handles.destroy_empty();
            return Err(owner_of(value));
        }
    }
    match desk.split(alloc, domain, allowance, blocks, handles) {
        Ok((two, handles)) => Ok((two, only_owner(handles))),
        Err(refused) => {
            let Refused { why: _, back } = refused;
            Err(only_owner(back))
        }
    }
}

fn owner_of(held: Held) -> Shared
    requires { (h : Shared) × (held ≡ Held.Owner h) }
    ensures { held ≡ Held.Owner result }
{
    match held {
        Held::Owner(owner) => owner,
        Held::Weak(weak) => {
            weak.into_word();
            unreachable!()
        }
    }
}

// The one handle of a list.
fn only_owner(handles: Vec<Held>) -> Shared
    requires { (h : Shared) × (handles.items ≡ Held.Owner h ∷ []) }
    ensures { handles.items ≡ Held.Owner result ∷ [] }
{
    let mut handles = handles;
    let Some(held) = handles.pop() else {
        unreachable!()
    };
    handles.destroy_empty();
    owner_of(held)
}

// A handle that was given away.
pub(crate) fn spent(handle: Option<Shared>)
    requires { handle ≡ None }
{
    match handle {
        None => {}
        Some(owner) => {
            owner.into_word();
            unreachable!()
        }
    }
}
