//! Nodes and entries.
ghost use Rattle.std.specs.Prelude.{◌≡◌, IfErr, IfOk, IfSome, Some};
ghost use Rattle.control_word.specs.declared.model.handle.Kind.TheVariants.{Owner};
ghost use Rattle.pointers.specs.Known.{pointed};
ghost use Rattle.pointers.specs.Objects.{IsField};
ghost use Rattle.shared_handle.specs.Calls as calls;
ghost use Rattle.pointers.specs.SiteCalls.{Loaded};
ghost use Rattle.shared_trie.specs.Refusals.{WhyNotFound, WhyNotPut};
ghost use Rattle.shared_trie.specs.Tries.{IsEntry, IsNewNode, IsNode, is_node_at};

use pointers::{Block, Call, Desk, Domain, Fault, Member, Place, Refusal, Shared};
use std::sync::Wait;

/// The field that a trie's pointers to its nodes point at. Those to entries point at another one, their key.
const NODE: u8 = 3;

/// An object that no trie put there.
pub(crate) const FOREIGN: Fault = Fault::Refused(Call::Read, Refusal::Outside);

/// Whether a pointer is one to a node.
#[inline(always)]
pub(crate) fn is_node<D: Domain>(pointer: &Shared<'_, D>) -> bool
    ensures { result ≡ is_node_at (pointed pointer.now) }
{
    match pointer.place() {
        Some(place) => place.field == NODE,
        None => false,
    }
}

/// The key of an entry: the field that it points at.
#[inline(always)]
pub(crate) fn key_of<D: Domain>(entry: &Shared<'_, D>) -> Result<u64, Fault>
    ensures key { IfOk result (IsField D.opened entry.now) }
    ensures entry { IfOk result (λ _. IsEntry entry.now) }
    ensures refused { IfErr result WhyNotFound }
{
    if is_node(entry) {
        return Err(FOREIGN);
    }
    entry.read()
}

/// Where a pointer to a node points, by one to its object.
fn node_place<D: Domain>(object: &Shared<'_, D>) -> Option<Place>
    ensures { IfSome result (λ p. (p.field ≡ 3) × (calls.pointed (Some p) ≡ Some p)) }
{
    let place = object.place()?;
    let block = Block::new(place.block.number())?;
    Some(Place { block, field: NODE })
}

/// A new node, which owns nothing.
pub(crate) fn new_node<'t, D: Domain>(desk: &'t Desk<'t, D>) -> Result<Shared<'t, D>, Fault>
where
    D::Value: Default,
    ensures new { IfOk result (IsNewNode D.opened) }
    ensures refused { IfErr result WhyNotPut }
{
    let new = desk.new(Default::default())?;
    match node_place(&new) {
        Some(place) => new.alias(Some(place)),
        None => Err(FOREIGN),
    }
}

/// The node in a place (waits): a new one where the place was empty. Of several threads that find it empty one is the
/// first, and its node stays; those of the others end.
pub(crate) fn node_in<'t, D: Domain, R: Wait>(
    rt: &R,
    desk: &'t Desk<'t, D>,
    place: &Member<'_, 't, D>,
) -> Result<Shared<'t, D>, Fault>
where
    D::Value: Default,
    ensures loaded { IfOk result (λ r. Loaded D.opened Owner place.now (Some r)) }
    ensures node { IfOk result (λ r. IsNode r) }
    ensures refused { IfErr result WhyNotPut }
{
    for _ in rt.forever() {
        if let Some(node) = place.load(rt)? {
            if is_node(&node) {
                return Ok(node);
            }
            return Err(FOREIGN);
        }
        let mut new = Some(new_node(desk)?);
        let mut none = None;
        place.compare_exchange_strong(rt, &mut none, &mut new)?;
    }
    unreachable!()
}
