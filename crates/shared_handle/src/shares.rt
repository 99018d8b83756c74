//! Further owners, and owners that leave.
ghost use Rattle.std.specs.Prelude.{◌≡◌, ◌↔◌, ◌+◌, IfErr, IfOk, IsErr, OnOk};
ghost use Rattle.control_word.specs.declared.model.handle.Kind.TheVariants.{Owner};
ghost use Rattle.control_block.specs.Desks.{Belongs, Keeps, KeepsStock, allowance_of, bag_of, endings_of, held_of};
ghost use Rattle.shared_handle.specs.Calls.{MayGive, SharesOwner, pointed};
ghost use Rattle.control_block.specs.CellCalls.{HoldsHandle, with_handle, without_handle};
ghost use Rattle.shared_handle.specs.Endings.{IsApart, IsLeft, more_ending};

use crate::endings::Left;
use crate::makes::empty_at;
use crate::pointers::{owner_pointer, pointed};
use control_block::calls;
use control_block::desk::Desk;
use control_block::domain::Domain;
use control_block::handles::Shared;
use control_word::model::handle::Kind;
use control_word::{Handle, HandleWord, Place, Refusal};

/// One owner more, with this word: it points at the handle's own place, the object's or any proper one.
#[inline(always)]
pub(crate) fn share_to<V: Drop>(
    domain: &Domain<V>,
    desk: &mut Desk<V>,
    handle: &Shared,
    word: HandleWord,
) -> Result<Shared, Refusal>
    requires domain { Belongs desk.old domain.now }
    requires holds { HoldsHandle desk.old Owner handle.now.block handle.now.place }
    requires block { word.block ≡ handle.now.block }
    requires place { MayGive handle.now.block handle.now.place word.place }
    ensures limit { IsErr result ↔ (held_of desk.old ≡ allowance_of desk.old) }
    ensures refused { IfErr result (λ why. (why ≡ Refusal.Limit) × (desk.new ≡ desk.old)) }
    ensures handle { IfOk result (λ h. (h.block ≡ handle.now.block) × (h.place ≡ word.place)) }
    ensures event { OnOk result (SharesOwner desk.old handle.now.block handle.now.place word.place desk.new) }
    ensures bag { OnOk result (bag_of desk.new ≡ with_handle Owner handle.now.block word.place (bag_of desk.old)) }
    ensures held { OnOk result (desk.new.held ≡ desk.old.held + 1) }
    ensures holds { IfOk result (λ h. HoldsHandle desk.new Owner h.block h.place) }
    ensures keeps { OnOk result (Keeps desk.old desk.new) }
{
    let Some(of) = owner_pointer(handle) else {
        return empty_at(desk, word);
    };
    calls::share(domain, desk, of, word)
}

/// A copy: one owner more, which points where the handle does ([util.smartptr.shared.const]). A copy of an empty
/// pointer is empty, points there too, and touches no word. It is refused `Limit` just where the desk is at its
/// allowance, and then nothing changes.
pub fn share<V: Drop>(
    domain: &Domain<V>,
    desk: &mut Desk<V>,
    handle: &Shared,
) -> Result<Shared, Refusal>
    requires domain { Belongs desk.old domain.now }
    requires holds { HoldsHandle desk.old Owner handle.now.block handle.now.place }
    ensures limit { IsErr result ↔ (held_of desk.old ≡ allowance_of desk.old) }
    ensures refused { IfErr result (λ why. (why ≡ Refusal.Limit) × (desk.new ≡ desk.old)) }
    ensures handle { IfOk result (λ h. (h.block ≡ handle.now.block) × (h.place ≡ handle.now.place)) }
    ensures event { OnOk result (SharesOwner desk.old handle.now.block handle.now.place handle.now.place desk.new) }
    ensures bag { OnOk result
        (bag_of desk.new ≡ with_handle Owner handle.now.block handle.now.place (bag_of desk.old)) }
    ensures held { OnOk result (desk.new.held ≡ desk.old.held + 1) }
    ensures holds { IfOk result (λ h. HoldsHandle desk.new Owner h.block h.place) }
    ensures keeps { OnOk result (Keeps desk.old desk.new) }
{
    share_to(domain, desk, handle, handle.word())
}

/// The aliasing constructor ([util.smartptr.shared.const]): one owner more of what the handle owns, which points at a
/// place. Of an empty handle it is empty, and points there all the same. Every place that a handle has or `place` told,
/// and field 0 of the handle's object, is a field of a block, and taken as it is (`given`); one that isn't, in block 0
/// or with a field above 3, is null (own). It is refused `Limit` just where the desk is at its allowance, and then
/// nothing changes.
pub fn alias<V: Drop>(
    domain: &Domain<V>,
    desk: &mut Desk<V>,
    handle: &Shared,
    place: Option<Place>,
) -> Result<Shared, Refusal>
    requires domain { Belongs desk.old domain.now }
    requires holds { HoldsHandle desk.old Owner handle.now.block handle.now.place }
    ensures given { MayGive handle.now.block handle.now.place place → pointed place ≡ place }
    ensures limit { IsErr result ↔ (held_of desk.old ≡ allowance_of desk.old) }
    ensures refused { IfErr result (λ why. (why ≡ Refusal.Limit) × (desk.new ≡ desk.old)) }
    ensures handle { IfOk result (λ h. (h.block ≡ handle.now.block) × (h.place ≡ pointed place)) }
    ensures event { OnOk result (SharesOwner desk.old handle.now.block handle.now.place (pointed place) desk.new) }
    ensures bag { OnOk result
        (bag_of desk.new ≡ with_handle Owner handle.now.block (pointed place) (bag_of desk.old)) }
    ensures held { OnOk result (desk.new.held ≡ desk.old.held + 1) }
    ensures holds { IfOk result (λ h. HoldsHandle desk.new Owner h.block h.place) }
    ensures keeps { OnOk result (Keeps desk.old desk.new) }
{
    desk.assert_invariant();
    share_to(
        domain,
        desk,
        handle,
        handle.word().with_place(pointed(place)),
    )
}

/// An owner leaves ([util.smartptr.shared.dest]): it was `Empty`, `Others` own the object still, or it was the `Last`,
/// and the object ends in the desk's hands, in another block than all that ended there before.
pub fn release<V: Drop>(domain: &Domain<V>, desk: &mut Desk<V>, handle: Shared) -> Left<V>
    requires domain { Belongs desk.old domain.now }
    requires holds { HoldsHandle desk.old Owner handle.block handle.place }
    ensures left { IsLeft desk.old handle.block handle.place result desk.new }
    ensures bag { bag_of desk.new ≡ without_handle Owner handle.block handle.place (bag_of desk.old) }
    ensures held { desk.new.held + 1 ≡ desk.old.held }
    ensures keeps { KeepsStock desk.old desk.new }
    ensures count { endings_of desk.new ≡ endings_of desk.old + more_ending result }
    ensures apart { IsApart desk.old result }
{
    let word = handle.into_word();
    let Some(block) = word.block() else {
        calls::spend_empty(desk);
        return Left::Empty;
    };
    let of = Handle {
        kind: Kind::Owner,
        block,
        place: word.place(),
    };
    let released = calls::leave(domain, desk, of);
    Left::of_parts(domain, Some(block), released.value)
}
