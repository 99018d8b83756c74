//! Empty handles, and owners of new objects.
ghost use Rattle.std.specs.Prelude.{◌≡◌, ◌↔◌, ◌+◌, [], ◌∷◌, false, length, true, IfErr, IfOk};
ghost use Rattle.std.specs.Prelude.{IsErr, OnOk, None};
ghost use Rattle.control_word.specs.Handles.{IsPointer};
ghost use Rattle.control_word.specs.declared.model.handle.Kind.TheVariants.{Owner};
ghost use Rattle.control_word.specs.declared.model.handle.Kind.TheVariants as kind;
ghost use Rattle.control_block.specs.Desks.{Belongs, IsSameDesk, Keeps, KeepsEndings, allowance_of, bag_of, endings_of};
ghost use Rattle.control_block.specs.Desks.{held_of, stock_of};
ghost use Rattle.control_block.specs.Refusals.{IsFullOrLimit};
ghost use Rattle.shared_handle.specs.Calls.{Makes, counting};
ghost use Rattle.control_block.specs.CellCalls.{HoldsHandle, with_handle};

use control_block::calls;
use control_block::desk::Desk;
use control_block::domain::Domain;
use control_block::handles::{Shared, Weak};
use control_word::{HandleWord, Refusal, Refused};

/// An empty shared pointer with a null place ([util.smartptr.shared.const]). It touches no word. It is refused `Limit`
/// just where the desk is at its allowance, and then nothing changes.
pub fn empty<V: Drop>(_domain: &Domain<V>, desk: &mut Desk<V>) -> Result<Shared, Refusal>
    requires domain { Belongs desk.old _domain.now }
    ensures limit { IsErr result ↔ (held_of desk.old ≡ allowance_of desk.old) }
    ensures refused { IfErr result (λ why. (why ≡ Refusal.Limit) × (desk.new ≡ desk.old)) }
    ensures handle { IfOk result (λ h. (h.block ≡ None) × (h.place ≡ None)) }
    ensures counted { OnOk result (desk.new ≡ counting (desk.old.held + 1) desk.old) }
    ensures holds { IfOk result (λ h. HoldsHandle desk.new Owner h.block h.place) }
{
    empty_at(desk, HandleWord::of(None, None))
}

/// An empty weak pointer ([util.smartptr.weak.const]). It touches no word. It is refused `Limit` just where the desk is
/// at its allowance, and then nothing changes.
pub fn empty_weak<V: Drop>(_domain: &Domain<V>, desk: &mut Desk<V>) -> Result<Weak, Refusal>
    requires domain { Belongs desk.old _domain.now }
    ensures limit { IsErr result ↔ (held_of desk.old ≡ allowance_of desk.old) }
    ensures refused { IfErr result (λ why. (why ≡ Refusal.Limit) × (desk.new ≡ desk.old)) }
    ensures handle { IfOk result (λ h. (h.block ≡ None) × (h.place ≡ None)) }
    ensures counted { OnOk result (desk.new ≡ counting (desk.old.held + 1) desk.old) }
    ensures holds { IfOk result (λ h. HoldsHandle desk.new kind.Weak h.block h.place) }
{
    no_object(desk)
}

/// An empty owner with this word, which points at a place or nowhere. It touches no word of the table.
#[inline(always)]
pub(crate) fn empty_at<V: Drop>(desk: &mut Desk<V>, word: HandleWord) -> Result<Shared, Refusal>
    requires word { (word.block ≡ None) × IsPointer word.place }
    ensures limit { IsErr result ↔ (held_of desk.old ≡ allowance_of desk.old) }
    ensures refused { IfErr result (λ why. (why ≡ Refusal.Limit) × (desk.new ≡ desk.old)) }
    ensures handle { IfOk result (λ h. (h.block ≡ None) × (h.place ≡ word.place)) }
    ensures counted { OnOk result (desk.new ≡ counting (desk.old.held + 1) desk.old) }
    ensures bag { OnOk result (bag_of desk.new ≡ bag_of desk.old) }
    ensures held { OnOk result (desk.new.held ≡ desk.old.held + 1) }
    ensures holds { IfOk result (λ h. HoldsHandle desk.new Owner h.block h.place) }
    ensures keeps { OnOk result (Keeps desk.old desk.new) }
{
    calls::count_empty(desk)?;
    Ok(Shared::of_word(word))
}

/// A weak handle of no object, with a null place. It touches no word.
#[inline(always)]
pub(crate) fn no_object<V: Drop>(desk: &mut Desk<V>) -> Result<Weak, Refusal>
    ensures limit { IsErr result ↔ (held_of desk.old ≡ allowance_of desk.old) }
    ensures refused { IfErr result (λ why. (why ≡ Refusal.Limit) × (desk.new ≡ desk.old)) }
    ensures handle { IfOk result (λ h. (h.block ≡ None) × (h.place ≡ None)) }
    ensures counted { OnOk result (desk.new ≡ counting (desk.old.held + 1) desk.old) }
    ensures bag { OnOk result (bag_of desk.new ≡ bag_of desk.old) }
    ensures held { OnOk result (desk.new.held ≡ desk.old.held + 1) }
    ensures holds { IfOk result (λ h. HoldsHandle desk.new kind.Weak h.block h.place) }
    ensures keeps { OnOk result (Keeps desk.old desk.new) }
{
    calls::count_empty(desk)?;
    Ok(Weak::of_word(HandleWord::of(None, None)))
}

/// A new object with these fields and this value, and its owner, which points at it.
#[inline(always)]
fn make_as<V: Drop>(
    domain: &Domain<V>,
    desk: &mut Desk<V>,
    null: bool,
    fields: [u64; 4],
    enabled: bool,
    value: V,
) -> Result<Shared, Refused<V>>
    requires domain { Belongs desk.old domain.now }
    ensures refusals { IsFullOrLimit (held_of desk.old ≡ allowance_of desk.old) (stock_of desk.old ≡ []) result }
    ensures refused { IfErr result (λ r. (r.back ≡ value) × (desk.new ≡ desk.old)) }
    ensures event { IfOk result (λ h. Makes desk.old enabled null fields value h.block h.place desk.new) }
    ensures bag { IfOk result (λ h. bag_of desk.new ≡ with_handle Owner h.block h.place (bag_of desk.old)) }
    ensures held { OnOk result (desk.new.held ≡ desk.old.held + 1) }
    ensures holds { IfOk result (λ h. HoldsHandle desk.new Owner h.block h.place) }
    ensures desk { OnOk result (IsSameDesk desk.old desk.new) }
    ensures stock { OnOk result (length (stock_of desk.new) + 1 ≡ length (stock_of desk.old)) }
    ensures endings { OnOk result (KeepsEndings desk.old desk.new) }
    ensures count { OnOk result (endings_of desk.new ≡ endings_of desk.old) }
{
    match calls::make(domain, desk, enabled, null, fields, value) {
        Ok(made) => Ok(Shared::of_word(HandleWord::of(Some(made.block), made.place))),
        Err(refused) => Err(refused),
    }
}

/// A new object with four fields and an owned value, and its owner, which points at its field 0
/// ([util.smartptr.shared.create]). Where `enabled`, it gives pointers to itself ([util.smartptr.enab]). It is refused
/// `Limit` just where the desk is at its allowance, and else `Full` just where its store is empty: then the value comes
/// back, and nothing changes.
#[inline(always)]
pub fn make<V: Drop>(
    domain: &Domain<V>,
    desk: &mut Desk<V>,
    fields: [u64; 4],
    enabled: bool,
    value: V,
) -> Result<Shared, Refused<V>>
    requires domain { Belongs desk.old domain.now }
    ensures refusals { IsFullOrLimit (held_of desk.old ≡ allowance_of desk.old) (stock_of desk.old ≡ []) result }
    ensures refused { IfErr result (λ r. (r.back ≡ value) × (desk.new ≡ desk.old)) }
    ensures event { IfOk result (λ h. Makes desk.old enabled false fields value h.block h.place desk.new) }
    ensures bag { IfOk result (λ h. bag_of desk.new ≡ with_handle Owner h.block h.place (bag_of desk.old)) }
    ensures held { OnOk result (desk.new.held ≡ desk.old.held + 1) }
    ensures holds { IfOk result (λ h. HoldsHandle desk.new Owner h.block h.place) }
    ensures desk { OnOk result (IsSameDesk desk.old desk.new) }
    ensures stock { OnOk result (length (stock_of desk.new) + 1 ≡ length (stock_of desk.old)) }
    ensures endings { OnOk result (KeepsEndings desk.old desk.new) }
    ensures count { OnOk result (endings_of desk.new ≡ endings_of desk.old) }
{
    make_as(domain, desk, false, fields, enabled, value)
}

/// An owner of the null pointer ([util.smartptr.shared.const]): its place is null, its fields are 0, and its value is
/// the deleter's. Refusals are those of `make`.
pub fn make_null<V: Drop>(
    domain: &Domain<V>,
    desk: &mut Desk<V>,
    value: V,
) -> Result<Shared, Refused<V>>
    requires domain { Belongs desk.old domain.now }
    ensures refusals { IsFullOrLimit (held_of desk.old ≡ allowance_of desk.old) (stock_of desk.old ≡ []) result }
    ensures refused { IfErr result (λ r. (r.back ≡ value) × (desk.new ≡ desk.old)) }
    ensures event { IfOk result
        (λ h. Makes desk.old false true (0 ∷ 0 ∷ 0 ∷ 0 ∷ []) value h.block h.place desk.new) }
    ensures bag { IfOk result (λ h. bag_of desk.new ≡ with_handle Owner h.block h.place (bag_of desk.old)) }
    ensures held { OnOk result (desk.new.held ≡ desk.old.held + 1) }
    ensures holds { IfOk result (λ h. HoldsHandle desk.new Owner h.block h.place) }
    ensures desk { OnOk result (IsSameDesk desk.old desk.new) }
    ensures stock { OnOk result (length (stock_of desk.new) + 1 ≡ length (stock_of desk.old)) }
    ensures endings { OnOk result (KeepsEndings desk.old desk.new) }
    ensures count { OnOk result (endings_of desk.new ≡ endings_of desk.old) }
{
    make_as(domain, desk, true, [0; 4], false, value)
}
