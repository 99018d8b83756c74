//! Pointers that an object gives to itself ([util.smartptr.enab]).
ghost use Rattle.std.specs.Prelude.{◌≡◌, ◌+◌, IfErr, IfOk, OnOk};
ghost use Rattle.control_word.specs.Packing.{IsBlock};
ghost use Rattle.control_word.specs.declared.model.handle.Kind.TheVariants.{Owner, Weak};
ghost use Rattle.control_block.specs.Desks.{Belongs, Keeps, bag_of};
ghost use Rattle.shared_handle.specs.Calls.{IsOfThis, SharesOwner, SharesWeakly};
ghost use Rattle.control_block.specs.CellCalls.{HoldsHandle, with_handle};
ghost use Rattle.shared_handle.specs.Endings.{IsThis, MayGiveThis, WhyNotThis};

use crate::looks::place_within;
use crate::shares::share_to;
use control_block::desk::Desk;
use control_block::domain::Domain;
use control_block::handles::Shared;
use control_block::{calls, handles};
use control_word::{Block, HandleWord, Place, Refusal};

/// The block of the object, if the handle points into it and the object gives pointers to itself, and the desk has room
/// for one.
fn this_block<V: Drop>(
    domain: &Domain<V>,
    desk: &mut Desk<V>,
    handle: &Shared,
) -> Result<Block, Refusal>
    requires domain { Belongs desk.old domain.now }
    requires holds { HoldsHandle desk.old Owner handle.now.block handle.now.place }
    ensures block { IfOk result IsBlock }
    ensures this { IsThis desk.old handle.now.block handle.now.place result }
    ensures same { desk.new ≡ desk.old }
{
    if desk.held() == desk.allowance() {
        return Err(Refusal::Limit);
    }
    let block = place_within(handle)?.block;
    if !calls::is_enabled(domain, desk, block) {
        return Err(Refusal::NotEnabled);
    }
    Ok(block)
}

/// `shared_from_this` ([util.smartptr.enab]): one owner more of the handle's object, which points at its field 0. It is
/// refused `Limit` just where the desk is at its allowance, and else `Null` where the handle's place is null, `Outside`
/// where that isn't in the object that it owns, and `NotEnabled` where the object has no from-this flag; then nothing
/// changes.
pub fn shared_from_this<V: Drop>(
    domain: &Domain<V>,
    desk: &mut Desk<V>,
    handle: &Shared,
) -> Result<Shared, Refusal>
    requires domain { Belongs desk.old domain.now }
    requires holds { HoldsHandle desk.old Owner handle.now.block handle.now.place }
    ensures refused { IfErr result
        (λ why. WhyNotThis desk.old handle.now.block handle.now.place why × (desk.new ≡ desk.old)) }
    ensures may { OnOk result (MayGiveThis desk.old handle.now.block handle.now.place) }
    ensures handle { IfOk result (λ h. (h.block ≡ handle.now.block) × IsOfThis h.block h.place) }
    ensures event { IfOk result (λ h. SharesOwner desk.old handle.now.block handle.now.place h.place desk.new) }
    ensures bag { IfOk result (λ h. bag_of desk.new ≡ with_handle Owner h.block h.place (bag_of desk.old)) }
    ensures held { OnOk result (desk.new.held ≡ desk.old.held + 1) }
    ensures holds { IfOk result (λ h. HoldsHandle desk.new Owner h.block h.place) }
    ensures keeps { OnOk result (Keeps desk.old desk.new) }
{
    let block = this_block(domain, desk, handle)?;
    let place = Some(Place { block, field: 0 });
    share_to(domain, desk, handle, handle.word().with_place(place))
}

/// `weak_from_this` ([util.smartptr.enab]): a weak handle of the handle's object, which points at its field 0. Refusals
/// are those of `shared_from_this`.
pub fn weak_from_this<V: Drop>(
    domain: &Domain<V>,
    desk: &mut Desk<V>,
    handle: &Shared,
) -> Result<handles::Weak, Refusal>
    requires domain { Belongs desk.old domain.now }
    requires holds { HoldsHandle desk.old Owner handle.now.block handle.now.place }
    ensures refused { IfErr result
        (λ why. WhyNotThis desk.old handle.now.block handle.now.place why × (desk.new ≡ desk.old)) }
    ensures may { OnOk result (MayGiveThis desk.old handle.now.block handle.now.place) }
    ensures handle { IfOk result (λ h. (h.block ≡ handle.now.block) × IsOfThis h.block h.place) }
    ensures event { IfOk result (λ h. SharesWeakly desk.old h.block h.place desk.new) }
    ensures bag { IfOk result (λ h. bag_of desk.new ≡ with_handle Weak h.block h.place (bag_of desk.old)) }
    ensures held { OnOk result (desk.new.held ≡ desk.old.held + 1) }
    ensures holds { IfOk result (λ h. HoldsHandle desk.new Weak h.block h.place) }
    ensures keeps { OnOk result (Keeps desk.old desk.new) }
{
    let block = this_block(domain, desk, handle)?;
    let place = Some(Place { block, field: 0 });
    calls::share_weak(domain, desk, block, HandleWord::of(Some(block), place))
}
