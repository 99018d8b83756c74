//! The call that makes an object.
ghost use Rattle.std.specs.Prelude.{◌≡◌, ◌+◌, [], ◌∷◌, length, Some, IfOk, IfErr, OnOk};
ghost use Rattle.control_word.specs.Events.{origin};
ghost use Rattle.control_word.specs.Handles.{handle};
ghost use Rattle.control_word.specs.Packing.{IsBlock};
ghost use Rattle.control_word.specs.declared.model.event.Event.TheVariants.{Make};
ghost use Rattle.control_word.specs.declared.model.handle.Kind.TheVariants.{Owner};
ghost use Rattle.control_block.specs.Refusals.{IsFullOrLimit};
ghost use Rattle.control_block.specs.Desks.{Belongs, AddsEvent, IsSameDesk, KeepsEndings, allowance_of, bag_of};
ghost use Rattle.control_block.specs.Desks.{endings_of};
ghost use Rattle.control_block.specs.Desks.{held_of, stock_of};

use crate::desk::Desk;
use crate::domain::Domain;
use crate::steps;
use control_word::model::handle::Kind;
use control_word::{Block, Handle, Place, Refusal, Refused};
use std::marker::Brand;

/// Where a new object's owner points: at the object, or nowhere for an owned null pointer.
fn origin_of(block: Block, null: bool) -> Option<Place>
    ensures { result ≡ origin block.0 null }
{
    if null {
        None
    } else {
        Some(Place { block, field: 0 })
    }
}

/// A new object with one owner, in a block of the desk's store ([util.smartptr.shared.create]; for an owned null
/// pointer [util.smartptr.shared.const]). It is refused `Limit` just where the desk is at its allowance, and else
/// `Full` just where its store is empty; then the value comes back and nothing changes.
#[inline(always)]
pub fn make<V: Drop>(
    domain: &Domain<V>,
    desk: &mut Desk<V>,
    enabled: bool,
    null: bool,
    fields: [u64; 4],
    value: V,
) -> Result<Handle, Refused<V>>
    requires domain { Belongs desk.old domain.now }
    ensures refusals { IsFullOrLimit (held_of desk.old ≡ allowance_of desk.old) (stock_of desk.old ≡ []) result }
    ensures refused { IfErr result (λ r. (r.back ≡ value) × (desk.new ≡ desk.old)) }
    ensures block { IfOk result (λ h. IsBlock h.block) }
    ensures handle { IfOk result (λ h. (h.kind ≡ Owner) × (h.place ≡ origin h.block.0 null)) }
    ensures event { IfOk result (λ h. AddsEvent desk.old (Make h.block enabled null fields value) desk.new) }
    ensures bag { IfOk result (λ h. bag_of desk.new ≡ handle Owner (Some h.block.0) h.place ∷ bag_of desk.old) }
    ensures held { OnOk result (desk.new.held ≡ desk.old.held + 1) }
    ensures desk { OnOk result (IsSameDesk desk.old desk.new) }
    ensures stock { OnOk result (length (stock_of desk.new) + 1 ≡ length (stock_of desk.old)) }
    ensures endings { OnOk result (KeepsEndings desk.old desk.new) }
    ensures count { OnOk result (endings_of desk.new ≡ endings_of desk.old) }
{
    if desk.is_full() {
        return Err(Refused {
            why: Refusal::Limit,
            back: value,
        });
    }
    let Some(block) = desk.store.pop() else {
        return Err(Refused {
            why: Refusal::Full,
            back: value,
        });
    };
    desk.held += 1; // here, since each locked instruction that follows waits for what was stored before it
    let table = &domain.table.shared;
    steps::make::<V, Brand>(table, &mut desk.seat, block, enabled, null, fields, value);
    Ok(Handle {
        kind: Kind::Owner,
        block,
        place: origin_of(block, null),
    })
}
