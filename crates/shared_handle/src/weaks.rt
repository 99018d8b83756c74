//! Weak pointers ([util.smartptr.weak]).
ghost use Rattle.std.specs.Prelude.{◌≡◌, ◌↔◌, ◌+◌, Bool, cond, length, IfErr, IfOk, IsErr, OnOk};
ghost use Rattle.control_word.specs.declared.model.handle.Kind.TheVariants.{Weak};
ghost use Rattle.control_block.specs.Desks.{Belongs, IsSameDesk, Keeps, KeepsEndings, allowance_of, bag_of, endings_of};
ghost use Rattle.control_block.specs.Desks.{held_of, stock_of};
ghost use Rattle.shared_handle.specs.Calls.{LeavesWeakly, SharesWeakly, weak_place};
ghost use Rattle.control_block.specs.CellCalls.{HoldsHandle, with_handle, without_handle};

use crate::makes::no_object;
use control_block::desk::Desk;
use control_block::domain::Domain;
use control_block::{calls, handles};
use control_word::model::handle::Kind;
use control_word::{Handle, Refusal};

/// A copy of a weak pointer ([util.smartptr.weak.const]): one weak handle more, which points where the handle does. Of
/// an empty one it is empty with a null place, and touches no word. It is refused `Limit` just where the desk is at its
/// allowance, and then nothing changes.
pub fn share_weak<V: Drop>(
    domain: &Domain<V>,
    desk: &mut Desk<V>,
    handle: &handles::Weak,
) -> Result<handles::Weak, Refusal>
    requires domain { Belongs desk.old domain.now }
    requires holds { HoldsHandle desk.old Weak handle.now.block handle.now.place }
    ensures limit { IsErr result ↔ (held_of desk.old ≡ allowance_of desk.old) }
    ensures refused { IfErr result (λ why. (why ≡ Refusal.Limit) × (desk.new ≡ desk.old)) }
    ensures handle { IfOk result
        (λ h. (h.block ≡ handle.now.block) × (h.place ≡ weak_place handle.now.block handle.now.place)) }
    ensures event { OnOk result (SharesWeakly desk.old handle.now.block handle.now.place desk.new) }
    ensures bag { OnOk result
        (bag_of desk.new ≡ with_handle Weak handle.now.block handle.now.place (bag_of desk.old)) }
    ensures held { OnOk result (desk.new.held ≡ desk.old.held + 1) }
    ensures holds { IfOk result (λ h. HoldsHandle desk.new Weak h.block h.place) }
    ensures keeps { OnOk result (Keeps desk.old desk.new) }
{
    let Some(block) = handle.block() else {
        return no_object(desk);
    };
    calls::share_weak(domain, desk, block, handle.word())
}

/// A weak pointer leaves ([util.smartptr.weak.dest]). Where it was the last handle of an object that is gone, its block
/// is vacant, and in the desk's store.
pub fn release_weak<V: Drop>(domain: &Domain<V>, desk: &mut Desk<V>, handle: handles::Weak)
    requires domain { Belongs desk.old domain.now }
    requires holds { HoldsHandle desk.old Weak handle.block handle.place }
    ensures event { (vacant : Bool) × LeavesWeakly desk.old handle.block handle.place vacant desk.new
        × (length (stock_of desk.new) ≡ length (stock_of desk.old) + cond vacant 1 0) }
    ensures bag { bag_of desk.new ≡ without_handle Weak handle.block handle.place (bag_of desk.old) }
    ensures held { desk.new.held + 1 ≡ desk.old.held }
    ensures desk { IsSameDesk desk.old desk.new }
    ensures endings { KeepsEndings desk.old desk.new }
    ensures count { endings_of desk.new ≡ endings_of desk.old }
{
    let word = handle.into_word();
    let Some(block) = word.block() else {
        calls::spend_empty(desk);
        return;
    };
    let of = Handle {
        kind: Kind::Weak,
        block,
        place: word.place(),
    };
    calls::leave(domain, desk, of);
}
