//! Weak pointers from shared ones ([util.smartptr.weak.const]).
ghost use Rattle.std.specs.Prelude.{◌≡◌, ◌↔◌, ◌+◌, IfErr, IfOk, IsErr, OnOk};
ghost use Rattle.control_word.specs.declared.model.handle.Kind.TheVariants.{Owner, Weak};
ghost use Rattle.control_block.specs.Desks.{Belongs, Keeps, allowance_of, bag_of, held_of};
ghost use Rattle.shared_handle.specs.Calls.{SharesWeakly, weak_place};
ghost use Rattle.control_block.specs.CellCalls.{HoldsHandle, with_handle};

use crate::makes::no_object;
use control_block::desk::Desk;
use control_block::domain::Domain;
use control_block::handles::Shared;
use control_block::{calls, handles};
use control_word::Refusal;

/// A weak pointer from a shared one ([util.smartptr.weak.const]): it shares ownership and points at the same place. Of
/// an empty one it is empty with a null place, and touches no word. It is refused `Limit` just where the desk is at its
/// allowance, and then nothing changes.
pub fn downgrade<V: Drop>(
    domain: &Domain<V>,
    desk: &mut Desk<V>,
    handle: &Shared,
) -> Result<handles::Weak, Refusal>
    requires domain { Belongs desk.old domain.now }
    requires holds { HoldsHandle desk.old Owner handle.now.block handle.now.place }
    ensures limit { IsErr result ↔ (held_of desk.old ≡ allowance_of desk.old) }
    ensures refused { IfErr result (λ why. (why ≡ Refusal.Limit) × (desk.new ≡ desk.old)) }
    ensures handle { IfOk result
        (λ h. (h.block ≡ handle.now.block) × (h.place ≡ weak_place handle.now.block handle.now.place)) }
    ensures event { OnOk result (SharesWeakly desk.old handle.now.block handle.now.place desk.new) }
    ensures bag { OnOk result
        (bag_of desk.new ≡ with_handle Weak handle.now.block handle.now.place (bag_of desk.old)) }
    ensures held { OnOk result (desk.new.held ≡ desk.old.held + 1) }
    ensures holds { IfOk result (λ h. HoldsHandle desk.new Weak h.block h.place) }
    ensures keeps { OnOk result (Keeps desk.old desk.new) }
{
    let Some(block) = handle.block() else {
        return no_object(desk);
    };
    calls::share_weak(domain, desk, block, handle.word())
}
