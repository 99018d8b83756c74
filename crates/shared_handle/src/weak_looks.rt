//! What a weak handle tells.
ghost use Rattle.std.specs.Prelude.{◌≡◌};
ghost use Rattle.control_word.specs.declared.model.handle.Kind.TheVariants.{Weak};
ghost use Rattle.control_block.specs.Desks.{Belongs, Keeps, bag_of};
ghost use Rattle.shared_handle.specs.Calls.{IsUseCount, IsExpiry};
ghost use Rattle.control_block.specs.CellCalls.{HoldsHandle};

use crate::owner_order::HasOwner;
use crate::pointers::weak_pointer;
use control_block::desk::Desk;
use control_block::domain::Domain;
use control_block::{calls, handles};
use control_word::Block;

impl HasOwner for handles::Weak {
    ghost owned = { λ h. h.block };

    fn owned_block(&self) -> Option<Block> {
        self.block()
    }
}

/// How many owners the weak handle's object has, or 0 where it is empty ([util.smartptr.weak.obs]), as `use_count`.
pub fn use_count_weak<V: Drop>(
    domain: &Domain<V>,
    desk: &mut Desk<V>,
    handle: &handles::Weak,
) -> u32
    requires domain { Belongs desk.old domain.now }
    requires holds { HoldsHandle desk.old Weak handle.now.block handle.now.place }
    ensures count { IsUseCount desk.old Weak handle.now.block handle.now.place result desk.new }
    ensures bag { bag_of desk.new ≡ bag_of desk.old }
    ensures held { desk.new.held ≡ desk.old.held }
    ensures keeps { Keeps desk.old desk.new }
{
    let Some(of) = weak_pointer(handle) else {
        return 0;
    };
    calls::count(domain, desk, of)
}

/// Whether the weak handle's object has no owner left, or the handle is empty ([util.smartptr.weak.obs]). An empty
/// handle touches no word.
pub fn expired<V: Drop>(domain: &Domain<V>, desk: &mut Desk<V>, handle: &handles::Weak) -> bool
    requires domain { Belongs desk.old domain.now }
    requires holds { HoldsHandle desk.old Weak handle.now.block handle.now.place }
    ensures expired { IsExpiry desk.old handle.now.block handle.now.place result desk.new }
    ensures bag { bag_of desk.new ≡ bag_of desk.old }
    ensures held { desk.new.held ≡ desk.old.held }
    ensures keeps { Keeps desk.old desk.new }
{
    let Some(of) = weak_pointer(handle) else {
        return true;
    };
    calls::is_expired(domain, desk, of)
}
