//! What a handle tells: counts, fields and places.
ghost use Rattle.std.specs.Prelude.{◌≡◌};
ghost use Rattle.control_word.specs.Handles as Handles;
ghost use Rattle.control_word.specs.Handles.{IsPointer};
ghost use Rattle.control_word.specs.declared.model.handle.Kind.TheVariants.{Owner};
ghost use Rattle.control_block.specs.Desks.{Belongs, Keeps, bag_of};
ghost use Rattle.shared_handle.specs.Calls.{IsUseCount};
ghost use Rattle.control_block.specs.CellCalls.{HoldsHandle};
ghost use Rattle.shared_handle.specs.Endings.{IsPlaced, IsRead};

use crate::pointers::owner_pointer;
use control_block::calls;
use control_block::desk::Desk;
use control_block::domain::Domain;
use control_block::handles::Shared;
use control_word::{Place, Refusal};

/// How many owners share the handle's object, this one included, or 0 where it is empty
/// ([util.smartptr.shared.obs]). For a desk that has the whole allowance it is the count itself; else it is 0 just
/// where there is no owner, and at most the count. An empty handle touches no word.
pub fn use_count<V: Drop>(domain: &Domain<V>, desk: &mut Desk<V>, handle: &Shared) -> u32
    requires domain { Belongs desk.old domain.now }
    requires holds { HoldsHandle desk.old Owner handle.now.block handle.now.place }
    ensures count { IsUseCount desk.old Owner handle.now.block handle.now.place result desk.new }
    ensures bag { bag_of desk.new ≡ bag_of desk.old }
    ensures held { desk.new.held ≡ desk.old.held }
    ensures keeps { Keeps desk.old desk.new }
{
    let Some(of) = owner_pointer(handle) else {
        return 0;
    };
    calls::count(domain, desk, of)
}

/// The place that the handle points at, which is in the object that it owns: `Null` where there is none, and `Outside`
/// where it isn't there.
pub(crate) fn place_within(handle: &Shared) -> Result<Place, Refusal>
    ensures { IsPlaced handle.now.block handle.now.place result }
{
    let Some(place) = handle.place() else {
        return Err(Refusal::Null);
    };
    if handle.block() != Some(place.block) {
        return Err(Refusal::Outside);
    }
    Ok(place)
}

/// The field that the handle points at (own). It is refused `Null` just where its place is null, and `Outside` just
/// where that isn't in the object that it owns; then nothing changes.
pub fn read<V: Drop>(
    domain: &Domain<V>,
    desk: &mut Desk<V>,
    handle: &Shared,
) -> Result<u64, Refusal>
    requires domain { Belongs desk.old domain.now }
    requires holds { HoldsHandle desk.old Owner handle.now.block handle.now.place }
    ensures read { IsRead desk.old handle.now.block handle.now.place result desk.new }
    ensures bag { bag_of desk.new ≡ bag_of desk.old }
    ensures held { desk.new.held ≡ desk.old.held }
    ensures keeps { Keeps desk.old desk.new }
{
    let place = place_within(handle)?;
    Ok(calls::read(domain, desk, place))
}

/// Where the handle points: the stored pointer ([util.smartptr.shared.obs]). It is null, or one of the four fields of a
/// block, whatever became of the object there. It touches no word.
pub fn place<V: Drop>(_domain: &Domain<V>, _desk: &mut Desk<V>, handle: &Shared) -> Option<Place>
    ensures place { result ≡ handle.now.place }
    ensures proper { HoldsHandle _desk.old Owner handle.now.block handle.now.place → IsPointer result }
    ensures same { _desk.new ≡ _desk.old }
{
    _desk.assert_invariant();
    handle.place()
}

/// Whether two handles point at one place, whatever they own ([util.smartptr.shared.cmp]). It touches no word.
pub fn same_place<V: Drop>(_domain: &Domain<V>, _desk: &mut Desk<V>, a: &Shared, b: &Shared) -> bool
    ensures equal { result ≡ Handles.same_place a.now.place b.now.place }
    ensures same { _desk.new ≡ _desk.old }
{
    a.place() == b.place()
}
