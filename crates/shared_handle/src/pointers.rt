//! What a handle that isn't empty is on: the calls of control blocks go by it. Where one points.
ghost use Rattle.std.specs.Prelude.{◌≡◌, IfSome};
ghost use Rattle.control_word.specs.Packing.{IsPlace};
ghost use Rattle.control_word.specs.Handles.{IsPointer};
ghost use Rattle.control_word.specs.declared.model.handle.Kind.TheVariants.{Owner, Weak};
ghost use Rattle.shared_handle.specs.Calls.{IsOn, is_field, pointed};

use control_block::handles::{self, Shared};
use control_word::model::handle::Kind;
use control_word::shape::MOST_BLOCKS;
use control_word::{Handle, Place};

/// What an owner is on, none where it is empty.
#[inline(always)]
pub(crate) fn owner_pointer(handle: &Shared) -> Option<Handle>
    ensures { IsOn Owner handle.now.block handle.now.place result }
{
    let block = handle.block()?;
    Some(Handle {
        kind: Kind::Owner,
        block,
        place: handle.place(),
    })
}

/// What a weak handle is on, none where it is empty.
#[inline(always)]
pub(crate) fn weak_pointer(handle: &handles::Weak) -> Option<Handle>
    ensures { IsOn Weak handle.now.block handle.now.place result }
{
    let block = handle.block()?;
    Some(Handle {
        kind: Kind::Weak,
        block,
        place: handle.place(),
    })
}

/// Whether it is a field of a block.
fn is_field(place: Place) -> bool
    ensures { result ≡ is_field place }
{
    let block = place.block.number();
    block > 0 && block <= MOST_BLOCKS && place.field < 4
}

/// Where a pointer to a place points: null for what is no field of a block, which no call hands out.
pub(crate) fn pointed(place: Option<Place>) -> Option<Place>
    ensures place { result ≡ pointed place }
    ensures proper { IsPointer result }
    ensures valid { IfSome result IsPlace }
{
    match place {
        Some(place) if is_field(place) => Some(place),
        _ => None,
    }
}
