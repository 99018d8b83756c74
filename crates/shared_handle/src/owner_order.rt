//! Owner order, of shared and weak pointers alike ([util.smartptr.shared.obs], [util.smartptr.weak.obs]).
ghost use Rattle.std.specs.Prelude.{◌≡◌};
ghost use Rattle.shared_handle.specs.Calls.{comes_before};

use control_block::desk::Desk;
use control_block::domain::Domain;
use control_block::handles::Shared;
use control_word::Block;

/// A shared or a weak pointer.
pub trait HasOwner {
    ghost use Rattle.std.specs.Prelude.{◌≡◌, Option};
    ghost use Rattle.control_word.specs.declared.place.Block.{Block};

    ghost owned: { Self → Option Block };

    /// The block of what it owns, or is on.
    fn owned_block(&self) -> Option<Block>
        ensures { result ≡ Self.owned self.now };
}

impl HasOwner for Shared {
    ghost owned = { λ h. h.block };

    fn owned_block(&self) -> Option<Block> {
        self.block()
    }
}

/// `owner_before` ([util.smartptr.shared.obs], [util.smartptr.weak.obs]): whether the first comes before the second in
/// owner order, which goes by blocks, empty first (own). It touches no word.
pub fn owner_before<V: Drop, A: HasOwner, B: HasOwner>(
    _domain: &Domain<V>,
    _desk: &mut Desk<V>,
    a: &A,
    b: &B,
) -> bool
    ensures before { result ≡ comes_before (A.owned a.now) (B.owned b.now) }
    ensures same { _desk.new ≡ _desk.old }
{
    let number = |block: Option<Block>| block.map_or(0, |block| block.number());
    number(a.owned_block()) < number(b.owned_block())
}
