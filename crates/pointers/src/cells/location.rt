//! Where cells are.
ghost use Rattle.std.specs.Prelude.{◌≡◌};
ghost use Rattle.pointers.specs.Claims.{known_by};
ghost use Rattle.pointers.specs.Sites.{owner_of, site_by};

use crate::claim::shared_claim::SharedClaim;
use crate::domain::Domain;

/// Where a cell is: a free one, by its number, or a member of what a pointer owns, by its number among those of its
/// kind.
#[derive(Clone, Copy, Drop)]
pub enum Location<C> {
    Free(u32),
    Member(C, u8),
}

/// The owner whose object's member a cell is, if it is one.
#[inline(always)]
pub(crate) fn owner_at<D: Domain>(location: Location<&SharedClaim<D>>) -> Option<&SharedClaim<D>>
    ensures { known_by result ≡ owner_of (site_by location.entry) }
{
    match location {
        Location::Free(_) => None,
        Location::Member(of, _) => Some(of),
    }
}
