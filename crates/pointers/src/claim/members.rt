//! Members of objects that claims own.
ghost use Rattle.std.specs.Prelude.{◌≡◌, IfErr, IfOk, Some};
ghost use Rattle.control_word.specs.declared.model.handle.Kind.TheVariants.{Owner, Weak};
ghost use Rattle.pointers.specs.Cells.{HasMember, IsSharedSite, IsWeakSite, block_or, owner_site, weak_site};
ghost use Rattle.pointers.specs.Known.{owned};
ghost use Rattle.pointers.specs.Objects.{WhyNoField};

use crate::claim::shared_claim::SharedClaim;
use crate::domain::Domain;
use atomic_cells::{SharedAt, SharedMember, WeakAt};
use control_word::Refusal;

impl<D: Domain> SharedClaim<D> {
    /// A member for owners, by its number, of the object that it owns and points into: `Null` where its place is null,
    /// and `Outside` where that isn't in the object that it owns.
    #[inline(always)]
    pub(crate) fn owner_member(&self, number: u8) -> Result<SharedAt<'_>, Refusal>
        ensures site { HasMember D.opened Owner number
            → IfOk result (λ at. IsSharedSite D.opened at.site (Some self.now.known)) }
        ensures there { IfOk result (λ at. at.site ≡ owner_site (block_or (owned self.now.known)) number) }
        ensures refused { IfErr result (WhyNoField self.now.known) }
    {
        match number {
            0 => SharedAt::member(&self.handle, SharedMember::First),
            1 => SharedAt::member(&self.handle, SharedMember::Next),
            _ => SharedAt::more(&self.handle, number - 2),
        }
    }

    /// The same of a weak member.
    #[inline(always)]
    pub(crate) fn weak_member(&self, number: u8) -> Result<WeakAt<'_>, Refusal>
        ensures site { HasMember D.opened Weak number
            → IfOk result (λ at. IsWeakSite D.opened at.site (Some self.now.known)) }
        ensures there { IfOk result (λ at. at.site ≡ weak_site (block_or (owned self.now.known)) number) }
        ensures refused { IfErr result (WhyNoField self.now.known) }
    {
        match number {
            0 => WeakAt::member(&self.handle),
            _ => WeakAt::more(&self.handle, number - 1),
        }
    }
}
