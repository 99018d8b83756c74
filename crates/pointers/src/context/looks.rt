//! What handles tell.
ghost use Rattle.std.specs.Prelude.{◌≡◌, IfErr, IfOk, None};
ghost use Rattle.control_word.specs.declared.model.handle.Kind.TheVariants.{Owner, Weak};
ghost use Rattle.control_block.specs.Desks.{Belongs};
ghost use Rattle.control_block.specs.HandleLists.{IsHeldByDesk};
ghost use Rattle.shared_handle.specs.Calls.{IsExpiry};
ghost use Rattle.shared_handle.specs.Locks.{HasOwner};
ghost use Rattle.pointers.specs.Known.{Lives, Since, owned, pointed};
ghost use Rattle.pointers.specs.Objects.{IsCounted, IsField, WhyNoField};

use crate::claim::shared_claim::SharedClaim;
use crate::claim::weak_claim::WeakClaim;
use crate::context::Context;
use crate::domain::Domain;
use control_block::domain;
use control_word::Refusal;
use shared_handle::{expired, read, use_count, use_count_weak};

impl<D: Domain> Context<D> {
    /// The owner is the desk's, and lives.
    #[inline(always)]
    pub(crate) fn look(&mut self, of: &SharedClaim<D>)
        ensures same { self.new ≡ self.old }
        ensures lives { Lives D.opened of.now.known self.old.desk }
        ensures holds { IsHeldByDesk self.old.desk of.now.known.handle }
        ensures owns { (owned of.now.known ≡ None → ⊥) → HasOwner self.old.desk (owned of.now.known) }
    {
        of.look(&mut self.claims);
    }

    /// How many owners share an owner's object.
    #[inline(always)]
    pub(crate) fn use_count(
        &mut self,
        domain: &domain::Domain<D::Value>,
        of: &SharedClaim<D>,
    ) -> u32
        requires { Belongs D.opened domain.now }
        ensures since { Since D.opened of.now.known
            (λ d e. IsCounted d Owner (owned of.now.known) (pointed of.now.known) result e) }
        ensures exact { IsCounted self.old.desk Owner (owned of.now.known) (pointed of.now.known) result
            self.new.desk }
    {
        let of = of.look(&mut self.claims);
        use_count(domain, &mut self.desk, of)
    }

    /// How many owners a weak handle's object has.
    #[inline(always)]
    pub(crate) fn use_count_weak(
        &mut self,
        domain: &domain::Domain<D::Value>,
        of: &WeakClaim<D>,
    ) -> u32
        requires { Belongs D.opened domain.now }
        ensures { Since D.opened of.now.known
            (λ d e. IsCounted d Weak (owned of.now.known) (pointed of.now.known) result e) }
    {
        let of = of.look(&mut self.claims);
        use_count_weak(domain, &mut self.desk, of)
    }

    /// Whether a weak handle's object has no owner left.
    #[inline(always)]
    pub(crate) fn expired(&mut self, domain: &domain::Domain<D::Value>, of: &WeakClaim<D>) -> bool
        requires { Belongs D.opened domain.now }
        ensures since { Since D.opened of.now.known
            (λ d e. IsExpiry d (owned of.now.known) (pointed of.now.known) result e) }
        ensures exact { IsExpiry self.old.desk (owned of.now.known) (pointed of.now.known) result self.new.desk }
    {
        let of = of.look(&mut self.claims);
        expired(domain, &mut self.desk, of)
    }

    /// The field that an owner points at.
    #[inline(always)]
    pub(crate) fn read(
        &mut self,
        domain: &domain::Domain<D::Value>,
        of: &SharedClaim<D>,
    ) -> Result<u64, Refusal>
        requires { Belongs D.opened domain.now }
        ensures field { IfOk result (IsField D.opened of.now.known) }
        ensures refused { IfErr result (WhyNoField of.now.known) }
    {
        let of = of.look(&mut self.claims);
        read(domain, &mut self.desk, of)
    }
}
