//! Work on the value of an object.
ghost use Rattle.std.specs.Fn.{FnOnceReturnsAtMut};
ghost use Rattle.std.specs.Prelude.{◌≡◌, IfErr, IfOk, None, Ok};
ghost use Rattle.control_word.specs.declared.refusal.Refusal.TheVariants.{Null};
ghost use Rattle.control_block.specs.Desks.{Belongs};
ghost use Rattle.shared_handle.specs.Visits.{IsVisit};
ghost use Rattle.pointers.specs.Known.{Since, owned, pointed};

use crate::claim::shared_claim::SharedClaim;
use crate::context::Context;
use crate::domain::Domain;
use control_block::domain;
use control_word::Refused;
use shared_handle::visit;
use std::sync::Wait;

impl<D: Domain> Context<D> {
    /// The value of an owner's object is worked on.
    #[inline(always)]
    pub(crate) fn visit<A, F: FnOnce(&mut D::Value) -> A, R: Wait>(
        &mut self,
        rt: &R,
        domain: &domain::Domain<D::Value>,
        of: &SharedClaim<D>,
        f: F,
    ) -> Result<A, Refused<F>>
        requires domain { Belongs D.opened domain.now }
        requires callable { F.IsAlwaysCallable f }
        ensures visit { IfOk result (λ a. Since D.opened of.now.known
            (λ d e. IsVisit (λ was r becomes. FnOnceReturnsAtMut F.FnOnce f was r becomes) f d (owned of.now.known)
            (pointed of.now.known) (Ok a) e)) }
        ensures refused { IfErr result (λ r. (r.why ≡ Null) × (owned of.now.known ≡ None)) }
    {
        let of = of.look(&mut self.claims);
        visit(rt, domain, &mut self.desk, of, f)
    }
}
