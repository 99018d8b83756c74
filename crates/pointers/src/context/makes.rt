//! Owners of new objects.
ghost use Rattle.std.specs.Prelude.{◌≡◌, ◌⊎◌, IfErr, IfOk};
ghost use Rattle.control_block.specs.Desks.{Belongs};
ghost use Rattle.pointers.specs.HandCalls.{MakesNow, NotMadeNow, Restocks};
ghost use Rattle.pointers.specs.Objects.{Makes, MakesNull};

use crate::claim::shared_claim::SharedClaim;
use crate::context::Context;
use crate::domain::Domain;
use control_block::domain;
use control_word::{Refusal, Refused};
use shared_handle::{make, make_null};

impl<D: Domain> Context<D> {
    /// A new object's owner.
    #[inline(always)]
    pub(crate) fn make(
        &mut self,
        domain: &domain::Domain<D::Value>,
        fields: [u64; 4],
        enabled: bool,
        value: D::Value,
    ) -> Result<SharedClaim<D>, Refused<D::Value>>
        requires { Belongs D.opened domain.now }
        ensures refused { IfErr result (λ r. (r.why ≡ Refusal.Limit) ⊎ (r.why ≡ Refusal.Full)) }
        ensures back { IfErr result (λ r. r.back ≡ value) }
        ensures made { IfOk result (λ r. Makes D.opened enabled fields value r.known) }
        ensures exact { IfOk result (λ r. MakesNow self.old.desk enabled fields value r.known self.new.desk) }
        ensures unchanged { IfErr result (λ _. Restocks self.old.desk self.new.desk) }
        ensures why { IfErr result (λ r. NotMadeNow self.new.desk r.why) }
    {
        self.restock(domain);
        self.desk.assert_invariant();
        let handle = make(domain, &mut self.desk, fields, enabled, value)?;
        Ok(SharedClaim::register(handle, &self.desk, &mut self.claims))
    }

    /// An owner of a null pointer, with a value for its end.
    pub(crate) fn make_null(
        &mut self,
        domain: &domain::Domain<D::Value>,
        value: D::Value,
    ) -> Result<SharedClaim<D>, Refused<D::Value>>
        requires { Belongs D.opened domain.now }
        ensures refused { IfErr result (λ r. (r.why ≡ Refusal.Limit) ⊎ (r.why ≡ Refusal.Full)) }
        ensures back { IfErr result (λ r. r.back ≡ value) }
        ensures made { IfOk result (λ r. MakesNull D.opened value r.known) }
    {
        self.restock(domain);
        self.desk.assert_invariant();
        let handle = make_null(domain, &mut self.desk, value)?;
        Ok(SharedClaim::register(handle, &self.desk, &mut self.claims))
    }
}
