//! Handles that leave.
ghost use Rattle.std.specs.Prelude.{◌≡◌, IfNone, IfSome, [], List};
ghost use Rattle.control_block.specs.Desks.{Belongs};
ghost use Rattle.pointers.specs.Ends.{EndsOwner};
ghost use Rattle.pointers.specs.HandCalls.{LeavesNow};
ghost use Rattle.pointers.specs.Known.{Since, owned, pointed};
ghost use Rattle.shared_handle.specs.Piles.{Drops, EndsTop};

use crate::claim::shared_claim::SharedClaim;
use crate::claim::weak_claim::WeakClaim;
use crate::context::Context;
use crate::domain::Domain;
use control_block::domain;
use shared_handle::{Gone, drop_shared, drop_to_end, release_weak};

impl<D: Domain> Context<D> {
    /// An owner leaves.
    #[inline(always)]
    pub(crate) fn leave(&mut self, domain: &domain::Domain<D::Value>, owner: SharedClaim<D>) -> Gone
        requires { Belongs D.opened domain.now }
        ensures since { Since D.opened owner.known (λ d e.
            Drops d self.old.endings (owned owner.known) (pointed owner.known) result e self.new.endings
            × (e ≡ self.new.desk)) }
        ensures exact { LeavesNow self.old.desk owner.known self.new.desk }
    {
        let owner = owner.leave(&mut self.claims);
        drop_shared(domain, &mut self.desk, &mut self.pile, owner)
    }

    /// The same. Where it was the last and its object's members hold nothing, the object ends at once: its value comes
    /// out. Nothing is told where it wasn't the last, and else also whether something is left to end.
    #[inline(always)]
    pub(crate) fn leave_to_end(
        &mut self,
        domain: &domain::Domain<D::Value>,
        owner: SharedClaim<D>,
    ) -> Option<(Option<D::Value>, bool)>
        requires { Belongs D.opened domain.now }
    {
        let owner = owner.leave(&mut self.claims);
        let (gone, value) = drop_to_end(domain, &mut self.desk, &mut self.pile, owner);
        let Gone::Last = gone else {
            return None;
        };
        self.spare(domain);
        Some((value, !self.pile.is_empty()))
    }

    /// An owner leaves, and where it was its object's last, the object ends and its value comes out. What ended for it
    /// is left to end.
    pub(crate) fn end(
        &mut self,
        domain: &domain::Domain<D::Value>,
        owner: SharedClaim<D>,
    ) -> Option<D::Value>
        requires { Belongs D.opened domain.now }
        ensures { Since D.opened owner.known (λ d e.
            EndsOwner d (owned owner.known) (pointed owner.known) result e) }
    {
        match self.leave(domain, owner) {
            Gone::Last => self.end_top(domain),
            Gone::Others => None,
            Gone::Empty => None,
        }
    }

    /// The object on top of what is left to end does so, and its value comes out.
    fn end_top(&mut self, domain: &domain::Domain<D::Value>) -> Option<D::Value>
        requires { Belongs D.opened domain.now }
        ensures none { IfNone result (self.old.endings ≡ []) }
        ensures ended { IfSome result
            (λ v. EndsTop self.old.desk self.old.endings v self.new.desk self.new.endings) }
    {
        self.pile.end_next(domain, &mut self.desk)
    }

    /// A weak handle leaves.
    #[inline(always)]
    pub(crate) fn leave_weak(&mut self, domain: &domain::Domain<D::Value>, weak: WeakClaim<D>)
        requires { Belongs D.opened domain.now }
    {
        let weak = weak.leave(&mut self.claims);
        release_weak(domain, &mut self.desk, weak)
    }
}
