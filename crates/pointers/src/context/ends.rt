//! Objects that end.
ghost use Rattle.std.specs.Prelude.{◌≡◌, ◌⊎◌, ◌<◌, IfNone, IfSome};
ghost use Rattle.control_block.specs.Desks.{Belongs};
ghost use Rattle.pointers.specs.Blocks.{Settles, SinceOpened};

use crate::context::Context;
use crate::domain::Domain;
use control_block::domain;

impl<D: Domain> Context<D> {
    /// Rounds of what is left to end, so many at most, until a value comes out.
    #[inline(always)]
    #[tactic(auto, using(shared_handle::proofs::Rounds::fewer_left))]
    pub(crate) fn next_value(
        &mut self,
        domain: &domain::Domain<D::Value>,
        rounds: &mut u32,
    ) -> Option<D::Value>
        requires { Belongs D.opened domain.now }
        ensures fewer { IfSome result (λ _. rounds.new < rounds.old) }
        ensures none { IfNone result ((rounds.new ≡ 0) ⊎ SinceOpened D.opened Settles) }
    {
        self.pile.next_value(domain, &mut self.desk, rounds)
    }
}
