//! Waiting for a place for weak pointers to hold something else.
ghost use Rattle.std.specs.Prelude.{◌≡◌, ◌⊎◌, false, not, IfErr, IfOk, OnOk};
ghost use Rattle.control_word.specs.declared.model.handle.Kind.TheVariants as kind;
ghost use Rattle.pointers.specs.Beside.{seen_by};
ghost use Rattle.pointers.specs.SiteCalls.{LookedFor, WhyNotLookedFor};
ghost use Rattle.pointers.specs.declared.fault.Fault.TheVariants.{Output};

use crate::cells::up::Up;
use crate::cells::waits::Backoff;
use crate::domain::Domain;
use crate::fault::Fault;
use crate::weak::Weak;
use std::sync::Wait;
use std::time::{Clock, Duration, Instant};

impl<'p, 't, D: Domain> Up<'p, 't, D> {
    /// As `Member::wait_while` (waits).
    pub fn wait_while<R: Wait>(&self, rt: &R, mine: Option<&Weak<'t, D>>) -> Result<(), Fault>
        ensures changed { OnOk result (LookedFor D.opened kind.Weak self.now (seen_by (λ x. x.now) mine.entry) false) }
        ensures refused { IfErr result (WhyNotLookedFor D.opened kind.Weak self.now (seen_by (λ x. x.now) mine.entry)) }
    {
        let mut backoff = Backoff::new();
        for _ in rt.forever() {
            if !self.holds(mine)? {
                return Ok(());
            }
            backoff.rest(rt);
        }
        unreachable!()
    }

    /// As `Member::wait_timeout_while` (waits).
    pub fn wait_timeout_while<R: Wait + Clock>(
        &self,
        rt: &R,
        mine: Option<&Weak<'t, D>>,
        most: Duration,
    ) -> Result<bool, Fault>
        ensures told { IfOk result (λ changed. LookedFor D.opened kind.Weak self.now (seen_by (λ x. x.now) mine.entry)
            (not changed)) }
        ensures refused { IfErr result (λ why. (why ≡ Output)
            ⊎ WhyNotLookedFor D.opened kind.Weak self.now (seen_by (λ x. x.now) mine.entry) why) }
    {
        let start = Instant::now(rt)?;
        let mut backoff = Backoff::new();
        for _ in rt.forever() {
            let there = self.holds(mine)?;
            if !there || start.elapsed(rt)? >= most {
                return Ok(!there);
            }
            backoff.rest(rt);
        }
        unreachable!()
    }
}
