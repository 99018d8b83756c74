//! Places that get what is made of what they hold.
ghost use Rattle.std.specs.Prelude.{◌≡◌, IfErr, IfOk, OnOk, Some};
ghost use Rattle.pointers.specs.Faults.{WhyNotMade, WhyNotVisited};
ghost use Rattle.pointers.specs.Values.{IsNewOf, IsValueOf};
ghost use Rattle.pointers.specs.declared.known.Known.{Known};
ghost use Rattle.pointers.specs.SiteCalls.{IsUpdated, WhyNotUpdated};

use crate::cells::member::Member;
use crate::domain::Domain;
use crate::fault::Fault;
use crate::shared::Shared;
use std::sync::Wait;

/// A copy of the value of a pointer's object.
fn value_of<'t, D: Domain, R: Wait>(
    rt: &R,
    of: &Option<Shared<'t, D>>,
) -> Result<Option<D::Value>, Fault>
where
    D::Value: Clone,
    ensures copied { IfOk result (IsValueOf D.opened D.Value.is_clone of.now) }
    ensures refused { IfErr result (λ why. (c : Known D.Value) × (of.now ≡ Some c) × WhyNotVisited c why) }
{
    match of {
        Some(of) => {
            let value = of.snapshot(rt)?;
            Ok(Some(value))
        }
        None => Ok(None),
    }
}

impl<'p, 't, D: Domain> Member<'p, 't, D>
where
    D::Value: Clone,
{
    /// An owner of a new object with a value, if there is one.
    fn made_of(&self, value: Option<D::Value>) -> Result<Option<Shared<'t, D>>, Fault>
        ensures made { IfOk result (IsNewOf D.opened value) }
        ensures refused { IfErr result WhyNotMade }
    {
        let Some(value) = value else {
            return Ok(None);
        };
        match self.desk.new(value) {
            Ok(made) => Ok(Some(made)),
            Err(refused) => Err(refused.why),
        }
    }

    /// What it holds is replaced by a new object with what `f` makes of a copy of its value, in arc-swap `rcu` (waits).
    /// It loads, calls `f` and compares, until no other thread changed the place between the two: so `f` may run more
    /// than once, and what was made in vain ends. None is an empty place, before and after it. At a fault, which may be
    /// `f`'s own, the place is as others left it.
    pub fn update<F: FnMut(Option<D::Value>) -> Result<Option<D::Value>, Fault>, R: Wait>(
        &self,
        rt: &R,
        f: F,
    ) -> Result<(), Fault>
        requires { F.IsAlwaysCallable f }
        ensures updated { OnOk result (IsUpdated D.opened D.Value.is_clone self.now
            (λ old r. (s : F) × (t : F) × F.step s old r t)) }
        ensures refused { IfErr result (WhyNotUpdated D.opened self.now
            (λ old r. (s : F) × (t : F) × F.step s old r t)) }
    {
        let mut f = f;
        let mut now = self.load(rt)?;
        for _ in rt.forever() {
            let old = value_of(rt, &now)?;
            let value = f(old)?;
            let mut new = self.made_of(value)?;
            if self.compare_exchange_strong(rt, &mut now, &mut new)? {
                return Ok(());
            }
        }
        unreachable!()
    }
}
