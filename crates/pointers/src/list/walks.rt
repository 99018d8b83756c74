//! Walks over a list.
ghost use Rattle.std.specs.Prelude.{IfErr, IfNone, IfOk, IfSome, None, Ok, OnOk, Some, false, true};
ghost use Rattle.pointers.specs.Lists.{Ends, IsBrokenOff, IsCount, Leads, Stops, WhyEnded, WhyNotLed, behind};

use crate::domain::Domain;
use crate::fault::Fault;
use crate::list::List;
use crate::list::element::Element;
use crate::shared::Shared;
use std::sync::Wait;

impl<'p, 't, D: Domain, E: Element<Shared<'t, D>>> List<'p, 't, D, E> {
    /// The node behind another, or the first one (waits).
    #[inline(always)]
    pub(crate) fn behind<R: Wait>(
        &self,
        rt: &R,
        before: &Option<Shared<'t, D>>,
    ) -> Result<Option<Shared<'t, D>>, Fault>
        ensures led { IfOk result (Leads D.opened (behind before.now self.now)) }
        ensures refused { IfErr result (WhyNotLed D.opened (behind before.now self.now)) }
    {
        match before {
            Some(node) => node.next().load(rt),
            None => self.head.load(rt),
        }
    }

    /// Each element, from the first on (waits). Where `f` answers a fault the walk ends with it.
    pub fn each<R: Wait, F: FnMut(&E) -> Result<(), Fault>>(
        &self,
        rt: &R,
        f: F,
    ) -> Result<(), Fault>
        requires { F.IsAlwaysCallable f }
        ensures told { OnOk result (Ends D.opened E.copied E.refused F.FnMut self.now tt f) }
        ensures fault { IfErr result (WhyEnded D.opened E.copied E.refused F.FnMut self.now tt f) }
    {
        let mut f = f;
        let mut before = None;
        for _ in rt.forever() {
            let Some(node) = self.behind(rt, &before)? else {
                return Ok(());
            };
            if let Some(element) = E::get(rt, &node)? {
                f(&element)?;
            }
            before = Some(node);
        }
        unreachable!()
    }

    /// The first element for which `f` answers true (waits), in C++ `std::find_if`. The walk ends there; where `f`
    /// answers a fault it ends with that.
    pub fn find<R: Wait, F: FnMut(&E) -> Result<bool, Fault>>(
        &self,
        rt: &R,
        f: F,
    ) -> Result<Option<E>, Fault>
        requires { F.IsAlwaysCallable f }
        ensures none { IfOk result (λ r. IfNone r (Ends D.opened E.copied E.refused F.FnMut self.now false f)) }
        ensures found { IfOk result
            (λ r. IfSome r (Stops D.opened E.copied E.refused F.FnMut self.now false f (Ok true))) }
        ensures fault { IfErr result (WhyEnded D.opened E.copied E.refused F.FnMut self.now false f) }
    {
        let mut f = f;
        let mut before = None;
        for _ in rt.forever() {
            let Some(node) = self.behind(rt, &before)? else {
                return Ok(None);
            };
            if let Some(element) = E::get(rt, &node)? {
                if f(&element)? {
                    return Ok(Some(element));
                }
            }
            before = Some(node);
        }
        unreachable!()
    }

    /// What `f` answers for the first element for which it answers something (waits), as Rust's `Iterator::find_map`.
    /// The walk ends there; where `f` answers a fault it ends with that.
    pub fn find_map<A, R: Wait, F: FnMut(&E) -> Result<Option<A>, Fault>>(
        &self,
        rt: &R,
        f: F,
    ) -> Result<Option<A>, Fault>
        requires { F.IsAlwaysCallable f }
        ensures none { IfOk result (λ r. IfNone r (Ends D.opened E.copied E.refused F.FnMut self.now None f)) }
        ensures found { IfOk result (λ r. IfSome r (λ a. (e : E)
            × Stops D.opened E.copied E.refused F.FnMut self.now None f (Ok (Some a)) e)) }
        ensures fault { IfErr result (WhyEnded D.opened E.copied E.refused F.FnMut self.now None f) }
    {
        let mut f = f;
        let mut before = None;
        for _ in rt.forever() {
            let Some(node) = self.behind(rt, &before)? else {
                return Ok(None);
            };
            if let Some(element) = E::get(rt, &node)? {
                if let Some(answer) = f(&element)? {
                    return Ok(Some(answer));
                }
            }
            before = Some(node);
        }
        unreachable!()
    }

    /// How many elements there are (waits).
    pub fn count<R: Wait>(&self, rt: &R) -> Result<usize, Fault>
        ensures counted { IfOk result (IsCount D.opened E.copied self.now) }
        ensures fault { IfErr result (IsBrokenOff D.opened E.copied E.refused self.now) }
    {
        let mut count = 0usize;
        let mut before = None;
        for _ in rt.forever() {
            let Some(node) = self.behind(rt, &before)? else {
                return Ok(count);
            };
            if E::get(rt, &node)?.is_some() {
                count = count.saturating_add(1);
            }
            before = Some(node);
        }
        unreachable!()
    }
}
