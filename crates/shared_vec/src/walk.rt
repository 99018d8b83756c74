//! Walks over vectors.
ghost use Rattle.std.specs.Prelude.{IfErr, OnOk};
ghost use Rattle.shared_vec.specs.Vectors.{Gets};
ghost use Rattle.shared_vec.specs.Walks.{ShowsAll, WhyEnded};
ghost use Rattle.shared_vec.specs.WeakVectors.{GetsWeak};

use crate::vector::SharedVec;
use crate::weak_vector::WeakVec;
use pointers::{Domain, Fault, Shared, Weak};
use std::sync::Wait;

/// What a walk shows of an element, which is a pointer of type `N`: that pointer.
pub trait Shown<N>: Drop + Sized {
    /// It is shown for that pointer.
    ghost shows: { N → Self → Type 0 };

    /// What is shown for a pointer.
    fn of(pointer: N) -> Self
        ensures { shows pointer result };
}

impl<'t, D: Domain> Shown<Shared<'t, D>> for Shared<'t, D> {
    ghost use Rattle.std.specs.Prelude.{◌≡◌};

    ghost shows = { λ owner shown. shown ≡ owner };

    #[inline(always)]
    fn of(owner: Shared<'t, D>) -> Self {
        owner
    }
}

impl<'t, D: Domain> Shown<Weak<'t, D>> for Weak<'t, D> {
    ghost use Rattle.std.specs.Prelude.{◌≡◌};

    ghost shows = { λ weak shown. shown ≡ weak };

    #[inline(always)]
    fn of(weak: Weak<'t, D>) -> Self {
        weak
    }
}

impl<'p, 't, D: Domain> SharedVec<'p, 't, D> {
    /// Each element, from the first on, up to the first index where there is none, in C++
    /// `for (auto& p : v)` (waits). Where `f` answers a fault the walk ends with it.
    pub fn each<E: Shown<Shared<'t, D>>, R: Wait, F: FnMut(&E) -> Result<(), Fault>>(
        &self,
        rt: &R,
        f: F,
    ) -> Result<(), Fault>
        requires { F.IsAlwaysCallable f }
        ensures told { OnOk result (ShowsAll (Gets D.opened self.now.place) E.shows F.FnMut f) }
        ensures fault { IfErr result (WhyEnded (Gets D.opened self.now.place) E.shows F.FnMut f) }
    {
        let mut f = f;
        let mut index = 0;
        while index < usize::MAX {
            let Some(owner) = self.get(rt, index)? else {
                return Ok(());
            };
            f(&E::of(owner))?;
            index += 1;
        }
        Ok(())
    }
}

impl<'p, 't, D: Domain> WeakVec<'p, 't, D> {
    /// Each weak pointer, from the first on, up to the first index where there is none, in C++
    /// `for (auto& w : v)` (waits). Where `f` answers a fault the walk ends with it.
    pub fn each<E: Shown<Weak<'t, D>>, R: Wait, F: FnMut(&E) -> Result<(), Fault>>(
        &self,
        rt: &R,
        f: F,
    ) -> Result<(), Fault>
        requires { F.IsAlwaysCallable f }
        ensures told { OnOk result
            (ShowsAll (GetsWeak D.opened self.now.holders.place) E.shows F.FnMut f) }
        ensures fault { IfErr result
            (WhyEnded (GetsWeak D.opened self.now.holders.place) E.shows F.FnMut f) }
    {
        let mut f = f;
        let mut index = 0;
        while index < usize::MAX {
            let Some(weak) = self.get(rt, index)? else {
                return Ok(());
            };
            f(&E::of(weak))?;
            index += 1;
        }
        Ok(())
    }
}
