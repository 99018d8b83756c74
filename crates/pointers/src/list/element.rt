//! What a list may have.

use crate::domain::Domain;
use crate::fault::Fault;
use crate::shared::Shared;
use crate::weak::Weak;
use std::sync::Wait;

/// An element of a list, whose nodes are of type `N`: an owner, or a weak pointer.
pub trait Element<N>: Drop + Sized {
    ghost use Rattle.std.specs.Prelude.{◌↔◌, IfErr, IfOk, IsTrue, OnOk, Option};
    ghost use Rattle.pointers.specs.declared.fault.Fault.{Fault};

    /// It went into a node.
    ghost goes_in: { N → Self → Type 0 };

    /// A copy of the one in a node was that.
    ghost copied: { N → Option Self → Type 0 };

    /// Why a node refused one of these.
    ghost refused: { N → Fault → Type 0 };

    /// Both are of one object, or of none.
    ghost is_same: { Self → Self → Type 0 };

    /// It goes into its place in a node.
    fn put(self, node: &N) -> Result<(), Fault>
        ensures put { OnOk result (goes_in node.now self) }
        ensures refused { IfErr result (refused node.now) };

    /// A copy of the one in a node (waits). None where there is none.
    fn get<R: Wait>(rt: &R, node: &N) -> Result<Option<Self>, Fault>
        ensures copied { IfOk result (copied node.now) }
        ensures refused { IfErr result (refused node.now) };

    /// Whether both are of one object.
    fn same(&self, other: &Self) -> bool
        ensures { IsTrue result ↔ is_same self.now other.now };
}

impl<'t, D: Domain> Element<Shared<'t, D>> for Shared<'t, D> {
    ghost use Rattle.std.specs.Prelude.{◌≡◌, Some};
    ghost use Rattle.control_word.specs.declared.model.handle.Kind.TheVariants.{Owner};
    ghost use Rattle.shared_handle.specs.declared.pile.Gone.{Gone};
    ghost use Rattle.pointers.specs.Lists.{IsMemberRefused};
    ghost use Rattle.pointers.specs.Known.{owned};
    ghost use Rattle.pointers.specs.SiteCalls.{Loaded, Stored};
    ghost use Rattle.pointers.specs.Sites.{member_site};

    ghost goes_in = { λ n e. Stored D.opened Owner (member_site n 0) (Some e) };

    ghost copied = { λ n e. Loaded D.opened Owner (member_site n 0) e };

    ghost refused = { λ n why. IsMemberRefused D.opened n why };

    ghost is_same = { λ a b. owned a ≡ owned b };

    fn put(self, node: &Shared<'t, D>) -> Result<(), Fault> {
        node.first().store(Some(self))
    }

    fn get<R: Wait>(rt: &R, node: &Shared<'t, D>) -> Result<Option<Self>, Fault> {
        node.first().load(rt)
    }

    fn same(&self, other: &Self) -> bool {
        self.is(other)
    }
}

impl<'t, D: Domain> Element<Shared<'t, D>> for Weak<'t, D> {
    ghost use Rattle.std.specs.Prelude.{◌≡◌, Some};
    ghost use Rattle.control_word.specs.declared.model.handle.Kind.TheVariants as kind;
    ghost use Rattle.pointers.specs.Lists.{IsMemberRefused};
    ghost use Rattle.pointers.specs.Known.{owned};
    ghost use Rattle.pointers.specs.SiteCalls.{Loaded, Stored};
    ghost use Rattle.pointers.specs.Sites.{member_site};

    ghost goes_in = { λ n e. Stored D.opened kind.Weak (member_site n 0) (Some e) };

    ghost copied = { λ n e. Loaded D.opened kind.Weak (member_site n 0) e };

    ghost refused = { λ n why. IsMemberRefused D.opened n why };

    ghost is_same = { λ a b. owned a ≡ owned b };

    fn put(self, node: &Shared<'t, D>) -> Result<(), Fault> {
        node.up().store(Some(self))
    }

    fn get<R: Wait>(rt: &R, node: &Shared<'t, D>) -> Result<Option<Self>, Fault> {
        node.up().load(rt)
    }

    fn same(&self, other: &Self) -> bool {
        self.is(other)
    }
}
