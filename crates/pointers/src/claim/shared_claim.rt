//! Owners, each with what is known of it.
ghost use Rattle.std.specs.Prelude.{◌≡◌, ◌++◌, ◌∷◌, [], slice_get, slice_set, None, Some};
ghost use Rattle.control_block.specs.declared.handles.Held.TheVariants as held;
ghost use Rattle.pointers.specs.Known.{known_now, owned, pointed};

use crate::claim::Claims;
use crate::domain::Domain;
use crate::known::{Known, OwnerCame};
use control_block::desk::Desk;
use control_block::handles;
use control_word::{Block, Place};
use ghost_map::{Ghost, GhostEntry};
use std::marker::Model;

/// An owner that a desk gave out.
pub(crate) struct SharedClaim<D: Domain> {
    pub(super) handle: handles::Shared,
    entry: GhostEntry<D, Known<D::Value>>,
}

impl<D: Domain> Model for SharedClaim<D> {
    ghost use Rattle.std.specs.Prelude.{◌≡◌};
    ghost use Rattle.control_block.specs.declared.handles.Held.TheVariants as held;
    ghost use Rattle.control_block.specs.contracts.handles.Shared as shared_handle;
    ghost use Rattle.control_block.specs.contracts.handles.Weak as weak_handle;
    ghost use Rattle.pointers.specs.Claims.{ClaimNow};
    ghost use Rattle.std.specs.Coded.{codes};

    ghost Value = { ClaimNow D.Value };

    ghost coded = { Prim.hlevel (codes, shared_handle.the_row.coded, weak_handle.the_row.coded) };

    ghost view = { λ s. record { at = s.entry.at; known = s.entry.value } };

    ghost invariant = { λ s. s.entry.value.handle ≡ held.Owner s.handle };
}

impl<D: Domain> SharedClaim<D> {
    /// Registers an owner that came to a desk just now.
    #[inline(always)]
    pub(crate) fn register(
        handle: handles::Shared,
        desk: &Desk<D::Value>,
        claims: &mut Claims<D>,
    ) -> SharedClaim<D>
        ensures claims { claims.new.entries ≡ claims.old.entries ++ Some result.known ∷ [] }
        ensures known { result.known ≡ known_now (held.Owner handle) desk.now }
    {
        let known = Ghost::of_pair::<_, _, OwnerCame>(desk, &handle);
        let entry = claims.insert(known);
        SharedClaim { handle, entry }
    }

    /// The owner, which is the desk's.
    #[inline(always)]
    pub(crate) fn look(&self, claims: &mut Claims<D>) -> &handles::Shared
        ensures claims { claims.new.entries ≡ claims.old.entries }
        ensures has { slice_get claims.old.entries self.now.at ≡ Some (Some self.now.known) }
        ensures handle { self.now.known.handle ≡ held.Owner result.now }
    {
        claims.look(&self.entry);
        &self.handle
    }

    /// The block of what it owns.
    #[inline(always)]
    pub(crate) fn block(&self) -> Option<Block>
        ensures { result ≡ owned self.now.known }
    {
        self.handle.block()
    }

    /// Where it points.
    #[inline(always)]
    pub(crate) fn place(&self) -> Option<Place>
        ensures { result ≡ pointed self.now.known }
    {
        self.handle.place()
    }

    /// The owner, which is the desk's, and its entry, for a call that may give it back.
    #[inline(always)]
    pub(crate) fn split(
        self,
        claims: &mut Claims<D>,
    ) -> (handles::Shared, GhostEntry<D, Known<D::Value>>)
        ensures claims { claims.new.entries ≡ claims.old.entries }
        ensures has { slice_get claims.old.entries self.at ≡ Some (Some self.known) }
        ensures handle { self.known.handle ≡ held.Owner result.0 }
        ensures entry { (result.1.at ≡ self.at) × (result.1.value ≡ self.known) }
    {
        let SharedClaim { handle, entry } = self;
        claims.look(&entry);
        (handle, entry)
    }

    /// The owner is a claim again.
    #[inline(always)]
    pub(crate) fn join(
        handle: handles::Shared,
        entry: GhostEntry<D, Known<D::Value>>,
    ) -> SharedClaim<D>
        requires { entry.value.handle ≡ held.Owner handle }
        ensures { (result.at ≡ entry.at) × (result.known ≡ entry.value) }
    {
        SharedClaim { handle, entry }
    }

    /// The owner is forgotten: its desk holds it still.
    pub(crate) fn forget(self) {
        let SharedClaim { handle, entry: _ } = self;
        handle.into_word();
    }

    /// The owner, for a call by which it leaves.
    #[inline(always)]
    pub(crate) fn leave(self, claims: &mut Claims<D>) -> handles::Shared
        ensures has { slice_get claims.old.entries self.at ≡ Some (Some self.known) }
        ensures claims { claims.new.entries ≡ slice_set claims.old.entries self.at None }
        ensures handle { self.known.handle ≡ held.Owner result }
    {
        let SharedClaim { handle, entry } = self;
        claims.remove(entry);
        handle
    }
}
