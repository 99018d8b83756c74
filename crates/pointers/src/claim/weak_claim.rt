//! Weak handles, each with what is known of it.
ghost use Rattle.std.specs.Prelude.{◌≡◌, ◌++◌, ◌∷◌, [], slice_get, slice_set, None, Some};
ghost use Rattle.control_block.specs.declared.handles.Held.TheVariants as held;
ghost use Rattle.pointers.specs.Known.{known_now, owned, pointed};

use crate::claim::Claims;
use crate::domain::Domain;
use crate::known::{Known, WeakCame};
use control_block::desk::Desk;
use control_block::handles;
use control_word::{Block, Place};
use ghost_map::{Ghost, GhostEntry};
use std::marker::Model;

/// A weak handle that a desk gave out.
pub(crate) struct WeakClaim<D: Domain> {
    handle: handles::Weak,
    entry: GhostEntry<D, Known<D::Value>>,
}

impl<D: Domain> Model for WeakClaim<D> {
    ghost use Rattle.std.specs.Prelude.{◌≡◌};
    ghost use Rattle.control_block.specs.declared.handles.Held.TheVariants as held;
    ghost use Rattle.control_block.specs.contracts.handles.Shared as shared_handle;
    ghost use Rattle.control_block.specs.contracts.handles.Weak as weak_handle;
    ghost use Rattle.pointers.specs.Claims.{ClaimNow};
    ghost use Rattle.std.specs.Coded.{codes};

    ghost Value = { ClaimNow D.Value };

    ghost coded = { Prim.hlevel (codes, shared_handle.the_row.coded, weak_handle.the_row.coded) };

    ghost view = { λ s. record { at = s.entry.at; known = s.entry.value } };

    ghost invariant = { λ s. s.entry.value.handle ≡ held.Weak s.handle };
}

impl<D: Domain> WeakClaim<D> {
    /// Registers a weak handle that came to a desk just now.
    #[inline(always)]
    pub(crate) fn register(
        handle: handles::Weak,
        desk: &Desk<D::Value>,
        claims: &mut Claims<D>,
    ) -> WeakClaim<D>
        ensures claims { claims.new.entries ≡ claims.old.entries ++ Some result.known ∷ [] }
        ensures known { result.known ≡ known_now (held.Weak handle) desk.now }
    {
        let known = Ghost::of_pair::<_, _, WeakCame>(desk, &handle);
        let entry = claims.insert(known);
        WeakClaim { handle, entry }
    }

    /// The handle, which is the desk's.
    #[inline(always)]
    pub(crate) fn look(&self, claims: &mut Claims<D>) -> &handles::Weak
        ensures claims { claims.new.entries ≡ claims.old.entries }
        ensures has { slice_get claims.old.entries self.now.at ≡ Some (Some self.now.known) }
        ensures handle { self.now.known.handle ≡ held.Weak result.now }
    {
        claims.look(&self.entry);
        &self.handle
    }

    /// The block of what it is of.
    #[inline(always)]
    pub(crate) fn block(&self) -> Option<Block>
        ensures { result ≡ owned self.now.known }
    {
        self.handle.block()
    }

    /// Where it points.
    #[inline(always)]
    pub(crate) fn place(&self) -> Option<Place>
        ensures { result ≡ pointed self.now.known }
    {
        self.handle.place()
    }

    /// The handle, which is the desk's, and its entry, for a call that may give it back.
    #[inline(always)]
    pub(crate) fn split(
        self,
        claims: &mut Claims<D>,
    ) -> (handles::Weak, GhostEntry<D, Known<D::Value>>)
        ensures claims { claims.new.entries ≡ claims.old.entries }
        ensures has { slice_get claims.old.entries self.at ≡ Some (Some self.known) }
        ensures handle { self.known.handle ≡ held.Weak result.0 }
        ensures entry { (result.1.at ≡ self.at) × (result.1.value ≡ self.known) }
    {
        let WeakClaim { handle, entry } = self;
        claims.look(&entry);
        (handle, entry)
    }

    /// The handle is a claim again.
    #[inline(always)]
    pub(crate) fn join(handle: handles::Weak, entry: GhostEntry<D, Known<D::Value>>) -> WeakClaim<D>
        requires { entry.value.handle ≡ held.Weak handle }
        ensures { (result.at ≡ entry.at) × (result.known ≡ entry.value) }
    {
        WeakClaim { handle, entry }
    }

    /// The handle is forgotten: its desk holds it still.
    pub(crate) fn forget(self) {
        let WeakClaim { handle, entry: _ } = self;
        handle.into_word();
    }

    /// The handle, for a call by which it leaves.
    #[inline(always)]
    pub(crate) fn leave(self, claims: &mut Claims<D>) -> handles::Weak
        ensures has { slice_get claims.old.entries self.at ≡ Some (Some self.known) }
        ensures claims { claims.new.entries ≡ slice_set claims.old.entries self.at None }
        ensures handle { self.known.handle ≡ held.Weak result }
    {
        let WeakClaim { handle, entry } = self;
        claims.remove(entry);
        handle
    }
}
