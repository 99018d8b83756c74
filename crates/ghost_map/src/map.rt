//! The map, and how it gets its name.
ghost use Rattle.std.specs.Prelude.{◌≡◌, ℕ, List, [], ◌∷◌, ◌++◌, length, slice_get, slice_set, Option, None, Some};
ghost use Rattle.std.specs.Coded.{coded_list, coded_option};
ghost use Rattle.ghost_map.specs.Chain.{map_owns, blank_owns};

use crate::entry::GhostEntry;
use crate::value::Ghost;
use std::marker::{Brand, Model, PhantomData};

/// Which map it is. A function that opens a map takes `N: Named` with `requires { blank.name ≡ N.name }`. Its caller
/// passes `Brand` for `N`, and picks the name in `Invariants.antt`, as `record { name = a.blank.name }`.
pub trait Named {
    ghost name: { ℕ };
}

impl Named for Brand {
    ghost name = { 0 };
}

/// A new map, which no type names yet: so no entry of it can be.
#[derive(Drop)]
pub struct Blank {
    marker: PhantomData<()>,
    pub ghost name: { ℕ },
}

impl Model for Blank {
    ghost also_owns = { λ b. blank_owns b.name };
}

/// The map that `N` names: all entries that were made, in the order in which they came. One that is over is `None`.
/// It is changed through a `&mut` alone, and no call reads it through a `&`.
#[derive(Drop)]
pub struct GhostMap<N: Named, T> {
    marker: PhantomData<(N, T)>,
    pub ghost entries: { List (Option T) } by { coded_list (coded_option T.code) },
}

impl<N: Named, T> Model for GhostMap<N, T> {
    ghost also_owns = { λ m. map_owns T.row.coded.code N.name m.entries };
}

impl Blank {
    /// A new map, with a name that no other has.
    #[inline(always)]
    pub fn new() -> Blank {
        Blank {
            marker: PhantomData,
        }
    }

    /// The map, now that `N` names it. It has no entry.
    #[inline(always)]
    pub fn open<N: Named, T>(self) -> GhostMap<N, T>
        requires { self.name ≡ N.name }
        ensures { result.entries ≡ [] }
    {
        let Self { marker: _ } = self;
        GhostMap {
            marker: PhantomData,
        }
    }
}

impl<N: Named, T> GhostMap<N, T> {
    /// A new entry at the end, which says this.
    #[inline(always)]
    pub fn insert(&mut self, value: Ghost<T>) -> GhostEntry<N, T>
        ensures entries { self.new.entries ≡ self.old.entries ++ Some result.value ∷ [] }
        ensures at { result.at ≡ length self.old.entries }
        ensures value { result.value ≡ value.value }
    {
        let Ghost { marker: _ } = value;
        GhostEntry {
            marker: PhantomData,
        }
    }

    /// The entry is in the map, isn't over, and says what the map says: the caller of this knows it from here on.
    #[inline(always)]
    pub fn look(&mut self, entry: &GhostEntry<N, T>)
        ensures entries { self.new.entries ≡ self.old.entries }
        ensures has { slice_get self.old.entries entry.now.at ≡ Some (Some entry.now.value) }
    {
        // What the map says and what the entry says are in the proof alone.
    }

    /// The entry ends; until now it was in the map and said what the map said.
    #[inline(always)]
    pub fn remove(&mut self, entry: GhostEntry<N, T>)
        ensures has { slice_get self.old.entries entry.at ≡ Some (Some entry.value) }
        ensures entries { self.new.entries ≡ slice_set self.old.entries entry.at None }
    {
        // Taken apart, so that nobody has it any more. Its drop would leave it in the map.
        let GhostEntry { marker: _ } = entry;
    }
}

unsafe impl Send for Blank {}

unsafe impl<N: Named, T> Send for GhostMap<N, T> {}
