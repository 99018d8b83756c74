//! A list of pointers in an object: a chain of nodes, each with one element.
ghost use Rattle.std.specs.Prelude.{◌≡◌};

use crate::cells::member::Member;
use crate::domain::Domain;
use crate::shared::Shared;
use crate::weak::Weak;
use std::marker::{Model, PhantomData};

pub mod element;
mod insertions;
mod removals;
mod walks;

/// A list of owners or of weak pointers in a place, in C++ a member `std::vector<std::shared_ptr<T>>` or
/// `std::vector<std::weak_ptr<T>>`. Each element costs a node: an object of the domain, whose member `first` or `up`
/// has the element and whose member `next` owns the next node. A node's value is its type's default one, or the
/// caller's.
///
/// Any thread may walk over a list, and put elements at its front, at any time. All other calls are for one thread at a
/// time; but where no thread makes another of them, each may take elements from the front. A walk needs three pointers
/// at a time more than its caller has, a removal four.
pub struct List<'p, 't, D: Domain, E> {
    /// The place that owns its first node.
    head: Member<'p, 't, D>,
    element: PhantomData<E>,
}

impl<'p, 't, D: Domain, E> Model for List<'p, 't, D, E> {
    ghost use Rattle.control_block.specs.contracts.handles.Shared as shared_handle;
    ghost use Rattle.control_block.specs.contracts.handles.Weak as weak_handle;
    ghost use Rattle.std.specs.Coded.{codes};
    ghost use Rattle.pointers.specs.Sites.{Site};

    ghost Value = { Site D.Value };

    ghost coded = { Prim.hlevel (codes, shared_handle.the_row.coded, weak_handle.the_row.coded) };

    ghost view = { λ l. l.head };
}

impl<'p, 't, D: Domain, E> Drop for List<'p, 't, D, E> {
    #[inline(always)]
    fn drop(self) {
        let Self {
            head: _,
            element: _,
        } = self;
    }
}

impl<'p, 't, D: Domain, E> List<'p, 't, D, E> {
    /// The list in a place.
    #[inline(always)]
    fn at(place: Member<'p, 't, D>) -> List<'p, 't, D, E>
        ensures { result ≡ place.entry }
    {
        List {
            head: place,
            element: PhantomData,
        }
    }
}

impl<'p, 't, D: Domain> Member<'p, 't, D> {
    /// The list of owners whose first node it owns.
    #[inline(always)]
    pub fn list(self) -> List<'p, 't, D, Shared<'t, D>>
        ensures { result ≡ self.entry }
    {
        List::at(self)
    }

    /// The list of weak pointers whose first node it owns.
    #[inline(always)]
    pub fn weak_list(self) -> List<'p, 't, D, Weak<'t, D>>
        ensures { result ≡ self.entry }
    {
        List::at(self)
    }
}
