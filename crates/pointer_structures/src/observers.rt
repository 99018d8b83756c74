//! Observers in a place, each of which watches a subject by a weak pointer.
ghost use Rattle.std.specs.Prelude.{◌≡◌, IfErr, IfOk, OnOk};
ghost use Rattle.pointer_structures.specs.Prunes.{IsAlive, Prunes, WhyNotPruned};
ghost use Rattle.pointer_structures.specs.Watches.{Watches, WhyNotAttached};

use pointers::{Call, Domain, Fault, List, Member, Shared, Weak};
use std::marker::Model;
use std::sync::Wait;

/// Observers in a place for an owner: a list of nodes, each of which watches a subject by its member `up`, and has a
/// value. `weak_list` of the place is the same list.
pub struct Observers<'p, 't, D: Domain> {
    list: List<'p, 't, D, Weak<'t, D>>,
}

impl<'p, 't, D: Domain> Model for Observers<'p, 't, D> {
    ghost use Rattle.control_block.specs.contracts.handles.Shared as shared_handle;
    ghost use Rattle.control_block.specs.contracts.handles.Weak as weak_handle;
    ghost use Rattle.std.specs.Coded.{codes};
    ghost use Rattle.pointers.specs.Sites.{Site};

    ghost Value = { Site D.Value };

    ghost coded = { Prim.hlevel (codes, shared_handle.the_row.coded, weak_handle.the_row.coded) };

    ghost view = { λ o. o.list };
}

impl<'p, 't, D: Domain> Drop for Observers<'p, 't, D> {
    fn drop(self) {
        let Self { list } = self;
        drop(list);
    }
}

impl<'p, 't, D: Domain> Observers<'p, 't, D> {
    /// The observers whose first node a place owns.
    pub fn at(place: Member<'p, 't, D>) -> Observers<'p, 't, D>
        ensures { result ≡ place.entry }
    {
        Observers {
            list: place.weak_list(),
        }
    }

    /// A new node with the value comes in front of the observers, and watches the subject (waits).
    pub fn attach<R: Wait>(
        &self,
        rt: &R,
        subject: &Shared<'t, D>,
        value: D::Value,
    ) -> Result<(), Fault>
        ensures attached { OnOk result (Watches D.opened self.now subject.now value) }
        ensures fault { IfErr result (WhyNotAttached D.opened self.now subject.now value) }
    {
        self.list.push_front_with(rt, subject.downgrade()?, value)
    }

    /// The observers whose subject has no owner go out and end (waits): how many did. One thread at a time may call it.
    pub fn prune<R: Wait>(&self, rt: &R) -> Result<usize, Fault>
        ensures pruned { IfOk result (Prunes D.opened self.now) }
        ensures fault { IfErr result (WhyNotPruned D.opened self.now) }
    {
        self.list.retain(rt, |weak| has_owner(weak))
    }
}

/// Whether the subject of a weak pointer has an owner.
#[inline(always)]
fn has_owner<'t, D: Domain>(weak: &Weak<'t, D>) -> Result<bool, Fault>
    ensures alive { IfOk result (IsAlive D.opened weak.now) }
    ensures fault { IfErr result (λ why. why ≡ Fault.Busy Call.Expired) }
{
    Ok(!weak.expired()?)
}
