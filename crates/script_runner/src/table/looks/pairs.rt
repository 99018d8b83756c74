//! What two handles tell.
ghost use Rattle.std.specs.Prelude.{◌≡◌};
ghost use Rattle.shared_handle.specs.Calls.{comes_before};
ghost use Rattle.script_runner.specs.Pairs.{AreInOrder, PointAlike};
ghost use Rattle.script_runner.specs.Parts.{block_of_held};
ghost use Rattle.script_runner.specs.SlotCalls.{IsHandleAt, IsOwnerAt};

use crate::table::slots::{handle_at, owner_at};
use crate::table::{Home, WorkerTable};
use control_block::desk::Desk;
use control_block::domain::Domain;
use shared_handle::{HasOwner, Held, owner_before, same_place};

/// Whether what the first owns comes before what the other handle is of.
fn is_before<V: Drop, A: HasOwner>(
    domain: &Domain<V>,
    desk: &mut Desk<V>,
    one: &A,
    other: &Held,
) -> bool
    ensures before { result ≡ comes_before (A.owned one.now) (block_of_held other.now) }
    ensures same { desk.new ≡ desk.old }
{
    match other {
        Held::Owner(owner) => owner_before(domain, desk, one, owner),
        Held::Weak(weak) => owner_before(domain, desk, one, weak),
    }
}

/// The same of two handles of either kind.
fn are_in_order<V: Drop>(domain: &Domain<V>, desk: &mut Desk<V>, one: &Held, other: &Held) -> bool
    ensures before { result ≡ comes_before (block_of_held one.now) (block_of_held other.now) }
    ensures same { desk.new ≡ desk.old }
{
    match one {
        Held::Owner(owner) => is_before(domain, desk, owner, other),
        Held::Weak(weak) => is_before(domain, desk, weak, other),
    }
}

impl<'d, V: Drop, H: Home> WorkerTable<'d, V, H> {
    /// Whether two owners point at one place, whatever they own ([util.smartptr.shared.cmp]). It touches no word.
    pub(crate) fn same_place(&mut self, a: usize, b: usize) -> bool
        requires { IsOwnerAt self.old.slots a × IsOwnerAt self.old.slots b }
        ensures told { PointAlike self.old a b result }
        ensures same { self.new ≡ self.old }
    {
        let one = owner_at(&self.slots, a);
        let other = owner_at(&self.slots, b);
        same_place(self.domain, &mut self.desk, one, other)
    }

    /// `owner_before` ([util.smartptr.shared.obs], [util.smartptr.weak.obs]) of two handles, each of either kind:
    /// whether the first comes before the second in owner order, which goes by blocks, empty first (own). It touches no
    /// word.
    pub(crate) fn owner_before(&mut self, a: usize, b: usize) -> bool
        requires { IsHandleAt self.old.slots a × IsHandleAt self.old.slots b }
        ensures told { AreInOrder self.old a b result }
        ensures same { self.new ≡ self.old }
    {
        let one = handle_at(&self.slots, a);
        let other = handle_at(&self.slots, b);
        are_in_order(self.domain, &mut self.desk, one, other)
    }
}
