//! What a handle in a slot tells.
ghost use Rattle.std.specs.Prelude.{◌≡◌, ◌≤◌, false, Option, Some, is_some, length, slice_get};
ghost use Rattle.control_block.specs.Desks.{Belongs, Keeps, bag_of};
ghost use Rattle.control_block.specs.HandleLists.{IsHeldByDesk};
ghost use Rattle.control_block.specs.declared.handles.Held.{Held};
ghost use Rattle.script_runner.specs.Parts.{block_of_held};
ghost use Rattle.script_runner.specs.SlotCalls.{CountsOf, CountsSlot, Expires, IsHandleAt, IsOwnerAt};
ghost use Rattle.script_runner.specs.SlotCalls.{IsWeakAt, PointsTo, ReadsSlot, has_block};

use crate::table::slots::{handle_at, owner_at, weak_at};
use crate::table::{Home, WorkerTable};
use control_block::desk::Desk;
use control_block::domain::Domain;
use control_word::{Place, Refusal};
use shared_handle::{Held, expired, read, use_count, use_count_weak};

/// How many owners the handle's object has.
fn count_of<V: Drop>(domain: &Domain<V>, desk: &mut Desk<V>, handle: &Held) -> u32
    requires domain { Belongs desk.old domain.now }
    requires held { IsHeldByDesk desk.old handle.now }
    ensures count { CountsOf desk.old handle.now result desk.new }
    ensures bag { bag_of desk.new ≡ bag_of desk.old }
    ensures held { desk.new.held ≡ desk.old.held }
    ensures keeps { Keeps desk.old desk.new }
{
    match handle {
        Held::Owner(owner) => use_count(domain, desk, owner),
        Held::Weak(weak) => use_count_weak(domain, desk, weak),
    }
}

/// Whether the handle is of an object.
fn is_of_object(handle: &Held) -> bool
    ensures { result ≡ is_some (block_of_held handle.now) }
{
    match handle {
        Held::Owner(owner) => owner.block().is_some(),
        Held::Weak(weak) => weak.block().is_some(),
    }
}

impl<'d, V: Drop, H: Home> WorkerTable<'d, V, H> {
    /// The field that an owner points at (own). It is refused where the place is null, or isn't in the object that it
    /// owns.
    pub(crate) fn read(&mut self, at: usize) -> Result<u64, Refusal>
        requires { IsOwnerAt self.old.slots at }
        ensures { ReadsSlot self.old at result self.new }
    {
        read(self.domain, &mut self.desk, owner_at(&self.slots, at))
    }

    /// `use_count` ([util.smartptr.shared.obs], [util.smartptr.weak.obs]) of a handle of either kind.
    pub(crate) fn use_count(&mut self, at: usize) -> u32
        requires { IsHandleAt self.old.slots at }
        ensures { CountsSlot self.old at result self.new }
    {
        count_of(self.domain, &mut self.desk, handle_at(&self.slots, at))
    }

    /// `expired` ([util.smartptr.weak.obs]) of a weak handle.
    pub(crate) fn expired(&mut self, at: usize) -> bool
        requires { IsWeakAt self.old.slots at }
        ensures { Expires self.old at result self.new }
    {
        expired(self.domain, &mut self.desk, weak_at(&self.slots, at))
    }

    /// Where an owner points: the stored pointer ([util.smartptr.shared.obs]).
    pub(crate) fn place(&self, at: usize) -> Option<Place>
        requires { IsOwnerAt self.now.slots at }
        ensures { PointsTo self.now at result }
    {
        owner_at(&self.slots, at).place()
    }

    /// Whether there is a handle of an object in the slot (own).
    pub(crate) fn has_object(&self, at: usize) -> bool
        ensures there { (s : Option Held) → slice_get self.now.slots at ≡ Some s → has_block s ≡ result }
        ensures none { length self.now.slots ≤ at → result ≡ false }
    {
        match self.slots.get(at) {
            Some(slot) => match slot.as_ref() {
                Some(handle) => is_of_object(handle),
                None => false,
            },
            None => false,
        }
    }
}
