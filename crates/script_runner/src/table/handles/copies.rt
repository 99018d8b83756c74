//! Handles that come of others, and go to other slots.
ghost use Rattle.std.specs.Prelude.{◌≡◌, ◌+◌, ◌<◌, length};
ghost use Rattle.control_word.specs.Handles.{IsPointer};
ghost use Rattle.control_block.specs.Desks.{Belongs, Keeps, bag_of};
ghost use Rattle.control_block.specs.HandleLists.{IsHeldByDesk, with_held};
ghost use Rattle.script_runner.specs.SlotCalls.{Copies, Downgrades, IsBelow, IsCopy, IsHandleAt, IsOwnerAt};
ghost use Rattle.script_runner.specs.This.{Aliases};

use crate::table::slots::assignments::assign;
use crate::table::slots::{handle_at, owner_at};
use crate::table::{Home, WorkerTable};
use control_block::desk::Desk;
use control_block::domain::Domain;
use control_word::Place;
use shared_handle::{Held, alias, downgrade, share, share_weak};

/// A copy of a handle.
fn copy_of<V: Drop>(domain: &Domain<V>, desk: &mut Desk<V>, handle: &Held) -> Held
    requires domain { Belongs desk.old domain.now }
    requires held { IsHeldByDesk desk.old handle.now }
    requires below { IsBelow desk.old }
    ensures copy { IsCopy handle.now desk.old result desk.new }
    ensures bag { bag_of desk.new ≡ with_held result (bag_of desk.old) }
    ensures held { desk.new.held ≡ desk.old.held + 1 }
    ensures keeps { Keeps desk.old desk.new }
{
    match handle {
        Held::Owner(owner) => match share(domain, desk, owner) {
            Ok(copy) => Held::Owner(copy),
            Err(_) => unreachable!(),
        },
        Held::Weak(weak) => match share_weak(domain, desk, weak) {
            Ok(copy) => Held::Weak(copy),
            Err(_) => unreachable!(),
        },
    }
}

impl<'d, V: Drop, H: Home> WorkerTable<'d, V, H> {
    /// A copy of a handle is assigned to a slot ([util.smartptr.shared.assign], [util.smartptr.weak.assign]).
    pub(crate) fn copy(&mut self, from: usize, to: usize)
        requires from { IsHandleAt self.old.slots from }
        requires to { to < length self.old.slots }
        requires below { IsBelow self.old.desk }
        ensures { Copies self.old from to self.new }
    {
        let copy = copy_of(self.domain, &mut self.desk, handle_at(&self.slots, from));
        assign(
            self.domain,
            &mut self.desk,
            &mut self.slots,
            &mut self.pile,
            to,
            copy,
        );
    }

    /// A weak handle of an owner's object is assigned to a slot ([util.smartptr.weak.assign]).
    pub(crate) fn downgrade(&mut self, from: usize, to: usize)
        requires from { IsOwnerAt self.old.slots from }
        requires to { to < length self.old.slots }
        requires below { IsBelow self.old.desk }
        ensures { Downgrades self.old from to self.new }
    {
        match downgrade(self.domain, &mut self.desk, owner_at(&self.slots, from)) {
            Ok(weak) => assign(
                self.domain,
                &mut self.desk,
                &mut self.slots,
                &mut self.pile,
                to,
                Held::Weak(weak),
            ),
            Err(_) => unreachable!(),
        }
    }

    /// The aliasing constructor ([util.smartptr.shared.const]): one owner more of what the owner owns, which points at
    /// a place, is assigned to a slot.
    pub(crate) fn alias(&mut self, of: usize, place: Option<Place>, to: usize)
        requires of { IsOwnerAt self.old.slots of }
        requires place { IsPointer place }
        requires to { to < length self.old.slots }
        requires below { IsBelow self.old.desk }
        ensures { Aliases self.old of place to self.new }
    {
        match alias(
            self.domain,
            &mut self.desk,
            owner_at(&self.slots, of),
            place,
        ) {
            Ok(owner) => assign(
                self.domain,
                &mut self.desk,
                &mut self.slots,
                &mut self.pile,
                to,
                Held::Owner(owner),
            ),
            Err(_) => unreachable!(),
        }
    }
}
