//! Owners from weak handles.
ghost use Rattle.std.specs.Prelude.{◌≡◌, ◌<◌, false, length, true};
ghost use Rattle.script_runner.specs.Handles.{GivesNoOwner, Upgrades};
ghost use Rattle.script_runner.specs.SlotCalls.{IsBelow, IsWeakAt, LocksSlot};

use crate::table::slots::assignments::assign;
use crate::table::slots::weak_at;
use crate::table::{Home, WorkerTable};
use shared_handle::{Held, lock, upgrade};
use std::sync::Wait;

impl<'d, V: Drop, H: Home> WorkerTable<'d, V, H> {
    /// `lock` ([util.smartptr.weak.obs]): an owner of the weak handle's object, just where one remains at the lock's
    /// step, or else an empty one, is assigned to a slot; whether it owns.
    pub(crate) fn lock<R: Wait>(&mut self, rt: &R, from: usize, to: usize) -> bool
        requires from { IsWeakAt self.old.slots from }
        requires to { to < length self.old.slots }
        requires below { IsBelow self.old.desk }
        ensures { LocksSlot self.old from to result self.new }
    {
        let owner = match lock(rt, self.domain, &mut self.desk, weak_at(&self.slots, from)) {
            Ok(owner) => owner,
            Err(_) => unreachable!(),
        };
        let got = owner.block().is_some();
        assign(
            self.domain,
            &mut self.desk,
            &mut self.slots,
            &mut self.pile,
            to,
            Held::Owner(owner),
        );
        got
    }

    /// The constructor from a weak pointer ([util.smartptr.shared.const]): an owner of the weak handle's object is
    /// assigned to a slot. It is false where no owner remains at its step ([util.smartptr.weak.bad]): then the slots
    /// are as they were.
    pub(crate) fn upgrade<R: Wait>(&mut self, rt: &R, from: usize, to: usize) -> bool
        requires from { IsWeakAt self.old.slots from }
        requires to { to < length self.old.slots }
        requires below { IsBelow self.old.desk }
        ensures upgraded { result ≡ true → Upgrades self.old from to self.new }
        ensures none { result ≡ false → GivesNoOwner self.old from self.new }
    {
        match upgrade(rt, self.domain, &mut self.desk, weak_at(&self.slots, from)) {
            Ok(owner) => {
                assign(
                    self.domain,
                    &mut self.desk,
                    &mut self.slots,
                    &mut self.pile,
                    to,
                    Held::Owner(owner),
                );
                true
            }
            Err(_) => false,
        }
    }
}
