//! Handles that go to other slots, and those that leave.
ghost use Rattle.std.specs.Prelude.{◌≡◌, ◌<◌, IfNone, IfSome, None, Some, length, slice_get};
ghost use Rattle.script_runner.specs.SlotCalls.{IsHandleAt, MovesSlot, Resets};

use crate::table::slots::assignments::{assign, let_go};
use crate::table::slots::{empty_out, take_handle};
use crate::table::{Home, WorkerTable};
use shared_handle::Gone;

impl<'d, V: Drop, H: Home> WorkerTable<'d, V, H> {
    /// A handle goes to another slot ([util.smartptr.shared.assign]), and its own is vacant then. What lay there
    /// leaves.
    pub(crate) fn move_to(&mut self, from: usize, to: usize)
        requires from { IsHandleAt self.old.slots from }
        requires to { to < length self.old.slots }
        ensures { MovesSlot self.old from to self.new }
    {
        let handle = take_handle(&mut self.slots, from);
        assign(
            self.domain,
            &mut self.desk,
            &mut self.slots,
            &mut self.pile,
            to,
            handle,
        );
    }

    /// `reset` ([util.smartptr.shared.mod], [util.smartptr.weak.mod]): the handle leaves its slot, which is vacant
    /// then. Where it was an object's last owner, the object is left to end with this table. `None` just where the slot
    /// is vacant.
    pub(crate) fn reset(&mut self, at: usize) -> Option<Gone>
        requires { at < length self.old.slots }
        ensures left { IfSome result (λ gone. Resets self.old at gone self.new) }
        ensures vacant { IfNone result ((slice_get self.old.slots at ≡ Some None) × (self.new ≡ self.old)) }
    {
        match empty_out(&mut self.slots, at) {
            None => None,
            Some(handle) => Some(let_go(self.domain, &mut self.desk, &mut self.pile, handle)),
        }
    }
}
