//! Empty handles.
ghost use Rattle.std.specs.Prelude.{◌<◌, length};
ghost use Rattle.script_runner.specs.Handles.{EmptiesSlot, EmptiesSlotWeakly};
ghost use Rattle.script_runner.specs.SlotCalls.{IsBelow};

use crate::table::slots::assignments::assign;
use crate::table::{Home, WorkerTable};
use shared_handle::{Held, empty, empty_weak};

impl<'d, V: Drop, H: Home> WorkerTable<'d, V, H> {
    /// An owner of nothing, whose place is null, is assigned to a slot ([util.smartptr.shared.const]).
    pub(crate) fn empty(&mut self, to: usize)
        requires to { to < length self.old.slots }
        requires below { IsBelow self.old.desk }
        ensures { EmptiesSlot self.old to self.new }
    {
        match empty(self.domain, &mut self.desk) {
            Ok(owner) => assign(
                self.domain,
                &mut self.desk,
                &mut self.slots,
                &mut self.pile,
                to,
                Held::Owner(owner),
            ),
            Err(_) => unreachable!(),
        }
    }

    /// A weak handle on nothing is assigned to a slot ([util.smartptr.weak.const]).
    pub(crate) fn empty_weak(&mut self, to: usize)
        requires to { to < length self.old.slots }
        requires below { IsBelow self.old.desk }
        ensures { EmptiesSlotWeakly self.old to self.new }
    {
        match empty_weak(self.domain, &mut self.desk) {
            Ok(weak) => assign(
                self.domain,
                &mut self.desk,
                &mut self.slots,
                &mut self.pile,
                to,
                Held::Weak(weak),
            ),
            Err(_) => unreachable!(),
        }
    }
}
