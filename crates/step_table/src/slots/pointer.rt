//! Copies and leaves of pointers of either kind.
ghost use Rattle.std.specs.Prelude.{◌≡◌, ◌<◌};
ghost use Rattle.control_word.specs.declared.model.view.Pending.TheVariants.{Idle};
ghost use Rattle.control_word.specs.Handles.{IsPointer};
ghost use Rattle.control_word.specs.State.{Has, held, bag_size};
ghost use Rattle.step_table.specs.AtomicSteps.{is_last, leave, share};
ghost use Rattle.step_table.specs.GhostStates.{ghost_after_step, handle_in_block, pending, model_state};

use crate::memory::table::Table;
use control_word::Handle;
use control_word::model::handle::Kind;

impl Table {
    /// A copy of a pointer.
    pub(crate) fn copy_pointer(&mut self, desk: usize, pointer: Handle)
        requires seat { desk < self.old.extent.actors }
        requires idle { pending self.old desk ≡ Idle }
        requires held { Has (held desk (handle_in_block self.old pointer.kind pointer.block pointer.place))
            (model_state self.old).hands }
        requires place { IsPointer pointer.place }
        requires room { bag_size (model_state self.old) desk < (model_state self.old).allowance desk }
        ensures { self.new ≡ ghost_after_step self.old desk (share pointer) }
    {
        match pointer.kind {
            Kind::Owner => self.share(desk, pointer.block, pointer.place, pointer.place),
            Kind::Weak => self.weak_share(desk, pointer, pointer.place),
        }
    }

    /// Ends a pointer. Answers whether it was the last: of an owner, that no other owner is left; of a weak pointer,
    /// that its block is vacant.
    pub(crate) fn leave_pointer(&mut self, desk: usize, pointer: Handle) -> bool
        requires seat { desk < self.old.extent.actors }
        requires idle { pending self.old desk ≡ Idle }
        requires held { Has (held desk (handle_in_block self.old pointer.kind pointer.block pointer.place))
            (model_state self.old).hands }
        ensures last { result ≡ is_last (model_state self.old) pointer }
        ensures after { self.new ≡ ghost_after_step self.old desk (leave (model_state self.old) pointer) }
    {
        match pointer.kind {
            Kind::Owner => self.leave(desk, pointer.block, pointer.place),
            Kind::Weak => self.weak_leave(desk, pointer.block, pointer.place),
        }
    }
}
