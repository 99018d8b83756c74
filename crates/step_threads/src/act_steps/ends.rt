//! How a thread ends objects, step by step.
ghost use Rattle.std.specs.Prelude.{◌≡◌, ◌<◌, Some, false};
ghost use Rattle.step_threads.specs.Endings.{first_of};
ghost use Rattle.step_threads.specs.Frames.{hand};
ghost use Rattle.step_table.specs.Registers.{is_full, slot_pointer};
ghost use Rattle.step_threads.specs.declared.pending_call.PendingCall.{PendingCall};

use crate::act_steps::stores::returning;
use crate::ending::Ending;
use crate::pending_call::PendingCall;
use crate::said::Stepped;
use crate::thread::{Thread, silent};
use control_word::Site;
use step_table::memory::table::Table;

impl Thread {
    ghost use Rattle.step_threads.specs.Threads.{FitsThread, HasStepped};

    /// The next step of the ending begun last.
    pub(crate) fn end_on(&mut self, desk: usize, table: &mut Table, ending: Ending) -> Stepped
        requires fits { FitsThread desk self.old table.old }
        requires rest { self.old.pending_call ≡ PendingCall.Rest }
        requires first { first_of self.old.frame.endings.list ≡ Some ending }
        requires empty { is_full
            (slot_pointer self.old.frame.registers.slots.items (hand self.old.frame.registers.slots.items))
            ≡ false }
        ensures stepped { HasStepped desk self.old table.old result self.new table.new }
        ensures fits { FitsThread desk self.new table.new }
    {
        if ending.stage == 3 {
            self.finish(desk, table, ending)
        } else {
            self.look_at_member(desk, table, ending)
        }
    }

    /// Looks at a member of the object that ends. An empty one is cleared by that; what another holds is taken out
    /// next.
    fn look_at_member(&mut self, desk: usize, table: &mut Table, ending: Ending) -> Stepped
        requires fits { FitsThread desk self.old table.old }
        requires rest { self.old.pending_call ≡ PendingCall.Rest }
        requires first { first_of self.old.frame.endings.list ≡ Some ending }
        requires inside { ending.stage < 3 }
        requires empty { is_full
            (slot_pointer self.old.frame.registers.slots.items (hand self.old.frame.registers.slots.items))
            ≡ false }
        ensures stepped { HasStepped desk self.old table.old result self.new table.new }
        ensures fits { FitsThread desk self.new table.new }
    {
        table.assert_invariant();
        if table.look_member(desk, ending.block, ending.stage) > 0 {
            self.pending_call = PendingCall::Clearing;
            return Stepped::Quiet(silent(ending.statement));
        }
        self.frame.endings.advance(ending);
        Stepped::Event(silent(ending.statement))
    }

    /// What a member of the object that ends holds comes out, into the hand if it has an object. Its funds that were
    /// not taken are given back next.
    pub(crate) fn empty_on(&mut self, desk: usize, table: &mut Table) -> Stepped
        requires fits { FitsThread desk self.old table.old }
        requires pending_call { self.old.pending_call ≡ PendingCall.Clearing }
        ensures stepped { HasStepped desk self.old table.old result self.new table.new }
        ensures fits { FitsThread desk self.new table.new }
    {
        table.assert_invariant();
        let Some(ending) = self.frame.endings.first() else {
            unreachable!()
        };
        let (block, member) = (ending.block, ending.stage);
        let kind = table.kind_in(Site::Member { block, member });
        let hand = self.frame.registers.hand();
        let found = self
            .frame
            .registers
            .take_out(desk, table, block, member, hand);
        self.frame.endings.advance(ending);
        self.pending_call = returning(kind, ending.statement, found);
        Stepped::Event(silent(ending.statement))
    }

    /// Finishes the object that ends. Its block comes into the store, if it is vacant.
    fn finish(&mut self, desk: usize, table: &mut Table, ending: Ending) -> Stepped
        requires fits { FitsThread desk self.old table.old }
        requires rest { self.old.pending_call ≡ PendingCall.Rest }
        requires first { first_of self.old.frame.endings.list ≡ Some ending }
        requires behind { ending.stage ≡ 3 }
        requires empty { is_full
            (slot_pointer self.old.frame.registers.slots.items (hand self.old.frame.registers.slots.items))
            ≡ false }
        ensures stepped { HasStepped desk self.old table.old result self.new table.new }
        ensures fits { FitsThread desk self.new table.new }
    {
        table.assert_invariant();
        let vacant = table.finish(desk, ending.block);
        table.assert_invariant();
        self.frame.endings.finish(ending);
        if !vacant {
            return Stepped::Event(silent(ending.statement));
        }
        self.stock.put(ending.block);
        Stepped::Event(silent(ending.statement))
    }
}
