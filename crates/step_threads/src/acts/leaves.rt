//! How a thread leaves what its names hold.
ghost use Rattle.std.specs.Prelude.{◌≡◌, ◌<◌, ◌≤◌, ◌⊎◌, length, true, Some, None, cond};
ghost use Rattle.control_word.specs.State.{ending};
ghost use Rattle.control_word.specs.declared.model.handle.Kind.TheVariants.{Owner, Weak};
ghost use Rattle.step_table.specs.AtomicSteps.{on};
ghost use Rattle.step_table.specs.Registers.{is_full, slot_pointer};
ghost use Rattle.step_threads.specs.Frames.{hand};
ghost use Rattle.step_threads.specs.Endings.{first_of};
ghost use Rattle.step_threads.specs.Rows.{ending_as, ending_by, with_end};
ghost use Rattle.step_threads.specs.Stocks.{HasRoomFor};
ghost use Rattle.step_threads.specs.AbstractStates.{remains_as};
ghost use Rattle.step_table.specs.GhostStates.{object_of_block, model_state};
ghost use Rattle.step_threads.specs.declared.programs.act.Act.{Act};
ghost use Rattle.step_threads.specs.declared.pending_call.PendingCall.{PendingCall};
ghost use Rattle.control_word.specs.declared.handle.Handle.{Handle};

use crate::ending::Ending;
use crate::said::{Said, Stepped};
use crate::thread::{Thread, says};
use control_word::Handle;
use control_word::model::handle::Kind;
use step_table::memory::ended::Ended;
use step_table::memory::table::Table;

impl Thread {
    ghost use Rattle.step_threads.specs.Frames.{task_at};
    ghost use Rattle.step_threads.specs.Threads.{BeginsAct, FitsThread, HasStepped, IsStocked, IsStockedBy};

    /// Leaves what a name holds, if anything. Where that was the last owner, the end of its object begins.
    pub(crate) fn leave(&mut self, desk: usize, table: &mut Table, name: u8) -> Stepped
        requires begins { BeginsAct desk self.old table.old }
        requires act { ((task_at self.old.frame).act ≡ Act.Leave name)
            ⊎ ((task_at self.old.frame).act ≡ Act.Clear name) }
        ensures stepped { HasStepped desk self.old table.old result self.new table.new }
        ensures fits { FitsThread desk self.new table.new }
    {
        table.assert_invariant();
        let statement = self.frame.statement();
        let held = self.frame.registers.get(usize::from(name));
        let last = self.frame.leave(desk, table, name);
        table.assert_invariant();
        let ended = self.left(desk, table, held, last, statement);
        says(
            held.is_some(),
            Said {
                statement,
                answer: None,
                ended,
            },
        )
    }

    /// Leaves what a name holds, and puts there what is in hand. Where that was the last owner, the end of its object
    /// begins.
    pub fn put(&mut self, desk: usize, table: &mut Table, name: u8) -> Stepped
        requires begins { BeginsAct desk self.old table.old }
        requires act { (task_at self.old.frame).act ≡ Act.Put name }
        ensures stepped { HasStepped desk self.old table.old result self.new table.new }
        ensures fits { FitsThread desk self.new table.new }
    {
        table.assert_invariant();
        let statement = self.frame.statement();
        let held = self.frame.registers.get(usize::from(name));
        let last = self.frame.put(desk, table, name);
        table.assert_invariant();
        let ended = self.left(desk, table, held, last, statement);
        says(
            held.is_some(),
            Said {
                statement,
                answer: None,
                ended,
            },
        )
    }

    /// What came out of a member of an ending object leaves. Where it was the last owner, the end of its object begins.
    pub(crate) fn leave_carried(
        &mut self,
        desk: usize,
        table: &mut Table,
        ending: Ending,
    ) -> Stepped
        requires fits { FitsThread desk self.old table.old }
        requires rest { self.old.pending_call ≡ PendingCall.Rest }
        requires first { first_of self.old.frame.endings.list ≡ Some ending }
        requires carried { is_full
            (slot_pointer self.old.frame.registers.slots.items (hand self.old.frame.registers.slots.items)) ≡ true }
        ensures stepped { HasStepped desk self.old table.old result self.new table.new }
        ensures fits { FitsThread desk self.new table.new }
    {
        table.assert_invariant();
        let hand = self.frame.registers.hand();
        let Some(pointer) = self.frame.registers.get(hand) else {
            unreachable!()
        };
        let last = self.frame.registers.leave(desk, table, hand, pointer);
        table.assert_invariant();
        let statement = ending.statement;
        let ended = self.left(desk, table, Some(pointer), last, statement);
        Stepped::Event(Said {
            statement,
            answer: None,
            ended,
        })
    }

    /// After a leave that was the last: of an owner, the end of its object begins; of a weak pointer, its block comes
    /// into the store. Answers what an object leaves that ends.
    pub(crate) fn left(
        &mut self,
        desk: usize,
        table: &Table,
        held: Option<Handle>,
        last: bool,
        statement: u32,
    ) -> Option<Ended>
        requires ending { (x : Handle) → held ≡ Some x → x.kind ≡ Owner → last ≡ true
            → ((model_state table.now).object (object_of_block table.now x.block)).phase ≡ ending desk }
        requires begins { (x : Handle) → held ≡ Some x → x.kind ≡ Owner → last ≡ true
            → length self.old.frame.endings.list < self.old.frame.endings.room }
        requires room { (x : Handle) → held ≡ Some x → x.kind ≡ Weak → last ≡ true
            → HasRoomFor self.old.stock x.block.0 }
        ensures frame { self.new.frame ≡ record self.old.frame { endings = self.new.frame.endings } }
        ensures endings { self.new.frame.endings.list
            ≡ with_end statement (ending_by last held) self.old.frame.endings.list }
        ensures roomy { self.old.frame.endings.room ≤ self.new.frame.endings.room }
        ensures stock { IsStockedBy held last self.old.stock self.new.stock }
        ensures pending_call { self.new.pending_call ≡ self.old.pending_call }
        ensures ended { result ≡ on (λ x. cond last
            (remains_as x.kind ((model_state table.now).object (object_of_block table.now x.block))) None) None held }
    {
        match held {
            Some(pointer) if last => self.close(desk, table, pointer, statement),
            _ => None,
        }
    }

    /// After the last leave of a pointer, by its kind.
    fn close(
        &mut self,
        desk: usize,
        table: &Table,
        pointer: Handle,
        statement: u32,
    ) -> Option<Ended>
        requires ending { pointer.kind ≡ Owner
            → ((model_state table.now).object (object_of_block table.now pointer.block)).phase ≡ ending desk }
        requires begins { pointer.kind ≡ Owner → length self.old.frame.endings.list
            < self.old.frame.endings.room }
        requires room { pointer.kind ≡ Weak → HasRoomFor self.old.stock pointer.block.0 }
        ensures frame { self.new.frame ≡ record self.old.frame { endings = self.new.frame.endings } }
        ensures endings { self.new.frame.endings.list
            ≡ with_end statement (ending_as pointer.kind pointer) self.old.frame.endings.list }
        ensures roomy { self.old.frame.endings.room ≤ self.new.frame.endings.room }
        ensures stock { IsStocked pointer.kind pointer.block.0 true self.old.stock self.new.stock }
        ensures pending_call { self.new.pending_call ≡ self.old.pending_call }
        ensures ended { result ≡ remains_as pointer.kind
            ((model_state table.now).object (object_of_block table.now pointer.block)) }
    {
        match pointer.kind {
            Kind::Owner => {
                self.frame.endings.begin(Ending {
                    block: pointer.block,
                    stage: 0,
                    statement,
                });
                Some(table.remains(desk, pointer.block))
            }
            Kind::Weak => {
                self.stock.put(pointer.block);
                None
            }
        }
    }
}
