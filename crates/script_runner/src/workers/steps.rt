//! How a worker goes on, act by act.
ghost use Rattle.std.specs.Prelude.{◌≡◌, ◌+◌, ◌<◌, ◌≤◌, ◌∷◌, [], true, false};
ghost use Rattle.std.specs.Prelude.{List, drop, length, slice_get, Some};
ghost use Rattle.step_threads.specs.declared.programs.act.Act.TheVariants as act;
ghost use Rattle.step_threads.specs.declared.programs.act.Task.{Task as Todo};
ghost use Rattle.script_runner.specs.Goings.{task as as_task};
ghost use Rattle.script_runner.specs.Handling.{IsAlone, MayDo, MayGoOn, MaySettle, StaysArranged};
ghost use Rattle.script_runner.specs.Handling.{comparison_tasks};
ghost use Rattle.script_runner.specs.Kinds.{AllSuit, IsArranged, IsVacant, KeepsLimits, Stance};
ghost use Rattle.script_runner.specs.Notes.{PlaysOn, Settles, SettlesPartly};

use crate::acts::act_result::ActResult;
use crate::acts::comparison::compare;
use crate::acts::dispatch::deal;
use crate::table::{Home, WorkerTable};
use crate::workers::log::Log;
use crate::workers::seats::{told_of, top_of};
use std::sync::Wait;
use step_core::{CellName, Kind};
use step_threads::programs::act::{Act, Task};

impl<'a> Log<'a> {
    /// One round of what an act left to end, if there is something.
    fn round<H: Home>(
        &mut self,
        table: &mut WorkerTable<'_, u64, H>,
        hand: usize,
        statement: u32,
    ) -> bool
        requires vacant { MaySettle hand table.old }
        ensures goes { SettlesPartly hand statement table.old self.old table.new self.new }
        ensures taken { self.new.taken ≡ self.old.taken }
        ensures over { result ≡ false → table.new.endings ≡ [] }
        ensures on { result ≡ true → IsVacant table.new.slots hand }
        ensures slots { table.new.slots ≡ table.old.slots }
        ensures limits { KeepsLimits table.old table.new }
        ensures book { self.new.share.book ≡ self.old.share.book }
    {
        match top_of(table) {
            Some(_) => {}
            None => return false,
        }
        table.assert_invariant();
        let round = table.round();
        let ended = told_of(table, &round);
        self.note(statement, None, ended);
        true
    }

    /// What an act left to end does so, and what ends by it.
    fn settle<H: Home, R: Wait>(
        &mut self,
        rt: &R,
        table: &mut WorkerTable<'_, u64, H>,
        hand: usize,
        statement: u32,
    )
        requires vacant { MaySettle hand table.old }
        ensures settled { Settles hand statement table.old self.old table.new self.new }
        ensures taken { self.new.taken ≡ self.old.taken }
        ensures over { table.new.endings ≡ [] }
        ensures slots { table.new.slots ≡ table.old.slots }
        ensures limits { KeepsLimits table.old table.new }
        ensures book { self.new.share.book ≡ self.old.share.book }
    {
        for _ in rt.forever() {
            if !self.round(table, hand, statement) {
                return;
            }
        }
    }

    /// One act, and what ends by it.
    fn act<H: Home, R: Wait>(
        &mut self,
        rt: &R,
        table: &mut WorkerTable<'_, u64, H>,
        hand: usize,
        kinds: &Vec<Kind>,
        task: Task,
    )
        requires suits { MayDo kinds.now.items hand self.old.taken table.old task.act }
        requires alone { IsAlone self.old.taken task.act }
        requires settled { table.old.endings ≡ [] }
        ensures goes { (todo : List Todo) → PlaysOn hand table.old (task ∷ todo) self.old table.new todo self.new }
        ensures arranged { StaysArranged kinds.now.items hand self.old.taken task.act table.old
            self.new.taken table.new }
        ensures over { table.new.endings ≡ [] }
        ensures limits { KeepsLimits table.old table.new }
        ensures book { self.new.share.book ≡ self.old.share.book }
    {
        let went = deal(rt, table, hand, self.taken, kinds, task.act);
        let ActResult {
            taken,
            answer,
            ended,
        } = went;
        self.taken = taken;
        self.add_made(task.act, answer);
        self.note(task.statement, answer, ended);
        self.settle(rt, table, hand, task.statement);
    }

    /// What is in hand is compared with a cell, and goes in or is to be dropped. Answers how many of the statement's
    /// tasks that was.
    fn compare<H: Home, R: Wait>(
        &mut self,
        rt: &R,
        table: &mut WorkerTable<'_, u64, H>,
        hand: usize,
        kinds: &Vec<Kind>,
        statement: u32,
        name: u8,
        cell: CellName,
        weak: bool,
    ) -> usize
        requires taken { self.old.taken ≡ true }
        requires suits { MayDo kinds.now.items hand true table.old (act.Compare name cell weak) }
        requires settled { table.old.endings ≡ [] }
        ensures goes { (todo : List Todo)
            → PlaysOn hand table.old (comparison_tasks statement name cell weak todo) self.old
            table.new (drop result (comparison_tasks statement name cell weak todo)) self.new }
        ensures going { (x : Stance) → IsArranged kinds.now.items x hand true table.old → (todo : List Todo)
            → AllSuit kinds.now.items x (comparison_tasks statement name cell weak todo)
            → MayGoOn kinds.now.items hand self.new.taken table.new
            (drop result (comparison_tasks statement name cell weak todo)) }
        ensures some { 1 ≤ result }
        ensures few { result ≤ 3 }
        ensures limits { KeepsLimits table.old table.new }
        ensures book { self.new.share.book ≡ self.old.share.book }
    {
        table.assert_invariant();
        let compared = compare(rt, table, hand, name, cell, weak);
        self.taken = false;
        match compared {
            None => {
                self.settle(rt, table, hand, statement);
                1
            }
            Some(swapped) => {
                let ended = top_of(table);
                self.note_compared(statement, swapped, ended);
                self.settle(rt, table, hand, statement);
                if swapped { 3 } else { 2 }
            }
        }
    }

    /// The thread's next act, a comparison of what is in hand, and where its next one is.
    fn compare_at<H: Home, R: Wait>(
        &mut self,
        rt: &R,
        table: &mut WorkerTable<'_, u64, H>,
        hand: usize,
        kinds: &Vec<Kind>,
        tasks: &Vec<Task>,
        at: usize,
        statement: u32,
        name: u8,
        cell: CellName,
        weak: bool,
    ) -> usize
        requires taken { self.old.taken ≡ true }
        requires is { slice_get tasks.now.items at ≡ Some (as_task statement (act.Compare name cell weak)) }
        requires going { MayGoOn kinds.now.items hand self.old.taken table.old (drop at tasks.now.items) }
        ensures goes { PlaysOn hand table.old (drop at tasks.now.items) self.old
            table.new (drop result tasks.now.items) self.new }
        ensures going { MayGoOn kinds.now.items hand self.new.taken table.new (drop result tasks.now.items) }
        ensures on { at < result }
        ensures limits { KeepsLimits table.old table.new }
        ensures book { self.new.share.book ≡ self.old.share.book }
    {
        at + self.compare(rt, table, hand, kinds, statement, name, cell, weak)
    }

    /// The thread's next act by itself, and where its next one is.
    fn act_at<H: Home, R: Wait>(
        &mut self,
        rt: &R,
        table: &mut WorkerTable<'_, u64, H>,
        hand: usize,
        kinds: &Vec<Kind>,
        tasks: &Vec<Task>,
        at: usize,
        task: Task,
    ) -> usize
        requires is { slice_get tasks.now.items at ≡ Some task }
        requires alone { IsAlone self.old.taken task.act }
        requires going { MayGoOn kinds.now.items hand self.old.taken table.old (drop at tasks.now.items) }
        ensures goes { PlaysOn hand table.old (drop at tasks.now.items) self.old
            table.new (drop result tasks.now.items) self.new }
        ensures going { MayGoOn kinds.now.items hand self.new.taken table.new (drop result tasks.now.items) }
        ensures on { at < result }
        ensures limits { KeepsLimits table.old table.new }
        ensures book { self.new.share.book ≡ self.old.share.book }
    {
        self.act(rt, table, hand, kinds, task);
        at + 1
    }

    /// The thread's next act, and where its next one is.
    pub(crate) fn step<H: Home, R: Wait>(
        &mut self,
        rt: &R,
        table: &mut WorkerTable<'_, u64, H>,
        hand: usize,
        kinds: &Vec<Kind>,
        tasks: &Vec<Task>,
        at: usize,
    ) -> usize
        requires going { MayGoOn kinds.now.items hand self.old.taken table.old (drop at tasks.now.items) }
        ensures goes { PlaysOn hand table.old (drop at tasks.now.items) self.old
            table.new (drop result tasks.now.items) self.new }
        ensures going { MayGoOn kinds.now.items hand self.new.taken table.new (drop result tasks.now.items) }
        ensures on { at < length tasks.now.items → at < result }
        ensures stays { at ≤ result }
        ensures limits { KeepsLimits table.old table.new }
        ensures book { self.new.share.book ≡ self.old.share.book }
    {
        let task = match tasks.get(at) {
            Some(task) => *task,
            None => return at,
        };
        match task.act {
            Act::Compare { name, cell, weak } => match self.taken {
                true => self.compare_at(
                    rt,
                    table,
                    hand,
                    kinds,
                    tasks,
                    at,
                    task.statement,
                    name,
                    cell,
                    weak,
                ),
                false => self.act_at(rt, table, hand, kinds, tasks, at, task),
            },
            _ => self.act_at(rt, table, hand, kinds, tasks, at, task),
        }
    }
}
