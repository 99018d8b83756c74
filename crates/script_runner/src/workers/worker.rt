//! A thread of a script on a real worker: its names are slots of the worker's table.
ghost use Rattle.std.specs.Prelude.{◌≤◌, length};
ghost use Rattle.script_runner.specs.Facts.{suit_fact};
ghost use Rattle.script_runner.specs.Kinds.{AllSuit, first_stance};

use crate::gate::Gate;
use crate::table::staff::Work;
use crate::table::{Home, WorkerTable};
use crate::workers::log::Log;
use crate::workers::start::begin;
use crate::workers::turns::play;
use std::sync::Wait;
use std::thread::Threads;
use step_core::Kind;
use step_threads::programs::act::Task;

/// Most names of a thread: the first slots of its worker's table.
const NAMES: usize = 32;

/// All slots of a worker's table: behind the names, one for what is to be dropped and one for what is in hand, and two
/// that stay vacant, so that its desk always has room for one handle more and for what a member held of an object that
/// ends.
pub(crate) const SLOTS: usize = NAMES + 4;

/// A thread of a script, by its number from 1: the kinds of its names, its tasks, and what came of them.
pub(crate) struct Worker<'a, G> {
    pub number: usize,
    pub gate: &'a G,
    pub kinds: Vec<Kind>,
    pub tasks: Vec<Task>,
    pub log: Log<'a>,
    ghost few: { length kinds.items ≤ 32 },
    ghost suits: { AllSuit kinds.items (first_stance kinds.items) tasks.items } by { suit_fact _ _ _ },
}

impl<'a, R: Threads + Wait + Sync, G: Gate + Sync> Work<u64, R> for Worker<'a, G> {
    ghost use Rattle.std.specs.Prelude.{◌≡◌, false};
    ghost use Rattle.control_block.specs.Desks.{allowance_of};
    ghost use Rattle.script_runner.specs.Beginnings.{IsFitting};
    ghost use Rattle.script_runner.specs.Works.{IsWorked};

    ghost needs = { λ w t. IsFitting t × (w.log.taken ≡ false) };

    ghost does = { λ w t w' u. (w'.log.share.book ≡ w.log.share.book)
        × (allowance_of u.desk ≡ allowance_of t.desk)
        × IsWorked w.kinds.items w.tasks.items w.log t w'.log u };

    fn work<H: Home>(&mut self, rt: &R, table: &mut WorkerTable<'_, u64, H>) {
        table.assert_invariant();
        begin(table, &self.kinds);
        play(
            rt,
            table,
            &self.kinds,
            &self.tasks,
            &mut self.log,
            self.number,
            self.gate,
        );
        table.assert_invariant();
    }
}
