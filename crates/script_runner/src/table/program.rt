//! Tables for a team of workers, and how they come back.
ghost use Rattle.std.specs.Prelude.{◌≡◌, ◌≤◌, [], All};
ghost use Rattle.std.specs.Prelude.{length, vec_capacity, IfSome};
ghost use Rattle.script_runner.specs.Parting.{AbsorbsAll, IsNew, IsPartedInto, WhyFewer};
ghost use Rattle.script_runner.specs.Programs.{IsManned};

use crate::table::staff::Share;
use crate::table::{Home, WorkerTable};
use control_word::Refusal;
use std::alloc::Global;
use std::sync::Wait;

/// Tables for a team, and why they are fewer than its workers, where they are.
pub(crate) struct Crew<'d, V: Drop, H: Home> {
    pub tables: Vec<WorkerTable<'d, V, H>, Global>,
    pub fewer: Option<Refusal>,
}

impl<'d, V: Drop, H: Home> WorkerTable<'d, V, H> {
    /// Tables for so many workers, and why they are fewer, where they are.
    fn recruit_all(
        &mut self,
        alloc: Global,
        workers: usize,
        share: Share,
        tables: &mut Vec<WorkerTable<'d, V, H>>,
    ) -> Option<Refusal>
        requires { (tables.old.items ≡ []) × (workers ≤ vec_capacity tables.old) }
        ensures parts { IsPartedInto self.old.desk share.allowance share.blocks tables.new.items self.new.desk }
        ensures new { All (IsNew share.slots) tables.new.items }
        ensures rest { (self.new.slots ≡ self.old.slots) × (self.new.endings ≡ self.old.endings) }
        ensures manned { IsManned workers (length tables.new.items) result }
        ensures fewer { IfSome result (WhyFewer self.new.desk share.allowance share.blocks) }
    {
        while tables.len() < workers {
            match self.recruit(alloc, share) {
                Ok(table) => tables.push_reserved(table),
                Err(why) => return Some(why),
            }
        }
        None
    }

    /// A table for each of so many workers, with its part of the allowance and of the vacant blocks (own). Where one is
    /// refused, as a split is, the tables are fewer, and `fewer` says why.
    pub(crate) fn team(&mut self, alloc: Global, workers: usize, share: Share) -> Crew<'d, V, H>
        ensures parts { IsPartedInto self.old.desk share.allowance share.blocks result.tables.items self.new.desk }
        ensures new { All (IsNew share.slots) result.tables.items }
        ensures rest { (self.new.slots ≡ self.old.slots) × (self.new.endings ≡ self.old.endings) }
        ensures manned { IsManned workers (length result.tables.items) result.fewer }
        ensures fewer { IfSome result.fewer (WhyFewer self.new.desk share.allowance share.blocks) }
    {
        if workers == 0 {
            return Crew {
                tables: Vec::new(alloc),
                fewer: None,
            };
        }
        let Ok(mut tables) = Vec::with_capacity(alloc, workers) else {
            return Crew {
                tables: Vec::new(alloc),
                fewer: Some(Refusal::Memory),
            };
        };
        let fewer = self.recruit_all(alloc, workers, share, &mut tables);
        Crew { tables, fewer }
    }

    /// All of these tables are absorbed, the last one first (own).
    pub(crate) fn absorb_all<R: Wait>(&mut self, rt: &R, tables: Vec<WorkerTable<'d, V, H>>)
        ensures { AbsorbsAll self.old tables.entry.items self.new }
    {
        let mut tables = tables;
        while let Some(table) = tables.pop() {
            self.absorb(rt, table);
        }
        tables.destroy_empty();
    }
}
