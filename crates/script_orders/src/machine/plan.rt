//! What the threads of a script do, and what they begin with.

use crate::machine::heap::Heap;
use crate::machine::pointer::empty;
use crate::machine::position::Standing;
use crate::machine::store::Store;
use control_word::Refusal;
use script_text::Script;
use std::alloc::{AllocError, Global};
use step_core::{Act, Actor, CellName};
use step_table::limits::SCRIPT_STATEMENTS;
use step_threads::programs::act::Task;
use step_threads::programs::statement::tasks;

/// The tasks of a thread, how many names it has, and its first blocks: as many as it makes objects, if it has them. No
/// act takes another block that no act had before.
#[derive(Drop)]
pub(crate) struct Course {
    pub tasks: Vec<Task>,
    names: usize,
    blocks: u32,
}

/// What the threads of a script do, in order, and how many free cells of each kind the script names: up to the last
/// that a statement has.
#[derive(Drop)]
pub(crate) struct Plan {
    pub courses: Vec<Course>,
    pub shared: usize,
    weak: usize,
}

/// How many objects tasks make, up to so many.
fn makes_in(tasks: &[Task], most: u32) -> u32 {
    let mut makes = 0u32;
    for task in tasks {
        if makes < most && matches!(task.act, Act::Make { .. }) {
            makes += 1;
        }
    }
    makes
}

/// The tasks of an actor, which has so many blocks.
fn course_of(alloc: Global, actor: &Actor, blocks: u32) -> Result<Course, Refusal> {
    if actor.calls.len() > SCRIPT_STATEMENTS as usize {
        return Err(Refusal::Limit);
    }
    let Ok(names) = u8::try_from(actor.kinds.len()) else {
        return Err(Refusal::Limit);
    };
    let tasks = tasks(alloc, actor.calls.as_slice(), names)?;
    let blocks = makes_in(tasks.as_slice(), blocks);
    Ok(Course {
        tasks,
        names: usize::from(names),
        blocks,
    })
}

/// The cell that an act has.
fn cell_of(act: Act) -> Option<CellName> {
    match act {
        Act::Offer { cell, .. }
        | Act::Exchange { cell, .. }
        | Act::Load { cell }
        | Act::Compare { cell, .. }
        | Act::Swap { cell }
        | Act::Holds { cell, .. } => Some(cell),
        Act::Make { .. }
        | Act::Share { .. }
        | Act::Alias { .. }
        | Act::Move { .. }
        | Act::Downgrade { .. }
        | Act::Lock { .. }
        | Act::Put { .. }
        | Act::Leave { .. }
        | Act::Clear { .. }
        | Act::Count { .. }
        | Act::Expired { .. }
        | Act::Read { .. }
        | Act::FromThis { .. }
        | Act::Ask { .. }
        | Act::Drop
        | Act::OnShelf { .. } => None,
    }
}

impl Plan {
    /// Sees to it that there are the cells of these tasks.
    fn make_room(&mut self, tasks: &[Task]) {
        for task in tasks {
            match cell_of(task.act) {
                Some(CellName::Shared(number)) => {
                    self.shared = self.shared.max(usize::from(number) + 1);
                }
                Some(CellName::Weak(number)) => {
                    self.weak = self.weak.max(usize::from(number) + 1);
                }
                Some(CellName::Member { .. }) | None => {}
            }
        }
    }

    /// What the threads of a script do.
    pub fn of(alloc: Global, script: &Script) -> Result<Plan, Refusal> {
        let program = script.program(alloc)?;
        let each = script.blocks() / script.threads();
        let mut plan = Plan {
            courses: Vec::new(alloc),
            shared: 0,
            weak: 0,
        };
        for actor in &program.actors {
            let course = course_of(alloc, actor, each)?;
            plan.make_room(course.tasks.as_slice());
            plan.courses.push(course)?;
        }
        Ok(plan)
    }

    /// How many threads there are.
    pub fn threads(&self) -> usize {
        self.courses.len()
    }

    /// The tasks of a thread, from the first on.
    pub fn tasks(&self, thread: usize) -> &[Task] {
        match self.courses.as_slice().get(thread) {
            Some(course) => course.tasks.as_slice(),
            None => &[],
        }
    }

    /// How many blocks there are in all.
    fn blocks(&self) -> u32 {
        let mut blocks = 0u32;
        for course in &self.courses {
            blocks = blocks.saturating_add(course.blocks);
        }
        blocks
    }

    /// All blocks vacant, and all cells empty.
    pub fn first_heap(&self, alloc: Global) -> Result<Heap, AllocError> {
        Ok(Heap {
            blocks: vec![in alloc; 0u32; self.blocks() as usize]?,
            cells: vec![in alloc; empty(); self.shared.saturating_add(self.weak)]?,
        })
    }

    /// The threads before their first tasks. The blocks of one follow those of the thread before it.
    pub fn first_standings(&self, alloc: Global) -> Result<Vec<Standing>, Refusal> {
        let mut standings = Vec::new(alloc);
        let mut next = 1u32;
        for course in &self.courses {
            let end = next.saturating_add(course.blocks);
            standings.push(Standing {
                at: 0,
                has_taken: false,
                hand: empty(),
                aside: empty(),
                names: vec![in alloc; empty(); course.names]?,
                ends: Vec::new(alloc),
                store: Store::new(Vec::new(alloc), next, end),
            })?;
            next = end;
        }
        Ok(standings)
    }
}
