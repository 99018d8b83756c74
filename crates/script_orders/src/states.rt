//! The states of a script's runs, each once.

ghost use Rattle.std.specs.Prelude.{◌≡◌, ◌+◌, ◌<◌, IfErr, IfOk};
ghost use Rattle.control_word.specs.declared.refusal.Refusal.TheVariants.{Memory};
ghost use Rattle.script_orders.specs.Seen.{one_where, seen};

use crate::machine::heap::{Heap, Objects, narrow};
use crate::machine::line::{Line, Told};
use crate::machine::plan::Plan;
use crate::machine::position::Standing;
use crate::machine::turn::Turn;
use control_word::Refusal;
use indexmap::IndexSet;
use std::alloc::Global;

/// A state by numbers: of its heap; and of each thread, of where it stands and of what it has told, which is 0 where
/// that is nothing.
pub(crate) type Key = Vec<u32>;

/// All states that were seen, and their parts, each once. So a part that many states have is kept once.
#[derive(Drop)]
pub(crate) struct States {
    objects: Objects,
    heaps: IndexSet<Heap>,
    standings: IndexSet<Standing>,
    told: IndexSet<Told>,
    keys: IndexSet<Key>,
    /// What ends told, and the counts of the blocks that were left.
    ends: IndexSet<Key>,
}

/// The place of a thread's numbers in a key.
fn place_of(thread: usize) -> usize {
    thread.saturating_mul(2).saturating_add(1)
}

fn number_at(key: &[u32], at: usize) -> u32 {
    match key.get(at) {
        Some(number) => *number,
        None => 0,
    }
}

fn set_number(key: &mut Key, at: usize, number: u32) {
    if at < key.len() {
        key[at] = number;
    }
}

impl States {
    pub fn new(alloc: Global) -> Result<States, Refusal>
        ensures none { IfOk result (λ states. seen states ≡ 0) }
    {
        Ok(States {
            objects: Objects::new(alloc)?,
            heaps: IndexSet::new(alloc),
            standings: IndexSet::new(alloc),
            told: IndexSet::new(alloc),
            keys: IndexSet::new(alloc),
            ends: IndexSet::new(alloc),
        })
    }

    /// How many states were seen.
    pub fn count(&self) -> usize
        ensures { result ≡ seen self.now }
    {
        self.keys.len()
    }

    /// The first state of a script's run.
    pub fn first(&mut self, alloc: Global, plan: &Plan) -> Result<Key, Refusal>
        ensures none { seen self.new ≡ seen self.old }
    {
        let mut key = Vec::new(alloc);
        let heap = plan.first_heap(alloc)?;
        key.push(self.heap_number(heap)?)?;
        for (thread, standing) in plan.first_standings(alloc)?.into_iter().enumerate() {
            let heap = plan.first_heap(alloc)?;
            let mut turn = Turn {
                heap,
                standing,
                told: None,
            };
            turn.settle(plan.tasks(thread));
            key.push(self.standing_number(turn.standing)?)?;
            key.push(0)?;
        }
        Ok(key)
    }

    fn heap_number(&mut self, heap: Heap) -> Result<u32, Refusal>
        ensures none { seen self.new ≡ seen self.old }
    {
        let (number, _) = self.heaps.insert_full(heap)?;
        narrow(number)
    }

    fn standing_number(&mut self, standing: Standing) -> Result<u32, Refusal>
        ensures none { seen self.new ≡ seen self.old }
    {
        let (number, _) = self.standings.insert_full(standing)?;
        narrow(number)
    }

    fn told_number(&mut self, before: u32, told: Option<(u32, Line)>) -> Result<u32, Refusal>
        ensures none { seen self.new ≡ seen self.old }
    {
        let Some((statement, line)) = told else {
            return Ok(before);
        };
        let (number, _) = self.told.insert_full(Told {
            before,
            statement,
            line,
        })?;
        narrow(number.saturating_add(1))
    }

    /// A state's number, and whether it wasn't seen before.
    pub fn visit(&mut self, key: Key) -> Result<(usize, bool), Refusal>
        ensures sees { IfOk result (λ visit. seen self.new ≡ seen self.old + one_where visit.1) }
        ensures there { IfOk result (λ visit. visit.0 < seen self.new) }
        ensures memory { IfErr result (λ why. why ≡ Memory) }
    {
        Ok(self.keys.insert_full(key)?)
    }

    /// A thread's turn in a state, before it is taken; none where the thread has no act left.
    fn turn(&self, plan: &Plan, key: &[u32], thread: usize) -> Result<Option<Turn>, Refusal> {
        let standing = number_at(key, place_of(thread)) as usize;
        let heap = number_at(key, 0) as usize;
        let (Some(standing), Some(heap)) = (
            self.standings.get_index(standing),
            self.heaps.get_index(heap),
        ) else {
            return Ok(None);
        };
        if !standing.has_act(plan.tasks(thread)) {
            return Ok(None);
        }
        Ok(Some(Turn {
            heap: heap.clone()?,
            standing: standing.clone()?,
            told: None,
        }))
    }

    /// The state after a thread's next act, if it has one.
    pub fn after(
        &mut self,
        plan: &Plan,
        state: usize,
        thread: usize,
    ) -> Result<Option<Key>, Refusal>
        ensures none { seen self.new ≡ seen self.old }
    {
        let Some(key) = self.keys.get_index(state) else {
            return Ok(None);
        };
        let mut key = key.clone()?;
        let Some(mut turn) = self.turn(plan, key.as_slice(), thread)? else {
            return Ok(None);
        };
        turn.take(&mut self.objects, plan, plan.tasks(thread))?;
        let place = place_of(thread);
        let before = number_at(key.as_slice(), place.saturating_add(1));
        let told = self.told_number(before, turn.told)?;
        let Turn { heap, standing, .. } = turn;
        set_number(&mut key, 0, self.heap_number(heap)?);
        set_number(&mut key, place, self.standing_number(standing)?);
        set_number(&mut key, place.saturating_add(1), told);
        Ok(Some(key))
    }

    /// Whether no thread has an act left in a state.
    pub fn is_end(&self, plan: &Plan, state: usize) -> bool {
        let Some(key) = self.keys.get_index(state) else {
            return false;
        };
        for thread in 0..plan.threads() {
            let standing = number_at(key.as_slice(), place_of(thread)) as usize;
            if let Some(standing) = self.standings.get_index(standing) {
                if standing.has_act(plan.tasks(thread)) {
                    return false;
                }
            }
        }
        true
    }

    /// Whether no end before this one told the same, and left as many pointers on each block.
    pub fn is_new_end(&mut self, alloc: Global, state: usize) -> Result<bool, Refusal>
        ensures none { seen self.new ≡ seen self.old }
    {
        let Some(key) = self.keys.get_index(state) else {
            return Ok(false);
        };
        let mut end = Vec::new(alloc);
        for (place, number) in key.iter().enumerate() {
            if place > 0 && place % 2 == 0 {
                end.push(*number)?;
            }
        }
        if let Some(heap) = self.heaps.get_index(number_at(key.as_slice(), 0) as usize) {
            for block in 1..=heap.blocks.len() {
                let object = self.objects.get(heap, narrow(block)?);
                end.push(object.owners)?;
                end.push(object.weaks)?;
            }
        }
        let (_, is_new) = self.ends.insert_full(end)?;
        Ok(is_new)
    }
}
