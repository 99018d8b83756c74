//! The objects that end in a thread's hands.
ghost use Rattle.std.specs.Prelude.{◌≡◌, ◌<◌, ◌≤◌, [], ◌∷◌, length, sum_by, IfOk, Some};
ghost use Rattle.std.specs.Prelude.{◌==◌};
ghost use Rattle.std.specs.List.{list_any};
ghost use Rattle.step_threads.specs.Endings.{ending_steps, first_of, staged_first};

use control_word::place::Block;
use std::alloc::{AllocError, Global};
use std::marker::Model;

/// An object that ends: its members before `stage` are cleared, and behind the last it is finished. Its last owner left
/// by this statement.
#[derive(Clone, Copy)]
pub struct Ending {
    pub block: Block,
    pub stage: u8,
    pub statement: u32,
}

/// The endings of a thread that are under way; the one begun last goes on first. They take their memory at the start.
#[derive(Drop)]
pub struct Endings {
    items: Vec<Ending>,
}

impl Model for Endings {
    ghost use Rattle.std.specs.Prelude.{reverse, vec_capacity};
    ghost use Rattle.step_threads.specs.Endings.{Stack};

    ghost Value = { Stack };

    ghost view = { λ e. record { list = reverse e.items.items; room = vec_capacity e.items } };
}

impl Endings {
    /// No ending, with room for so many.
    pub fn new(alloc: Global, room: usize) -> Result<Endings, AllocError>
        ensures none { IfOk result (λ e. e.list ≡ []) }
        ensures room { IfOk result (λ e. room ≤ e.room) }
    {
        let items = Vec::with_capacity(alloc, room)?;
        Ok(Endings { items })
    }

    /// The ending begun last.
    pub fn first(&self) -> Option<Ending>
        ensures { result ≡ first_of self.now.list }
    {
        if self.items.is_empty() {
            return None;
        }
        Some(self.items[self.items.len() - 1])
    }

    /// Whether one is of the object in a block.
    pub fn has(&self, block: Block) -> bool
        ensures { result ≡ list_any (λ e. e.block.0 == block.0) self.now.list }
    {
        has_block(self.items.as_slice(), block)
    }

    /// An ending begins.
    pub(crate) fn begin(&mut self, ending: Ending)
        requires { length self.old.list < self.old.room }
        ensures list { self.new.list ≡ ending ∷ self.old.list }
        ensures room { self.old.room ≤ self.new.room }
    {
        if self.items.push(ending).is_err() {
            unreachable!()
        }
    }

    /// The ending begun last has one more member cleared.
    pub fn advance(&mut self, ending: Ending)
        requires first { first_of self.old.list ≡ Some ending }
        requires inside { ending.stage < 3 }
        ensures list { self.new.list ≡ staged_first self.old.list }
        ensures room { self.old.room ≤ self.new.room }
    {
        let _ending = self.items.pop();
        let next = Ending {
            block: ending.block,
            stage: ending.stage + 1,
            statement: ending.statement,
        };
        if self.items.push(next).is_err() {
            unreachable!()
        }
    }

    /// The ending begun last is over.
    pub fn finish(&mut self, ending: Ending)
        requires { first_of self.old.list ≡ Some ending }
        ensures list { self.old.list ≡ ending ∷ self.new.list }
        ensures room { self.new.room ≡ self.old.room }
    {
        let _ending = self.items.pop();
    }

    /// The steps that they have left, but for what comes out of members.
    pub fn steps_left(&self) -> usize
        requires { sum_by ending_steps self.now.list ≤ 8590000000 }
        ensures { result ≡ sum_by ending_steps self.now.list }
    {
        ending_steps(self.items.as_slice())
    }
}

/// Whether an ending is of the object in a block.
fn has_block(endings: &[Ending], block: Block) -> bool
    ensures { result ≡ list_any (λ e. e.block.0 == block.0) endings.now }
{
    endings.iter().any(|ending| ending.block == block)
}

/// The steps that endings have left.
fn ending_steps(endings: &[Ending]) -> usize
    requires { sum_by ending_steps endings.now ≤ 8590000000 }
    ensures { result ≡ sum_by ending_steps endings.now }
{
    let mut left = 0;
    for ending in endings {
        left += 4 * 3usize.saturating_sub(usize::from(ending.stage)) + 1;
    }
    left
}
