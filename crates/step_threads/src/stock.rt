//! An actor's vacant blocks.
ghost use Rattle.std.specs.Prelude.{◌≡◌, ◌⊎◌, ◌<◌, ◌≤◌, ℕ, true, false, [], ◌∷◌, ◌+◌};
ghost use Rattle.std.specs.Prelude.{All, IfOk, MatchOption};
ghost use Rattle.std.specs.BinaryHeap.{heap_items};
ghost use Rattle.std.specs.List.Sorted.{IsPermutation};
ghost use Rattle.step_threads.specs.Stocks.{HasRoomFor, IsRange, from, numbers};

use control_word::place::Block;
use std::alloc::{AllocError, Global};
use std::cmp::Reverse;
use std::collections::BinaryHeap;
use std::marker::Model;

/// A store of vacant blocks that gives the least one, in logarithmic time. Those that were never taken are a range,
/// which costs nothing by its size. It takes its memory at the start.
#[derive(Drop)]
pub struct Stock {
    /// The least block that was never taken.
    next: u32,
    /// The block behind the last of them.
    end: u32,
    /// Those that came in.
    returned: BinaryHeap<Reverse<u32>>,
}

impl Model for Stock {
    ghost use Rattle.std.specs.Prelude.{◌++◌, ◌-◌};
    ghost use Rattle.step_threads.specs.Stocks.{IsRange, StoreView, from, numbers};
    ghost use Rattle.std.specs.BinaryHeap.{heap_items, heap_capacity};

    ghost Value = { StoreView };

    ghost view = { λ s. record {
      blocks = numbers (heap_items s.returned) ++ from s.next (s.end - s.next);
      room = heap_capacity s.returned;
    } };

    ghost invariant = { λ s. IsRange (heap_items s.returned) s.next s.end };
}

impl Stock {
    /// So many blocks, from `first` on, which is a block's number, and room for `room`.
    pub fn new(alloc: Global, first: u16, count: u16, room: usize) -> Result<Stock, AllocError>
        requires first { 0 < first }
        requires count { first + count ≤ 65536 }
        ensures blocks { IfOk result (λ s. IsPermutation (from first count) s.blocks) }
        ensures room { IfOk result (λ s. room ≤ s.room) }
    {
        let returned = BinaryHeap::with_capacity(alloc, room)?;
        let next = u32::from(first);
        Ok(Stock {
            next,
            end: next + u32::from(count),
            returned,
        })
    }

    /// A block comes in.
    pub fn put(&mut self, block: Block)
        requires { HasRoomFor self.old block.0 }
        ensures blocks { IsPermutation (block.0 ∷ self.old.blocks) self.new.blocks }
        ensures room { self.old.room ≤ self.new.room }
    {
        if self.returned.push(Reverse(block.number())).is_err() {
            unreachable!()
        }
    }

    /// The least block goes out, if there is one.
    pub(crate) fn take_least(&mut self) -> Option<Block>
        ensures least { MatchOption result (self.old.blocks ≡ [])
            (λ b. IsPermutation self.old.blocks (b.0 ∷ self.new.blocks) × All (λ c. b.0 ≤ c) self.old.blocks) }
        ensures none { MatchOption result (self.new.blocks ≡ self.old.blocks) (λ _. Unit {0}) }
        ensures room { self.new.room ≡ self.old.room }
    {
        if takes_next(&self.returned, self.next, self.end) {
            let block = Block::numbered(self.next);
            self.next += 1;
            return Some(block);
        }
        match self.returned.pop() {
            None => None,
            Some(Reverse(block)) => Some(Block::numbered(block)),
        }
    }
}

/// Whether there are blocks from `next` on, and none that was returned is less.
fn takes_next(returned: &BinaryHeap<Reverse<u32>>, next: u32, end: u32) -> bool
    requires { IsRange (heap_items returned.now) next end }
    ensures next { result ≡ true → (next < end) × All (λ c. next ≤ c) (numbers (heap_items returned.now)) }
    ensures returned { result ≡ false → (next ≡ end)
        ⊎ ((b : ℕ) → All (λ c. b ≤ c) (numbers (heap_items returned.now)) → b ≤ next) }
{
    if next == end {
        return false;
    }
    match returned.peek() {
        None => true,
        Some(Reverse(block)) => next < *block,
    }
}
