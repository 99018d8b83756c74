//! The memory of a table: a list of words, of which most are 0.
ghost use Rattle.std.specs.Prelude.{◌≡◌, ◌<◌, ◌≤◌, ◌++◌, ◌-◌, length, replicate, slice_index, slice_set};
ghost use Rattle.std.specs.Prelude.{IfOk, vec_capacity};
ghost use Rattle.step_table.specs.Filled.{IsFilled, padded};

use std::alloc::{AllocError, Global};
use std::marker::Model;

/// Words that are filled at a time, if so many are left: a page of memory.
const PART: usize = 512;

/// Words that are all 0 at first. The first `len` of them take their room at the start, and are filled as far as they
/// were written. So no write needs memory, and what was never written costs no time.
#[derive(Drop)]
pub(crate) struct Words {
    words: Vec<u64>,
    len: usize,
    behind: Vec<u64>,
}

impl Model for Words {
    ghost use Rattle.std.specs.Prelude.{◌++◌, List, ℕ};
    ghost use Rattle.step_table.specs.Filled.{IsFilled, padded};

    ghost Value = { List ℕ };

    ghost view = { λ w. padded w.len w.words.items ++ w.behind.items };

    ghost invariant = { λ w. IsFilled w.len w.words };
}

impl Words {
    /// So many words, all 0, of which the first `most` are filled as they are written.
    pub fn new(alloc: Global, len: usize, most: usize) -> Result<Words, AllocError>
        requires { most ≤ len }
        ensures { IfOk result (λ w. w ≡ replicate len 0) }
    {
        let words = Vec::with_capacity(alloc, most)?;
        let behind = vec![in alloc; 0; len - most]?;
        Ok(Words {
            words,
            len: most,
            behind,
        })
    }

    /// A word.
    pub fn get(&self, index: usize) -> u64
        requires { index < length self.now }
        ensures { result ≡ slice_index self.now index }
    {
        if index < self.words.len() {
            return self.words[index];
        }
        if index < self.len {
            return 0;
        }
        self.behind[index - self.len]
    }

    /// Writes a word.
    pub fn set(&mut self, index: usize, word: u64)
        requires { index < length self.old }
        ensures { self.new ≡ slice_set self.old index word }
    {
        if index >= self.len {
            self.behind[index - self.len] = word;
            return;
        }
        reach(&mut self.words, index, self.len);
        self.words[index] = word;
    }
}

/// How far words are filled for a write of this one.
fn end_of_part(index: usize, len: usize) -> usize
    requires { index < len }
    ensures { (index < result) × (result ≤ len) }
{
    if len - index > PART {
        index + PART
    } else {
        len
    }
}

/// Fills words with 0 up to this length, for which they have room.
fn fill(words: &mut Vec<u64>, len: usize)
    requires room { len ≤ vec_capacity words.old }
    requires more { length words.old.items ≤ len }
    ensures items { words.new.items ≡ words.old.items ++ replicate (len - length words.old.items) 0 }
    ensures capacity { vec_capacity words.old ≤ vec_capacity words.new }
{
    if words.resize(len, 0).is_err() {
        unreachable!()
    }
}

/// Fills words as far as this one, where they aren't.
fn reach(words: &mut Vec<u64>, index: usize, len: usize)
    requires index { index < len }
    requires filled { IsFilled len words.old }
    ensures filled { IsFilled len words.new }
    ensures there { index < length words.new.items }
    ensures same { padded len words.new.items ≡ padded len words.old.items }
{
    if index >= words.len() {
        fill(words, end_of_part(index, len));
    }
}
