//! A thread's vacant blocks.

/// A store of vacant blocks. Equal stores have the same blocks, and the other way round.
#[derive(Clone, PartialEq, Eq, Hash, Drop)]
pub(crate) struct Store {
    /// The least block from which all blocks up to `end` are in the store.
    next: u32,
    end: u32,
    /// The others, in order.
    others: Vec<u32>,
}

impl Store {
    /// Blocks from `next` to the one before `end`.
    pub fn new(others: Vec<u32>, next: u32, end: u32) -> Store {
        Store { next, end, others }
    }

    /// The least block goes out, if there is one.
    pub fn take_least(&mut self) -> Option<u32> {
        let other = self.others.as_slice().first().copied();
        match other {
            Some(block) if self.next >= self.end || block < self.next => {
                let _ = self.others.remove(0);
                Some(block)
            }
            _ => self.take_next(),
        }
    }

    fn take_next(&mut self) -> Option<u32> {
        if self.next >= self.end {
            return None;
        }
        let block = self.next;
        self.next = block.saturating_add(1);
        Some(block)
    }

    /// A block comes in.
    pub fn put(&mut self, block: u32) -> Result<(), std::alloc::AllocFailed<u32>> {
        if block.saturating_add(1) == self.next {
            self.next = block;
            self.join();
            return Ok(());
        }
        if let Err(at) = self.others.as_slice().binary_search(&block) {
            if at <= self.others.len() {
                self.others.insert(at, block)?;
            }
        }
        Ok(())
    }

    /// The others that stand just before `next` come to those behind it.
    fn join(&mut self) {
        for _ in 0..self.others.len() {
            let before = self.next.saturating_sub(1);
            match self.others.as_slice().binary_search(&before) {
                Ok(at) if at < self.others.len() => {
                    let _ = self.others.remove(at);
                    self.next = before;
                }
                _ => return,
            }
        }
    }
}
