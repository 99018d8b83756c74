//! Waiting between two tries at a word or a cell that others change too.

/// Spins of the first wait.
const SHORTEST: u32 = 16;
/// Spins of the longest wait.
const LONGEST: u32 = 1024;

/// How long the next wait is: twice as long as the last one, from 16 spins up to 1,024.
#[derive(Drop)]
pub struct Pause {
    spins: u32,
}

impl Pause {
    /// Before the first wait.
    pub fn new() -> Pause {
        Pause { spins: SHORTEST }
    }

    /// Spins for a while, and longer the next time: another thread's try succeeded.
    #[inline(never)]
    pub fn wait(&mut self) {
        for _ in 0..self.spins {
            std::hint::spin_loop();
        }
        if self.spins < LONGEST {
            self.spins *= 2;
        }
    }

    /// The same where no try succeeds until another thread goes on: after six waits that gets the processor.
    #[inline(never)]
    pub fn give_way(&mut self) {
        if self.spins < LONGEST {
            self.wait();
        } else {
            std::thread::yield_now();
        }
    }
}
