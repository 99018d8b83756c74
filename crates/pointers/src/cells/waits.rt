//! Waiting for a place for owners to hold something else.
ghost use Rattle.std.specs.Prelude.{◌≡◌, ◌⊎◌, false, not, IfErr, IfOk, OnOk};
ghost use Rattle.control_word.specs.declared.model.handle.Kind.TheVariants.{Owner};
ghost use Rattle.pointers.specs.Beside.{seen_by};
ghost use Rattle.pointers.specs.SiteCalls.{LookedFor, WhyNotLookedFor};
ghost use Rattle.pointers.specs.declared.fault.Fault.TheVariants.{Output};

use crate::cells::member::Member;
use crate::domain::Domain;
use crate::fault::Fault;
use crate::shared::Shared;
use std::sync::Wait;
use std::sync::atomic::AtomicU64;
use std::time::{Clock, Duration, Instant};

/// So many looks come one after another, before the processor is given to others between two.
const LOOKS: u32 = 64;
/// After so many, the thread sleeps between two.
const YIELDS: u32 = 128;
/// The first sleep, in microseconds. Each is twice as long as the one before.
const SHORTEST: u64 = 16;
/// The longest one.
const LONGEST: u64 = 1_000;

/// What comes between two looks of a wait.
#[derive(Drop)]
pub(super) struct Backoff {
    looks: u32,
    /// How long it sleeps next, in microseconds.
    sleep: u64,
}

impl Backoff {
    pub(super) fn new() -> Backoff
        ensures { (result.looks ≡ 0) × (result.sleep ≡ 16) }
    {
        Backoff {
            looks: 0,
            sleep: SHORTEST,
        }
    }

    /// It spins, then yields the processor, and then sleeps longer and longer (waits).
    pub(super) fn rest<R: Wait>(&mut self, rt: &R) {
        if self.looks < LOOKS {
            self.looks += 1;
            std::hint::spin_loop();
        } else if self.looks < YIELDS {
            self.looks += 1;
            std::thread::yield_now();
        } else {
            AtomicU64::new(0).park_timeout(rt, 0, Duration::from_micros(self.sleep));
            self.sleep = self.sleep.saturating_mul(2).min(LONGEST);
        }
    }
}

impl<'p, 't, D: Domain> Member<'p, 't, D> {
    /// Returns once a look tells that it no longer holds what this pointer is, or is no longer empty where that is
    /// `None`, in C++ `wait(p)` (waits). It looks, spins, yields the processor, and then sleeps between two looks, a
    /// millisecond at most. Nobody has to notify, and nothing is promised of when.
    pub fn wait_while<R: Wait>(&self, rt: &R, mine: Option<&Shared<'t, D>>) -> Result<(), Fault>
        ensures changed { OnOk result (LookedFor D.opened Owner self.now (seen_by (λ x. x.now) mine.entry) false) }
        ensures refused { IfErr result (WhyNotLookedFor D.opened Owner self.now (seen_by (λ x. x.now) mine.entry)) }
    {
        let mut backoff = Backoff::new();
        for _ in rt.forever() {
            if !self.holds(mine)? {
                return Ok(());
            }
            backoff.rest(rt);
        }
        unreachable!()
    }

    /// The same, for so long at most: whether it changed (waits). `Output` where the clock can't be read.
    pub fn wait_timeout_while<R: Wait + Clock>(
        &self,
        rt: &R,
        mine: Option<&Shared<'t, D>>,
        most: Duration,
    ) -> Result<bool, Fault>
        ensures told { IfOk result (λ changed. LookedFor D.opened Owner self.now (seen_by (λ x. x.now) mine.entry)
            (not changed)) }
        ensures refused { IfErr result (λ why. (why ≡ Output)
            ⊎ WhyNotLookedFor D.opened Owner self.now (seen_by (λ x. x.now) mine.entry) why) }
    {
        let start = Instant::now(rt)?;
        let mut backoff = Backoff::new();
        for _ in rt.forever() {
            let there = self.holds(mine)?;
            if !there || start.elapsed(rt)? >= most {
                return Ok(!there);
            }
            backoff.rest(rt);
        }
        unreachable!()
    }
}
