//! What a run of a world answers.
ghost use Rattle.std.specs.Prelude.{◌≡◌};

use std::alloc::AllocError;
use step_threads::said::Stepped;

/// A step of a run: the number of the actor that made it, from 1, and what it was.
#[derive(Clone, Copy, Debug, PartialEq, Eq)]
pub struct TraceStep {
    pub actor: u8,
    pub stepped: Stepped,
}

/// The steps of a run, in order.
#[derive(Debug, Drop)]
pub struct Trace {
    pub steps: Vec<TraceStep>,
}

/// Why a run was refused (own).
#[derive(Clone, Copy, Debug, PartialEq, Eq, Drop)]
pub enum RunRefusal {
    /// Refusal 1 of messages: a growth was really refused.
    Memory,
    /// Refusal 11 of messages, with the position, from 1, of the first number that names no actor.
    BadTurn { position: usize },
}

impl From<AllocError> for RunRefusal {
    ghost use Rattle.step_core.specs.declared.trace.RunRefusal.TheVariants.{Memory};

    ghost from_gives = { λ _ why. why ≡ Memory };

    fn from(_error: AllocError) -> Self {
        Self::Memory
    }
}
