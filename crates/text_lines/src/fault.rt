//! Why a line, or a text, was not read.

ghost use Rattle.std.specs.Prelude.{◌≡◌};
ghost use Rattle.text_lines.specs.declared.fault.Stop.TheVariants.{Memory};

use std::alloc::{AllocError, AllocFailed};

/// Why a line was not read (own).
#[derive(Debug, Drop)]
pub enum Stop<C> {
    /// A growth was really refused.
    Memory,
    /// What is wrong with the line.
    Cause(C),
}

impl<C> From<AllocError> for Stop<C> {
    ghost from_gives = { λ _ e. e ≡ Memory };

    fn from(_e: AllocError) -> Stop<C> {
        Stop::Memory
    }
}

impl<C, T: Drop> From<AllocFailed<T>> for Stop<C> {
    ghost from_gives = { λ _ e. e ≡ Memory };

    fn from(_e: AllocFailed<T>) -> Stop<C> {
        Stop::Memory
    }
}

/// A refusal of a text (own).
#[derive(Clone, Copy, Debug, PartialEq, Eq)]
pub enum LineFault<C> {
    /// A growth was really refused.
    Memory,
    /// The first faulty line, counted from 1, and what is wrong with it.
    Syntax { line: usize, cause: C },
}
