//! Why a call was refused, and what comes back with it.
ghost use Rattle.std.specs.Prelude.{◌≡◌};

use std::alloc::{AllocError, AllocFailed};
use std::error::Error;
use std::fmt;

/// A refusal, by its number in scripts and messages (own). From 10 on they are a script's own.
#[derive(Clone, Copy, PartialEq, Eq, Debug, Drop)]
pub enum Refusal {
    /// A growth was really refused.
    Memory = 1,
    /// A shape or a program is outside the limits.
    Shape = 2,
    /// The desk's store of vacant blocks is empty.
    Full = 3,
    /// The desk is at its allowance, or a split can't be given.
    Limit = 4,
    /// The weak pointer is expired or empty (`bad_weak_ptr`, [util.smartptr.weak.bad]).
    BadWeak = 5,
    /// The place, or the owned object, is none.
    Null = 6,
    /// The place isn't in the object that the handle owns.
    Outside = 7,
    /// The object has no from-this flag.
    NotEnabled = 8,
    /// Other desks have not been joined.
    NotSole = 9,
}

impl Refusal {
    ghost use Rattle.control_word.specs.Refusal.{refusal_number};

    /// The number that scripts and messages show (own), 1 to 9.
    #[inline]
    pub fn number(self) -> u8
        ensures { result ≡ refusal_number self }
    {
        self as u8
    }
}

impl fmt::Display for Refusal {
    ghost use Rattle.std.specs.Prelude.{Some};
    ghost use Rattle.control_word.specs.Refusal.{refusal_text};

    ghost output = { λ why. Some (refusal_text why) };

    fn fmt<W: fmt::Write>(&self, f: &mut fmt::Formatter<W>) -> fmt::Result {
        f.write_str(match self {
            Refusal::Memory => "memory",
            Refusal::Shape => "shape",
            Refusal::Full => "full",
            Refusal::Limit => "limit",
            Refusal::BadWeak => "bad weak",
            Refusal::Null => "null",
            Refusal::Outside => "outside",
            Refusal::NotEnabled => "not enabled",
            Refusal::NotSole => "not sole",
        })
    }
}

impl Error for Refusal {}

impl From<AllocError> for Refusal {
    ghost use Rattle.control_word.specs.declared.refusal.Refusal.TheVariants.{Memory};

    ghost from_gives = { λ _ why. why ≡ Memory };

    fn from(_error: AllocError) -> Self {
        Self::Memory
    }
}

impl<T: Drop> From<AllocFailed<T>> for Refusal {
    ghost use Rattle.control_word.specs.declared.refusal.Refusal.TheVariants.{Memory};

    ghost from_gives = { λ _ why. why ≡ Memory };

    fn from(_failed: AllocFailed<T>) -> Self {
        Self::from(AllocError)
    }
}

/// A refusal, with all that was handed in (own). Where that must be spent, so must this.
#[derive(PartialEq, Eq, Debug, Drop)]
pub struct Refused<T> {
    pub why: Refusal,
    pub back: T,
}
