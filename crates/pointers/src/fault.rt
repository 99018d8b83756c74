//! Why a call on a pointer or a desk was not done.
ghost use Rattle.std.specs.Prelude.{◌≡◌, ◌↔◌, IsTrue};
ghost use Rattle.pointers.specs.Faults.{IsRefusedFor, fault_of};

use crate::fault::call::Call;
use control_word::Refusal;
use std::alloc::{AllocError, AllocFailed};
use std::error::Error;
use std::{fmt, io};

pub(crate) mod call;

/// Why a call was not done (own). A pointer that was handed in has let go, unless the call says that it gives it back.
#[derive(Clone, Copy, PartialEq, Eq, Debug, Drop)]
pub enum Fault {
    /// The desk is at work: the call was made within a visit.
    Busy(Call),
    /// As many pointers are alive as the desk may have.
    Crowded(Call),
    /// There is no such cell.
    Cell(Call),
    /// The domain's objects have no such member.
    Member(Call),
    /// The place is none of a block's fields.
    Place(Call),
    /// The domain refused it.
    Refused(Call, Refusal),
    /// No memory.
    Memory,
    /// Input or output failed.
    Output,
    /// A user's own, by a number that the user chose.
    Other(u32),
}

impl Fault {
    /// What the domain refused, of a call.
    #[cold]
    #[inline(never)]
    pub(crate) fn of(call: Call, why: Refusal) -> Fault
        ensures { result ≡ fault_of call why }
    {
        match why {
            Refusal::Limit => Fault::Crowded(call),
            Refusal::Memory => Fault::Memory,
            _ => Fault::Refused(call, why),
        }
    }

    /// Whether it is that refusal of the domain, of whatever call.
    pub fn is_refusal(&self, refusal: Refusal) -> bool
        ensures { IsTrue result ↔ IsRefusedFor refusal self.now }
    {
        match self {
            Fault::Refused(_, why) => *why == refusal,
            _ => false,
        }
    }
}

impl fmt::Display for Fault {
    fn fmt<W: fmt::Write>(&self, f: &mut fmt::Formatter<W>) -> fmt::Result {
        match self {
            Fault::Busy(call) => write!(f, "{call}: busy, within a visit"),
            Fault::Crowded(call) => write!(f, "{call}: crowded, no pointer is left to the desk"),
            Fault::Cell(call) => write!(f, "{call}: no such cell"),
            Fault::Member(call) => write!(f, "{call}: no such member"),
            Fault::Place(call) => write!(f, "{call}: no such place"),
            Fault::Refused(call, why) => write!(f, "{call}: {why}"),
            Fault::Memory => f.write_str("no memory"),
            Fault::Output => f.write_str("input or output failed"),
            Fault::Other(number) => write!(f, "fault {number}"),
        }
    }
}

impl Error for Fault {}

impl From<AllocError> for Fault {
    ghost use Rattle.pointers.specs.declared.fault.Fault.TheVariants.{Memory};

    ghost from_gives = { λ _ why. why ≡ Memory };

    fn from(_why: AllocError) -> Fault {
        Fault::Memory
    }
}

impl<T: Drop> From<AllocFailed<T>> for Fault {
    ghost use Rattle.pointers.specs.declared.fault.Fault.TheVariants.{Memory};

    ghost from_gives = { λ _ why. why ≡ Memory };

    fn from(_failed: AllocFailed<T>) -> Fault {
        Fault::Memory
    }
}

impl From<io::Error> for Fault {
    ghost use Rattle.pointers.specs.declared.fault.Fault.TheVariants.{Output};

    ghost from_gives = { λ _ why. why ≡ Output };

    fn from(_why: io::Error) -> Fault {
        Self::Output
    }
}

/// A refused make, with the value that was handed in (own). `?` turns it into its fault, and drops the value.
#[derive(Drop)]
pub struct Refused<T> {
    pub why: Fault,
    pub back: T,
}

impl<T: Drop> From<Refused<T>> for Fault {
    ghost from_gives = { λ r why. why ≡ r.why };

    fn from(refused: Refused<T>) -> Fault {
        refused.why
    }
}
