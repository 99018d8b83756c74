//! Why a program was not run.
use std::error::Error;
use std::fmt;

/// A number of a shape.
#[derive(Clone, Copy, PartialEq, Eq, Debug, Drop)]
pub enum Number {
    Blocks,
    Owners,
    Weaks,
    SharedCells,
    WeakCells,
    Allowance,
}

impl fmt::Display for Number {
    fn fmt<W: fmt::Write>(&self, f: &mut fmt::Formatter<W>) -> fmt::Result {
        f.write_str(match self {
            Number::Blocks => "blocks",
            Number::Owners => "owners",
            Number::Weaks => "weaks",
            Number::SharedCells => "shared_cells",
            Number::WeakCells => "weak_cells",
            Number::Allowance => "allowance",
        })
    }
}

/// A number that is beyond a limit.
#[derive(Clone, Copy, PartialEq, Eq, Debug, Drop)]
pub struct Limit {
    pub number: Number,
    pub is: u64,
    pub limit: u64,
}

/// Why a program was not run.
#[derive(Clone, Copy, PartialEq, Eq, Debug, Drop)]
pub enum NotRun {
    /// A number is below what it must be at least.
    Small(Limit),
    /// A number is above what it may be at most.
    Large(Limit),
    /// No memory, or no thread.
    Memory,
}

impl fmt::Display for NotRun {
    fn fmt<W: fmt::Write>(&self, f: &mut fmt::Formatter<W>) -> fmt::Result {
        match self {
            NotRun::Small(at) => {
                let (number, is, limit) = (at.number, at.is, at.limit);
                write!(f, "{number} {is}, at least {limit}")
            }
            NotRun::Large(at) => {
                let (number, is, limit) = (at.number, at.is, at.limit);
                write!(f, "{number} {is}, at most {limit}")
            }
            NotRun::Memory => f.write_str("no memory or no thread"),
        }
    }
}

impl Error for NotRun {}
