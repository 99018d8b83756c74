//! Why a text is no script, or a run has no text.

ghost use Rattle.std.specs.Prelude.{◌≡◌};
ghost use Rattle.script_text.specs.Faults.{cause_words};

use text_lines::LineFault;

/// What is wrong with a line, in the order in which causes are looked for on one line (own).
#[derive(Clone, Copy, Debug, PartialEq, Eq)]
pub enum Cause {
    /// Bytes after the last line feed.
    UnfinishedLine,
    /// A byte that is no tab and not from 0x20 to 0x7E.
    BadByte,
    /// The first word begins no statement.
    UnknownStatement,
    /// The statement takes fewer words, or more.
    WrongNumberOfWords,
    /// The 17th thread would begin, or the 65th in version 2.
    TooManyThreads,
    /// The 65,537th statement.
    TooManyStatements,
    /// The words after `version` are not `2`, `blocks` and another.
    BadVersion,
    /// No letter `a` to `z` followed by at most 15 letters, digits or `_`.
    BadName,
    /// No decimal number below 2^64; in a header none from 64 to 65,535.
    BadNumber,
    /// No number from 0 to 3.
    BadField,
    /// No free cell and no member of an owner.
    BadCell,
    /// A source that is not declared.
    UnknownName,
    /// An owner name where a weak one is asked for, or the other way round.
    WrongKindOfName,
    /// An exchange of a name with a member of its own object.
    NameUsedTwice,
    /// The target would be the thread's 33rd name.
    TooManyNames,
}

impl Cause {
    /// What the line of a fault says of it (own).
    pub fn words(self) -> &'static str
        ensures { result.now ≡ cause_words self }
    {
        match self {
            Cause::UnfinishedLine => "unfinished line",
            Cause::BadByte => "bad byte",
            Cause::UnknownStatement => "unknown statement",
            Cause::WrongNumberOfWords => "wrong number of words",
            Cause::TooManyThreads => "too many threads",
            Cause::TooManyStatements => "too many statements",
            Cause::BadVersion => "bad version",
            Cause::BadName => "bad name",
            Cause::BadNumber => "bad number",
            Cause::BadField => "bad field",
            Cause::BadCell => "bad cell",
            Cause::UnknownName => "unknown name",
            Cause::WrongKindOfName => "wrong kind of name",
            Cause::NameUsedTwice => "name used twice",
            Cause::TooManyNames => "too many names",
        }
    }
}

/// A refusal of a script or of a run of it, by its number in messages (own).
#[derive(Clone, Copy, Debug, PartialEq, Eq)]
pub enum Fault {
    /// 1: a growth was really refused.
    Memory,
    /// 10: the first faulty line, counted from 1, and what is wrong with it.
    Syntax { line: usize, cause: Cause },
    /// 11: the position, from 1, of the first faulty turn.
    BadTurn { position: usize },
    /// 12: the writer failed during the call.
    Output,
    /// 13: standard input failed.
    Input,
}

/// Why a line was not read.
pub(crate) type Stop = text_lines::Stop<Cause>;

impl From<LineFault<Cause>> for Fault {
    ghost use Rattle.std.specs.Prelude.{◌≡◌};
    ghost use Rattle.script_text.specs.Faults.{fault_of};

    ghost from_gives = { λ f e. e ≡ fault_of f };

    fn from(fault: LineFault<Cause>) -> Fault {
        match fault {
            LineFault::Memory => Fault::Memory,
            LineFault::Syntax { line, cause } => Fault::Syntax { line, cause },
        }
    }
}
