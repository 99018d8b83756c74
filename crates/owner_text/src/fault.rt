//! Why a text is no graph, or a graph has no answer.

ghost use Rattle.std.specs.Prelude.{◌≡◌};
ghost use Rattle.owner_text.specs.Faults.{cause_words};

use text_lines::LineFault;

/// What is wrong with a line, in the order in which causes are looked for on one line (own).
#[derive(Clone, Copy, Debug, PartialEq, Eq)]
pub enum Cause {
    /// Bytes after the last line feed.
    UnfinishedLine,
    /// A byte that is no tab and not from 0x20 to 0x7E; or a tab in a label.
    BadByte,
    /// The first word begins no statement.
    UnknownStatement,
    /// The statement takes more words, or a label.
    WrongNumberOfWords,
    /// No decimal number from 1 to 16,777,215.
    BadNumber,
    /// A label of more than 1,000 bytes.
    BadLabel,
    /// The object has a line already.
    ObjectNamedTwice,
    /// No line before names the object.
    NoSuchObject,
    /// The 67,108,865th handle.
    TooManyHandles,
}

impl Cause {
    /// What the line of a fault says of it (own).
    pub fn words(self) -> &'static str
        ensures { result.now ≡ cause_words self }
    {
        match self {
            Cause::UnfinishedLine => "unfinished line",
            Cause::BadByte => "bad byte",
            Cause::UnknownStatement => "unknown statement",
            Cause::WrongNumberOfWords => "wrong number of words",
            Cause::BadNumber => "bad number",
            Cause::BadLabel => "bad label",
            Cause::ObjectNamedTwice => "object named twice",
            Cause::NoSuchObject => "no such object",
            Cause::TooManyHandles => "too many handles",
        }
    }
}

/// A refusal of a text.
pub type Fault = LineFault<Cause>;

/// Why a line was not read.
pub(crate) type Stop = text_lines::Stop<Cause>;
