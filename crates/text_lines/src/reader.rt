//! A text, read line by line.

ghost use Rattle.std.specs.Prelude.{◌≡◌, ℕ, List, Result, IfErr, Ok, OnOk};
ghost use Rattle.text_lines.specs.Grammar.{IsFaultOf, IsReadAs, Refuses};
ghost use Rattle.text_lines.specs.Reading.{Gives};

use crate::fault::{LineFault, Stop};
use crate::lines::split_line;
use std::alloc::Global;

/// What takes the lines of a text one by one (own).
pub trait LineReader {
    /// What may be wrong with a line.
    type Cause: Drop;

    // What the lines so far came to.
    ghost State: { Type 0 };

    // What a reader has of it.
    ghost seen: { Self → State };

    // What they come to with a line more, or the first cause why that one is faulty.
    ghost after: { State → List ℕ → Result State Self.Cause };

    /// Adds a line, given without its line feed.
    fn add_line(&mut self, alloc: Global, line: &[u8]) -> Result<(), Stop<Self::Cause>>
        ensures { Gives (λ _. seen self.new) result (after (seen self.old) line.now) };
}

/// Adds the line with this number.
fn add_numbered<R: LineReader>(
    alloc: Global,
    reader: &mut R,
    text: &[u8],
    line: usize,
) -> Result<(), LineFault<R::Cause>>
    ensures ok { OnOk result (R.after (R.seen reader.old) text.now ≡ Ok (R.seen reader.new)) }
    ensures err { IfErr result (λ fault. IsFaultOf fault line
        (R.after (R.seen reader.old) text.now)) }
{
    match reader.add_line(alloc, text) {
        Ok(()) => Ok(()),
        Err(Stop::Memory) => Err(LineFault::Memory),
        Err(Stop::Cause(cause)) => Err(LineFault::Syntax { line, cause }),
    }
}

/// Reads the lines of a text, whose last one is faulty for the given cause where it has no line
/// feed (own).
///
/// Refused by `Syntax`, with the number of the first faulty line, from 1, and its cause, just where
/// a line is faulty; by `Memory` where a growth is refused.
pub fn read_lines<R: LineReader>(
    alloc: Global,
    reader: &mut R,
    bytes: &[u8],
    unfinished: R::Cause,
) -> Result<(), LineFault<R::Cause>>
    ensures ok { OnOk result (IsReadAs R.after (R.seen reader.old) bytes.now (R.seen reader.new)) }
    ensures err { IfErr result (λ fault. Refuses R.after (R.seen reader.old) unfinished fault
        bytes.now) }
{
    let mut rest = bytes;
    let mut line = 1;
    while let Some((text, after)) = split_line(rest) {
        match add_numbered(alloc, reader, text, line) {
            Ok(()) => {}
            Err(fault) => return Err(fault),
        }
        rest = after;
        line += 1;
    }
    if rest.is_empty() {
        return Ok(());
    }
    Err(LineFault::Syntax {
        line,
        cause: unfinished,
    })
}
