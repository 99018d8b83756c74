//! A graph from its text.

ghost use Rattle.owner_text.specs.Grammar.{Answers};

use crate::draft::{Draft, empty_draft};
use crate::fault::{Cause, Fault};
use std::alloc::Global;
use text_lines::read_lines;

/// The graph that a text spells.
///
/// Refused by 10, with the number of the first faulty line, from 1, and its cause, just where a
/// line is faulty; by 1 where a growth is refused. Linear in the text.
pub(crate) fn read(alloc: Global, bytes: &[u8]) -> Result<Draft, Fault>
    ensures { Answers result bytes.now }
{
    let Ok(mut draft) = empty_draft(alloc) else {
        return Err(Fault::Memory);
    };
    match read_lines(alloc, &mut draft, bytes, Cause::UnfinishedLine) {
        Ok(()) => Ok(draft),
        Err(fault) => Err(fault),
    }
}
