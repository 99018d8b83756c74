//! The numbers and the label of a line.

ghost use Rattle.std.specs.Prelude.{◌≡◌};
ghost use Rattle.owner_text.specs.Prelude.{Gives, list_all};
ghost use Rattle.owner_text.specs.Words.{is_label_byte, label_at, object_number_at};

use crate::fault::{Cause, Stop};
use std::str;
use text_lines::number_of;

/// The greatest number that an object may have.
const MOST_OBJECTS: u64 = 16_777_215;

/// How many bytes a label has at most.
const LABEL_BYTES: usize = 1_000;

/// The number of an object that a word is.
pub(crate) fn object_number(word: &[u8]) -> Result<u32, Stop>
    ensures { Gives (λ n. n) result (object_number_at word.now) }
{
    match number_of(word) {
        Some(number) if 0 < number && number <= MOST_OBJECTS => Ok(number as u32),
        _ => Err(Stop::Cause(Cause::BadNumber)),
    }
}

fn is_label(bytes: &[u8]) -> bool
    ensures { result ≡ list_all is_label_byte bytes.now }
{
    bytes.iter().all(|b| matches!(*b, b' '..=b'~'))
}

/// The label that the rest of a line is.
pub(crate) fn label_of(rest: &[u8]) -> Result<&str, Stop>
    ensures { Gives (λ s. s.now) result (label_at rest.now) }
{
    if !is_label(rest) {
        return Err(Stop::Cause(Cause::BadByte));
    }
    if rest.len() > LABEL_BYTES {
        return Err(Stop::Cause(Cause::BadLabel));
    }
    match str::from_utf8(rest) {
        Ok(label) => Ok(label),
        Err(_) => Err(Stop::Cause(Cause::BadByte)),
    }
}
