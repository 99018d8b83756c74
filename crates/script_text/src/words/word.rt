//! Names, numbers, fields and cells, as words.

ghost use Rattle.std.specs.Prelude.{◌≡◌};
ghost use Rattle.std.specs.List.{list_all};
ghost use Rattle.text_lines.specs.Reading.{Gives};
ghost use Rattle.script_text.specs.Words.{cell_number_at, field_of_word, free_cell_at, is_name};
ghost use Rattle.script_text.specs.Words.{is_name_byte, name_at};
ghost use Rattle.script_text.specs.Words.{number_at};

use crate::fault::{Cause, Stop};
use std::str;
use step_core::{CellName, Field};
use step_table::limits::{NAME_BYTES, SCRIPT_SHARED_CELLS};

fn is_name_code(b: u8) -> bool
    ensures { result ≡ is_name_byte b }
{
    matches!(b, b'a'..=b'z' | b'0'..=b'9' | b'_')
}

fn is_name_tail(bytes: &[u8]) -> bool
    ensures { result ≡ list_all is_name_byte bytes.now }
{
    bytes.iter().all(|b| is_name_code(*b))
}

pub(crate) fn is_name_word(word: &[u8]) -> bool
    ensures { result ≡ is_name word.now }
{
    match word {
        [] => false,
        [first, rest @ ..] => matches!(*first, b'a'..=b'z')
            && rest.len() < NAME_BYTES
            && is_name_tail(rest),
    }
}

/// The name that a word is.
pub(crate) fn name_of(word: &[u8]) -> Result<&str, Stop>
    ensures { Gives (λ s. s.now) result (name_at word.now) }
{
    if !is_name_word(word) {
        return Err(Stop::Cause(Cause::BadName));
    }
    match str::from_utf8(word) {
        Ok(name) => Ok(name),
        Err(_) => Err(Stop::Cause(Cause::BadName)),
    }
}

/// The number that a word is.
pub(crate) fn number_of(word: &[u8]) -> Result<u64, Stop>
    ensures { Gives (λ n. n) result (number_at word.now) }
{
    match text_lines::number_of(word) {
        Some(number) => Ok(number),
        None => Err(Stop::Cause(Cause::BadNumber)),
    }
}

/// The field that a word is.
#[tactic(auto, unfolding(crate::specs::Words::field_of_word))]
pub(crate) fn field_of(word: &[u8]) -> Result<Field, Stop>
    ensures { Gives (λ f. f) result (field_of_word word.now) }
{
    match number_of(word) {
        Ok(0) => Ok(Field::Zero),
        Ok(1) => Ok(Field::One),
        Ok(2) => Ok(Field::Two),
        Ok(3) => Ok(Field::Three),
        Ok(_) | Err(Stop::Cause(_)) => Err(Stop::Cause(Cause::BadField)),
        Err(Stop::Memory) => Err(Stop::Memory),
    }
}

/// How many shared cells texts name, and as many weak ones.
const CELLS: u64 = SCRIPT_SHARED_CELLS as u64;

/// The number of a cell that a word is.
#[tactic(auto, unfolding(crate::specs::Words::cell_number_at))]
fn cell_number(word: &[u8]) -> Result<u8, Stop>
    ensures { Gives (λ n. n) result (cell_number_at word.now) }
{
    match number_of(word) {
        Ok(number) if number < CELLS => Ok(number as u8),
        Ok(_) | Err(Stop::Cause(_)) => Err(Stop::Cause(Cause::BadCell)),
        Err(Stop::Memory) => Err(Stop::Memory),
    }
}

/// The free cell that a word is.
#[tactic(auto, unfolding(crate::specs::Words::free_cell_at))]
pub(crate) fn free_cell_of(word: &[u8]) -> Result<CellName, Stop>
    ensures { Gives (λ c. c) result (free_cell_at word.now) }
{
    match word {
        [b's', number @ ..] => Ok(CellName::Shared(cell_number(number)?)),
        [b'w', number @ ..] => Ok(CellName::Weak(cell_number(number)?)),
        _ => Err(Stop::Cause(Cause::BadCell)),
    }
}
