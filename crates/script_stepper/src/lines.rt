//! The lines that a run writes, as text (own).
ghost use Rattle.std.specs.Prelude.{◌≡◌, ◌∷◌, ◌++◌, [], OnOk, codes, decimal, string_bytes};
ghost use Rattle.std.specs.List.{flat_map};
ghost use Rattle.script_text.specs.Canonical.{AddsLines, number_after};
ghost use Rattle.script_stepper.specs.Lines.{answer_text, block_text, ended_text, line_of, line_start, locked_word};
ghost use Rattle.script_stepper.specs.Lines.{place_text, said_lines, totals_text, yes_or_no};

use control_word::{Block, Counts, Place};
use script_text::{put_number, put_numbers};
use std::alloc::AllocError;
use std::fmt::Write;
use step_core::{Answer, Ended, Said};

/// Adds how each line of a thread begins: with the number of a statement, or `end` at the thread's end.
fn put_start(text: &mut String, thread: u8, statement: u32) -> Result<(), AllocError>
    ensures { OnOk result (string_bytes text.new ≡ string_bytes text.old ++ line_start thread statement) }
{
    if statement == 0 {
        write!(text, "{thread}.end ")?;
    } else {
        write!(text, "{thread}.{statement} ")?;
    }
    Ok(())
}

/// Adds a text and a number after it, which end a line.
fn put_last(text: &mut String, before: &str, number: u64) -> Result<(), AllocError>
    ensures { OnOk result
        (string_bytes text.new ≡ string_bytes text.old ++ before.now ++ decimal number ++ 10 ∷ []) }
{
    writeln!(text, "{before}{number}")?;
    Ok(())
}

/// Adds two texts, which end a line.
fn put_words(text: &mut String, first: &str, second: &str) -> Result<(), AllocError>
    ensures { OnOk result
        (string_bytes text.new ≡ string_bytes text.old ++ first.now ++ second.now ++ 10 ∷ []) }
{
    writeln!(text, "{first}{second}")?;
    Ok(())
}

/// Whether something is so.
fn yes_or_no(is_so: bool) -> &'static str
    ensures { result.now ≡ yes_or_no is_so }
{
    if is_so { "yes" } else { "no" }
}

/// What came of a lock.
fn locked_word(is_owner: bool) -> &'static str
    ensures { result.now ≡ locked_word is_owner }
{
    if is_owner { "owner" } else { "empty" }
}

/// Adds a block and a field of its object, which end a line.
fn put_place_at(text: &mut String, block: u32, field: u8) -> Result<(), AllocError>
    ensures { OnOk result (string_bytes text.new
        ≡ string_bytes text.old ++ codes "place " ++ decimal block ++ codes "." ++ decimal field ++ 10 ∷ []) }
{
    writeln!(text, "place {block}.{field}")?;
    Ok(())
}

/// Adds a place, or `null`, which ends a line.
fn put_place(text: &mut String, place: Option<Place>) -> Result<(), AllocError>
    ensures { OnOk result
        (string_bytes text.new ≡ string_bytes text.old ++ codes "place " ++ place_text place ++ 10 ∷ []) }
{
    match place {
        None => text.push_str("place null\n")?,
        Some(Place { block, field }) => put_place_at(text, block.number(), field)?,
    }
    Ok(())
}

/// Adds an answer, which ends a line.
fn put_answer(text: &mut String, answer: Answer) -> Result<(), AllocError>
    ensures { OnOk result (string_bytes text.new ≡ string_bytes text.old ++ answer_text answer ++ 10 ∷ []) }
{
    match answer {
        Answer::Count(owners) => put_last(text, "count ", u64::from(owners)),
        Answer::Expired(is_expired) => put_words(text, "expired ", yes_or_no(is_expired)),
        Answer::Locked(is_owner) => put_words(text, "lock ", locked_word(is_owner)),
        Answer::Upgraded => put_words(text, "upgrade ", locked_word(true)),
        Answer::Read(value) => put_last(text, "read ", value),
        Answer::Place(place) => put_place(text, place),
        Answer::Same(is_same) => put_words(text, "same ", yes_or_no(is_same)),
        Answer::Before(is_before) => put_words(text, "before ", yes_or_no(is_before)),
        Answer::Compared(is_equivalent) => put_words(text, "compare ", yes_or_no(is_equivalent)),
        Answer::Holds(is_held) => put_words(text, "holds ", yes_or_no(is_held)),
        Answer::Refused(why) => put_last(text, "refused ", u64::from(why.number())),
    }
}

/// Adds the fields of an object that ended, which end a line.
fn put_fields(text: &mut String, fields: &[u64; 4]) -> Result<(), AllocError>
    ensures { OnOk result
        (string_bytes text.new
        ≡ string_bytes text.old ++ codes "end" ++ flat_map number_after fields.now ++ 10 ∷ []) }
{
    text.push_str("end")?;
    put_numbers(text, fields)?;
    text.push_str("\n")?;
    Ok(())
}

/// Adds an object that ended, which ends a line.
fn put_ended(text: &mut String, ended: Ended) -> Result<(), AllocError>
    ensures { OnOk result (string_bytes text.new ≡ string_bytes text.old ++ ended_text ended ++ 10 ∷ []) }
{
    match ended {
        Ended::Fields(fields) => put_fields(text, &fields)?,
        Ended::Null => text.push_str("end null\n")?,
    }
    Ok(())
}

/// Adds the line of an answer, where there is one.
fn put_answered(
    text: &mut String,
    thread: u8,
    statement: u32,
    answer: Option<Answer>,
) -> Result<(), AllocError>
    ensures { OnOk result (AddsLines text.old text.new
        (line_of (λ a. line_start thread statement ++ answer_text a) answer)) }
{
    if let Some(answer) = answer {
        put_start(text, thread, statement)?;
        put_answer(text, answer)?;
    }
    Ok(())
}

/// Adds the line of an object that ended, where there is one.
fn put_ending(
    text: &mut String,
    thread: u8,
    statement: u32,
    ended: Option<Ended>,
) -> Result<(), AllocError>
    ensures { OnOk result (AddsLines text.old text.new
        (line_of (λ e. line_start thread statement ++ ended_text e) ended)) }
{
    if let Some(ended) = ended {
        put_start(text, thread, statement)?;
        put_ended(text, ended)?;
    }
    Ok(())
}

/// Adds the lines of an act of a thread.
pub(crate) fn put_said(text: &mut String, thread: u8, said: &Said) -> Result<(), AllocError>
    ensures { OnOk result (AddsLines text.old text.new (said_lines thread said.now)) }
{
    put_answered(text, thread, said.statement, said.answer)?;
    put_ending(text, thread, said.statement, said.ended)?;
    Ok(())
}

/// Adds the lines of all that a thread said (own), as [`crate::write_lines`] writes them. Refused where a growth was.
pub fn put_lines(text: &mut String, thread: u8, said: &[Said]) -> Result<(), AllocError>
    ensures { OnOk result (AddsLines text.old text.new (flat_map (said_lines thread) said.now)) }
{
    for act in said {
        put_said(text, thread, act)?;
    }
    Ok(())
}

/// Adds `block B owners N weaks K`, the line of a block that isn't vacant (own). Refused where a growth was.
pub fn put_block(text: &mut String, block: Block, counts: Counts) -> Result<(), AllocError>
    ensures { OnOk result (AddsLines text.old text.new (block_text block.0 counts ∷ [])) }
{
    let Counts { owners, weaks } = counts;
    put_number(text, "block ", u64::from(block.number()))?;
    put_number(text, " owners ", u64::from(owners))?;
    put_last(text, " weaks ", u64::from(weaks))?;
    Ok(())
}

/// Adds the last line, `made M ended E left L`: how many objects were made, have ended, and are left (own). Refused
/// where a growth was.
pub fn put_totals(text: &mut String, made: u64, ended: u64) -> Result<(), AllocError>
    ensures { OnOk result (AddsLines text.old text.new (totals_text made ended ∷ [])) }
{
    let left = made.saturating_sub(ended);
    put_number(text, "made ", made)?;
    put_number(text, " ended ", ended)?;
    put_last(text, " left ", left)?;
    Ok(())
}
