//! The line of a call, by its shape.

ghost use Rattle.std.specs.Prelude.{◌≡◌, ◌∷◌, [], ◌++◌, OnOk, codes, string_bytes, decimal};
ghost use Rattle.std.specs.List.{flat_map};
ghost use Rattle.script_text.specs.Names.{NameList};
ghost use Rattle.script_text.specs.Cells.{cell_text, member_text};
ghost use Rattle.script_text.specs.Canonical.{AddsLines, spaced, number_after, call_words};
ghost use Rattle.script_text.specs.Canonical.{line_words, call_line};
ghost use Rattle.script_text.specs.Canonical.{word_after, word_texts};

use crate::parts::names::Names;
use std::alloc::AllocError;
use std::fmt::Write;
use step_core::{Call, CellName, Field, Name};

/// What a line has: its first word, and what follows it.
#[derive(Clone, Copy)]
pub(crate) enum Line {
    One(&'static str, Name),
    Two(&'static str, Name, Name),
    Fields(&'static str, Name, [u64; 4]),
    /// An alias of a field of what the third name points into.
    Alias(Name, Name, Name, Field),
    /// An alias that points at null.
    AliasNull(Name, Name),
    Cell(&'static str, CellName, Name),
    Load(Name, CellName),
    Compare(&'static str, CellName, Name, Name),
    Number(&'static str, u32),
}

/// What a line has after its first word.
#[derive(Clone, Copy)]
pub(crate) enum Word {
    Of(Name),
    In(CellName),
    Fields([u64; 4]),
    Field(Field),
    Number(u32),
    Null,
}

/// The line of a call.
fn line_of(call: &Call) -> Line
    ensures { (names : NameList) → call_words names call.now ≡ line_words names result }
{
    match *call {
        Call::Make { target, fields } => Line::Fields("make", target, fields),
        Call::MakeThis { target, fields } => Line::Fields("makethis", target, fields),
        Call::Null { target } => Line::One("null", target),
        Call::Empty { target } => Line::One("empty", target),
        Call::Reset { name } => Line::One("reset", name),
        Call::Copy { target, source } => Line::Two("copy", target, source),
        Call::Move { target, source } => Line::Two("move", target, source),
        Call::Alias {
            target,
            source,
            of,
            field,
        } => Line::Alias(target, source, of, field),
        Call::AliasNull { target, source } => Line::AliasNull(target, source),
        Call::Count { name } => Line::One("count", name),
        Call::Weak { target, source } => Line::Two("weak", target, source),
        Call::WeakCopy { target, source } => Line::Two("wcopy", target, source),
        Call::WeakEmpty { target } => Line::One("wempty", target),
        Call::WeakReset { name } => Line::One("wreset", name),
        Call::Lock { target, source } => Line::Two("lock", target, source),
        Call::Upgrade { target, source } => Line::Two("upgrade", target, source),
        Call::WeakCount { name } => Line::One("wcount", name),
        Call::Expired { name } => Line::One("expired", name),
        Call::This { target, source } => Line::Two("this", target, source),
        Call::WeakThis { target, source } => Line::Two("wthis", target, source),
        Call::Read { name } => Line::One("read", name),
        Call::Place { name } => Line::One("place", name),
        Call::Same { first, second } => Line::Two("same", first, second),
        Call::Before { first, second } => Line::Two("before", first, second),
        Call::Load { target, cell } => Line::Load(target, cell),
        Call::Store { cell, source } => Line::Cell("store", cell, source),
        Call::Exchange { cell, name } => Line::Cell("exchange", cell, name),
        Call::Compare {
            cell,
            expected,
            desired,
            weak,
        } => {
            let word = if weak { "compare_weak" } else { "compare" };
            Line::Compare(word, cell, expected, desired)
        }
        Call::Holds { cell, name } => Line::Cell("holds", cell, name),
        Call::Shelve { count } => Line::Number("shelve", u32::from(count)),
        Call::Unshelve { block } => Line::Number("unshelve", block.number()),
    }
}

/// Adds a text and a number after it, in decimal digits. Refused where a growth was, when a part of
/// both may have been added.
pub fn put_number(text: &mut String, before: &str, number: u64) -> Result<(), AllocError>
    ensures { OnOk result
        (string_bytes text.new ≡ string_bytes text.old ++ before.now ++ decimal number) }
{
    write!(text, "{before}{number}")?;
    Ok(())
}

/// Adds the numbers of an object's fields, each after a space. Refused where a growth was, when a
/// part of them may have been added.
pub fn put_numbers(text: &mut String, numbers: &[u64; 4]) -> Result<(), AllocError>
    ensures { OnOk result
        (string_bytes text.new ≡ string_bytes text.old ++ flat_map number_after numbers.now) }
{
    for number in numbers {
        put_number(text, " ", *number)?;
    }
    Ok(())
}

/// Adds a space and a word.
fn put_text(text: &mut String, word: &str) -> Result<(), AllocError>
    ensures { OnOk result (string_bytes text.new ≡ string_bytes text.old ++ 32 ∷ word.now) }
{
    write!(text, " {word}")?;
    Ok(())
}

/// How a member is spelled, by its number: `first`, `next`, and `up` for every other.
pub fn member_text(member: u8) -> &'static str
    ensures { result.now ≡ member_text member }
{
    match member {
        0 => "first",
        1 => "next",
        _ => "up",
    }
}

/// Adds a space and a member of what a name owns.
fn put_member(text: &mut String, of: &str, member: &str) -> Result<(), AllocError>
    ensures { OnOk result
        (string_bytes text.new ≡ string_bytes text.old ++ codes " " ++ of.now
        ++ (codes "." ++ member.now)) }
{
    write!(text, " {of}.{member}")?;
    Ok(())
}

/// Adds a space and a cell.
fn put_cell(text: &mut String, names: &Names, cell: CellName) -> Result<(), AllocError>
    ensures { OnOk result
        (string_bytes text.new ≡ string_bytes text.old ++ codes " " ++ cell_text names.now cell) }
{
    match cell {
        CellName::Shared(number) => put_number(text, " s", u64::from(number)),
        CellName::Weak(number) => put_number(text, " w", u64::from(number)),
        CellName::Member { name, member } => {
            put_member(text, names.text(name), member_text(member))
        }
    }
}

/// Adds what a line has after its first word, and a space before it.
fn put_word(text: &mut String, names: &Names, word: Word) -> Result<(), AllocError>
    ensures { OnOk result (string_bytes text.new ≡ string_bytes text.old
        ++ word_after names.now word) }
{
    match word {
        Word::Of(name) => put_text(text, names.text(name)),
        Word::In(cell) => put_cell(text, names, cell),
        Word::Fields(fields) => put_numbers(text, &fields),
        Word::Field(field) => put_number(text, " ", u64::from(field.number())),
        Word::Number(count) => put_number(text, " ", u64::from(count)),
        Word::Null => put_text(text, "null"),
    }
}

/// Adds all that a line has after its first word.
fn put_words(text: &mut String, names: &Names, words: &[Word]) -> Result<(), AllocError>
    ensures { OnOk result
        (string_bytes text.new ≡ string_bytes text.old
        ++ flat_map (word_after names.now) words.now) }
{
    for word in words {
        put_word(text, names, *word)?;
    }
    Ok(())
}

/// Adds a line by its first word and what follows it.
fn put_line(text: &mut String, names: &Names, first: &str, words: &[Word]) -> Result<(), AllocError>
    ensures { OnOk result (AddsLines text.old text.new
        (spaced (first.now ∷ flat_map (word_texts names.now) words.now) ∷ [])) }
{
    text.push_str(first)?;
    put_words(text, names, words)?;
    text.push_str("\n")?;
    Ok(())
}

/// Adds the line of a call.
pub(crate) fn put_call(text: &mut String, names: &Names, call: &Call) -> Result<(), AllocError>
    ensures { OnOk result (AddsLines text.old text.new (call_line names.now call.now ∷ [])) }
{
    match line_of(call) {
        Line::One(word, name) => put_line(text, names, word, &[Word::Of(name)]),
        Line::Two(word, first, second) => {
            put_line(text, names, word, &[Word::Of(first), Word::Of(second)])
        }
        Line::Fields(word, name, fields) => {
            put_line(text, names, word, &[Word::Of(name), Word::Fields(fields)])
        }
        Line::Alias(target, source, of, field) => {
            let words = [
                Word::Of(target),
                Word::Of(source),
                Word::Of(of),
                Word::Field(field),
            ];
            put_line(text, names, "alias", &words)
        }
        Line::AliasNull(target, source) => {
            let words = [Word::Of(target), Word::Of(source), Word::Null];
            put_line(text, names, "alias", &words)
        }
        Line::Cell(word, cell, name) => {
            put_line(text, names, word, &[Word::In(cell), Word::Of(name)])
        }
        Line::Load(target, cell) => {
            put_line(text, names, "load", &[Word::Of(target), Word::In(cell)])
        }
        Line::Compare(word, cell, expected, desired) => {
            let words = [Word::In(cell), Word::Of(expected), Word::Of(desired)];
            put_line(text, names, word, &words)
        }
        Line::Number(word, count) => put_line(text, names, word, &[Word::Number(count)]),
    }
}
