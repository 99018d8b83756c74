//! The words of a statement on a cell.

ghost use Rattle.std.specs.Prelude.{◌≡◌, ◌∷◌, [], MatchOption, None, Some, position};
ghost use Rattle.text_lines.specs.Reading.{Gives};
ghost use Rattle.script_text.specs.Cells.{cell_of_word, is_dot, member_at, member_number_at};
ghost use Rattle.script_text.specs.Cells.{split_dot};
ghost use Rattle.script_text.specs.Shapes.{target_and_cell, cell_and_source, cell_and_other};
ghost use Rattle.script_text.specs.Shapes.{cell_and_sources, texts};

use crate::fault::{Cause, Stop};
use crate::parts::names::Names;
use crate::words::word::{free_cell_of, is_name_word};
use std::alloc::Global;
use step_core::{CellName, Kind, Name};

fn dot_place(word: &[u8]) -> Option<usize>
    ensures { result ≡ position is_dot word.now }
{
    word.iter().position(|b| *b == b'.')
}

/// What stands before the first dot, and what after it.
fn split_at_dot(word: &[u8]) -> Option<(&[u8], &[u8])>
    ensures { MatchOption result (split_dot word.now ≡ None)
        (λ parts. split_dot word.now ≡ Some (parts.0.now, parts.1.now)) }
{
    let dot = dot_place(word)?;
    Some((&word[..dot], &word[dot + 1..]))
}

/// The number of a member by its name.
#[tactic(auto, unfolding(crate::specs::Cells::member_number_at))]
fn member_number(word: &[u8]) -> Result<u8, Stop>
    ensures { Gives (λ m. m) result (member_number_at word.now) }
{
    if word == b"first".as_slice() {
        Ok(0)
    } else if word == b"next".as_slice() {
        Ok(1)
    } else if word == b"up".as_slice() {
        Ok(2)
    } else {
        Err(Stop::Cause(Cause::BadCell))
    }
}

/// A member of what an owner name owns. Both words are well formed before the name is looked up.
#[tactic(auto, unfolding(crate::specs::Cells::member_at))]
fn member_of(names: &Names, name: &[u8], word: &[u8]) -> Result<CellName, Stop>
    ensures { Gives (λ c. c) result (member_at names.now name.now word.now) }
{
    if !is_name_word(name) {
        return Err(Stop::Cause(Cause::BadCell));
    }
    let member = member_number(word)?;
    let name = names.source(Kind::Owner, name)?;
    Ok(CellName::Member { name, member })
}

/// The cell that a word is.
#[tactic(auto, unfolding(crate::specs::Cells::cell_of_word))]
fn cell_of(names: &Names, word: &[u8]) -> Result<CellName, Stop>
    ensures { Gives (λ c. c) result (cell_of_word names.now word.now) }
{
    match split_at_dot(word) {
        Some((name, member)) => member_of(names, name, member),
        None => free_cell_of(word),
    }
}

/// A target of the kind of the cell after it, which is looked at first, by their words.
#[tactic(auto, unfolding(crate::specs::Shapes::target_and_cell))]
fn target_then_cell(
    alloc: Global,
    names: &mut Names,
    written: &[u8],
    one: &[u8],
) -> Result<(Name, CellName), Stop>
    ensures { Gives (λ n. (n, names.new)) result
        (target_and_cell names.old (written.now ∷ one.now ∷ [])) }
{
    let cell = cell_of(names, one)?;
    let kind = cell.kind();
    let name = names.target(kind, written)?;
    let target = names.declare(alloc, kind, name)?;
    Ok((target, cell))
}

/// A target of the kind of the cell after it, which is looked at first.
#[tactic(auto, unfolding(crate::specs::Shapes::target_and_cell))]
pub(crate) fn target_and_cell(
    alloc: Global,
    names: &mut Names,
    words: &[&[u8]],
) -> Result<(Name, CellName), Stop>
    ensures { Gives (λ n. (n, names.new)) result (target_and_cell names.old (texts words.now)) }
{
    let [written, one] = words else {
        return Err(Stop::Cause(Cause::WrongNumberOfWords));
    };
    target_then_cell(alloc, names, written, one)
}

/// A cell, and a source of its kind, by their words.
#[tactic(auto, unfolding(crate::specs::Shapes::cell_and_source))]
fn cell_then_source(names: &Names, one: &[u8], other: &[u8]) -> Result<(CellName, Name), Stop>
    ensures { Gives (λ n. (n, names.now)) result
        (cell_and_source names.now (one.now ∷ other.now ∷ [])) }
{
    let cell = cell_of(names, one)?;
    let source = names.source(cell.kind(), other)?;
    Ok((cell, source))
}

/// A cell, and a source of its kind.
#[tactic(auto, unfolding(crate::specs::Shapes::cell_and_source))]
pub(crate) fn cell_and_source(names: &Names, words: &[&[u8]]) -> Result<(CellName, Name), Stop>
    ensures { Gives (λ n. (n, names.now)) result (cell_and_source names.now (texts words.now)) }
{
    let [one, other] = words else {
        return Err(Stop::Cause(Cause::WrongNumberOfWords));
    };
    cell_then_source(names, one, other)
}

/// A cell, and a source of its kind, of which the cell is no member.
#[tactic(auto, unfolding(crate::specs::Shapes::cell_and_other))]
pub(crate) fn cell_and_other(names: &Names, words: &[&[u8]]) -> Result<(CellName, Name), Stop>
    ensures { Gives (λ n. (n, names.now)) result (cell_and_other names.now (texts words.now)) }
{
    let (cell, name) = cell_and_source(names, words)?;
    if cell.is_member_of(name) {
        return Err(Stop::Cause(Cause::NameUsedTwice));
    }
    Ok((cell, name))
}

/// A cell, and two sources of its kind, by their words.
#[tactic(auto, unfolding(crate::specs::Shapes::cell_and_sources))]
fn cell_then_sources(
    names: &Names,
    one: &[u8],
    other: &[u8],
    last: &[u8],
) -> Result<(CellName, Name, Name), Stop>
    ensures { Gives (λ n. (n, names.now)) result
        (cell_and_sources names.now (one.now ∷ other.now ∷ last.now ∷ [])) }
{
    let cell = cell_of(names, one)?;
    let kind = cell.kind();
    let expected = names.source(kind, other)?;
    let desired = names.source(kind, last)?;
    Ok((cell, expected, desired))
}

/// A cell, and two sources of its kind.
#[tactic(auto, unfolding(crate::specs::Shapes::cell_and_sources))]
pub(crate) fn cell_and_sources(
    names: &Names,
    words: &[&[u8]],
) -> Result<(CellName, Name, Name), Stop>
    ensures { Gives (λ n. (n, names.now)) result (cell_and_sources names.now (texts words.now)) }
{
    let [one, other, last] = words else {
        return Err(Stop::Cause(Cause::WrongNumberOfWords));
    };
    cell_then_sources(names, one, other, last)
}
