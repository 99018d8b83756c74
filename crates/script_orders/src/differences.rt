//! Where outcomes differ.

ghost use Rattle.std.specs.Prelude.{◌≡◌, ◌<◌, ◌++◌, ◌∷◌, IfOk, IfSome, OnOk, length, string_bytes};
ghost use Rattle.script_orders.specs.Differences.{AreDifferences, IsDifferLine, difference_word};

use indexmap::IndexMap;
use std::alloc::{AllocError, Global};
use std::collections::BTreeMap;
use std::fmt::Write as _;
use text_lines::{number_of, split_line};

/// A thread and a statement of it. Behind all of these are a thread's end, and what is left at the end of the run.
type Statement = (u64, u64);

/// A number that no statement and no thread has.
const BEHIND: u64 = u64::MAX;

/// The lines of an outcome, by the statements that tell them.
type Lines = IndexMap<Statement, Vec<u8>>;

fn position_of(bytes: &[u8], of: u8) -> Option<usize>
    ensures { IfSome result (λ at. at < length bytes.now) }
{
    bytes.iter().position(|b| *b == of)
}

/// The number of a statement, or of a thread's end.
fn statement_number(word: &[u8]) -> u64 {
    number_of(word).unwrap_or(BEHIND)
}

/// The statement that a line begins with.
fn statement_of(line: &[u8]) -> Statement {
    let Some(dot) = position_of(line, b'.') else {
        return (BEHIND, 0);
    };
    let after = &line[dot + 1..];
    match (number_of(&line[..dot]), position_of(after, b' ')) {
        (Some(thread), Some(end)) => (thread, statement_number(&after[..end])),
        _ => (BEHIND, 0),
    }
}

/// Adds a line to those of a statement.
fn add_line(alloc: Global, lines: &mut Lines, line: &[u8]) -> Result<(), AllocError> {
    let statement = statement_of(line);
    if let Some(text) = lines.get_mut(&statement) {
        text.extend_from_slice(line)?;
        text.push(b'\n')?;
        return Ok(());
    }
    let mut text = Vec::from_slice(alloc, line)?;
    text.push(b'\n')?;
    lines.insert(statement, text)?;
    Ok(())
}

/// The lines of an outcome.
fn lines_of(alloc: Global, text: &[u8]) -> Result<Lines, AllocError> {
    let mut lines = IndexMap::new(alloc);
    let mut rest = text;
    while let Some((line, after)) = split_line(rest) {
        add_line(alloc, &mut lines, line)?;
        rest = after;
    }
    Ok(lines)
}

/// Notes the statements that tell something in one outcome, and something else, or nothing, in another.
fn note(
    some: &Lines,
    others: &Lines,
    differ: &mut BTreeMap<Statement, ()>,
) -> Result<(), AllocError> {
    for (statement, text) in some {
        let is_same = match others.get(statement) {
            Some(other) => other == text,
            None => false,
        };
        if !is_same {
            let _ = differ.insert(*statement, ())?;
        }
    }
    Ok(())
}

/// What outcomes differ in: a statement of a thread, its end, or what is left at the end of the run.
#[derive(Clone, Copy)]
pub(crate) enum Difference {
    Statement { thread: u64, number: u64 },
    End { thread: u64 },
    Left,
}

fn difference_of(statement: Statement) -> Difference {
    match statement {
        (BEHIND, _) => Difference::Left,
        (thread, BEHIND) => Difference::End { thread },
        (thread, number) => Difference::Statement { thread, number },
    }
}

/// Adds what outcomes differ in, behind a word.
fn put_difference(text: &mut String, difference: Difference) -> Result<(), AllocError>
    ensures { OnOk result
        (string_bytes text.new ≡ string_bytes text.old ++ 32 ∷ difference_word difference) }
{
    match difference {
        Difference::Statement { thread, number } => write!(text, " {thread}.{number}")?,
        Difference::End { thread } => write!(text, " {thread}.end")?,
        Difference::Left => text.push_str(" left")?,
    }
    Ok(())
}

/// The statements whose lines aren't the same in all of these outcomes.
fn differing(
    alloc: Global,
    outcomes: &IndexMap<Vec<u8>, Vec<u8>>,
) -> Result<BTreeMap<Statement, ()>, AllocError> {
    let mut differ = BTreeMap::new(alloc);
    let Some((first, _)) = outcomes.first() else {
        return Ok(differ);
    };
    let first = lines_of(alloc, first.as_slice())?;
    for text in outcomes.keys() {
        let lines = lines_of(alloc, text.as_slice())?;
        note(&first, &lines, &mut differ)?;
        note(&lines, &first, &mut differ)?;
    }
    Ok(differ)
}

/// What these statements are, each behind a space.
fn words_of(alloc: Global, differ: &BTreeMap<Statement, ()>) -> Result<String, AllocError>
    ensures { IfOk result (λ words. AreDifferences (string_bytes words)) }
{
    let mut words = String::new(alloc);
    for (statement, _) in differ {
        put_difference(&mut words, difference_of(*statement))?;
    }
    Ok(words)
}

/// The line of these words, if there are any.
fn line_with(alloc: Global, words: &str) -> Result<String, AllocError>
    requires { AreDifferences words.now }
    ensures { IfOk result (λ line. IsDifferLine (string_bytes line)) }
{
    let mut line = String::new(alloc);
    if words.is_empty() {
        return Ok(line);
    }
    line.push_str("differ")?;
    line.push_str(words)?;
    line.push('\n')?;
    Ok(line)
}

/// The line that names the statements whose lines aren't the same in all of these outcomes, in order; then `left` where
/// what is left isn't. None where there is none.
pub(crate) fn differ_line(
    alloc: Global,
    outcomes: &IndexMap<Vec<u8>, Vec<u8>>,
) -> Result<String, AllocError>
    ensures { IfOk result (λ line. IsDifferLine (string_bytes line)) }
{
    let differ = differing(alloc, outcomes)?;
    let words = words_of(alloc, &differ)?;
    line_with(alloc, words.as_str())
}
