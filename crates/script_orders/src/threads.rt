//! A run's text, sorted by threads.

ghost use Rattle.std.specs.Prelude.{◌≡◌, ◌∷◌, ◌++◌, [], IfOk, Contains, IsFalse, IsTrue, OnOk, cond, filter};
ghost use Rattle.std.specs.Prelude.{string_bytes};
ghost use Rattle.text_lines.specs.Lines.{ended};
ghost use Rattle.text_lines.specs.Numbers.{is_digit};
ghost use Rattle.script_orders.specs.Sorting.{begins_with, by_threads, is_closing, lines_in};
ghost use Rattle.script_orders.specs.Sorting.{thread_lines, thread_start};

use std::alloc::{AllocError, Global};
use std::fmt::Write as _;
use step_table::limits::MOST_ACTORS;
use text_lines::split_line;

/// Adds a line, with its line feed, if it is taken.
fn put_line(text: &mut Vec<u8>, line: &[u8], is_taken: bool) -> Result<(), AllocError>
    ensures { OnOk result (text.new.items ≡ text.old.items ++ ended (cond is_taken (line.now ∷ []) [])) }
{
    if !is_taken {
        return Ok(());
    }
    text.extend_from_slice(line)?;
    text.push(b'\n')?;
    Ok(())
}

/// Adds the lines of a text that begin with this.
fn put_beginning(sorted: &mut Vec<u8>, text: &[u8], start: &[u8]) -> Result<(), AllocError>
    ensures { OnOk result (sorted.new.items
        ≡ sorted.old.items ++ ended (filter (begins_with start.now) (lines_in text.now))) }
{
    let mut rest = text;
    while let Some((line, after)) = split_line(rest) {
        put_line(sorted, line, line.starts_with(start))?;
        rest = after;
    }
    Ok(())
}

/// Whether a byte is a decimal digit.
pub(crate) fn is_digit(b: u8) -> bool
    ensures { result ≡ is_digit b }
{
    matches!(b, b'0'..=b'9')
}

/// Whether a line is of no thread.
fn is_closing(line: &[u8]) -> bool
    ensures { result ≡ is_closing line.now }
{
    match line {
        [] => true,
        [first, ..] => !is_digit(*first),
    }
}

/// Adds the lines of a text that are of no thread.
fn put_closing(sorted: &mut Vec<u8>, text: &[u8]) -> Result<(), AllocError>
    ensures { OnOk result (sorted.new.items
        ≡ sorted.old.items ++ ended (filter is_closing (lines_in text.now))) }
{
    let mut rest = text;
    while let Some((line, after)) = split_line(rest) {
        put_line(sorted, line, is_closing(line))?;
        rest = after;
    }
    Ok(())
}

/// How the lines of a thread begin.
fn line_start(alloc: Global, thread: u32) -> Result<String, AllocError>
    ensures { IfOk result (λ text. string_bytes text ≡ thread_start thread) }
{
    let mut text = String::new(alloc);
    write!(text, "{thread}.")?;
    Ok(text)
}

/// Adds the lines of a thread.
fn put_thread(
    alloc: Global,
    sorted: &mut Vec<u8>,
    text: &[u8],
    thread: u32,
) -> Result<(), AllocError>
    ensures { OnOk result (sorted.new.items
        ≡ sorted.old.items ++ ended (thread_lines (lines_in text.now) thread)) }
{
    let start = line_start(alloc, thread)?;
    put_beginning(sorted, text, start.as_bytes())
}

/// The lines of a run's text, all of thread 1 first, then those of thread 2 and so on, and last those of no thread.
pub(crate) fn by_threads(alloc: Global, text: &[u8]) -> Result<Vec<u8>, AllocError>
    ensures { IfOk result (λ sorted. sorted.items ≡ by_threads text.now) }
{
    let mut sorted = Vec::new(alloc);
    for before in 0..MOST_ACTORS {
        put_thread(alloc, &mut sorted, text, before + 1)?;
    }
    put_closing(&mut sorted, text)?;
    Ok(sorted)
}

/// Whether a text has this line.
pub(crate) fn has_line(text: &[u8], line: &[u8]) -> bool
    ensures has { IsTrue result → Contains (lines_in text.now) line.now }
    ensures none { IsFalse result → Contains (lines_in text.now) line.now → ⊥ }
{
    let mut rest = text;
    while let Some((first, after)) = split_line(rest) {
        if first == line {
            return true;
        }
        rest = after;
    }
    false
}
