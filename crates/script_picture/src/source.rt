//! The statements of a script, as they are written, and its names.
ghost use Rattle.std.specs.Prelude.{◌≡◌, ◌++◌, [], OnOk, string_bytes};
ghost use Rattle.script_picture.specs.Acts.{GoesOnWith, place_start};

use crate::recording::Source;
use script_text::Script;
use std::alloc::{AllocError, Global};
use std::fmt::Write;
use step_core::Name;
use step_table::limits::SCRIPT_NAMES;

/// What a line is.
enum Kind {
    Skipped,
    Thread,
    Statement,
}

fn kind_of(line: &[u8]) -> Kind {
    match line {
        [] | [b'#', ..] | [b'v', b'e', b'r', b's', ..] => Kind::Skipped,
        [b't', b'h', b'r', ..] => Kind::Thread,
        _ => Kind::Statement,
    }
}

/// Adds a line to the statements of the current thread, or begins the next.
fn add_line(
    alloc: Global,
    line: &[u8],
    current: &mut Vec<Vec<u8>>,
    done: &mut Vec<Vec<Vec<u8>>>,
) -> Result<(), AllocError> {
    match kind_of(line) {
        Kind::Skipped => {}
        Kind::Thread => {
            let before = std::mem::replace(current, Vec::new(alloc));
            done.push(before)?;
        }
        Kind::Statement => current.push(line.to_vec(alloc)?)?,
    }
    Ok(())
}

/// The statements of each thread of a script that reads, in order, each as its line has it.
pub(crate) fn statements(alloc: Global, script: &[u8]) -> Result<Vec<Vec<Vec<u8>>>, AllocError> {
    let mut done = Vec::new(alloc);
    let mut current = Vec::new(alloc);
    for line in script.split(|byte| *byte == b'\n') {
        add_line(alloc, line.trim_ascii(), &mut current, &mut done)?;
    }
    done.push(current)?;
    Ok(done)
}

/// The names of each thread of a script, in order, each as it is spelled.
pub(crate) fn names(alloc: Global, script: &Script) -> Result<Vec<Vec<String>>, AllocError> {
    let mut all = Vec::new(alloc);
    for index in 0..script.threads() {
        all.push(names_of(alloc, script, index as u8 + 1)?)?;
    }
    Ok(all)
}

/// The names of a thread.
fn names_of(alloc: Global, script: &Script, thread: u8) -> Result<Vec<String>, AllocError> {
    let mut names = Vec::new(alloc);
    for number in 0..SCRIPT_NAMES as u8 {
        names.push(String::from_str(alloc, script.spelling(thread, Name(number)))?)?;
    }
    Ok(names)
}

/// A name of a thread, as it is spelled.
pub(crate) fn spelled_in(names: &[Vec<String>], thread: u8, name: Name) -> Option<&[u8]> {
    let index = usize::from(thread.checked_sub(1)?);
    let number = usize::from(name.0);
    if index < names.len() && number < names[index].len() {
        Some(names[index][number].as_bytes())
    } else {
        None
    }
}

/// A statement as it is written; none at a thread's end.
pub(crate) fn written_at(statements: &[Vec<Vec<u8>>], thread: u8, statement: u32) -> Option<&[u8]> {
    let index = usize::from(thread.checked_sub(1)?);
    let number = statement.checked_sub(1)? as usize;
    if index < statements.len() && number < statements[index].len() {
        Some(statements[index][number].as_slice())
    } else {
        None
    }
}

/// Adds the line of a statement of a thread.
fn put_statement_line(text: &mut String, thread: u8, written: &[u8]) -> Result<(), AllocError> {
    write!(text, "script {thread}")?;
    put_written(text, Some(written))?;
    text.push_str("\n")
}

/// Adds the line of a name of a thread, if it has one of this number.
fn put_name_line(
    text: &mut String,
    thread: u8,
    number: usize,
    name: &String,
) -> Result<(), AllocError> {
    if name.is_empty() {
        return Ok(());
    }
    write!(text, "spelled {thread} {number} ")?;
    text.push_str(name.as_str())?;
    text.push_str("\n")
}

/// Adds the lines of the statements of a thread.
fn put_statement_lines(
    text: &mut String,
    thread: u8,
    statements: &[Vec<u8>],
) -> Result<(), AllocError> {
    for written in statements {
        put_statement_line(text, thread, written.as_slice())?;
    }
    Ok(())
}

/// Adds the lines of the names of a thread.
fn put_name_lines(text: &mut String, thread: u8, names: &[String]) -> Result<(), AllocError> {
    for number in 0..names.len() {
        put_name_line(text, thread, number, &names[number])?;
    }
    Ok(())
}

/// Adds the lines of a thread, by its index from 0.
fn put_thread_lines(text: &mut String, source: &Source, index: u8) -> Result<(), AllocError> {
    let thread = index.saturating_add(1);
    let at = usize::from(index);
    if at < source.statements.len() {
        put_statement_lines(text, thread, source.statements[at].as_slice())?;
    }
    if at < source.names.len() {
        put_name_lines(text, thread, source.names[at].as_slice())?;
    }
    Ok(())
}

/// The lines that say how many threads a script has, and how their statements and names are
/// written.
pub(crate) fn script_lines(alloc: Global, source: &Source) -> Result<String, AllocError> {
    let mut text = String::new(alloc);
    let threads = source.threads;
    writeln!(text, "threads {threads}")?;
    for index in 0..threads {
        put_thread_lines(&mut text, source, index)?;
    }
    Ok(text)
}

/// Adds a byte of a line; no other than an ASCII character stands in a statement.
fn put_byte(text: &mut String, byte: u8) -> Result<(), AllocError>
    ensures { OnOk result (GoesOnWith [] (string_bytes text.old) (string_bytes text.new)) }
{
    if !byte.is_ascii() {
        return Ok(());
    }
    text.push(char::from(byte))?;
    Ok(())
}

/// Adds the bytes of a line.
fn put_bytes(text: &mut String, bytes: &[u8]) -> Result<(), AllocError>
    ensures { OnOk result (GoesOnWith [] (string_bytes text.old) (string_bytes text.new)) }
{
    for byte in bytes {
        put_byte(text, *byte)?;
    }
    Ok(())
}

/// Adds what is written, behind a blank, if something is.
fn put_written(text: &mut String, written: Option<&[u8]>) -> Result<(), AllocError>
    ensures { OnOk result (GoesOnWith [] (string_bytes text.old) (string_bytes text.new)) }
{
    match written {
        Some(written) => {
            text.push_str(" ")?;
            put_bytes(text, written)
        }
        None => Ok(()),
    }
}

/// Adds `T.S`, or `T.end`.
fn put_place(text: &mut String, thread: u8, statement: u32) -> Result<(), AllocError>
    ensures { OnOk result (string_bytes text.new
        ≡ string_bytes text.old ++ place_start thread statement) }
{
    if statement == 0 {
        write!(text, "{thread}.end")?;
    } else {
        write!(text, "{thread}.{statement}")?;
    }
    Ok(())
}

/// Adds `T.S` or `T.end`, and what is written behind it: the statement, or the name that leaves.
pub(crate) fn put_statement(
    text: &mut String,
    thread: u8,
    statement: u32,
    written: Option<&[u8]>,
) -> Result<(), AllocError>
    ensures { OnOk result
        (GoesOnWith (place_start thread statement) (string_bytes text.old)
        (string_bytes text.new)) }
{
    put_place(text, thread, statement)?;
    put_written(text, written)?;
    Ok(())
}
