//! Which lines a script can tell, as far as its statements alone say.

ghost use Rattle.std.specs.Prelude.{◌≡◌, Some, IfErr, IfOk, map, not, option_copied, position, string_bytes};
ghost use Rattle.script_text.specs.declared.fault.Fault.TheVariants.{Memory};
ghost use Rattle.step_threads.specs.Programs.{part_of};
ghost use Rattle.text_lines.specs.Numbers.{is_digit};
ghost use Rattle.script_orders.specs.Tellings.{after_digits, after_form, after_part, answers, can_tell, end_start};
ghost use Rattle.script_orders.specs.Tellings.{is_either, is_like, on_rest, some_statement, some_thread};
ghost use Rattle.script_orders.specs.Tellings.{statement_start, tells, tells_end, tells_left, thread_tells};

use crate::threads::is_digit;
use script_text::{Fault, Script};
use std::alloc::{AllocError, Global};
use std::fmt::Write as _;
use step_core::{Actor, Call};

/// Where the digits end that a text begins with.
fn digits_end(text: &[u8]) -> Option<usize>
    ensures { result ≡ position (λ b. not (is_digit b)) text.now }
{
    text.iter().position(|b| !is_digit(*b))
}

/// What follows the digits that a text begins with.
fn after_digits(text: &[u8]) -> &[u8]
    ensures { result.now ≡ after_digits text.now }
{
    match digits_end(text) {
        Some(place) => &text[place..],
        None => &[],
    }
}

/// What follows a part of a form: one digit or more for `N`, and else just this byte.
fn after_part(part: u8, text: &[u8]) -> Option<&[u8]>
    ensures { option_copied result ≡ after_part part text.now }
{
    match text {
        [] => None,
        [first, rest @ ..] => {
            if part == b'N' {
                if is_digit(*first) {
                    return Some(after_digits(rest));
                }
                return None;
            }
            if *first == part {
                return Some(rest);
            }
            None
        }
    }
}

/// What follows a form in a text, in which each `N` stands for one digit or more.
fn after_form<'a>(text: &'a [u8], form: &[u8]) -> Option<&'a [u8]>
    ensures { option_copied result ≡ after_form form.now (Some text.now) }
{
    let mut rest = text;
    for part in form {
        match after_part(*part, rest) {
            Some(after) => rest = after,
            None => return None,
        }
    }
    Some(rest)
}

/// Whether a text has this form.
fn is_like(text: &[u8], form: &[u8]) -> bool
    ensures { result ≡ is_like form.now text.now }
{
    match after_form(text, form) {
        Some(rest) => rest.is_empty(),
        None => false,
    }
}

/// Whether it has one of two.
fn is_either(text: &[u8], one: &[u8], other: &[u8]) -> bool
    ensures { result ≡ is_either one.now other.now text.now }
{
    is_like(text, one) || is_like(text, other)
}

/// Whether a statement may answer so, where it isn't refused.
fn answers(call: Call, text: &[u8]) -> bool
    ensures { result ≡ answers call text.now }
{
    match call {
        Call::Count { .. } => is_like(text, b"count N"),
        Call::WeakCount { .. } => is_like(text, b"count N"),
        Call::Expired { .. } => is_either(text, b"expired yes", b"expired no"),
        Call::Lock { .. } => is_either(text, b"lock owner", b"lock empty"),
        Call::Upgrade { .. } => is_like(text, b"upgrade owner"),
        Call::Read { .. } => is_like(text, b"read N"),
        Call::Place { .. } => is_either(text, b"place N.N", b"place null"),
        Call::Same { .. } => is_either(text, b"same yes", b"same no"),
        Call::Before { .. } => is_either(text, b"before yes", b"before no"),
        Call::Compare { .. } => is_either(text, b"compare yes", b"compare no"),
        Call::Holds { .. } => is_either(text, b"holds yes", b"holds no"),
        _ => false,
    }
}

/// Whether an object's end is told so.
fn tells_end(text: &[u8]) -> bool
    ensures { result ≡ tells_end text.now }
{
    is_either(text, b"end N N N N", b"end null")
}

/// Whether a statement may tell this.
fn tells(call: Call, text: &[u8]) -> bool
    ensures { result ≡ tells call text.now }
{
    answers(call, text) || (is_like(text, b"refused N") || tells_end(text))
}

/// How a line of a statement begins.
fn statement_start(alloc: Global, thread: usize, number: usize) -> Result<String, AllocError>
    ensures { IfOk result (λ text. string_bytes text ≡ statement_start thread number) }
{
    let mut text = String::new(alloc);
    write!(text, "{thread}.{number} ")?;
    Ok(text)
}

/// How a line of a thread's end begins.
fn end_start(alloc: Global, thread: usize) -> Result<String, AllocError>
    ensures { IfOk result (λ text. string_bytes text ≡ end_start thread) }
{
    let mut text = String::new(alloc);
    write!(text, "{thread}.end ")?;
    Ok(text)
}

/// A statement: its thread, its number, and what it asks for.
#[derive(Clone, Copy)]
struct Statement {
    thread: usize,
    number: usize,
    call: Call,
}

/// Whether the line is one that a statement may tell.
fn statement_tells(alloc: Global, statement: Statement, line: &[u8]) -> Result<bool, AllocError>
    ensures { IfOk result (λ is. is ≡ on_rest (tells statement.call)
        (after_form (statement_start statement.thread statement.number) (Some line.now))) }
{
    let start = statement_start(alloc, statement.thread, statement.number)?;
    match after_form(line, start.as_bytes()) {
        Some(rest) => Ok(tells(statement.call, rest)),
        None => Ok(false),
    }
}

/// Whether it is one that a thread's end may tell.
fn end_tells(alloc: Global, thread: usize, line: &[u8]) -> Result<bool, AllocError>
    ensures { IfOk result (λ is. is ≡ on_rest tells_end (after_form (end_start thread) (Some line.now))) }
{
    let start = end_start(alloc, thread)?;
    match after_form(line, start.as_bytes()) {
        Some(rest) => Ok(tells_end(rest)),
        None => Ok(false),
    }
}

/// Whether it is one that some statement of a thread may tell.
fn some_statement(
    alloc: Global,
    thread: usize,
    calls: &[Call],
    line: &[u8],
) -> Result<bool, AllocError>
    ensures { IfOk result (λ is. is ≡ some_statement thread 1 calls.now line.now) }
{
    for index in 0..calls.len() {
        let statement = Statement {
            thread,
            number: index + 1,
            call: calls[index],
        };
        if statement_tells(alloc, statement, line)? {
            return Ok(true);
        }
    }
    Ok(false)
}

/// Whether it is one that a thread may tell.
fn thread_tells(
    alloc: Global,
    thread: usize,
    calls: &[Call],
    line: &[u8],
) -> Result<bool, AllocError>
    ensures { IfOk result (λ is. is ≡ thread_tells thread calls.now line.now) }
{
    if end_tells(alloc, thread, line)? {
        return Ok(true);
    }
    some_statement(alloc, thread, calls, line)
}

/// Whether it is one that some of these threads may tell.
fn some_thread(alloc: Global, actors: &[Actor], line: &[u8]) -> Result<bool, AllocError>
    ensures { IfOk result (λ is. is ≡ some_thread 1 (map part_of actors.now) line.now) }
{
    for index in 0..actors.len() {
        if thread_tells(alloc, index + 1, actors[index].calls.as_slice(), line)? {
            return Ok(true);
        }
    }
    Ok(false)
}

/// Whether what is left is told so.
fn tells_left(line: &[u8]) -> bool
    ensures { result ≡ tells_left line.now }
{
    is_either(line, b"block N owners N weaks N", b"made N ended N left N")
}

/// Whether some statement of the script, or the end of a thread or of the run, may tell the line.
pub(crate) fn can_tell(alloc: Global, script: &Script, line: &[u8]) -> Result<bool, Fault>
    ensures is { IfOk result (λ can. can ≡ can_tell script.now line.now) }
    ensures memory { IfErr result (λ fault. fault ≡ Memory) }
{
    if tells_left(line) {
        return Ok(true);
    }
    let Ok(program) = script.program(alloc) else {
        return Err(Fault::Memory);
    };
    match some_thread(alloc, program.actors.as_slice(), line) {
        Ok(can) => Ok(can),
        Err(_) => Err(Fault::Memory),
    }
}
