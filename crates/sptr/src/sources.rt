//! Answers to scripts, graphs and lists of turns, wherever these lie.

ghost use Rattle.std.specs.Prelude.{◌≡◌, ◌⊎◌, IfErr, IfOk, IfSome, false, is_some, option_copied};
ghost use Rattle.script_stepper.specs.Runs.{Delivers, is_output};
ghost use Rattle.script_text.specs.declared.fault.Fault.TheVariants.{Input, Memory};
ghost use Rattle.sptr.specs.Outcomes.{FindsAsAsked, found_as, line_found, none_found};
ghost use Rattle.sptr.specs.Serving.{AnswersCommand};
ghost use Rattle.sptr.specs.Sources.{OfBytes, OfList, known_unless, without_line_end};

use crate::answers::{Outcome, bytes_of, check, convert, draw, fine, left, owners, run, step};
use crate::command::{Asked, Line};
use crate::orders::{orders, outcome_page};
use script_orders::Query;
use script_picture::Order;
use script_stepper::Output;
use script_text::Fault;
use std::alloc::Global;
use std::io::{Read, Write};
use std::sync::Wait;
use std::thread::Threads;
use std::{fs, rt};
use text_lines::line_content;

/// What came of a command that finds nothing.
fn done(written: Result<(), Fault>) -> Result<Outcome, Fault>
    ensures { result ≡ none_found written }
{
    match written {
        Ok(()) => Ok(Outcome::Done),
        Err(fault) => Err(fault),
    }
}

/// What came of one that looks for something: this, where it found it.
fn done_or(outcome: Outcome, found: Result<bool, Fault>) -> Result<Outcome, Fault>
    ensures { result ≡ found_as outcome found }
{
    match found {
        Ok(true) => Ok(outcome),
        Ok(false) => Ok(Outcome::Done),
        Err(fault) => Err(fault),
    }
}

/// A line that is to be found, if one is.
fn line_if(finds: bool, line: &[u8]) -> Option<&[u8]>
    ensures { option_copied result ≡ line_found finds line.now }
{
    if finds { Some(line) } else { None }
}

/// The answer to what a command line asks for, of a script or a graph. Nothing is drawn of no part,
/// and nothing told of orders with no number of states.
fn answer_bytes<R: Threads + Wait + Sync, O: Write>(
    rt: &R,
    alloc: Global,
    line: Line<'_>,
    text: &[u8],
    output: &mut Output<O>,
) -> Result<Outcome, Fault>
    requires { output.old.has_failed ≡ false }
    ensures delivers { Delivers (AnswersCommand line.entry.asked line.entry.turns.now result text.now) result
        (O.contents output.old.writer) (O.contents output.new.writer) }
    ensures finds { FindsAsAsked line.entry.asked result }
    ensures failed { output.new.has_failed ≡ is_output result }
{
    let turns = line.turns;
    match line.asked {
        Asked::Check => done(check(alloc, text, output)),
        Asked::Convert => done(convert(alloc, text, output)),
        Asked::Step => done(step(alloc, turns, text, output)),
        Asked::Fine => done(fine(alloc, turns, text, output)),
        Asked::Run => done(run(rt, alloc, text, output)),
        Asked::Left { draws } => {
            done_or(Outcome::Leaks, left(alloc, turns, draws, text, output))
        }
        Asked::Draw {
            is_fine,
            is_page,
            part,
        } => match part {
            Some(part) => {
                let order = Order {
                    script: text,
                    turns,
                    is_fine,
                    is_page,
                    part,
                };
                done_or(Outcome::NoPicture, draw(alloc, order, output))
            }
            None => Ok(Outcome::NoPicture),
        },
        Asked::Owners { draws } => owners(alloc, draws, text, output),
        Asked::Orders { finds, most } => match most {
            Some(most) => {
                let query = Query {
                    script: text,
                    line: line_if(finds, turns),
                    most,
                };
                orders(alloc, query, output)
            }
            None => Ok(Outcome::NoOrders),
        },
        Asked::OrdersPage { most } => match most {
            Some(most) => done_or(Outcome::NoOrders, outcome_page(alloc, text, most, output)),
            None => Ok(Outcome::NoOrders),
        },
    }
}

/// All that a file has.
fn file_bytes<R: rt::Files>(rt: &R, alloc: Global, path: &str) -> Result<Vec<u8>, Fault>
    ensures { IfErr result (λ fault. (fault ≡ Input) ⊎ (fault ≡ Memory)) }
{
    match fs::open(rt, path) {
        Ok(mut file) => bytes_of(alloc, &mut file),
        Err(_) => Err(Fault::Input),
    }
}

/// All that the file has, if one is named, and else the input.
fn text_of<R: rt::Files, I: Read>(
    rt: &R,
    alloc: Global,
    path: Option<&str>,
    input: &mut I,
) -> Result<Vec<u8>, Fault>
    ensures ok { IfOk result (λ v. IfSome (known_unless (is_some path.entry) (I.remaining input.old))
        (λ bytes. v.items ≡ bytes)) }
    ensures err { IfErr result (λ fault. (fault ≡ Input) ⊎ (fault ≡ Memory)) }
{
    match path {
        Some(path) => file_bytes(rt, alloc, path),
        None => bytes_of(alloc, input),
    }
}

/// The answer to a command line whose list of turns is at hand.
fn answer_text<R: rt::Files + Threads + Wait + Sync, I: Read, O: Write>(
    rt: &R,
    alloc: Global,
    line: Line<'_>,
    input: &mut I,
    output: &mut Output<O>,
) -> Result<Outcome, Fault>
    requires { output.old.has_failed ≡ false }
    ensures delivers { OfBytes (known_unless (is_some line.entry.text_file) (I.remaining input.old))
        (λ bytes.
        Delivers (AnswersCommand line.entry.asked line.entry.turns.now result bytes) result
        (O.contents output.old.writer)
        (O.contents output.new.writer)) }
    ensures finds { FindsAsAsked line.entry.asked result }
    ensures failed { output.new.has_failed ≡ is_output result }
{
    let text = text_of(rt, alloc, line.text_file, input)?;
    answer_bytes(rt, alloc, line, text.as_slice(), output)
}

/// A list without its last line end.
fn list_in(text: &[u8]) -> &[u8]
    ensures { result.now ≡ without_line_end text.now }
{
    match text {
        [line @ .., b'\n'] => line_content(line),
        _ => text,
    }
}

/// The answer to a command line: of the script or the graph on the input, or in the file that it
/// names, and with the list of turns that it gives, or that of the file that it names. The list is
/// read first.
pub(crate) fn answer_line<R: rt::Files + Threads + Wait + Sync, I: Read, O: Write>(
    rt: &R,
    alloc: Global,
    line: Line<'_>,
    input: &mut I,
    output: &mut Output<O>,
) -> Result<Outcome, Fault>
    requires { output.old.has_failed ≡ false }
    ensures delivers { OfList (known_unless (is_some line.entry.list_file) (Some line.entry.turns.now))
        (λ list. OfBytes (known_unless (is_some line.entry.text_file) (I.remaining input.old))
        (λ bytes. Delivers (AnswersCommand line.entry.asked list result bytes) result
        (O.contents output.old.writer) (O.contents output.new.writer))) }
    ensures finds { FindsAsAsked line.entry.asked result }
    ensures failed { output.new.has_failed ≡ is_output result }
{
    match line.list_file {
        Some(path) => {
            let text = file_bytes(rt, alloc, path)?;
            let turns = list_in(text.as_slice());
            answer_text(rt, alloc, Line { turns, ..line }, input, output)
        }
        None => answer_text(rt, alloc, line, input, output),
    }
}
