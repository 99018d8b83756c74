//! One command line, served.

ghost use Rattle.std.specs.Prelude.{◌≡◌, ◌≤◌, ℕ, List, Ok, Some, false, is_some, map};
ghost use Rattle.clap.specs.Words.{kind_of};
ghost use Rattle.sptr.specs.declared.command.Asked.{Asked};
ghost use Rattle.sptr.specs.CommandLine.{AsksHelp, AsksPlainly, AsksVersion, NamesNoCommand};
ghost use Rattle.sptr.specs.Serving.{IsAnswered, IsMistaken, IsReported, IsShownText, IsTurnedAway};
ghost use Rattle.sptr.specs.Serving.{ReportsOutcome, Serves, report};
ghost use Rattle.sptr.specs.Sources.{known_unless};
ghost use Rattle.sptr.specs.Lines.{limit_line, no_line, picture_line};
ghost use Rattle.sptr.specs.Outcomes.{exit_status};
ghost use Rattle.owner_text.specs.Faults.{cause_words};
ghost use Rattle.script_text.specs.Faults.{fault_line, faulty_line};

use crate::answers::{Outcome, written};
use crate::command::{Line, line_of};
use crate::sources::answer_line;
use clap::error::ErrorKind;
use owner_text::Cause;
use script_stepper::{Output, Sink, write_all, write_fault, write_faulty_line};
use script_text::Fault;
use std::alloc::Global;
use std::convert::AsStr;
use std::fmt::Write as _;
use std::io::{Read, Write};
use std::rt;
use std::sync::Wait;
use std::thread::Threads;

/// Writes the line of a refusal, and answers the exit status 1. A line that can't be written
/// changes nothing.
pub(crate) fn refuse<F: Write>(fault: Fault, faults: &mut Output<F>) -> u8
    ensures status { result ≡ 1 }
    ensures line { IsReported (fault_line fault)
        (report (F.contents faults.old.writer) faults.old.has_failed
        (F.contents faults.new.writer) faults.new.has_failed) }
{
    let _ = write_fault(fault, faults);
    1
}

/// Writes help, or the version, and answers the exit status.
fn show<O: Write, F: Write>(text: &[u8], output: &mut Output<O>, faults: &mut Output<F>) -> u8
    requires { output.old.has_failed ≡ false }
    ensures shows { IsShownText result (O.contents output.old.writer) (O.contents output.new.writer)
        output.new.has_failed
        (report (F.contents faults.old.writer) faults.old.has_failed
        (F.contents faults.new.writer) faults.new.has_failed) }
    ensures quiet { result ≡ 0 → F.contents faults.new.writer ≡ F.contents faults.old.writer }
{
    match written(text, output) {
        Ok(()) => 0,
        Err(fault) => refuse(fault, faults),
    }
}

/// Writes what `clap` shows where it is asked for it, and answers the exit status.
fn show_error<O: Write, F: Write>(
    alloc: Global,
    error: &clap::Error,
    output: &mut Output<O>,
    faults: &mut Output<F>,
) -> u8
    requires { output.old.has_failed ≡ false }
    ensures shows { IsShownText result (O.contents output.old.writer) (O.contents output.new.writer)
        output.new.has_failed
        (report (F.contents faults.old.writer) faults.old.has_failed
        (F.contents faults.new.writer) faults.new.has_failed) }
    ensures quiet { result ≡ 0 → F.contents faults.new.writer ≡ F.contents faults.old.writer }
    ensures status { result ≤ 1 }
{
    match format!(in alloc; "{error}") {
        Ok(text) => show(text.as_bytes(), output, faults),
        Err(_) => refuse(Fault::Memory, faults),
    }
}

/// What `clap` has to say: help and the version on the output, and a mistake among the faults.
fn refuse_words<O: Write, F: Write>(
    alloc: Global,
    error: &clap::Error,
    output: &mut Output<O>,
    faults: &mut Output<F>,
) -> u8
    requires { output.old.has_failed ≡ false }
    ensures away { IsTurnedAway (kind_of error.now) result (O.contents output.old.writer)
        (O.contents output.new.writer)
        output.new.has_failed
        (report (F.contents faults.old.writer) faults.old.has_failed
        (F.contents faults.new.writer) faults.new.has_failed) }
    ensures quiet { result ≡ 0 → F.contents faults.new.writer ≡ F.contents faults.old.writer }
    ensures status { result ≤ 2 }
{
    match error.kind() {
        ErrorKind::OutOfMemory => refuse(Fault::Memory, faults),
        ErrorKind::DisplayHelp => show_error(alloc, error, output, faults),
        ErrorKind::DisplayVersion => show_error(alloc, error, output, faults),
        _ => {
            let _ = write!(faults, "{error}");
            2
        }
    }
}

/// Writes the line of a picture that isn't drawn, and answers the exit status 1.
fn refuse_picture<F: Write>(faults: &mut Output<F>) -> u8
    ensures status { result ≡ 1 }
    ensures line { IsReported picture_line
        (report (F.contents faults.old.writer) faults.old.has_failed
        (F.contents faults.new.writer) faults.new.has_failed) }
{
    if faults.failed() {
        return 1;
    }
    let _ = write_all(
        faults,
        b"refused 4: limit: a picture has up to 2000 acts; --from N --to M draw acts N to M\n",
    );
    1
}

/// Writes the line of orders that aren't told, and answers the exit status 1.
fn refuse_orders<F: Write>(faults: &mut Output<F>) -> u8
    ensures status { result ≡ 1 }
    ensures line { IsReported limit_line
        (report (F.contents faults.old.writer) faults.old.has_failed
        (F.contents faults.new.writer) faults.new.has_failed) }
{
    if faults.failed() {
        return 1;
    }
    let _ = write_all(
        faults,
        b"refused 4: limit: 1000000 states are seen at most, or N with --most N\n",
    );
    1
}

/// Writes the line of a line that is never told, as the script can't tell it, and answers the exit
/// status 1.
fn refuse_line<F: Write>(faults: &mut Output<F>) -> u8
    ensures status { result ≡ 1 }
    ensures line { IsReported no_line
        (report (F.contents faults.old.writer) faults.old.has_failed
        (F.contents faults.new.writer) faults.new.has_failed) }
{
    if faults.failed() {
        return 1;
    }
    let _ = write_all(
        faults,
        b"refused 14: line: no statement of the script can tell it\n",
    );
    1
}

/// Writes the line that tells of a faulty line of a graph, and answers the exit status 1.
fn refuse_graph<F: Write>(line: usize, cause: Cause, faults: &mut Output<F>) -> u8
    ensures status { result ≡ 1 }
    ensures line { IsReported (faulty_line line (cause_words cause))
        (report (F.contents faults.old.writer) faults.old.has_failed
        (F.contents faults.new.writer) faults.new.has_failed) }
{
    let _ = write_faulty_line(line, cause.words(), faults);
    1
}

/// Answers the exit status of a command that was carried out, and writes the line of a picture that
/// isn't drawn, of a graph that has no answer, or of orders that aren't told.
fn conclude<F: Write>(outcome: Outcome, faults: &mut Output<F>) -> u8
    ensures status { result ≡ exit_status (Ok outcome) }
    ensures line { ReportsOutcome (Ok outcome)
        (report (F.contents faults.old.writer) faults.old.has_failed
        (F.contents faults.new.writer) faults.new.has_failed) }
    ensures quiet { result ≡ 0 → F.contents faults.new.writer ≡ F.contents faults.old.writer }
{
    match outcome {
        Outcome::Done => 0,
        Outcome::Leaks => 3,
        Outcome::NoPicture => refuse_picture(faults),
        Outcome::NoGraph { line, cause } => refuse_graph(line, cause, faults),
        Outcome::Found => 3,
        Outcome::NoOrders => refuse_orders(faults),
        Outcome::NoLine => refuse_line(faults),
    }
}

/// Does what a command line asks for, and answers the exit status.
fn carry_out<R: rt::Files + Threads + Wait + Sync, I: Read, O: Write, F: Write>(
    rt: &R,
    alloc: Global,
    line: Line<'_>,
    input: &mut I,
    output: &mut Output<O>,
    faults: &mut Output<F>,
) -> u8
    requires { output.old.has_failed ≡ false }
    ensures answered { IsAnswered line.entry.asked
        (known_unless (is_some line.entry.list_file) (Some line.entry.turns.now))
        (known_unless (is_some line.entry.text_file) (I.remaining input.old)) result
        (O.contents output.old.writer) (O.contents output.new.writer) output.new.has_failed
        (report (F.contents faults.old.writer) faults.old.has_failed
        (F.contents faults.new.writer) faults.new.has_failed) }
    ensures quiet { result ≡ 0 → F.contents faults.new.writer ≡ F.contents faults.old.writer }
    ensures status { result ≤ 3 }
{
    match answer_line(rt, alloc, line, input, output) {
        Ok(outcome) => conclude(outcome, faults),
        Err(fault) => refuse(fault, faults),
    }
}

/// Serves one command line, whose first word is the program's name: reads a script, or a graph of
/// owners, from `input`, or from the file that the words name, and writes the answer on `output`,
/// which hasn't failed before. Answers the exit status: 0; 1 for a refusal, with its line on
/// `faults`; 2 for a fault of the command line, with the text of `clap` on `faults`; 3 where it was
/// asked what is left, or what leaks of a graph, and something is leaked, or for a line of a
/// script's orders, and some order tells it.
///
/// The words are looked at first; then come a failed input, or a file that can't be read (13), a
/// fault of the script or the graph (10) and one of the turns (11), each with nothing on `output`,
/// and a failed output (12). A fault line that can't be written changes no status: `faults` then took a
/// beginning of it, or nothing where it had failed before (own).
pub fn serve<R: rt::Files + Threads + Wait + Sync, S: AsStr, I: Read, O: Write, F: Write>(
    rt: &R,
    alloc: Global,
    words: &[S],
    input: &mut I,
    output: &mut Output<O>,
    faults: &mut Output<F>,
) -> u8
    requires { output.old.has_failed ≡ false }
    ensures serves { Serves (map S.text words.now) (I.remaining input.old) result
        (O.contents output.old.writer)
        (O.contents output.new.writer) output.new.has_failed
        (report (F.contents faults.old.writer) faults.old.has_failed
        (F.contents faults.new.writer) faults.new.has_failed) }
    ensures answers { (asked : Asked) (list : List ℕ) → AsksPlainly (map S.text words.now) asked list
        → IsAnswered asked (Some list) (I.remaining input.old) result (O.contents output.old.writer)
        (O.contents output.new.writer) output.new.has_failed
        (report (F.contents faults.old.writer) faults.old.has_failed
        (F.contents faults.new.writer) faults.new.has_failed) }
    ensures help { AsksHelp (map S.text words.now)
        → IsShownText result (O.contents output.old.writer)
        (O.contents output.new.writer) output.new.has_failed
        (report (F.contents faults.old.writer) faults.old.has_failed
        (F.contents faults.new.writer) faults.new.has_failed) }
    ensures version { AsksVersion (map S.text words.now)
        → IsShownText result (O.contents output.old.writer)
        (O.contents output.new.writer) output.new.has_failed
        (report (F.contents faults.old.writer) faults.old.has_failed
        (F.contents faults.new.writer) faults.new.has_failed) }
    ensures missing { NamesNoCommand (map S.text words.now)
        → IsMistaken result (O.contents output.old.writer)
        (O.contents output.new.writer) output.new.has_failed
        (report (F.contents faults.old.writer) faults.old.has_failed
        (F.contents faults.new.writer) faults.new.has_failed) }
    ensures quiet { result ≡ 0 → F.contents faults.new.writer ≡ F.contents faults.old.writer }
    ensures status { result ≤ 3 }
{
    match line_of(alloc, words) {
        Ok(line) => carry_out(rt, alloc, line, input, output, faults),
        Err(error) => refuse_words(alloc, &error, output, faults),
    }
}
