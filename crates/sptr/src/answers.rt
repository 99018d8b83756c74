//! What the commands answer to the script on the input.

ghost use Rattle.std.specs.Prelude.{◌≡◌, ◌⊎◌, ◌||◌, false, IfOk, IfErr, IfSome};
ghost use Rattle.std.specs.Prelude.{string_bytes};
ghost use Rattle.script_text.specs.declared.fault.Fault.TheVariants.{Input, Memory};
ghost use Rattle.script_runner.specs.Telling.{TellsReport};
ghost use Rattle.script_stepper.specs.Runs.{Delivers, IsFineText, IsRunText, TellsRun, Writes};
ghost use Rattle.script_stepper.specs.Runs.{is_output, text_in};
ghost use Rattle.std.specs.Io.KnownBytes.{Keeps};
ghost use Rattle.leak_report.specs.Left.{IsLeftText};
ghost use Rattle.script_picture.specs.Pictures.{IsPictureText};
ghost use Rattle.sptr.specs.Lines.{ok_line};
ghost use Rattle.sptr.specs.Outcomes.{graph_refused};
ghost use Rattle.script_text.specs.Canonical.{canonical};
ghost use Rattle.script_text.specs.Grammar.{ReadsAs};
ghost use Rattle.script_text.specs.Scripts.{converted};
ghost use Rattle.sptr.specs.Serving.{Converts, CountsScript, TellsGraph};

use control_word::Refusal;
use leak_report::left_text;
use owner_text::{Cause, owners_text};
use script_picture::{Order, draw_text};
use script_runner::run_text;
use script_stepper::{Output, fine_text, step_text, write_text};
use script_text::{Fault, Script, parse, print};
use std::alloc::{AllocError, Global};
use std::fmt::Write as _;
use std::io::{ErrorKind, Read, Write};
use std::sync::Wait;
use std::thread::Threads;

/// What came of a command.
#[derive(Clone, Copy)]
pub(crate) enum Outcome {
    /// What was asked for was written.
    Done,
    /// So it was, and something is leaked.
    Leaks,
    /// No picture was drawn: the part has too many acts, or begins behind the last one, or is none.
    NoPicture,
    /// Nothing was told of a graph: this line of it is faulty.
    NoGraph { line: usize, cause: Cause },
    /// The turns were told by which a line is told.
    Found,
    /// Nothing was told of a script's orders: there are more states than are to be seen, or it isn't
    /// said by a number how many.
    NoOrders,
    /// Nothing was: the script can't tell the line.
    NoLine,
}

/// All that an input has.
pub(crate) fn bytes_of<I: Read>(alloc: Global, input: &mut I) -> Result<Vec<u8>, Fault>
    ensures ok { IfOk result (λ v. IfSome (I.remaining input.old) (λ bytes. v.items ≡ bytes)) }
    ensures err { IfErr result (λ fault. (fault ≡ Input) ⊎ (fault ≡ Memory)) }
{
    let mut bytes = Vec::new(alloc);
    match input.read_to_end(&mut bytes) {
        Ok(_) => Ok(bytes),
        Err(error) => match error.kind() {
            ErrorKind::OutOfMemory => Err(Fault::Memory),
            _ => Err(Fault::Input),
        },
    }
}

fn ok_text(alloc: Global, threads: u32, statements: u32) -> Result<String, AllocError>
    ensures { IfOk result (λ line. string_bytes line ≡ ok_line threads statements) }
{
    let mut line = String::new(alloc);
    write!(line, "ok threads {threads}")?;
    write!(line, " statements {statements}")?;
    line.push('\n')?;
    Ok(line)
}

/// The answer of `check` on a script's text.
fn counted(alloc: Global, text: &[u8]) -> Result<String, Fault>
    ensures { CountsScript text.now (text_in result) }
{
    let script = parse(alloc, text)?;
    match ok_text(alloc, script.threads(), script.statements()) {
        Ok(line) => Ok(line),
        Err(_) => Err(Fault::Memory),
    }
}

/// The canonical text of a script in version 2.
fn version_two(alloc: Global, script: &Script) -> Result<String, Refusal>
    ensures canonical { IfOk result (λ text. string_bytes text ≡ canonical (converted script.now)) }
    ensures reads { IfOk result (λ text. ReadsAs (string_bytes text) (converted script.now)) }
{
    let script = script_text::convert(alloc, script)?;
    print(alloc, &script)
}

/// The answer of `convert` on a script's text.
fn converted(alloc: Global, text: &[u8]) -> Result<String, Fault>
    ensures { Converts text.now (text_in result) }
{
    let script = parse(alloc, text)?;
    match version_two(alloc, &script) {
        Ok(text) => Ok(text),
        Err(_) => Err(Fault::Memory),
    }
}

/// Makes sure that all that was written has gone out.
pub(crate) fn flushed<O: Write>(output: &mut Output<O>) -> Result<(), Fault>
    ensures kept { Keeps (O.contents output.old.writer) (O.contents output.new.writer) }
    ensures err { IfErr result (λ fault. fault ≡ Fault.Output) }
    ensures failed { output.new.has_failed ≡ (output.old.has_failed || is_output result) }
{
    match output.flush() {
        Ok(()) => Ok(()),
        Err(_) => Err(Fault::Output),
    }
}

/// Writes a text, and makes sure that it has gone out.
pub(crate) fn written<O: Write>(text: &[u8], output: &mut Output<O>) -> Result<(), Fault>
    requires { output.old.has_failed ≡ false }
    ensures writes { Writes text.now result (O.contents output.old.writer)
        (O.contents output.new.writer) }
    ensures failed { output.new.has_failed ≡ is_output result }
{
    write_text(text, output)?;
    flushed(output)
}

/// Answers `check`: how many threads and statements the script has.
pub(crate) fn check<O: Write>(
    alloc: Global,
    script: &[u8],
    output: &mut Output<O>,
) -> Result<(), Fault>
    requires { output.old.has_failed ≡ false }
    ensures told { Delivers (CountsScript script.now) result
        (O.contents output.old.writer) (O.contents output.new.writer) }
    ensures failed { output.new.has_failed ≡ is_output result }
{
    let text = counted(alloc, script)?;
    written(text.as_bytes(), output)
}

/// Answers `convert`: the canonical text in version 2 of the script.
pub(crate) fn convert<O: Write>(
    alloc: Global,
    script: &[u8],
    output: &mut Output<O>,
) -> Result<(), Fault>
    requires { output.old.has_failed ≡ false }
    ensures told { Delivers (Converts script.now) result
        (O.contents output.old.writer) (O.contents output.new.writer) }
    ensures failed { output.new.has_failed ≡ is_output result }
{
    let text = converted(alloc, script)?;
    written(text.as_bytes(), output)
}

/// Answers `step`: the lines of the script's run, with a list of turns.
pub(crate) fn step<O: Write>(
    alloc: Global,
    turns: &[u8],
    script: &[u8],
    output: &mut Output<O>,
) -> Result<(), Fault>
    requires { output.old.has_failed ≡ false }
    ensures told { Delivers (TellsRun IsRunText script.now turns.now) result
        (O.contents output.old.writer) (O.contents output.new.writer) }
    ensures failed { output.new.has_failed ≡ is_output result }
{
    step_text(alloc, script, turns, output)?;
    flushed(output)
}

/// Answers `fine`: the same of the run by single steps, one for each number of the list.
pub(crate) fn fine<O: Write>(
    alloc: Global,
    turns: &[u8],
    script: &[u8],
    output: &mut Output<O>,
) -> Result<(), Fault>
    requires { output.old.has_failed ≡ false }
    ensures told { Delivers (TellsRun IsFineText script.now turns.now) result
        (O.contents output.old.writer) (O.contents output.new.writer) }
    ensures failed { output.new.has_failed ≡ is_output result }
{
    fine_text(alloc, script, turns, output)?;
    flushed(output)
}

/// Answers `run`: what comes of the script on real workers, one a thread.
pub(crate) fn run<R: Threads + Wait + Sync, O: Write>(
    rt: &R,
    alloc: Global,
    script: &[u8],
    output: &mut Output<O>,
) -> Result<(), Fault>
    requires { output.old.has_failed ≡ false }
    ensures told { Delivers (TellsReport script.now) result
        (O.contents output.old.writer) (O.contents output.new.writer) }
    ensures failed { output.new.has_failed ≡ is_output result }
{
    run_text(rt, alloc, script, output)?;
    flushed(output)
}

/// Answers `left`: what is left at the end of the script's run, with a list of turns, told or
/// drawn, and whether something is leaked.
pub(crate) fn left<O: Write>(
    alloc: Global,
    turns: &[u8],
    draws: bool,
    script: &[u8],
    output: &mut Output<O>,
) -> Result<bool, Fault>
    requires { output.old.has_failed ≡ false }
    ensures told { Delivers (TellsRun (IsLeftText draws result) script.now turns.now) result
        (O.contents output.old.writer) (O.contents output.new.writer) }
    ensures failed { output.new.has_failed ≡ is_output result }
{
    let leaks = left_text(alloc, script, turns, draws, output)?;
    match flushed(output) {
        Ok(()) => Ok(leaks),
        Err(fault) => Err(fault),
    }
}

/// Answers `draw`: the picture of a part of the script's run, with a list of turns, and whether
/// there is none, as the part has too many acts for one, or begins behind the last one.
pub(crate) fn draw<O: Write>(
    alloc: Global,
    order: Order<'_>,
    output: &mut Output<O>,
) -> Result<bool, Fault>
    requires { output.old.has_failed ≡ false }
    ensures told { Delivers (TellsRun (IsPictureText order.entry.is_fine order.entry.is_page order.entry.part result)
        order.entry.script.now order.entry.turns.now) result
        (O.contents output.old.writer) (O.contents output.new.writer) }
    ensures failed { output.new.has_failed ≡ is_output result }
{
    let is_none = draw_text(alloc, order, output)?;
    match flushed(output) {
        Ok(()) => Ok(is_none),
        Err(fault) => Err(fault),
    }
}

/// What comes of a graph that has no answer.
fn without_graph(fault: owner_text::Fault) -> Result<Outcome, Fault>
    ensures { result ≡ graph_refused fault }
{
    match fault {
        owner_text::Fault::Syntax { line, cause } => Ok(Outcome::NoGraph { line, cause }),
        owner_text::Fault::Memory => Err(Fault::Memory),
    }
}

/// Answers `owners`: what leaks of a graph of owners, and what to make weak, told or drawn, and
/// whether something does leak.
pub(crate) fn owners<O: Write>(
    alloc: Global,
    draws: bool,
    graph: &[u8],
    output: &mut Output<O>,
) -> Result<Outcome, Fault>
    requires { output.old.has_failed ≡ false }
    ensures told { Delivers (TellsGraph draws graph.now result) result
        (O.contents output.old.writer) (O.contents output.new.writer) }
    ensures failed { output.new.has_failed ≡ is_output result }
{
    let told = match owners_text(alloc, graph, draws) {
        Ok(told) => told,
        Err(fault) => return without_graph(fault),
    };
    match written(told.text.as_bytes(), output) {
        Ok(()) => Ok(if told.leaks {
            Outcome::Leaks
        } else {
            Outcome::Done
        }),
        Err(fault) => Err(fault),
    }
}
