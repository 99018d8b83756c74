//! Text on its way to a sink: the lines of one thread.
ghost use Rattle.std.specs.Prelude.{◌≡◌, false, IfErr, IfOk, OnOk, OnErr, is_err, string_bytes};
ghost use Rattle.std.specs.List.{flat_map};
ghost use Rattle.std.specs.Io.KnownBytes.{Appends};
ghost use Rattle.script_text.specs.Grammar.{ended};
ghost use Rattle.script_stepper.specs.Lines.{said_lines};
ghost use Rattle.script_stepper.specs.Runs.{Writes, is_output};
ghost use Rattle.script_stepper.specs.Sinks.{AppendsBeginning};

use crate::lines::put_lines;
use crate::sink::{Sink, write_all};
use script_text::Fault;
use std::alloc::{AllocError, Global};
use step_core::Said;

/// Writes a text that is whole in memory (own). It takes no memory.
///
/// Refused by 12 alone, just where the writer has failed, which then took a beginning of the text. The writer hasn't
/// failed before.
pub fn write_text<S: Sink>(text: &[u8], writer: &mut S) -> Result<(), Fault>
    requires { S.has_failed writer.old ≡ false }
    ensures writes { Writes text.now result (S.taken writer.old) (S.taken writer.new) }
    ensures refused { IfErr result (λ fault. fault ≡ Fault.Output) }
    ensures failed { S.has_failed writer.new ≡ is_output result }
{
    match write_all(writer, text) {
        Ok(()) => Ok(()),
        Err(_) => Err(Fault::Output),
    }
}

fn thread_text(alloc: Global, thread: u8, said: &[Said]) -> Result<String, AllocError>
    ensures { IfOk result (λ text. string_bytes text ≡ ended (flat_map (said_lines thread) said.now)) }
{
    let mut text = String::new(alloc);
    put_lines(&mut text, thread, said)?;
    Ok(text)
}

/// Writes what a thread said, line by line (own): of each act its answer, and then `T.S end F F F F` or `T.S end null`
/// for the object that ended by it. `T` is the thread, `S` the number of the statement, or `end` at the thread's end.
///
/// An answer is `T.S count N`, `T.S read N` or `T.S refused N`, where N is the count, the field or the number of the
/// refusal; `T.S place B.F` or `T.S place null`, where B is a block and F a field; `T.S lock owner`, `T.S lock empty`
/// or `T.S upgrade owner`; or `T.S expired A`, `T.S same A`, `T.S before A`, `T.S compare A` or `T.S holds A`, where A
/// is `yes` or `no`.
///
/// Refused by 1 where a growth was refused, before the first byte; by 12 just where the writer has failed, which then
/// took a beginning of the lines. The writer hasn't failed before.
pub fn write_lines<S: Sink>(
    alloc: Global,
    thread: u8,
    said: &[Said],
    writer: &mut S,
) -> Result<(), Fault>
    requires { S.has_failed writer.old ≡ false }
    ensures writes { Writes (ended (flat_map (said_lines thread) said.now)) result
        (S.taken writer.old) (S.taken writer.new) }
    ensures failed { S.has_failed writer.new ≡ is_output result }
{
    match thread_text(alloc, thread, said) {
        Ok(text) => write_text(text.as_bytes(), writer),
        Err(_) => Err(Fault::Memory),
    }
}
