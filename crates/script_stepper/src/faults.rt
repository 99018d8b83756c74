//! The lines of refusals (own).
ghost use Rattle.std.specs.Prelude.{◌≡◌, ◌++◌, false, true, is_err};
ghost use Rattle.script_text.specs.Faults.{fault_line, faulty_line};
ghost use Rattle.script_stepper.specs.Sinks.{IsWritten};

use crate::sink::{Sink, WriteFailed, write_all};
use itoa::Buffer;
use script_text::Fault;

/// Writes a text.
#[tactic(auto, using(crate::proofs::Writing::written_by))]
fn put<S: Sink>(text: &[u8], sink: &mut S) -> Result<(), WriteFailed>
    requires { S.has_failed sink.old ≡ false }
    ensures written { IsWritten text.now result (S.taken sink.old) (S.taken sink.new) }
    ensures failed { S.has_failed sink.new ≡ is_err result }
{
    write_all(sink, text)
}

/// Writes one text after the other.
#[tactic(auto, using(crate::proofs::Writing::begun, crate::proofs::Writing::written_then))]
fn put_two<S: Sink>(first: &[u8], second: &[u8], sink: &mut S) -> Result<(), WriteFailed>
    requires { S.has_failed sink.old ≡ false }
    ensures written { IsWritten (first.now ++ second.now) result (S.taken sink.old) (S.taken sink.new) }
    ensures failed { S.has_failed sink.new ≡ is_err result }
{
    put(first, sink)?;
    put(second, sink)
}

/// The same of three.
#[tactic(auto, using(crate::proofs::Writing::begun, crate::proofs::Writing::written_then))]
fn put_three<S: Sink>(
    first: &[u8],
    second: &[u8],
    third: &[u8],
    sink: &mut S,
) -> Result<(), WriteFailed>
    requires { S.has_failed sink.old ≡ false }
    ensures written { IsWritten (first.now ++ (second.now ++ third.now)) result (S.taken sink.old) (S.taken sink.new) }
    ensures failed { S.has_failed sink.new ≡ is_err result }
{
    put(first, sink)?;
    put_two(second, third, sink)
}

/// The same of five.
#[tactic(auto, using(crate::proofs::Writing::begun, crate::proofs::Writing::written_then))]
fn put_five<S: Sink>(
    first: &[u8],
    second: &[u8],
    third: &[u8],
    fourth: &[u8],
    fifth: &[u8],
    sink: &mut S,
) -> Result<(), WriteFailed>
    requires { S.has_failed sink.old ≡ false }
    ensures written { IsWritten ((first.now ++ second.now) ++ (third.now ++ (fourth.now ++ fifth.now))) result
        (S.taken sink.old) (S.taken sink.new) }
    ensures failed { S.has_failed sink.new ≡ is_err result }
{
    put_two(first, second, sink)?;
    put_three(third, fourth, fifth, sink)
}

/// Writes the line of a fault: `refused 1: memory`, `refused 10: line L: CAUSE`, `refused 11: turn K`,
/// `refused 12: output` or `refused 13: input`, with its line feed (own). It takes no memory.
///
/// Refused just where the sink has failed, which then took a beginning of the line, or nothing where it failed before.
pub fn write_fault<S: Sink>(fault: Fault, sink: &mut S) -> Result<(), WriteFailed>
    ensures written { IsWritten (fault_line fault) result (S.taken sink.old) (S.taken sink.new) }
    ensures failed { S.has_failed sink.new ≡ is_err result }
    ensures kept { S.has_failed sink.old ≡ true
        → (S.taken sink.new ≡ S.taken sink.old) × (S.has_failed sink.new ≡ true) }
{
    if sink.failed() {
        return Err(WriteFailed);
    }
    put_fault(fault, sink)
}

/// Writes the line that tells of a faulty line of a text: `refused 10: line L: WORDS`, with its line feed (own). It
/// takes no memory.
///
/// Refused just where the sink has failed, which then took a beginning of the line, or nothing where it failed before.
pub fn write_faulty_line<S: Sink>(line: usize, words: &str, sink: &mut S) -> Result<(), WriteFailed>
    ensures written { IsWritten (faulty_line line words.now) result (S.taken sink.old) (S.taken sink.new) }
    ensures failed { S.has_failed sink.new ≡ is_err result }
    ensures kept { S.has_failed sink.old ≡ true
        → (S.taken sink.new ≡ S.taken sink.old) × (S.has_failed sink.new ≡ true) }
{
    if sink.failed() {
        return Err(WriteFailed);
    }
    put_faulty_line(line, words, sink)
}

/// The same where the sink hasn't failed.
fn put_faulty_line<S: Sink>(line: usize, words: &str, sink: &mut S) -> Result<(), WriteFailed>
    requires { S.has_failed sink.old ≡ false }
    ensures written { IsWritten (faulty_line line words.now) result (S.taken sink.old) (S.taken sink.new) }
    ensures failed { S.has_failed sink.new ≡ is_err result }
{
    let mut digits = Buffer::new();
    put_five(
        b"refused 10: line ",
        digits.format(line).as_bytes(),
        b": ",
        words.as_bytes(),
        b"\n",
        sink,
    )
}

/// The line of a fault, where the sink hasn't failed.
fn put_fault<S: Sink>(fault: Fault, sink: &mut S) -> Result<(), WriteFailed>
    requires { S.has_failed sink.old ≡ false }
    ensures written { IsWritten (fault_line fault) result (S.taken sink.old) (S.taken sink.new) }
    ensures failed { S.has_failed sink.new ≡ is_err result }
{
    let mut digits = Buffer::new();
    match fault {
        Fault::Memory => put(b"refused 1: memory\n", sink),
        Fault::Syntax { line, cause } => put_faulty_line(line, cause.words(), sink),
        Fault::BadTurn { position } => put_three(
            b"refused 11: turn ",
            digits.format(position).as_bytes(),
            b"\n",
            sink,
        ),
        Fault::Output => put(b"refused 12: output\n", sink),
        Fault::Input => put(b"refused 13: input\n", sink),
    }
}
