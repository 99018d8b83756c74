//! Where output goes.

ghost use Rattle.std.specs.Prelude.{◌≡◌, ◌≤◌, ◌||◌, ℕ, List, Bool, Option, true, false, length, IfOk};
ghost use Rattle.std.specs.Prelude.{OnOk, OnErr, is_err};
ghost use Rattle.std.specs.Io.KnownBytes.{Appends, Keeps, WriteAppends};
ghost use Rattle.script_stepper.specs.Sinks.{write_fails, AppendsBeginning};

use std::{fmt, io};
use thiserror::Error;

/// The writer took no more bytes (own).
#[derive(Clone, Copy, Debug, PartialEq, Eq, Error)]
#[error("the output failed")]
pub struct WriteFailed;

/// Where output goes (own). It means the bytes taken and whether a write has failed: an error, or 0 bytes taken of
/// some, is a failure, and no later write undoes it.
pub trait Sink {
    // The bytes that it took, where they are known.
    ghost taken: { Self → Option (List ℕ) };

    // Whether a write has failed.
    ghost has_failed: { Self → Bool };

    /// Takes a beginning of the bytes, and answers how many it took.
    fn write(&mut self, bytes: &[u8]) -> Result<usize, WriteFailed>
        ensures bound { IfOk result (λ n. n ≤ length bytes.now) }
        ensures bytes { WriteAppends (taken self.old) (taken self.new) result bytes.now }
        ensures fails { has_failed self.new ≡ (has_failed self.old || write_fails result bytes.now) };

    /// Whether a write has failed.
    fn failed(&self) -> bool
        ensures { result ≡ has_failed self.now };
}

/// A writer as a sink: it means the bytes that the writer is known to have taken (own).
#[derive(Drop)]
pub struct Output<W: io::Write> {
    writer: W,
    has_failed: bool,
}

impl<W: io::Write> Output<W> {
    /// A sink that has not failed.
    pub fn new(writer: W) -> Output<W>
        ensures writer { result.writer ≡ writer }
        ensures failed { result.has_failed ≡ false }
    {
        Output {
            writer,
            has_failed: false,
        }
    }

    /// Makes sure that all that was written has gone out, as far as the writer says so; where it doesn't, the sink has
    /// failed. Nothing more is taken.
    pub fn flush(&mut self) -> Result<(), WriteFailed>
        ensures taken { Keeps (W.contents self.old.writer) (W.contents self.new.writer) }
        ensures failed { self.new.has_failed ≡ (self.old.has_failed || is_err result) }
    {
        match self.writer.flush() {
            Ok(()) => Ok(()),
            Err(_) => {
                self.has_failed = true;
                Err(WriteFailed)
            }
        }
    }

    /// The writer, with what it took.
    pub fn into_inner(self) -> W
        ensures { result ≡ self.writer }
    {
        self.writer
    }
}

impl<W: io::Write> Sink for Output<W> {
    ghost taken = { λ o. W.contents o.writer };

    ghost has_failed = { λ o. o.has_failed };

    fn write(&mut self, bytes: &[u8]) -> Result<usize, WriteFailed> {
        match self.writer.write(bytes) {
            Ok(n) => {
                if n == 0 && !bytes.is_empty() {
                    self.has_failed = true;
                }
                Ok(n)
            }
            Err(_) => {
                self.has_failed = true;
                Err(WriteFailed)
            }
        }
    }

    fn failed(&self) -> bool {
        self.has_failed
    }
}

/// Text goes to the writer, until a write fails.
impl<W: io::Write> fmt::Write for Output<W> {
    ghost write_str_gives = { λ s bs t. Appends (W.contents s.writer) (W.contents t.writer) bs };

    fn write_str(&mut self, text: &str) -> fmt::Result {
        if self.has_failed {
            return Err(fmt::Error);
        }
        match write_all(self, text.as_bytes()) {
            Ok(()) => Ok(()),
            Err(_) => Err(fmt::Error),
        }
    }
}

/// Writes all of the bytes. Where a write fails, the sink took a beginning of them, and it says that it failed;
/// else it took them all. The sink has not failed before (own).
pub fn write_all<S: Sink>(sink: &mut S, bytes: &[u8]) -> Result<(), WriteFailed>
    requires { S.has_failed sink.old ≡ false }
    ensures ok { OnOk result (Appends (S.taken sink.old) (S.taken sink.new) bytes.now) }
    ensures err { OnErr result (AppendsBeginning (S.taken sink.old) (S.taken sink.new) bytes.now) }
    ensures failed { S.has_failed sink.new ≡ is_err result }
{
    let mut rest = bytes;
    while !rest.is_empty() {
        let n = sink.write(rest)?;
        if n == 0 {
            return Err(WriteFailed);
        }
        rest = &rest[n..];
    }
    Ok(())
}
