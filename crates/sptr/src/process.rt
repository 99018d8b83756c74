//! The command line that the process was started with, served.

ghost use Rattle.std.specs.Prelude.{◌≡◌, ◌≤◌, List, false};
ghost use Rattle.clap.specs.Words.{Text};
ghost use Rattle.sptr.specs.Serving.{Serves, report};

use crate::serve::{refuse, serve};
use script_stepper::Output;
use script_text::Fault;
use std::alloc::{AllocError, Global};
use std::io::{Read, Write};
use std::sync::Wait;
use std::thread::Threads;
use std::{env, rt};

/// The words that the process was started with.
fn words_of<R: rt::Env + AllocGlobal>(rt: &R) -> Result<Vec<String>, AllocError> {
    let Ok(given) = env::args(rt) else {
        return Err(AllocError);
    };
    let mut words = Vec::new(rt.alloc());
    for word in given {
        words.push(word)?;
    }
    Ok(words)
}

/// Serves the words that the process was started with, as [`serve`] does. Answers the exit status.
pub(crate) fn serve_process<
    R: rt::Env + rt::Files + AllocGlobal + Threads + Wait + Sync,
    I: Read,
    O: Write,
    F: Write,
>(rt: &R, input: &mut I, output: &mut Output<O>, faults: &mut Output<F>) -> u8
    requires { output.old.has_failed ≡ false }
    ensures serves { (words : List Text) × Serves words (I.remaining input.old) result
        (O.contents output.old.writer)
        (O.contents output.new.writer) output.new.has_failed
        (report (F.contents faults.old.writer) faults.old.has_failed
        (F.contents faults.new.writer) faults.new.has_failed) }
    ensures quiet { result ≡ 0 → F.contents faults.new.writer ≡ F.contents faults.old.writer }
    ensures status { result ≤ 3 }
{
    match words_of(rt) {
        Ok(words) => serve(rt, rt.alloc(), words.as_slice(), input, output, faults),
        Err(_) => refuse(Fault::Memory, faults),
    }
}
