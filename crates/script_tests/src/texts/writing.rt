//! Writers that are flushed.
use crate::same::same;
use script_stepper::{Output, Sink, WriteFailed};
use std::io;

/// A writer that tells whether it was flushed. A broken one can't be.
#[derive(Drop)]
struct Flushing {
    flushed: bool,
    broken: bool,
}

impl io::Write for Flushing {
    fn write(&mut self, bytes: &[u8]) -> io::Result<usize> {
        Ok(bytes.len())
    }

    fn flush(&mut self) -> io::Result<()> {
        if self.broken {
            return Err(io::ErrorKind::BrokenPipe.into());
        }
        self.flushed = true;
        Ok(())
    }
}

/// What a flush answers, whether it failed for good, and whether the writer was flushed.
fn flush(broken: bool) -> (Result<(), WriteFailed>, bool, bool) {
    let mut sink = Output::new(Flushing {
        flushed: false,
        broken,
    });
    let told = sink.flush();
    let failed = sink.failed();
    (told, failed, sink.into_inner().flushed)
}

#[test]
fn a_flush_reaches_the_writer(rt: HostRuntime) {
    let wanted = [(Ok(()), false, true), (Err(WriteFailed), true, false)];
    same(&rt, [flush(false), flush(true)], wanted);
}
