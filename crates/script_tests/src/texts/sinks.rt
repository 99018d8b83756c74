//! What goes to a sink: texts and the lines of refusals, and what comes of a broken one.
use crate::same::same;
use script_stepper::{
    Output, Sink, WriteFailed, write_all, write_fault, write_faulty_line, write_text,
};
use script_text::{Cause, Fault};
use std::alloc::Global;
use std::io;
use std::test::Fail;

/// A writer that takes one byte at a time, and so many of them.
#[derive(Drop)]
struct Narrow {
    taken: Vec<u8>,
    left: usize,
}

impl Narrow {
    fn new(alloc: Global, left: usize) -> Self {
        Narrow {
            taken: Vec::new(alloc),
            left,
        }
    }
}

impl io::Write for Narrow {
    fn write(&mut self, bytes: &[u8]) -> io::Result<usize> {
        if self.left == 0 || bytes.is_empty() {
            return Ok(0);
        }
        self.left -= 1;
        match self.taken.push(bytes[0]) {
            Ok(()) => Ok(1),
            Err(_) => Err(io::ErrorKind::OutOfMemory.into()),
        }
    }

    fn flush(&mut self) -> io::Result<()> {
        Ok(())
    }
}

/// What is written whole to a sink that takes so many bytes.
fn whole(alloc: Global, left: usize) -> (Result<(), WriteFailed>, Vec<u8>) {
    let mut sink = Output::new(Narrow::new(alloc, left));
    let told = write_all(&mut sink, b"abc");
    (told, sink.into_inner().taken)
}

/// A sink that takes all bytes of three has them, and one that takes two fails behind these.
#[test]
fn all_bytes_are_written_or_a_beginning(rt: HostRuntime) {
    let (told, taken) = whole(rt.alloc(), 3);
    same(&rt, (told, taken.as_slice()), (Ok(()), b"abc".as_slice()));
    let (told, taken) = whole(rt.alloc(), 2);
    same(
        &rt,
        (told, taken.as_slice()),
        (Err(WriteFailed), b"ab".as_slice()),
    );
}

/// The same of a text.
fn text(alloc: Global, left: usize) -> (Option<Fault>, Vec<u8>) {
    let mut sink = Output::new(Narrow::new(alloc, left));
    let told = write_text(b"abc", &mut sink).err();
    (told, sink.into_inner().taken)
}

#[test]
fn a_text_is_written_or_refused(rt: HostRuntime) {
    let (told, taken) = text(rt.alloc(), 3);
    same(&rt, (told, taken.as_slice()), (None, b"abc".as_slice()));
    let (told, taken) = text(rt.alloc(), 1);
    same(
        &rt,
        (told, taken.as_slice()),
        (Some(Fault::Output), b"a".as_slice()),
    );
}

const FAULTS: [Fault; 5] = [
    Fault::Memory,
    Fault::Syntax {
        line: 12,
        cause: Cause::UnfinishedLine,
    },
    Fault::BadTurn { position: 3 },
    Fault::Output,
    Fault::Input,
];

const LINES: &[u8] =
    b"refused 1: memory\nrefused 10: line 12: unfinished line\nrefused 11: turn 3\n\
refused 12: output\nrefused 13: input\n";

/// The lines of all refusals, and that of a faulty line of another text. A sink that failed takes nothing more.
#[test]
fn each_refusal_has_its_line(rt: HostRuntime) -> Result<(), Fail> {
    let mut sink = Output::new(Narrow::new(rt.alloc(), 200));
    for fault in FAULTS {
        same(&rt, write_fault(fault, &mut sink), Ok(()));
    }
    same(&rt, sink.into_inner().taken.as_slice(), LINES);
    let mut sink = Output::new(Narrow::new(rt.alloc(), 30));
    same(
        &rt,
        write_faulty_line(7, "no such object", &mut sink),
        Err(WriteFailed),
    );
    same(&rt, write_fault(Fault::Memory, &mut sink), Err(WriteFailed));
    let taken = sink.into_inner().taken;
    same(
        &rt,
        taken.as_slice(),
        b"refused 10: line 7: no such ob".as_slice(),
    );
    Ok(())
}
