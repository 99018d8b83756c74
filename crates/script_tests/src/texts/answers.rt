//! From the bytes of a script or a graph to the text of an answer.

use crate::same::same;
use leak_report::left_text;
use owner_text::{Cause, Fault as GraphFault, owners_text};
use script_picture::{Order, Part, draw_text};
use script_runner::run_text;
use script_stepper::Output;
use script_text::Fault;
use std::alloc::Global;
use std::str;
use std::sync::Wait;
use std::test::Fail;
use std::thread::Threads;

/// Two threads that share nothing.
const THREADS: &[u8] = b"make a 1\ncount a\nthread\nmake b 2\ncount b\n";

/// What a run on workers tells: all lines of the first thread, then those of the second, and the totals.
const RAN: &[u8] =
    b"1.2 count 1\n1.end end 1 0 0 0\n2.2 count 1\n2.end end 2 0 0 0\nmade 2 ended 2 left 0\n";

/// What a run of a script on workers writes.
fn ran<R: Threads + Wait + Sync>(rt: &R, alloc: Global, script: &[u8]) -> Result<Vec<u8>, Fault> {
    let mut taken = Vec::new(alloc);
    let mut sink = Output::new(&mut taken);
    run_text(rt, alloc, script, &mut sink)?;
    Ok(taken)
}

#[test]
fn a_run_on_workers_is_told(rt: HostRuntime) -> Result<(), Fail> {
    same(&rt, ran(&rt, rt.alloc(), THREADS)?.as_slice(), RAN);
    let told = ran(&rt, rt.alloc(), b"mkae a\n").err();
    let cause = script_text::Cause::UnknownStatement;
    same(&rt, told, Some(Fault::Syntax { line: 1, cause }));
    Ok(())
}

/// A parent and a child that own each other.
const CIRCLE: &[u8] =
    b"make parent 1\nmake child 2\nstore parent.first child\nstore child.next parent\n";

const LEFT: &[u8] = b"block 1 owners 1 weaks 0 leaked\n  owner in 2.next\n\
block 2 owners 1 weaks 0 leaked\n  owner in 1.first\n\
cycle 1.first 2.next\ncut 1.first\ncut 2.next\nmade 2 ended 0 left 2\n";

const DRAWN: &[u8] = b"digraph left {\nnode [style=filled, fillcolor=white];\n\
b1 [label=\"block 1\\n1 0 0 0\", fillcolor=orange];\n\
b2 [label=\"block 2\\n2 0 0 0\", fillcolor=orange];\n\
b1 -> b2 [label=\" first\", style=bold, color=red];\n\
b2 -> b1 [label=\" next\", style=bold, color=red];\n}\n";

/// Whether something is leaked at a script's end, and what is told of that, or drawn.
fn left(alloc: Global, script: &[u8], draws: bool) -> Result<(bool, Vec<u8>), Fault> {
    let mut taken = Vec::new(alloc);
    let mut sink = Output::new(&mut taken);
    let leaks = left_text(alloc, script, b"", draws, &mut sink)?;
    Ok((leaks, taken))
}

#[test]
fn what_is_left_is_told_or_drawn(rt: HostRuntime) -> Result<(), Fail> {
    let told = left(rt.alloc(), CIRCLE, false)?;
    same(&rt, (told.0, told.1.as_slice()), (true, LEFT));
    let drawn = left(rt.alloc(), CIRCLE, true)?;
    same(&rt, (drawn.0, drawn.1.as_slice()), (true, DRAWN));
    let none = left(rt.alloc(), THREADS, false)?;
    same(
        &rt,
        (none.0, none.1.as_slice()),
        (false, b"made 2 ended 2 left 0\n".as_slice()),
    );
    Ok(())
}

const GRAPH: &[u8] =
    b"object 1 Bus\nobject 2 Widget\nowner 2 1 Widget::bus\nowner 1 2 Bus::handlers\n\
weak 1 2 Bus::last\n";

const OWNERS: &str = "object 1 leaked Bus\n  owner 2 Widget::bus\n\
object 2 leaked Widget\n  owner 1 Bus::handlers\n  weak 1 Bus::last\n\
knot 1 2\n  tie 1 2 Bus::handlers\n  tie 2 1 Widget::bus\n  cut 1 2 Bus::handlers\n  cut 2 1 Widget::bus\n\
\x20 weaken Bus::handlers\n  weaken Widget::bus\nobjects 2 handles 3 leaked 2\n";

#[test]
fn a_graph_is_told(rt: HostRuntime) -> Result<(), Fail> {
    match owners_text(rt.alloc(), GRAPH, false) {
        Ok(told) => same(&rt, (told.text.as_str(), told.leaks), (OWNERS, true)),
        Err(why) => same(&rt, Some(why), None),
    }
    let faulty = owners_text(rt.alloc(), b"object 1 A\nowner 1 2 a\n", true).err();
    let cause = Cause::NoSuchObject;
    same(&rt, faulty, Some(GraphFault::Syntax { line: 2, cause }));
    Ok(())
}

/// What is wrong with a line of a graph, in the order in which it is looked for.
const CAUSES: [(Cause, &str); 9] = [
    (Cause::UnfinishedLine, "unfinished line"),
    (Cause::BadByte, "bad byte"),
    (Cause::UnknownStatement, "unknown statement"),
    (Cause::WrongNumberOfWords, "wrong number of words"),
    (Cause::BadNumber, "bad number"),
    (Cause::BadLabel, "bad label"),
    (Cause::ObjectNamedTwice, "object named twice"),
    (Cause::NoSuchObject, "no such object"),
    (Cause::TooManyHandles, "too many handles"),
];

#[test]
fn each_cause_has_its_words(rt: HostRuntime) {
    for (cause, words) in CAUSES {
        same(&rt, cause.words(), words);
    }
}

/// Whether no picture is drawn of a script's run, and what is written.
fn drawn(alloc: Global, script: &[u8], part: Part) -> Result<(bool, Vec<u8>), Fault> {
    let order = Order {
        script,
        turns: b"",
        is_fine: false,
        is_page: false,
        part,
    };
    let mut taken = Vec::new(alloc);
    let mut sink = Output::new(&mut taken);
    let none = draw_text(alloc, order, &mut sink)?;
    Ok((none, taken))
}

/// What has to stand on the picture of the first two acts of a run, in this order, and no third one.
const PARTS: [&str; 8] = [
    "<svg xmlns=\"http://www.w3.org/2000/svg\"",
    ">1</text>",
    ">1.1 make a 1</text>",
    ">1 w0</text>",
    ">2</text>",
    ">1.2 copy b a</text>",
    ">2 w0</text>",
    "</svg>\n",
];

/// Whether a text has these parts, in this order, and nothing behind them.
fn has_parts(text: &str, parts: &[&str]) -> bool {
    let mut rest = text;
    for part in parts {
        match rest.split_once(*part) {
            Some((_, after)) => rest = after,
            None => return false,
        }
    }
    rest.is_empty()
}

/// The acts of a part of a run are drawn, with the counts after each; and none where the part begins behind the last.
#[test]
fn a_part_of_a_run_is_drawn(rt: HostRuntime) -> Result<(), Fail> {
    let script = b"make a 1\ncopy b a\nreset a\n";
    let (none, text) = drawn(rt.alloc(), script, Part { first: 1, last: 2 })?;
    let text = str::from_utf8(text.as_slice()).unwrap_or("");
    let shown = (
        has_parts(text, &PARTS),
        text.contains(">1.3 reset a</text>"),
    );
    same(&rt, (none, shown), (false, (true, false)));
    let (none, text) = drawn(rt.alloc(), script, Part::whole())?;
    let text = str::from_utf8(text.as_slice()).unwrap_or("");
    same(
        &rt,
        (none, text.contains(">1.3 reset a</text>")),
        (false, true),
    );
    let (none, text) = drawn(rt.alloc(), script, Part { first: 9, last: 9 })?;
    same(&rt, (none, text.len()), (true, 0));
    Ok(())
}
