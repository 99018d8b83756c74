//! Lists of calls, each of which answers what stands beside it; after a list all blocks are vacant.

use pointer_calls::{BLOCKS, Lists, Row, played};
use std::alloc::Global;
use std::fmt::Debug;
use std::process::Abort;
use std::sync::Wait;
use std::thread::Threads;

/// What was found is what was wanted, or the test fails with both.
pub(crate) fn same<T: PartialEq + Debug + Drop>(rt: &impl Abort, found: T, wanted: T) {
    assert_eq!(rt; found, wanted);
}

fn play<R: Abort + Threads + Wait + Sync>(rt: &R, alloc: Global, lists: Lists<'_>) {
    same(rt, played(rt, alloc, lists), Ok((None, BLOCKS)));
}

/// Each call of the list answers what stands beside it.
pub(crate) fn answers<R: Abort + Threads + Wait + Sync>(rt: &R, alloc: Global, rows: &[Row]) {
    answers_within(rt, alloc, rows, &[], &[]);
}

/// The same of one list, which is made 40 times.
pub(crate) fn answers_often<R: Abort + Threads + Wait + Sync>(rt: &R, alloc: Global, rows: &[Row]) {
    let lists = Lists {
        before: rows,
        within: &[],
        after: &[],
        times: 40,
    };
    play(rt, alloc, lists);
}

/// The same of two lists.
pub(crate) fn answers_then<R: Abort + Threads + Wait + Sync>(
    rt: &R,
    alloc: Global,
    before: &[Row],
    after: &[Row],
) {
    answers_within(rt, alloc, before, &[], after);
}

/// The same, where the second list's calls are made within a visit.
pub(crate) fn answers_within<R: Abort + Threads + Wait + Sync>(
    rt: &R,
    alloc: Global,
    before: &[Row],
    within: &[Row],
    after: &[Row],
) {
    let lists = Lists {
        before,
        within,
        after,
        times: 1,
    };
    play(rt, alloc, lists);
}
