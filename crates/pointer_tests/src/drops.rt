//! Pointers that let go by themselves, wherever they lie.

use crate::players::{answers, answers_then};
use pointer_calls::Answer::{Done, Number};
use pointer_calls::New::Object;
use pointer_calls::Step::{Chain, Come, Drop, Ends, EndsCount, Make, Store};
use pointer_calls::Way::Share;
use pointer_calls::{Cell, Row};

/// A tree of four: 1 owns 2 as its first child and 4 as its next; 2 owns 3 as its next. All four lie in slots too, 1 in
/// slot 0.
const TREE: [Row; 10] = [
    (Make(Object, 1, 0), Done),
    (Make(Object, 2, 1), Done),
    (Make(Object, 3, 2), Done),
    (Make(Object, 4, 3), Done),
    (Come(2, Share, 4), Done),
    (Store(4, Cell::Next(1)), Done),
    (Come(1, Share, 4), Done),
    (Store(4, Cell::First(0)), Done),
    (Come(3, Share, 4), Done),
    (Store(4, Cell::Next(0)), Done),
];

/// In which order the pointers to a tree let go, and which objects end by each, as digits in the order of their ends.
/// A member's value ends before that of its object, first before next.
const ORDERS: [[Row; 8]; 6] = [
    [
        (Drop(0), Done),
        (Ends, Number(1)),
        (Drop(1), Done),
        (Ends, Number(2)),
        (Drop(2), Done),
        (Ends, Number(3)),
        (Drop(3), Done),
        (Ends, Number(4)),
    ],
    [
        (Drop(3), Done),
        (Ends, Number(0)),
        (Drop(2), Done),
        (Ends, Number(0)),
        (Drop(1), Done),
        (Ends, Number(0)),
        (Drop(0), Done),
        (Ends, Number(3_241)),
    ],
    [
        (Drop(1), Done),
        (Ends, Number(0)),
        (Drop(0), Done),
        (Ends, Number(21)),
        (Drop(3), Done),
        (Ends, Number(4)),
        (Drop(2), Done),
        (Ends, Number(3)),
    ],
    [
        (Drop(2), Done),
        (Ends, Number(0)),
        (Drop(3), Done),
        (Ends, Number(0)),
        (Drop(0), Done),
        (Ends, Number(41)),
        (Drop(1), Done),
        (Ends, Number(32)),
    ],
    [
        (Drop(1), Done),
        (Ends, Number(0)),
        (Drop(2), Done),
        (Ends, Number(0)),
        (Drop(0), Done),
        (Ends, Number(321)),
        (Drop(3), Done),
        (Ends, Number(4)),
    ],
    [
        (Drop(3), Done),
        (Ends, Number(0)),
        (Drop(0), Done),
        (Ends, Number(41)),
        (Drop(2), Done),
        (Ends, Number(0)),
        (Drop(1), Done),
        (Ends, Number(32)),
    ],
];

#[test]
fn a_tree_ends_from_its_leaves(rt: HostRuntime) {
    for order in &ORDERS {
        answers_then(&rt, rt.alloc(), &TREE, order);
    }
}

/// All orders of four slots.
const ALL_ORDERS: [[usize; 4]; 24] = [
    [0, 1, 2, 3],
    [0, 1, 3, 2],
    [0, 2, 1, 3],
    [0, 2, 3, 1],
    [0, 3, 1, 2],
    [0, 3, 2, 1],
    [1, 0, 2, 3],
    [1, 0, 3, 2],
    [1, 2, 0, 3],
    [1, 2, 3, 0],
    [1, 3, 0, 2],
    [1, 3, 2, 0],
    [2, 0, 1, 3],
    [2, 0, 3, 1],
    [2, 1, 0, 3],
    [2, 1, 3, 0],
    [2, 3, 0, 1],
    [2, 3, 1, 0],
    [3, 0, 1, 2],
    [3, 0, 2, 1],
    [3, 1, 0, 2],
    [3, 1, 2, 0],
    [3, 2, 0, 1],
    [3, 2, 1, 0],
];

/// The pointers in these slots let go, and all four objects have ended then.
fn drops(slots: &[usize; 4]) -> [Row; 5] {
    let [a, b, c, d] = *slots;
    [
        (Drop(a), Done),
        (Drop(b), Done),
        (Drop(c), Done),
        (Drop(d), Done),
        (EndsCount, Number(4)),
    ]
}

#[test]
fn a_tree_ends_in_each_order(rt: HostRuntime) {
    for slots in &ALL_ORDERS {
        answers_then(&rt, rt.alloc(), &TREE, &drops(slots));
    }
}

/// A chain of all blocks.
const CHAIN: [Row; 4] = [
    (Chain(64, 0), Done),
    (EndsCount, Number(0)),
    (Drop(0), Done),
    (EndsCount, Number(64)),
];

#[test]
fn a_chain_ends_by_one_drop(rt: HostRuntime) {
    answers(&rt, rt.alloc(), &CHAIN);
}
