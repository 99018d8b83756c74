//! A scene tree in one thread.
use crate::calls::listed::{Answer, Call, Seat};
use crate::calls::running::alone;
use control_word::Refusal;

/// A root 1 gets the children 2 and 3, and 3 gets 4.
const ORDER: [(Call, Answer); 7] = [
    (Call::Make(Seat::A, 1), Answer::Done),
    (Call::AddChild(Seat::A, 2, Seat::B), Answer::Done),
    (Call::AddChild(Seat::A, 3, Seat::B), Answer::Done),
    (Call::AddChild(Seat::B, 4, Seat::B), Answer::Done),
    (Call::Reset(Seat::B), Answer::Done),
    (Call::Teardown(Seat::A), Answer::Values(1342)),
    (Call::Vacant, Answer::Count(4)),
];

#[test]
fn values_come_in_the_order_of_the_ends(rt: HostRuntime) {
    alone(&rt, rt.alloc(), 4, 16, &ORDER);
}

/// A root 1 gets the children 2 and 3, and 2 goes out from behind 3.
const PARTED: [(Call, Answer); 8] = [
    (Call::Make(Seat::A, 1), Answer::Done),
    (Call::AddChild(Seat::A, 2, Seat::B), Answer::Done),
    (Call::AddChild(Seat::A, 3, Seat::C), Answer::Done),
    (Call::Detach(Seat::B), Answer::Done),
    (Call::Reset(Seat::C), Answer::Done),
    (Call::Teardown(Seat::A), Answer::Values(13)),
    (Call::Reset(Seat::B), Answer::Done),
    (Call::Vacant, Answer::Count(3)),
];

#[test]
fn a_node_that_was_detached_is_left_out(rt: HostRuntime) {
    alone(&rt, rt.alloc(), 3, 16, &PARTED);
}

/// A root 1 has the child 2, whose parent is told until the root ends. The root has none.
const PARENTS: [(Call, Answer); 9] = [
    (Call::Make(Seat::A, 1), Answer::Done),
    (Call::AddChild(Seat::A, 2, Seat::B), Answer::Done),
    (Call::Parent(Seat::B), Answer::Field(1)),
    (Call::Parent(Seat::A), Answer::Nobody),
    (Call::Parent(Seat::C), Answer::Not(Refusal::Null)),
    (Call::Reset(Seat::A), Answer::Done),
    (Call::Parent(Seat::B), Answer::Nobody),
    (Call::Reset(Seat::B), Answer::Done),
    (Call::Vacant, Answer::Count(3)),
];

#[test]
fn a_parent_is_told_while_it_has_owners(rt: HostRuntime) {
    alone(&rt, rt.alloc(), 3, 16, &PARENTS);
}
