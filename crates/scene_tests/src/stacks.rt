//! A stack in one thread.
use crate::calls::listed::{Answer, Call, Seat};
use crate::calls::running::alone;

const LAST_FIRST: [(Call, Answer); 9] = [
    (Call::Push(1), Answer::Done),
    (Call::Push(2), Answer::Done),
    (Call::Push(3), Answer::Done),
    (Call::Pop(Seat::A), Answer::Field(3)),
    (Call::Pop(Seat::A), Answer::Field(2)),
    (Call::Pop(Seat::A), Answer::Field(1)),
    (Call::Pop(Seat::A), Answer::Nobody),
    (Call::Reset(Seat::A), Answer::Done),
    (Call::Vacant, Answer::Count(3)),
];

#[test]
fn the_last_comes_first(rt: HostRuntime) {
    alone(&rt, rt.alloc(), 3, 6, &LAST_FIRST);
}
