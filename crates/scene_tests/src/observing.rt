//! Observers that are attached and told of, or refused.
use crate::calls::listed::{Answer, Call, Seat};
use crate::calls::running::alone;
use control_word::Refusal;

/// A subject in hand leaves 6 handles free. Two blocks are enough for it and one observer.
const ATTACHED: [(Call, Answer); 6] = [
    (Call::Make(Seat::A, 10), Answer::Done),
    (Call::Attach(Seat::A), Answer::Done),
    (Call::Attach(Seat::A), Answer::Back(Refusal::Full, 9)),
    (Call::Each, Answer::Told(1, 10, 10)),
    (Call::Reset(Seat::A), Answer::Done),
    (Call::Each, Answer::Told(0, 0, 0)),
];

/// A subject in hand leaves 5.
const NEAR: [(Call, Answer); 7] = [
    (Call::Make(Seat::A, 10), Answer::Done),
    (Call::Attach(Seat::A), Answer::Back(Refusal::Limit, 9)),
    (Call::Attach(Seat::A), Answer::Back(Refusal::Limit, 9)),
    (Call::Each, Answer::Told(0, 0, 0)),
    (Call::Forget, Answer::Done),
    (Call::Each, Answer::Not(Refusal::Limit)),
    (Call::Reset(Seat::A), Answer::Done),
];

#[test]
fn six_handles_must_be_free_to_attach_and_to_tell(rt: HostRuntime) {
    alone(&rt, rt.alloc(), 2, 7, &ATTACHED);
    alone(&rt, rt.alloc(), 2, 6, &NEAR);
}

/// One of two subjects ends, and its observer goes out.
const PRUNED: [(Call, Answer); 10] = [
    (Call::Make(Seat::A, 10), Answer::Done),
    (Call::Make(Seat::B, 20), Answer::Done),
    (Call::Attach(Seat::A), Answer::Done),
    (Call::Attach(Seat::B), Answer::Done),
    (Call::Prune, Answer::Count(0)),
    (Call::Reset(Seat::A), Answer::Done),
    (Call::Prune, Answer::Count(1)),
    (Call::Vacant, Answer::Count(2)),
    (Call::Each, Answer::Told(1, 20, 20)),
    (Call::Reset(Seat::B), Answer::Done),
];

#[test]
fn an_observer_goes_when_its_subject_has_ended(rt: HostRuntime) {
    alone(&rt, rt.alloc(), 4, 16, &PRUNED);
}
