//! A desk at its allowance, and one below it.
use crate::bare::alone::answers;
use crate::listed::{Answer, Call, Look, New, Outcome, Way};
use crate::shapes::shape;
use control_word::Refusal;

const CALLS: [(Call, Answer); 8] = [
    (Call::New(New::Object([0; 4], false, 7), 0), Answer::Done),
    (Call::Come(0, Way::Share, 1), Answer::Done),
    (Call::Come(0, Way::Share, 2), Answer::Not(Refusal::Limit)),
    (Call::Tell(0, Look::UseCount), Answer::Count(2)),
    (
        Call::New(New::Object([0; 4], false, 8), 2),
        Answer::Not(Refusal::Limit),
    ),
    (Call::Release(1), Answer::Left(Outcome::Others)),
    (
        Call::New(New::Object([0; 4], false, 8), 2),
        Answer::Not(Refusal::Full),
    ),
    (Call::Come(0, Way::Share, 1), Answer::Done),
];

#[test]
fn one_block_and_two_handles(rt: HostRuntime) {
    answers(&rt, rt.alloc(), shape(1, 2), &CALLS, 1);
}
