//! What handles have that pointers don't: empty ones, which tell of themselves.
use crate::bare::alone::answers;
use crate::listed::{Answer, Call, Look, New, Outcome, Pair, Way};
use crate::shapes::shape;
use control_word::Refusal;

/// Empty handles, and owners of the null pointer.
const EMPTY: [(Call, Answer); 20] = [
    (Call::New(New::Owner, 0), Answer::Done),
    (Call::New(New::Weak, 1), Answer::Done),
    (Call::New(New::Null(4), 2), Answer::Done),
    (Call::Tell(0, Look::UseCount), Answer::Count(0)),
    (Call::Tell(1, Look::UseCount), Answer::Count(0)),
    (Call::Tell(1, Look::Expired), Answer::Is(true)),
    (Call::Tell(2, Look::UseCount), Answer::Count(1)),
    (Call::Tell(2, Look::Place), Answer::At(None)),
    (Call::Tell(2, Look::Read), Answer::Not(Refusal::Null)),
    (Call::Tell(0, Look::Visit), Answer::Not(Refusal::Null)),
    (Call::Tell(2, Look::Visit), Answer::Value(5)),
    (Call::Come(2, Way::FromThis, 3), Answer::Not(Refusal::Null)),
    (Call::TellBoth(0, Pair::OwnerBefore, 2), Answer::Is(true)),
    (Call::TellBoth(2, Pair::OwnerBefore, 1), Answer::Is(false)),
    (Call::TellBoth(1, Pair::OwnerBefore, 2), Answer::Is(true)),
    (Call::TellBoth(0, Pair::OwnerBefore, 1), Answer::Is(false)),
    (Call::Come(1, Way::Lock, 3), Answer::Done),
    (
        Call::Come(1, Way::Upgrade, 3),
        Answer::Not(Refusal::BadWeak),
    ),
    (Call::Release(3), Answer::Left(Outcome::Empty)),
    (Call::Release(2), Answer::Left(Outcome::Ended(5))),
];

#[test]
fn empty_handles_own_nothing(rt: HostRuntime) {
    answers(&rt, rt.alloc(), shape(1, 8), &EMPTY, 1);
}
