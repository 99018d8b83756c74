//! Accesses whose memory is refused and which are sought once more. `tests/refuse_allocations` runs this with each
//! allocation refused in turn.
use crate::calls::kits::opened_again;
use crate::calls::listed::{Answer, Call, Seat};
use crate::calls::running::with_kit;
use control_word::Refusal;
use std::test::Fail;

/// A node goes on the stack and comes out, a root gets a child and leaves, and a subject is told of.
const CALLS: [(Call, Answer); 13] = [
    (Call::Push(5), Answer::Done),
    (Call::Pop(Seat::A), Answer::Field(5)),
    (Call::Reset(Seat::A), Answer::Done),
    (Call::Make(Seat::A, 1), Answer::Done),
    (Call::AddChild(Seat::A, 2, Seat::B), Answer::Done),
    (Call::Reset(Seat::B), Answer::Done),
    (Call::Reset(Seat::A), Answer::Done),
    (Call::Vacant, Answer::Count(2)),
    (Call::Make(Seat::A, 6), Answer::Done),
    (Call::Attach(Seat::A), Answer::Done),
    (Call::Each, Answer::Told(1, 6, 6)),
    (Call::Reset(Seat::A), Answer::Done),
    (Call::Vacant, Answer::Count(0)),
];

#[test]
fn a_refused_access_is_sought_again(rt: HostRuntime) -> Result<(), Fail> {
    match opened_again(rt.alloc(), 2, 8) {
        Ok((domain, desk)) => {
            if with_kit(&rt, rt.alloc(), domain, desk, &CALLS) {
                Ok(())
            } else {
                Err(Refusal::Memory.into())
            }
        }
        Err(why) => Err(why.into()),
    }
}
