//! What refusals are called, and what they hand back.
ghost use Rattle.std.specs.Prelude.{IsOkUnless};

use crate::same::same;
use control_word::refusal::{Refusal, Refused};
use std::alloc::{AllocError, Global};
use std::process::Abort;

// The number of a refusal, and what it is called.
fn message_of(alloc: Global, why: Refusal) -> Result<String, AllocError> {
    let number = why.number();
    format!(in alloc; "{number}: {why}")
}

fn is_shown(rt: &impl Abort, message: Result<String, AllocError>, shown: &str) {
    match message {
        Ok(message) => same(rt, message.as_str(), shown),
        Err(why) => same(rt, Err(why), Ok(shown)),
    }
}

const REFUSALS: [(Refusal, &str); 9] = [
    (Refusal::Memory, "1: memory"),
    (Refusal::Shape, "2: shape"),
    (Refusal::Full, "3: full"),
    (Refusal::Limit, "4: limit"),
    (Refusal::BadWeak, "5: bad weak"),
    (Refusal::Null, "6: null"),
    (Refusal::Outside, "7: outside"),
    (Refusal::NotEnabled, "8: not enabled"),
    (Refusal::NotSole, "9: not sole"),
];

#[test]
fn refusals_have_numbers_and_words(rt: HostRuntime) {
    for (why, shown) in &REFUSALS {
        is_shown(&rt, message_of(rt.alloc(), *why), *shown);
    }
}

#[test]
fn a_refusal_hands_back(rt: HostRuntime) {
    let refused = Refused {
        why: Refusal::Full,
        back: 7u64,
    };
    let again = Refused {
        why: Refusal::Full,
        back: 7,
    };
    let is_same = refused == again;
    let Refused { why, back } = refused;
    same(&rt, (is_same, why, back), (true, Refusal::Full, 7));
}

fn grown(alloc: Global) -> Result<Vec<u8>, Refusal>
    ensures { IsOkUnless result Refusal.Memory }
{
    let mut bytes = Vec::with_capacity(alloc, 1)?;
    bytes.push(7)?;
    bytes.push(8)?;
    Ok(bytes)
}

/// Must be spent.
struct Token(u8);

#[test]
fn a_refusal_hands_back_what_must_be_spent(rt: HostRuntime) {
    let refused = Refused {
        why: Refusal::Limit,
        back: Token(9),
    };
    let Refused {
        why,
        back: Token(number),
    } = refused;
    same(&rt, (why, number), (Refusal::Limit, 9));
}

#[test]
fn a_growth_is_refused_for_memory_alone(rt: HostRuntime) {
    same(&rt, Refusal::from(AllocError), Refusal::Memory);
    match grown(rt.alloc()) {
        Ok(bytes) => same(&rt, bytes.as_slice(), [7, 8].as_slice()),
        Err(why) => same(&rt, Err(why), Ok(())),
    }
}
