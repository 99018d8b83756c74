//! What an act counts for.
ghost use Rattle.std.specs.Prelude.{◌≡◌, ◌≤◌};
ghost use Rattle.script_runner.specs.Totals.{objects_asked as asks_for, refuses as says_full};

use control_word::Refusal;
use step_core::Answer;
use step_threads::programs::act::Act;

/// Whether the act asks for an object, as a number.
pub(crate) fn asks(act: Act) -> u32
    ensures is { result ≡ asks_for act }
    ensures few { result ≤ 1 }
{
    match act {
        Act::Make { .. } => 1,
        _ => 0,
    }
}

/// Whether the answer says that there was no block, as a number.
pub(crate) fn refuses(answer: Option<Answer>) -> u32
    ensures is { result ≡ says_full answer }
    ensures few { result ≤ 1 }
{
    match answer {
        Some(answer) => match answer {
            Answer::Refused(why) => u32::from(why == Refusal::Full),
            _ => 0,
        },
        None => 0,
    }
}
