//! What a step adds to a world's totals.
ghost use Rattle.std.specs.Prelude.{◌≡◌};
ghost use Rattle.step_core.specs.Told.{step_ends, step_makes};

use step_threads::pending_call::PendingCall;
use step_threads::said::Stepped;

/// How many objects a step made, of a thread that had begun this.
pub(crate) fn makes(pending_call: PendingCall, stepped: Stepped) -> u32
    ensures { result ≡ step_makes pending_call stepped }
{
    match (stepped, pending_call) {
        (Stepped::Event(_), PendingCall::Making { index: 5, .. }) => 1,
        _ => 0,
    }
}

/// Of how many objects the last owner left by a step.
pub(crate) fn ends(stepped: Stepped) -> u32
    ensures { result ≡ step_ends stepped }
{
    match stepped {
        Stepped::Event(said) => u32::from(said.ended.is_some()),
        _ => 0,
    }
}
