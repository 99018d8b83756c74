//! What a pending call owes.
ghost use Rattle.std.specs.Prelude.{◌≡◌};
ghost use Rattle.step_core.specs.Turning.{has_funds_out, is_out};

use step_table::cell_steps::refill::Stage;
use step_threads::pending_call::PendingCall;

/// Whether a load is under way, or funds are brought or are to be given back.
pub(crate) fn has_funds_out(call: PendingCall) -> bool
    ensures { result ≡ has_funds_out call }
{
    match call {
        PendingCall::Brought | PendingCall::Matched { .. } | PendingCall::Returning { .. } => true,
        PendingCall::Refill { stage, .. } => is_out(stage),
        _ => false,
    }
}

/// Whether a refill has a fund that isn't turned yet, or funds that were brought.
fn is_out(stage: Stage) -> bool
    ensures { result ≡ is_out stage }
{
    match stage {
        Stage::Turning | Stage::Refilling | Stage::Failing => true,
        Stage::Checking | Stage::Lacking => false,
    }
}
