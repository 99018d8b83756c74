//! What comes of an act.

ghost use Rattle.std.specs.Prelude.{◌≡◌, false, None, Some};
ghost use Rattle.step_threads.specs.declared.said.Answer.TheVariants as says;

use control_word::Refusal;
use step_core::{Answer, Ended};

/// What came of an act: whether something is in hand then, what the act answers, and what it tells of an object that
/// is to end.
#[derive(Drop)]
pub(crate) struct ActResult {
    pub taken: bool,
    pub answer: Option<Answer>,
    pub ended: Option<Ended>,
}

/// What is said of an act that is refused.
pub(crate) fn refused(why: Refusal) -> ActResult
    ensures { result ≡ record { taken = false; answer = Some (says.Refused why); ended = None } }
{
    ActResult {
        taken: false,
        answer: Some(Answer::Refused(why)),
        ended: None,
    }
}
