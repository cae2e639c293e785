// Decisions put together.
ghost use Rattle.std.specs.Prelude.{◌≡◌};
ghost use Rattle.hub_state.specs.Contract.{plainly};

use crate::{Change, Decision};
use hub_answers::Answer;
use rules_routine::Refusal;

// One answer and a change.
pub fn plain(answer: Answer, change: Change) -> Decision
    ensures { result ≡ plainly answer change }
{
    Decision {
        first: None,
        answer,
        back: None,
        change,
    }
}

// A call that is turned down changes nothing.
pub fn refused(refusal: Refusal) -> Decision
    ensures { result ≡ plainly (Answer.Refused refusal) Change.Nothing }
{
    plain(Answer::Refused(refusal), Change::Nothing)
}
