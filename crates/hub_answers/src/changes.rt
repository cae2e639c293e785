// Which answers leave the hub as it was.
ghost use Rattle.std.specs.Prelude.{◌≡◌};
ghost use Rattle.hub_answers.specs.View.{changes_nothing};

use crate::Answer;

// A refusal and a wait do, so that nothing settles after them.
pub fn changes_nothing(answer: Answer) -> bool
    ensures { result ≡ changes_nothing answer }
{
    let Answer::Refused(_) = answer else {
        let Answer::Wait(_, _) = answer else {
            return false;
        };
        return true;
    };
    true
}
