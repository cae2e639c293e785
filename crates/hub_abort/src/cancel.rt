// "Cancel aborts R": document 01.
ghost use Rattle.std.specs.Prelude.{[]};
ghost use Rattle.rules.specs.Cancel.{cancel_of};
ghost use Rattle.hub_state.specs.View.{state_of};
ghost use Rattle.hub_state.specs.Contract.{Decides};

use hub_answers::Answer;
use hub_state::{Change, Decision, ValidState, decisions};
use rules_routine::Refusal;

// What a cancel comes to. "Cancel: 10."
pub fn decide(state: ValidState, id: u32) -> Decision
    ensures { Decides state.rows [] result (cancel_of (state_of state.rows) id) }
{
    let Some(at) = hub_search::running(state, id) else {
        return decisions::refused(Refusal::NotRunning);
    };
    decisions::plain(Answer::Aborted(id), Change::Abort(at))
}
