// A decision carried out, as one outcome: what it puts back, the change, and settling.
ghost use Rattle.std.specs.Prelude.{◌≡◌};
ghost use Rattle.rules_routine.specs.Routine.{commands_of};
ghost use Rattle.hub_answers.specs.View.{put_backs_of};
ghost use Rattle.hub_state.specs.Contract.{result_by, put_backs_of_decision};
ghost use Rattle.hub.specs.Valid.{Valid};
ghost use Rattle.hub.specs.Contract.{Gives};
ghost use Rattle.hub.specs.Carrying.{LeavingOk, Carries};
ghost use Rattle.hub.specs.Decided.{DecidedOn, Decided};

use crate::{Hub, Outcome};
use hub_answers::PutBacks;
use hub_state::{Change, Decision, ValidState};
use rules_routine::Routine;

// What a decision puts back. What an abort does is read off the rows as they are.
pub fn put_backs_of(state: ValidState, decision: Decision) -> PutBacks
    requires { LeavingOk state.rows decision.change }
    ensures { put_backs_of result ≡ put_backs_of_decision state.rows decision }
{
    match decision.change {
        Change::Nothing | Change::Stage(_) | Change::Commit(_) | Change::Join(_) =>
            PutBacks::at_most_one(decision.back),
        Change::Abort(at) => hub_abort::put_backs_of(state, at, None),
        Change::Fail(device, slot) => hub_events::put_backs_if(state, slot, device, Some(device)),
        Change::Restart(device, _, slot) => hub_events::put_backs_if(state, slot, device, None),
    }
}

// The hub after a change that was decided on it. It is not settled yet.
fn changed(hub: Hub, change: Change, routine: Routine) -> Hub
    requires { (Valid hub) × (Decided hub (commands_of routine) change) }
    ensures { Carries hub (commands_of routine) change result }
{
    match change {
        Change::Nothing => hub,
        Change::Stage(staged) => crate::with_stage(hub, staged),
        Change::Commit(at) => crate::with_commit(hub, at),
        Change::Join(after) => crate::with_routine(hub, after, routine),
        Change::Abort(at) => crate::with_abort(hub, at),
        Change::Fail(device, slot) => crate::with_failure(hub, device, slot),
        Change::Restart(device, setting, slot) => crate::with_restart(hub, device, setting, slot),
    }
}

// What is put back, the change, then settling. "After each call, while the first in the sequence is committed"; but the answer decides
// first: a refusal and a wait change nothing.
pub fn carried_out(hub: Hub, decision: Decision, routine: Routine) -> Outcome
    requires { (Valid hub) × (DecidedOn hub (commands_of routine) decision) }
    ensures { Gives hub result (result_by hub.state.rows (commands_of routine) decision) }
{
    let put_backs = crate::put_backs(hub, decision);
    let mut next = changed(hub, decision.change, routine);
    if !hub_answers::changes_nothing(decision.answer) && crate::settles(next) {
        next = crate::settle(next);
    }
    Outcome {
        hub: next,
        first: decision.first,
        answer: decision.answer,
        put_backs,
    }
}
