// Document 01, "Report on R". Refusals: 10, 12, 13.
#![tactic(auto)]

ghost use Rattle.std.specs.Prelude.{◌≡◌, [], if◌then◌else◌};
ghost use Rattle.rules.specs.Progress.{is_must};
ghost use Rattle.rules.specs.Settle.{settling};
ghost use Rattle.rules.specs.Abort.{abort};
ghost use Rattle.rules.specs.Report.{back_if_changed, skip_report, report_of};
ghost use Rattle.hub_sequence.specs.Links.{Stands};
ghost use Rattle.hub_answers.specs.View.{one_of};
ghost use Rattle.hub_state.specs.View.{member_at, state_of, there};
ghost use Rattle.hub_state.specs.Unanswered.{command_at, NextInFlight};
ghost use Rattle.hub_state.specs.Contract.{Decides};
ghost use Rattle.hub_report.specs.Contract.{answered_by, flight_at};

use hub_answers::{Answer, PutBack};
use hub_state::{
    Change, DONE, Decision, SKIPPED, Staged, Unanswered, ValidState, decisions, readers,
};
use rules_routine::Refusal;
use rules_routine::reports::{CODE_DONE, CODE_FAILED};
use rules_routine::tags::MUST;

// The change: the command in flight is answered. No device is begun by that.
fn answered(at: usize, stage: u8, id: u32) -> Change
    ensures { result ≡ answered_by at stage id }
{
    let change = Staged {
        at,
        stage,
        due_then: 0,
        begins: false,
        device: 0,
        id,
    };
    Change::Stage(change)
}

// "its device is then sent its due setting if that is another than when the command was sent"
fn back_if_changed(device: u8, due: i16, before: i16) -> Option<PutBack>
    ensures { one_of result ≡ back_if_changed device due before }
{
    if due == before {
        return None;
    }
    Some(PutBack {
        device,
        setting: due,
    })
}

// "a best-effort is skipped". No due setting changes by that: the command was not done.
fn skip(state: ValidState, at: usize, k: usize, id: u32) -> Decision
    requires { (Stands state.rows.links at) × (NextInFlight state.rows at k) × (id ≡ (member_at state.rows at).id) }
    ensures { Decides state.rows [] result
        (settling (skip_report (state_of state.rows) (there state.rows at) (flight_at state.rows at k))) }
{
    let device = state.rows.device;
    let wanted = device[k];
    let d = wanted as usize;
    let dues = state.rows.due_then;
    let before = dues[at];
    let table = hub_due::due_settings(state);
    let due = table[d];
    let back = back_if_changed(wanted, due, before);
    let change = answered(at, SKIPPED, id);
    Decision {
        first: None,
        answer: Answer::Skipped(id),
        back,
        change,
    }
}

// "Code 1, failed: a must aborts R, a best-effort is skipped"
fn failed(state: ValidState, at: usize, k: usize, id: u32) -> Decision
    requires { (Stands state.rows.links at) × (NextInFlight state.rows at k) × (id ≡ (member_at state.rows at).id) }
    ensures { Decides state.rows [] result
        (if is_must (command_at state.rows k) then settling (abort (state_of state.rows) (there state.rows at))
        else settling (skip_report (state_of state.rows) (there state.rows at) (flight_at state.rows at k))) }
{
    let tags = state.rows.tag;
    if tags[k] == MUST {
        return decisions::plain(Answer::Aborted(id), Change::Abort(at));
    }
    skip(state, at, k, id)
}

// What a report comes to. "Report: 10, 12, 13."
pub fn decide(state: ValidState, id: u32, code: u8) -> Decision
    ensures { Decides state.rows [] result (report_of (state_of state.rows) id code) }
{
    let Some(at) = hub_search::running(state, id) else {
        return decisions::refused(Refusal::NotRunning);
    };
    let stage = state.rows.stage;
    let open = readers::unanswered_at(state, &stage, at);
    let Unanswered::InFlight(k) = open else {
        return decisions::refused(Refusal::NothingInFlight);
    };
    if CODE_FAILED < code {
        return decisions::refused(Refusal::ReportCodeOutOfRange);
    }
    if code == CODE_DONE {
        let change = answered(at, DONE, id);
        return decisions::plain(Answer::Done(id), change);
    }
    failed(state, at, k, id)
}
