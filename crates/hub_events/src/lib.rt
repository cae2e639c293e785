// Document 01, "Failure or restart of D", with document 02, item 3. Refusals: failure 14, 15; restart 14, 16, 17.
#![tactic(auto)]

ghost use Rattle.std.specs.Prelude.{◌≡◌, true, [], ◌<◌};
ghost use Rattle.rules_routine.specs.Limits.{max_devices};
ghost use Rattle.rules.specs.Tables.{put};
ghost use Rattle.rules.specs.Sequence.{with_up};
ghost use Rattle.rules.specs.Events.{failure_of, restart_of};
ghost use Rattle.hub_answers.specs.View.{put_backs_of};
ghost use Rattle.hub_state.specs.View.{found_at, is_restart, state_of, there};
ghost use Rattle.hub_state.specs.Valid.{StateOk};
ghost use Rattle.hub_state.specs.Unmoved.{OnlyLeave};
ghost use Rattle.hub_state.specs.Contract.{stopped_by, put_backs_stopped, down_with, up_with, StandsIfAny, Decides};
ghost use Rattle.hub_abort.specs.PutBacks.{down_if};
ghost use Rattle.hub_events.specs.Contract.{IsHalfway};

use hub_answers::{Answer, PutBacks};
use hub_state::{Change, Decision, ValidState, decisions, readers};
use rules_routine::Refusal;

// The routine that is halfway with an event's device, by its slot, if there is one; its id, if it aborts; and the device's mark after that.
#[derive(Clone, Copy)]
pub struct Affected {
    pub slot: Option<usize>,
    pub first: Option<u32>,
    pub mark: u32,
}

// "A running routine that has begun D and not finished it": with a must left on D it aborts, else it loses what is left on D (document 02,
// item 3).
fn halfway(state: ValidState, device: u8) -> Affected
    requires { device < max_devices }
    ensures { IsHalfway state.rows device result }
{
    let marks = state.rows.mark;
    let d = device as usize;
    let mark = marks[d];
    let slot = hub_search::halfway(state, device);
    let Some(at) = slot else {
        return Affected {
            slot,
            first: None,
            mark,
        };
    };
    if !hub_search::must_left(state, at, device) {
        return Affected {
            slot,
            first: None,
            mark,
        };
    }
    let ids = state.rows.ids;
    let id = ids[at];
    let first = Some(id);
    if mark != id {
        return Affected { slot, first, mark };
    }
    let before = readers::id_ahead(state, at);
    Affected {
        slot,
        first,
        mark: before,
    }
}

// "Failure: 14, 15."
pub fn decide_failure(state: ValidState, device: u8) -> Decision
    ensures { Decides state.rows [] result (failure_of (state_of state.rows) device) }
{
    if state.rows.devices <= device {
        return decisions::refused(Refusal::EventDevice);
    }
    if !readers::is_up(state.rows, device) {
        return decisions::refused(Refusal::FailureOfDown);
    }
    let half = halfway(state, device);
    let first = half.first;
    Decision {
        first,
        answer: Answer::Down(device, half.mark),
        back: None,
        change: Change::Fail(device, half.slot),
    }
}

// "Restart: 14, 16, 17."
pub fn decide_restart(state: ValidState, device: u8, setting: i16) -> Decision
    ensures { Decides state.rows [] result (restart_of (state_of state.rows) device setting) }
{
    if state.rows.devices <= device {
        return decisions::refused(Refusal::EventDevice);
    }
    if readers::is_up(state.rows, device) {
        return decisions::refused(Refusal::RestartOfUp);
    }
    if !rules_routine::in_range(setting) {
        return decisions::refused(Refusal::RestartSetting);
    }
    let half = halfway(state, device);
    let first = half.first;
    Decision {
        first,
        answer: Answer::Up(device, half.mark),
        back: None,
        change: Change::Restart(device, setting, half.slot),
    }
}

// What the abort that comes first puts back, if there is one, while a device fails, if one does.
pub fn put_backs_if(
    state: ValidState,
    slot: Option<usize>,
    device: u8,
    down: Option<u8>,
) -> PutBacks
    requires { StandsIfAny state.rows slot }
    ensures { put_backs_of result ≡ put_backs_stopped device (down_if (state_of state.rows) down) (found_at state.rows slot) }
{
    if let Some(at) = slot {
        if hub_search::must_left(state, at, device) {
            return hub_abort::put_backs_of(state, at, down);
        }
    }
    PutBacks::none()
}

// A device becomes up or down.
fn with_up(state: ValidState, device: u8, is_up: bool) -> ValidState
    requires { device < max_devices }
    ensures { (StateOk result.rows) × (state_of result.rows ≡ with_up (state_of state.rows) (put (state_of state.rows).up device is_up))
        × (result.rows.links ≡ state.rows.links)
        × (there result.rows ≡ there state.rows) }
{
    let at = device as usize;
    let mut changed = state;
    changed.rows.up[at] = is_up;
    changed
}

// "On a failure D first becomes down." Then the abort, or the skips. (That both events have this in their own text, and not in a function
// called by both, keeps two states off the stack.)
pub fn with_failure(state: ValidState, device: u8, slot: Option<usize>) -> ValidState
    requires { (device < max_devices) × (StandsIfAny state.rows slot) }
    ensures { (StateOk result.rows)
        × (state_of result.rows ≡ stopped_by device (down_with (state_of state.rows) device) (found_at state.rows slot))
        × (OnlyLeave state.rows result.rows) }
{
    let mut next = with_up(state, device, false);
    if let Some(at) = slot {
        if hub_search::must_left(next, at, device) {
            next = hub_settle::leave::leave(next, at);
        } else {
            next = hub_apply::with_skips(next, at, device);
        }
    }
    next
}

// The abort, or the skips; the event is attached to D's mark; "On a restart D then becomes up at the setting it reports."
pub fn with_restart(state: ValidState, device: u8, setting: i16, slot: Option<usize>) -> ValidState
    requires { (device < max_devices) × (is_restart setting ≡ true) × (StandsIfAny state.rows slot) }
    ensures { (StateOk result.rows)
        × (state_of result.rows ≡ up_with (stopped_by device (state_of state.rows) (found_at state.rows slot)) device setting)
        × (OnlyLeave state.rows result.rows) }
{
    let mut next = state;
    if let Some(at) = slot {
        if hub_search::must_left(state, at, device) {
            next = hub_settle::leave::leave(next, at);
        } else {
            next = hub_apply::with_skips(next, at, device);
        }
    }
    let marks = next.rows.mark;
    let d = device as usize;
    let with_it = hub_settle::attach::attach(next, marks[d], device, setting);
    with_up(with_it, device, true)
}
