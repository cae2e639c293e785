// The plot hub, by value: document 01, "The steps". Here stand the public calls with their contracts. A call decides, on a hub that stays
// as it is, what it comes to (crates `hub_submit`, `hub_turn`, `hub_report`, `hub_events` and, the cancel, `hub_abort`); an applier makes
// the next hub (crates `hub_apply`, `hub_settle`, `hub_events`), which then settles. Only a new pass limit (crate `hub_limit`) is made at
// once, settling included. `specs/` reads a hub as the state of the rules, and an outcome as their answers.
#![tactic(auto)]

mod carrying;
mod opening;

ghost use Rattle.std.specs.Prelude.{◌≡◌, [], length};
ghost use Rattle.rules_routine.specs.Routine.{commands_of};
ghost use Rattle.rules.specs.Abort.{leave};
ghost use Rattle.rules.specs.Cancel.{cancel_of};
ghost use Rattle.rules.specs.Due.{due};
ghost use Rattle.rules.specs.AllDue.{list_check, list_after};
ghost use Rattle.rules.specs.Events.{failure_of, restart_of};
ghost use Rattle.rules.specs.Open.{closed_hub, open_check};
ghost use Rattle.rules.specs.Report.{report_of};
ghost use Rattle.rules.specs.Settle.{settle};
ghost use Rattle.rules.specs.Submit.{submit_of};
ghost use Rattle.rules.specs.Turn.{turn_of};
ghost use Rattle.rules.specs.Calls.{StaysClosed};
ghost use Rattle.hub_answers.specs.View.{put_backs_of, PutBacksOk};
ghost use Rattle.hub_state.specs.View.{found_at, there, first_committed};
ghost use Rattle.hub_state.specs.Contract.{staged, committed_at, joined_behind, stopped_by, down_with, up_with};
ghost use Rattle.hub_state.specs.Contract.{Decides, put_backs_of_decision};
ghost use Rattle.hub_state.specs.declared.Change.TheVariants.{Stage, Commit, Join, Abort, Fail, Restart};
ghost use Rattle.hub.specs.View.{view};
ghost use Rattle.hub.specs.Valid.{InOrder, Valid};
ghost use Rattle.hub.specs.Contract.{Opens, Submitted, Turned, Reported, Cancelled, Failed, Restarted, Limited};
ghost use Rattle.hub.specs.Carrying.{MovesNobody, OnlySettle};
ghost use Rattle.hub.specs.Decided.{Decided, WasDecidedOn, WasDecided};

use hub_answers::{Answer, PutBacks};
use hub_state::{Decision, Staged, ValidState, readers};
use rules_routine::{Refusal, Routine};

// A hub. Others hold it and hand it on; nobody else can make one, look into it or change it.
#[derive(Clone, Copy)]
pub struct Hub {
    state: ValidState,
}

// What an opening gives: whether it is accepted, and a hub. One stands beside a refusal too, that of no devices, and no `Result` holds it:
// `Opens` says which, and the theorems about chains of calls speak of it.
#[derive(Clone, Copy)]
pub struct Opened {
    pub verdict: Result<(), Refusal>,
    pub hub: Hub,
}

// What a call gives: the next hub; the abort that comes first, if there is one; the answer; and the settings that devices are put back to,
// beside the answer that they belong to.
#[derive(Clone, Copy)]
pub struct Outcome {
    pub hub: Hub,
    pub first: Option<u32>,
    pub answer: Answer,
    pub put_backs: PutBacks,
}

// Is an opening accepted? A caller who has to print the refusal alone makes no hub for that.
pub fn check_opening(devices: u8, pass_limit: u8, first_id: u32) -> Result<(), Refusal>
    ensures { result ≡ open_check devices pass_limit first_id }
{
    opening::check(devices, pass_limit, first_id)
}

// "Opening: 1, 2, 3."
pub fn open(devices: u8, pass_limit: u8, first_id: u32) -> Opened
    ensures { Opens devices pass_limit first_id result }
{
    let verdict = opening::check(devices, pass_limit, first_id);
    let hub = match verdict {
        Ok(()) => opening::new_hub(devices, pass_limit, first_id),
        Err(_) => closed(),
    };
    Opened { verdict, hub }
}

// "Submission: 4; then the commands in turn, each 5, 6, 7", and 22 (document 02, item 4); "then 8, 9."
pub fn submit(hub: Hub, routine: Routine) -> Outcome
    requires { Valid hub }
    ensures { Submitted hub routine result }
{
    let decision = decide_submit(hub, routine);
    carrying::carried_out(hub, decision, routine)
}

// "Turn: 10, 11."
pub fn turn(hub: Hub, id: u32) -> Outcome
    requires { Valid hub }
    ensures { Turned hub id result }
{
    let decision = decide_turn(hub, id);
    let routine = rules_routine::empty();
    carrying::carried_out(hub, decision, routine)
}

// "Report: 10, 12, 13."
pub fn report(hub: Hub, id: u32, code: u8) -> Outcome
    requires { Valid hub }
    ensures { Reported hub id code result }
{
    let decision = decide_report(hub, id, code);
    let routine = rules_routine::empty();
    carrying::carried_out(hub, decision, routine)
}

// "Cancel: 10."
pub fn cancel(hub: Hub, id: u32) -> Outcome
    requires { Valid hub }
    ensures { Cancelled hub id result }
{
    let decision = decide_cancel(hub, id);
    let routine = rules_routine::empty();
    carrying::carried_out(hub, decision, routine)
}

// "Failure: 14, 15."
pub fn fail(hub: Hub, device: u8) -> Outcome
    requires { Valid hub }
    ensures { Failed hub device result }
{
    let decision = decide_failure(hub, device);
    let routine = rules_routine::empty();
    carrying::carried_out(hub, decision, routine)
}

// "Restart: 14, 16, 17."
pub fn restart(hub: Hub, device: u8, setting: i16) -> Outcome
    requires { Valid hub }
    ensures { Restarted hub device setting result }
{
    let decision = decide_restart(hub, device, setting);
    let routine = rules_routine::empty();
    carrying::carried_out(hub, decision, routine)
}

// A new pass limit for a hub that goes on: document 02, item 13. "a K above 8 gets 2"; before that, where no hub was made, 1.
pub fn limit(hub: Hub, pass_limit: u8) -> Outcome
    requires { Valid hub }
    ensures { Limited hub pass_limit result }
{
    let put_backs = PutBacks::none();
    match hub_limit::set_limit(hub.state, pass_limit) {
        Ok(state) => Outcome {
            hub: Hub { state },
            first: None,
            answer: Answer::Limited(pass_limit),
            put_backs,
        },
        Err(refusal) => Outcome {
            hub,
            first: None,
            answer: Answer::Refused(refusal),
            put_backs,
        },
    }
}

// N.
pub fn device_count(hub: Hub) -> u8
    ensures { result ≡ (view hub).devices }
{
    hub.state.rows.devices
}

// Is a device up? One that the hub does not have stands as at the opening.
pub fn is_up(hub: Hub, device: u8) -> bool
    ensures { result ≡ (view hub).up device }
{
    readers::is_up(hub.state.rows, device)
}

// The due setting of a device. One that the hub does not have stands as at the opening.
pub fn due_setting(hub: Hub, device: u8) -> i16
    requires { Valid hub }
    ensures { result ≡ due (view hub) device }
{
    let state = hub.state;
    let devices = state.rows.device;
    let stages = state.rows.stage;
    let settings = state.rows.setting;
    hub_due::due_setting(state, &devices, &stages, &settings, device)
}

// The due settings of all devices, up or down, into a lent list, from one pass along the sequence: document 02, item 14. Entries past the
// last device are untouched; a list shorter than N is turned down (21) and unchanged.
pub fn due_settings(hub: Hub, list: &mut [i16]) -> Result<(), Refusal>
    requires { Valid hub }
    ensures answers { result ≡ list_check (view hub) (length list.old) }
    ensures leaves { list.new ≡ list_after (view hub) list.old }
{
    hub_due_list::put_settings(hub.state, list)
}

// A hub of no devices: one that is not opened. Every call on it is turned down.
pub fn closed() -> Hub
    ensures { (Valid result) × (view result ≡ closed_hub) × (StaysClosed (view result)) }
{
    opening::new_hub(0, 0, 1)
}

// ---- the same in two steps, for those who hold one hub and change it line by line: each call decides on a hub that stays as it is, and an
// applier makes the next hub. An applier asks for a change that was decided on this very hub. Where a routine then has to settle, it
// settles before the next call: each asks for a hub at rest.

// What a submission comes to.
pub fn decide_submit(hub: Hub, routine: Routine) -> Decision
    requires { Valid hub }
    ensures { Decides hub.state.rows (commands_of routine) result (submit_of (view hub) (commands_of routine)) }
{
    hub_submit::decide(hub.state, routine)
}

// What a turn comes to.
pub fn decide_turn(hub: Hub, id: u32) -> Decision
    requires { Valid hub }
    ensures { Decides hub.state.rows [] result (turn_of (view hub) id) }
{
    hub_turn::decide(hub.state, id)
}

// What a report comes to.
pub fn decide_report(hub: Hub, id: u32, code: u8) -> Decision
    requires { Valid hub }
    ensures { Decides hub.state.rows [] result (report_of (view hub) id code) }
{
    hub_report::decide(hub.state, id, code)
}

// What a cancel comes to.
pub fn decide_cancel(hub: Hub, id: u32) -> Decision
    requires { Valid hub }
    ensures { Decides hub.state.rows [] result (cancel_of (view hub) id) }
{
    hub_abort::cancel::decide(hub.state, id)
}

// What a failure comes to.
pub fn decide_failure(hub: Hub, device: u8) -> Decision
    requires { Valid hub }
    ensures { Decides hub.state.rows [] result (failure_of (view hub) device) }
{
    hub_events::decide_failure(hub.state, device)
}

// What a restart comes to.
pub fn decide_restart(hub: Hub, device: u8, setting: i16) -> Decision
    requires { Valid hub }
    ensures { Decides hub.state.rows [] result (restart_of (view hub) device setting) }
{
    hub_events::decide_restart(hub.state, device, setting)
}

// A command comes to a stage.
pub fn with_stage(hub: Hub, change: Staged) -> Hub
    requires { (Valid hub) × (WasDecided hub (Stage change)) }
    ensures { (InOrder result) × (view result ≡ staged hub.state.rows change) × (MovesNobody hub.state.rows result.state.rows) }
{
    let state = hub_apply::with_stage(hub.state, change);
    Hub { state }
}

// The routine in a slot commits.
pub fn with_commit(hub: Hub, at: usize) -> Hub
    requires { (Valid hub) × (WasDecided hub (Commit at)) }
    ensures { (InOrder result) × (view result ≡ committed_at hub.state.rows at) × (MovesNobody hub.state.rows result.state.rows) }
{
    let state = hub_apply::with_commit(hub.state, at);
    Hub { state }
}

// A routine joins the sequence behind a slot.
pub fn with_routine(hub: Hub, after: u8, routine: Routine) -> Hub
    requires { (Valid hub) × (Decided hub (commands_of routine) (Join after)) }
    ensures { (InOrder result) × (view result ≡ joined_behind hub.state.rows (commands_of routine) after)
        × (MovesNobody hub.state.rows result.state.rows) }
{
    let state = hub_apply::with_routine(hub.state, after, routine);
    Hub { state }
}

// The routine in a slot aborts.
pub fn with_abort(hub: Hub, at: usize) -> Hub
    requires { (Valid hub) × (WasDecided hub (Abort at)) }
    ensures { (InOrder result) × (view result ≡ leave (view hub) (there hub.state.rows at))
        × (MovesNobody hub.state.rows result.state.rows) }
{
    let state = hub_settle::leave::leave(hub.state, at);
    Hub { state }
}

// A device fails; the routine in a slot, if there is one, aborts by that or loses what is left there.
pub fn with_failure(hub: Hub, device: u8, slot: Option<usize>) -> Hub
    requires { (Valid hub) × (WasDecided hub (Fail device slot)) }
    ensures { (InOrder result) × (view result ≡ stopped_by device (down_with (view hub) device) (found_at hub.state.rows slot))
        × (MovesNobody hub.state.rows result.state.rows) }
{
    let state = hub_events::with_failure(hub.state, device, slot);
    Hub { state }
}

// A device restarts; the routine in a slot, if there is one, aborts by that or loses what is left there.
pub fn with_restart(hub: Hub, device: u8, setting: i16, slot: Option<usize>) -> Hub
    requires { (Valid hub) × (WasDecided hub (Restart device setting slot)) }
    ensures { (InOrder result) × (view result ≡ up_with (stopped_by device (view hub) (found_at hub.state.rows slot)) device setting)
        × (MovesNobody hub.state.rows result.state.rows) }
{
    let state = hub_events::with_restart(hub.state, device, setting, slot);
    Hub { state }
}

// What a decision puts back: by the abort that it brings, or by its answer. (That it fits, every `PutBacks` tells; callers cite it here.)
pub fn put_backs(hub: Hub, decision: Decision) -> PutBacks
    requires { (Valid hub) × (WasDecidedOn hub decision) }
    ensures { (PutBacksOk result) × (put_backs_of result ≡ put_backs_of_decision hub.state.rows decision) }
{
    carrying::put_backs_of(hub.state, decision)
}

// Is the first in the sequence committed?
pub fn settles(hub: Hub) -> bool
    ensures { result ≡ first_committed (view hub).sequence }
{
    hub_settle::settle::settles(hub.state)
}

// The committed routines at the front settle.
pub fn settle(hub: Hub) -> Hub
    ensures { (Valid result) × (view result ≡ settle (view hub)) × (OnlySettle hub.state.rows result.state.rows) }
{
    let state = hub_settle::settle::settle(hub.state);
    Hub { state }
}
