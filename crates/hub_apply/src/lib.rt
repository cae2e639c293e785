// Changes that were decided: a command comes to a stage, the commands left on a device are skipped, a routine commits, a routine joins the
// sequence. Each takes the rows that it changes out of the state, and puts the state together again by one literal.
#![tactic(auto)]

mod fill;

ghost use Rattle.std.specs.Prelude.{◌≡◌, ◌*◌, ◌≤◌};
ghost use Rattle.rules_routine.specs.Limits.{max_commands, max_sequence};
ghost use Rattle.rules_routine.specs.Routine.{commands_of};
ghost use Rattle.rules.specs.Events.{skip_rest};
ghost use Rattle.hub_sequence.specs.Links.{Stands};
ghost use Rattle.hub_state.specs.View.{state_of, there};
ghost use Rattle.hub_state.specs.Valid.{StateOk};
ghost use Rattle.hub_state.specs.Unmoved.{InPlace};
ghost use Rattle.hub_state.specs.Contract.{staged, committed_at, StageOk, JoinOk};
ghost use Rattle.hub_apply.specs.Contract.{Places};
ghost use Rattle.hub_apply.specs.Stages.{FirstUnanswered, SkipsLeft};

use fill::CommandRows;
use hub_sequence::order;
use hub_state::{DONE, HubState, IN_FLIGHT, NO_RESTART, SKIPPED, STEPS, Staged, TO_DO, ValidState};
use rules_routine::Routine;
use rules_routine::limits::{MAX_COMMANDS, MAX_DEVICES};

// The first of these commands that is not answered; the end if there is none.
fn first_unanswered<'a>(stage: &'a [u8; STEPS], from: usize, end: usize) -> usize
    requires { (from ≤ end) × (end ≤ max_sequence * max_commands) }
    ensures { FirstUnanswered stage.now from end result }
{
    for k in from..end {
        if stage[k] < DONE {
            return k;
        }
    }
    end
}

// The first command that is not answered comes to a stage, and its device to the routine's mark if that begins it. (All rows are named:
// with `..state` here, and only here, a busy line takes a sixth more instructions.)
pub fn with_stage(state: ValidState, change: Staged) -> ValidState
    requires { StageOk state.rows change }
    ensures { (StateOk result.rows) × (state_of result.rows ≡ staged state.rows change) × (InPlace state.rows result.rows) }
{
    let devices = state.rows.devices;
    let pass_limit = state.rows.pass_limit;
    let next_id = state.rows.next_id;
    let links = state.rows.links;
    let ids = state.rows.ids;
    let passed = state.rows.passed;
    let committed = state.rows.committed;
    let counts = state.rows.counts;
    let device = state.rows.device;
    let tag = state.rows.tag;
    let setting = state.rows.setting;
    let restarts = state.rows.restarts;
    let settled = state.rows.settled_at;
    let up = state.rows.up;
    let mut stage = state.rows.stage;
    let mut due_then = state.rows.due_then;
    let mut answered = state.rows.answered;
    let mut mark = state.rows.mark;
    let at = change.at;
    let from = at * MAX_COMMANDS;
    let end = from + (counts[at] as usize);
    let open = from + (answered[at] as usize);
    stage[open] = change.stage;
    let due = change.due_then;
    due_then[at] = due;
    if change.stage != IN_FLIGHT {
        let next = first_unanswered(&stage, open + 1, end);
        answered[at] = (next - from) as u8;
    }
    if change.begins {
        let d = change.device as usize;
        mark[d] = change.id;
    }
    ValidState {
        rows: HubState {
            devices,
            pass_limit,
            next_id,
            links,
            ids,
            passed,
            committed,
            counts,
            answered,
            due_then,
            device,
            tag,
            setting,
            stage,
            restarts,
            settled_at: settled,
            up,
            mark,
        },
    }
}

// Those of these commands that are left on the device are skipped.
fn skip_left<'a>(
    stage: [u8; STEPS],
    device: &'a [u8; STEPS],
    from: usize,
    end: usize,
    wanted: u8,
) -> [u8; STEPS]
    requires { (from ≤ end) × (end ≤ max_sequence * max_commands) }
    ensures { SkipsLeft stage device.now wanted from end result }
{
    let mut skipped = stage;
    for k in from..end {
        if device[k] == wanted {
            if skipped[k] < DONE {
                skipped[k] = SKIPPED;
            }
        }
    }
    skipped
}

// An event of a device: the commands of the routine in a slot that are left on it are skipped (document 02, item 3).
pub fn with_skips(state: ValidState, at: usize, wanted: u8) -> ValidState
    requires { Stands state.rows.links at }
    ensures { (StateOk result.rows) × (state_of result.rows ≡ skip_rest wanted (state_of state.rows) (there state.rows at))
        × (InPlace state.rows result.rows) }
{
    let counts = state.rows.counts;
    let device = state.rows.device;
    let mut answered = state.rows.answered;
    let from = at * MAX_COMMANDS;
    let end = from + (counts[at] as usize);
    let open = from + (answered[at] as usize);
    let stage = skip_left(state.rows.stage, &device, from, end, wanted);
    let next = first_unanswered(&stage, open, end);
    answered[at] = (next - from) as u8;
    ValidState {
        rows: HubState {
            answered,
            stage,
            ..state.rows
        },
    }
}

// "No command left: committed."
pub fn with_commit(state: ValidState, at: usize) -> ValidState
    requires { Stands state.rows.links at }
    ensures { (StateOk result.rows) × (state_of result.rows ≡ committed_at state.rows at) × (InPlace state.rows result.rows) }
{
    let mut committed = state.rows.committed;
    committed[at] = true;
    ValidState {
        rows: HubState {
            committed,
            ..state.rows
        },
    }
}

// "Place the routine directly after the latest": in a free slot, behind the slot `after`.
pub fn with_routine(state: ValidState, after: u8, routine: Routine) -> ValidState
    requires { JoinOk state.rows (commands_of routine) after }
    ensures { Places state.rows (commands_of routine) after result.rows }
{
    let next_id = state.rows.next_id;
    let links_before = state.rows.links;
    let joined = order::join(links_before, after);
    let links = joined.links;
    let slot = joined.slot as usize;
    let mut ids = state.rows.ids;
    let mut committed = state.rows.committed;
    let mut counts = state.rows.counts;
    let mut answered = state.rows.answered;
    let old_passed = state.rows.passed;
    let old_device = state.rows.device;
    let old_tag = state.rows.tag;
    let old_setting = state.rows.setting;
    let old_stage = state.rows.stage;
    let old_restarts = state.rows.restarts;
    let passed = fill::passed_behind(old_passed, links, committed, slot);
    ids[slot] = next_id as u32;
    committed[slot] = false;
    counts[slot] = routine.count as u8;
    answered[slot] = 0;
    let rows = CommandRows {
        device: old_device,
        tag: old_tag,
        setting: old_setting,
    };
    let filled = fill::with_commands(rows, slot, routine);
    let device = filled.device;
    let tag = filled.tag;
    let setting = filled.setting;
    let stage = fill::filled(old_stage, slot * MAX_COMMANDS, MAX_COMMANDS, TO_DO);
    let restarts = fill::filled(old_restarts, slot * MAX_DEVICES, MAX_DEVICES, NO_RESTART);
    ValidState {
        rows: HubState {
            next_id: next_id + 1,
            links,
            ids,
            passed,
            committed,
            counts,
            answered,
            device,
            tag,
            setting,
            stage,
            restarts,
            ..state.rows
        },
    }
}
