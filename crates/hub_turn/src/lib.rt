// Document 01, "Mark" and "Turn of R", with the conditions of document 02, item 4. Refusals: 10, 11. The rows of devices, tags and stages
// are taken out of the state once and lent.
#![tactic(auto)]

ghost use Rattle.std.specs.Prelude.{◌≡◌, not, [], ◌*◌, ◌<◌};
ghost use Rattle.rules_routine.specs.Limits.{max_commands, max_sequence};
ghost use Rattle.rules.specs.Turn.{proceed_up, proceed, turn_of, turn_next};
ghost use Rattle.rules.specs.Progress.{begun as has_begun, next};
ghost use Rattle.hub_sequence.specs.Links.{Stands};
ghost use Rattle.hub_state.specs.View.{steps_at, state_of, there, member_at};
ghost use Rattle.hub_state.specs.Unanswered.{command_at, NextToDo};
ghost use Rattle.hub_state.specs.Contract.{Decides};
ghost use Rattle.hub_turn.specs.Contract.{LentFrom, skipped_at};

use hub_answers::{Answer, Sent};
use hub_state::{
    Change, DONE, Decision, HELD, IN_FLIGHT, NOT_HELD, SKIPPED, STEPS, Staged, Unanswered,
    ValidState, decisions, readers,
};
use rules_routine::limits::MAX_COMMANDS;
use rules_routine::tags::{CONDITION, MUST};
use rules_routine::{Command, Refusal};

// The rows that a turn reads, taken out of the state once and lent.
#[derive(Clone, Copy)]
struct Lent<'a> {
    device: &'a [u8; STEPS],
    tag: &'a [u8; STEPS],
    stage: &'a [u8; STEPS],
}

// The next command comes to a stage.
fn staged(at: usize, stage: u8, due_then: i16, begun: bool, device: u8, id: u32) -> Change
    ensures { result ≡ Change.Stage
        (record { at = at; stage = stage; due_then = due_then; begins = not begun; device = device; id = id }) }
{
    let change = Staged {
        at,
        stage,
        due_then,
        begins: !begun,
        device,
        id,
    };
    Change::Stage(change)
}

// Is the command at k one that the condition before it skips? Its routine's commands stand from `from` on.
fn is_skipped<'a>(tag: &'a [u8; STEPS], stage: &'a [u8; STEPS], from: usize, k: usize) -> bool
    requires { k < max_sequence * max_commands }
    ensures { result ≡ skipped_at tag.now stage.now from k }
{
    if k <= from {
        return false;
    }
    let before = k - 1;
    if tag[before] != CONDITION {
        return false;
    }
    if stage[before] == HELD {
        return false;
    }
    DONE < stage[before]
}

// The next command, its device being up: a condition is taken or not held, by the due setting. "Otherwise the command is sent and is in
// flight": it keeps its device's due setting of now.
fn go_on_up<'a>(
    state: ValidState,
    rows: Lent<'a>,
    at: usize,
    k: usize,
    id: u32,
    begun: bool,
) -> Decision
    requires { (Stands state.rows.links at) × (NextToDo state.rows at k) × (id ≡ (member_at state.rows at).id)
        × (LentFrom state.rows rows) × (begun ≡ has_begun (command_at state.rows k).device (member_at state.rows at)) }
    ensures { Decides state.rows [] result (proceed_up (state_of state.rows) (there state.rows at) (command_at state.rows k)) }
{
    let wanted = rows.device[k];
    let settings = state.rows.setting;
    let setting = settings[k];
    let due = hub_due::due_setting(state, rows.device, rows.stage, &settings, wanted);
    if rows.tag[k] != CONDITION {
        let command = Command {
            device: wanted,
            tag: rows.tag[k],
            setting,
        };
        let sent = Sent { id, command };
        let change = staged(at, IN_FLIGHT, due, begun, wanted, id);
        return decisions::plain(Answer::Sent(sent), change);
    }
    if due < setting {
        let change = staged(at, NOT_HELD, 0, begun, wanted, id);
        return decisions::plain(Answer::NotHeld(id), change);
    }
    let change = staged(at, HELD, 0, begun, wanted, id);
    decisions::plain(Answer::Held(id), change)
}

// The command after a condition that did not hold is skipped. Else: "If D is down, a must aborts R and a best-effort is skipped"; of a
// condition "the following command decides".
fn go_on<'a>(state: ValidState, rows: Lent<'a>, at: usize, k: usize, id: u32) -> Decision
    requires { (Stands state.rows.links at) × (NextToDo state.rows at k) × (id ≡ (member_at state.rows at).id)
        × (LentFrom state.rows rows) }
    ensures { Decides state.rows [] result (proceed (state_of state.rows) (there state.rows at) (command_at state.rows k)) }
{
    let begun = hub_search::has_begun(state, rows.device, rows.stage, at, rows.device[k]);
    let mut skips = is_skipped(rows.tag, rows.stage, at * MAX_COMMANDS, k);
    if !skips {
        if !readers::is_up(state.rows, rows.device[k]) {
            let counts = state.rows.counts;
            let end = at * MAX_COMMANDS + (counts[at] as usize);
            if hub_search::counting_tag(rows.tag, k, end) == MUST {
                return decisions::plain(Answer::Aborted(id), Change::Abort(at));
            }
            skips = true;
        }
    }
    if skips {
        let change = staged(at, SKIPPED, 0, begun, rows.device[k], id);
        return decisions::plain(Answer::Skipped(id), change);
    }
    go_on_up(state, rows, at, k, id, begun)
}

// The next command: "the answer is wait, with the first such id in the sequence, and no change", or it goes on.
fn next_turn<'a>(state: ValidState, rows: Lent<'a>, at: usize, k: usize, id: u32) -> Decision
    requires { (Stands state.rows.links at) × (NextToDo state.rows at k) × (id ≡ (member_at state.rows at).id)
        × (LentFrom state.rows rows) }
    ensures { Decides state.rows [] result (turn_next (state_of state.rows) (there state.rows at) (next (steps_at state.rows at))) }
{
    let condition = rows.tag[k] == CONDITION;
    match hub_search::first_holder(
        state,
        rows.device,
        rows.stage,
        at,
        rows.device[k],
        condition,
    ) {
        None => go_on(state, rows, at, k, id),
        Some(other) => decisions::plain(Answer::Wait(id, other), Change::Nothing),
    }
}

// What a turn comes to. "Turn: 10, 11."
pub fn decide(state: ValidState, id: u32) -> Decision
    ensures { Decides state.rows [] result (turn_of (state_of state.rows) id) }
{
    let Some(at) = hub_search::running(state, id) else {
        return decisions::refused(Refusal::NotRunning);
    };
    let stage = state.rows.stage;
    let tag = state.rows.tag;
    let open = readers::unanswered_at(state, &stage, at);
    match open {
        Unanswered::Nothing => decisions::plain(Answer::Committed(id), Change::Commit(at)),
        Unanswered::InFlight(_) => decisions::refused(Refusal::TurnInFlight),
        Unanswered::ToDo(k) => {
            let device = state.rows.device;
            let rows = Lent {
                device: &device,
                tag: &tag,
                stage: &stage,
            };
            next_turn(state, rows, at, k, id)
        }
    }
}
