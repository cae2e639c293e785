// What a line does, and what the device lines tell at the end.
ghost use Rattle.std.specs.Prelude.{◌≡◌, true, ◌<◌, ◌≤◌, length};
ghost use Rattle.rules_routine.specs.Limits.{max_devices};
ghost use Rattle.rules_routine.specs.Routine.{commands_of};
ghost use Rattle.rules.specs.Calls.{result_of};
ghost use Rattle.hub_state.specs.Contract.{told_by, Decides};
ghost use Rattle.line_rules.specs.Printing.{answers_text};
ghost use Rattle.line_rules.specs.Program.{end_text};
ghost use Rattle.line_print.specs.Put.{max_text, PutShort};
ghost use Rattle.line_print.specs.Texts.{devices_text};
ghost use Rattle.hub.specs.View.{view};
ghost use Rattle.hub.specs.Valid.{Valid};
ghost use Rattle.hub.specs.Decided.{WasDecidedOn};
ghost use Rattle.line.specs.View.{hub_in, call_in, commands_in};
ghost use Rattle.line.specs.Contract.{ReadsNext, is_abort};

use hub::Hub;
use hub_answers::Answer;
use hub_state::Decision;
use line_print::Devices;
use line_read::{Call, Line};
use rules_routine::Routine;
use rules_routine::limits::MAX_DEVICES;

// What the call that a line makes comes to.
pub fn decided(hub: Hub, call: Call) -> Decision
    requires { Valid hub }
    ensures { Decides hub.state.rows (commands_in call) result (result_of (view hub) (call_in call)) }
{
    match call {
        Call::Submit(routine) => hub::decide_submit(hub, routine),
        Call::Turn(id) => hub::decide_turn(hub, id),
        Call::Report(id, code) => hub::decide_report(hub, id, code),
        Call::Cancel(id) => hub::decide_cancel(hub, id),
        Call::Fail(device) => hub::decide_failure(hub, device),
        Call::Restart(device, setting) => hub::decide_restart(hub, device, setting),
    }
}

// The routine that joins by a call: that of a submission.
pub fn routine_in(call: Call) -> Routine
    ensures { commands_of result ≡ commands_in call }
{
    match call {
        Call::Submit(routine) => routine,
        _ => rules_routine::empty(),
    }
}

// What the device lines tell of a hub; no hub has no devices. The due settings come from one pass along the sequence.
pub fn devices_of(hub: Hub) -> Devices
    requires { Valid hub }
    ensures { (result.count ≤ max_devices) × (devices_text result ≡ end_text (hub_in hub)) }
{
    let mut due = [0i16; MAX_DEVICES];
    let _ = hub::due_settings(hub, &mut due);
    let mut up = [true; MAX_DEVICES];
    let count = hub::device_count(hub);
    for device in 0..count {
        up[usize::from(device)] = hub::is_up(hub, device);
    }
    Devices { count, up, due }
}

// A line: what it says, and where it ends.
#[derive(Clone, Copy)]
pub struct NextLine {
    pub said: Line,
    pub end: usize,
}

// The line that begins at a place.
pub fn next_line(input: &[u8], from: usize) -> NextLine
    requires { from < length input.now }
    ensures { ReadsNext input.now from result }
{
    let end = line_read::line_end(input, from);
    let said = line_read::read_line(&input[from..end]);
    NextLine { said, end }
}

// Is this the decision of an abort, or of an event that brings one?
fn aborts(decision: Decision) -> bool
    ensures { result ≡ is_abort decision.first decision.answer }
{
    if decision.first.is_some() {
        return true;
    }
    let Answer::Aborted(_) = decision.answer else {
        return false;
    };
    true
}

// The answers of a call by which a routine aborts. (In a function of their own: so no other call makes room for what is put back.)
fn put_aborts(text: &mut [u8], hub: Hub, decision: Decision) -> usize
    requires { (Valid hub) × (WasDecidedOn hub decision) × (max_text ≤ length text.old)
        × (is_abort decision.first decision.answer ≡ true) }
    ensures { PutShort max_text text.old text.new 0 result (answers_text (told_by hub.state.rows decision)) }
{
    let backs = hub::put_backs(hub, decision);
    line_print::put_aborts(text, 0, decision.first, decision.answer, backs)
}

// The answers of a call.
pub fn put_answers(text: &mut [u8], hub: Hub, decision: Decision) -> usize
    requires { (Valid hub) × (WasDecidedOn hub decision) × (max_text ≤ length text.old) }
    ensures { PutShort max_text text.old text.new 0 result (answers_text (told_by hub.state.rows decision)) }
{
    if aborts(decision) {
        return put_aborts(text, hub, decision);
    }
    line_print::put_answer(text, 0, decision.answer, decision.back)
}
