// Searches along the links: for a routine, for the one to wait for, for the one that is halfway with a device, and for the one that a
// newcomer follows. They take the rows that they read out of the state; the long rows of a call are lent to them.
#![tactic(auto)]

ghost use Rattle.std.specs.Prelude.{◌≡◌, ◌-◌, ◌*◌, ◌<◌, ◌≤◌, take};
ghost use Rattle.rules_routine.specs.Limits.{max_commands, max_sequence};
ghost use Rattle.rules_routine.specs.Routine.{commands_of};
ghost use Rattle.rules.specs.Sequence.{runs};
ghost use Rattle.rules.specs.Progress.{begun};
ghost use Rattle.rules.specs.Turn.{first_holding};
ghost use Rattle.rules.specs.Events.{is_halfway, must_left};
ghost use Rattle.hub_sequence.specs.Links.{Stands};
ghost use Rattle.hub_state.specs.View.{member_at, there};
ghost use Rattle.hub_state.specs.Valid.{CommandsOk};
ghost use Rattle.hub_search.specs.Contract.{has_id, Finds, any_on, any_staged, counting_tag, any_must, marks_for, Latest};

use hub_sequence::NONE;
use hub_state::{DONE, IN_FLIGHT, SKIPPED, STEPS, TO_DO, ValidState};
use rules_routine::Routine;
use rules_routine::limits::{MAX_COMMANDS, MAX_DEVICES, MAX_SEQUENCE};
use rules_routine::tags::{CONDITION, MUST};

// No stage is higher.
const HIGHEST_STAGE: u8 = 255;

// The running routine with this id.
pub fn running(state: ValidState, id: u32) -> Option<usize>
    ensures { Finds state.rows (runs id) result }
{
    let links = state.rows.links;
    let behind = links.behind;
    let ids = state.rows.ids;
    let committed = state.rows.committed;
    let mut i = links.first as usize;
    while i < MAX_SEQUENCE {
        if ids[i] == id && !committed[i] {
            return Some(i);
        }
        i = behind[i] as usize;
    }
    None
}

// The routine with this id.
pub fn with_id(state: ValidState, id: u32) -> Option<usize>
    ensures { Finds state.rows (has_id id) result }
{
    let links = state.rows.links;
    let behind = links.behind;
    let ids = state.rows.ids;
    let mut i = links.first as usize;
    while i < MAX_SEQUENCE {
        if ids[i] == id {
            return Some(i);
        }
        i = behind[i] as usize;
    }
    None
}

// The wait search, "the first such id in the sequence": through the routines ahead, along the links, and the commands of each. A command
// that is left gives a cause to wait: for a command those answered from the first on are passed over. A condition waits for a done one, too
// (document 02, item 4).
pub fn first_holder<'a>(
    state: ValidState,
    device: &'a [u8; STEPS],
    stage: &'a [u8; STEPS],
    at: usize,
    wanted: u8,
    condition: bool,
) -> Option<u32>
    requires { (Stands state.rows.links at) × (device.now ≡ state.rows.device) × (stage.now ≡ state.rows.stage) }
    ensures { result ≡ first_holding wanted condition (there state.rows at).ahead }
{
    let links = state.rows.links;
    let behind = links.behind;
    let ids = state.rows.ids;
    let committed = state.rows.committed;
    let counts = state.rows.counts;
    let answered = state.rows.answered;
    let bound = if condition { SKIPPED } else { DONE };
    let mut holder = None;
    let mut i = links.first as usize;
    'ahead: while i != at {
        if !committed[i] {
            let start = i * MAX_COMMANDS;
            let end = start + (counts[i] as usize);
            let from = if condition { 0 } else { answered[i] as usize };
            for k in start + from..end {
                if device[k] == wanted && stage[k] < bound {
                    holder = Some(ids[i]);
                    break 'ahead;
                }
            }
        }
        i = behind[i] as usize;
    }
    holder
}

// Is one of these commands on the device and at a stage from `low` to `high`?
fn is_staged<'a>(
    device: &'a [u8; STEPS],
    stage: &'a [u8; STEPS],
    from: usize,
    end: usize,
    wanted: u8,
    low: u8,
    high: u8,
) -> bool
    requires { (from ≤ end) × (end ≤ max_sequence * max_commands) }
    ensures { result ≡ any_staged device.now stage.now wanted low high from (end - from) }
{
    for k in from..end {
        if device[k] == wanted && low <= stage[k] && stage[k] <= high {
            return true;
        }
    }
    false
}

// Begun (document 01, The steps): a command on the device was sent or skipped.
pub fn has_begun<'a>(
    state: ValidState,
    device: &'a [u8; STEPS],
    stage: &'a [u8; STEPS],
    at: usize,
    wanted: u8,
) -> bool
    requires { (Stands state.rows.links at) × (device.now ≡ state.rows.device) × (stage.now ≡ state.rows.stage) }
    ensures { result ≡ begun wanted (member_at state.rows at) }
{
    let counts = state.rows.counts;
    let from = at * MAX_COMMANDS;
    let end = from + (counts[at] as usize);
    is_staged(device, stage, from, end, wanted, IN_FLIGHT, HIGHEST_STAGE)
}

// "A running routine that has begun D and not finished it"
pub fn halfway(state: ValidState, wanted: u8) -> Option<usize>
    ensures { Finds state.rows (is_halfway wanted) result }
{
    let links = state.rows.links;
    let behind = links.behind;
    let committed = state.rows.committed;
    let counts = state.rows.counts;
    let device = state.rows.device;
    let stage = state.rows.stage;
    let mut i = links.first as usize;
    while i < MAX_SEQUENCE {
        if !committed[i] {
            let from = i * MAX_COMMANDS;
            let end = from + (counts[i] as usize);
            if is_staged(&device, &stage, from, end, wanted, TO_DO, IN_FLIGHT)
                && is_staged(&device, &stage, from, end, wanted, IN_FLIGHT, HIGHEST_STAGE)
            {
                return Some(i);
            }
        }
        i = behind[i] as usize;
    }
    None
}

// The tag that counts for the command at a place of its routine, which ends at `end`: "the condition has the tag of the command after it"
// (document 02, item 4).
pub fn counting_tag<'a>(tag: &'a [u8; STEPS], k: usize, end: usize) -> u8
    requires { (k < max_sequence * max_commands) × (end ≤ max_sequence * max_commands) }
    ensures { result ≡ counting_tag tag.now k (end - k) }
{
    if tag[k] == CONDITION && k + 1 < end {
        return tag[k + 1];
    }
    tag[k]
}

// Is one of these commands left on the device, and does it count as a must?
fn any_must<'a>(
    device: &'a [u8; STEPS],
    tag: &'a [u8; STEPS],
    stage: &'a [u8; STEPS],
    from: usize,
    end: usize,
    wanted: u8,
) -> bool
    requires { (from ≤ end) × (end ≤ max_sequence * max_commands) }
    ensures { result ≡ any_must device.now tag.now stage.now wanted from (end - from) }
{
    for k in from..end {
        if device[k] == wanted && stage[k] <= IN_FLIGHT && counting_tag(tag, k, end) == MUST {
            return true;
        }
    }
    false
}

// Is a must of the routine in a slot left on the device?
pub fn must_left(state: ValidState, at: usize, wanted: u8) -> bool
    requires { Stands state.rows.links at }
    ensures { result ≡ must_left wanted (member_at state.rows at) }
{
    let counts = state.rows.counts;
    let device = state.rows.device;
    let tag = state.rows.tag;
    let stage = state.rows.stage;
    let from = at * MAX_COMMANDS;
    let end = from + (counts[at] as usize);
    any_must(&device, &tag, &stage, from, end, wanted)
}

// The marks of a routine's devices.
fn marks_of<'a>(marks: &'a [u32; MAX_DEVICES], routine: Routine) -> [u32; MAX_COMMANDS]
    requires { (routine.count ≤ max_commands) × CommandsOk (commands_of routine) }
    ensures { take routine.count result ≡ marks_for marks.now (commands_of routine) }
{
    let commands = routine.commands;
    let count = routine.count;
    let mut wanted = [0u32; MAX_COMMANDS];
    for j in 0..count {
        let command = commands[j];
        let d = command.device as usize;
        wanted[j] = marks[d];
    }
    wanted
}

// Is an id among the first so many?
fn has_id<'a>(ids: &'a [u32; MAX_COMMANDS], count: usize, id: u32) -> bool
    requires { count ≤ max_commands }
    ensures { result ≡ any_on ids.now id 0 count }
{
    for j in 0..count {
        if ids[j] == id {
            return true;
        }
    }
    false
}

// "directly after the latest, in the sequence, of": the slot of the last that it must follow; NONE for the settled part.
pub fn latest(state: ValidState, routine: Routine) -> u8
    requires { (routine.count ≤ max_commands) × CommandsOk (commands_of routine) }
    ensures { Latest state.rows (commands_of routine) result }
{
    let marks = state.rows.mark;
    let wanted = marks_of(&marks, routine);
    let count = routine.count;
    let limit = state.rows.pass_limit;
    let links = state.rows.links;
    let ahead = links.ahead;
    let ids = state.rows.ids;
    let passed = state.rows.passed;
    let committed = state.rows.committed;
    let mut i = links.last;
    while (i as usize) < MAX_SEQUENCE {
        let x = i as usize;
        if !committed[x] && limit <= passed[x] {
            return i;
        }
        if has_id(&wanted, count, ids[x]) {
            return i;
        }
        i = ahead[x];
    }
    NONE
}
