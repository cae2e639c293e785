// What devices are due after the settled part and the sequence: document 01, "Abort of R". One device, from the last routine on; and all,
// in one pass (`due_settings_without`), which is the only one.
#![tactic(auto)]

ghost use Rattle.std.specs.Prelude.{◌≡◌, ◌*◌, ◌≤◌, ◌<◌, length};
ghost use Rattle.rules_routine.specs.Limits.{max_commands, max_devices, max_sequence};
ghost use Rattle.rules.specs.Tables.{any_of};
ghost use Rattle.rules.specs.Progress.{in_flight_on};
ghost use Rattle.rules.specs.Due.{after_members, due};
ghost use Rattle.rules.specs.Attach.{settle_restarts};
ghost use Rattle.hub_state.specs.View.{settings_of, flags_of, restarts_at, state_of, members_of};
ghost use Rattle.hub_due.specs.Contract.{AfterDone, BehindLastDone, DevicesFit, due_without, members_without};

use hub_state::{DONE, IN_FLIGHT, NO_RESTART, RESTARTS, STEPS, ValidState};
use rules_routine::limits::{MAX_COMMANDS, MAX_DEVICES, MAX_SEQUENCE};

// The last done command on a device among these; the first place if there is none.
fn behind_last_done<'a>(
    device: &'a [u8; STEPS],
    stage: &'a [u8; STEPS],
    from: usize,
    end: usize,
    wanted: u8,
) -> usize
    requires { (from ≤ end) × (end ≤ max_sequence * max_commands) }
    ensures { BehindLastDone device.now stage.now from end wanted result }
{
    for k in (from..end).rev() {
        if device[k] == wanted && stage[k] == DONE {
            return k + 1;
        }
    }
    from
}

// What one device is due.
pub fn due_on<'a>(
    state: ValidState,
    device: &'a [u8; STEPS],
    stage: &'a [u8; STEPS],
    setting: &'a [i16; STEPS],
    wanted: u8,
    settled: i16,
) -> i16
    requires { (device.now ≡ state.rows.device) × (stage.now ≡ state.rows.stage)
        × (setting.now ≡ state.rows.setting) }
    ensures { result ≡ after_members wanted (members_of state.rows) settled }
{
    let links = state.rows.links;
    let ahead = links.ahead;
    let answered = state.rows.answered;
    let restarts = state.rows.restarts;
    let d = wanted as usize;
    let mut i = links.last as usize;
    while i < MAX_SEQUENCE {
        if d < MAX_DEVICES {
            let restart = restarts[i * MAX_DEVICES + d];
            if restart != NO_RESTART {
                return restart;
            }
        }
        let from = i * MAX_COMMANDS;
        let end = from + (answered[i] as usize);
        let k = behind_last_done(device, stage, from, end, wanted);
        if from < k {
            return setting[k - 1];
        }
        i = ahead[i] as usize;
    }
    settled
}

// All devices, after the done commands of these.
pub fn after_done<'a>(
    table: [i16; MAX_DEVICES],
    device: &'a [u8; STEPS],
    stage: &'a [u8; STEPS],
    setting: &'a [i16; STEPS],
    from: usize,
    end: usize,
) -> [i16; MAX_DEVICES]
    requires { (from ≤ end) × (end ≤ max_sequence * max_commands) × DevicesFit device.now from end }
    ensures { AfterDone table device.now stage.now setting.now from end result }
{
    let mut after = table;
    for k in from..end {
        if stage[k] == DONE {
            let d = device[k] as usize;
            let to = setting[k];
            after[d] = to;
        }
    }
    after
}

// All devices, after the restarts of a slot. (That a lent row is as long as its type says is not known to the checker: the contract says
// it.)
pub fn after_restarts<'a>(
    table: [i16; MAX_DEVICES],
    restarts: &'a [i16; RESTARTS],
    at: usize,
) -> [i16; MAX_DEVICES]
    requires { (at < max_sequence) × (length restarts.now ≡ max_sequence * max_devices) }
    ensures { settings_of result ≡ settle_restarts (restarts_at restarts.now at) (settings_of table) }
{
    let from = at * MAX_DEVICES;
    let mut after = table;
    for d in 0..MAX_DEVICES {
        let last = restarts[from + d];
        if last != NO_RESTART {
            after[d] = last;
        }
    }
    after
}

// What all devices are due, in one pass. The commands of the routine in the slot `but`, if there is one, do not count; the events attached
// to it do.
pub fn due_settings_without(state: ValidState, but: Option<usize>) -> [i16; MAX_DEVICES]
    ensures { settings_of result ≡ due_without state.rows but }
{
    // The pass compares numbers alone: that one is no slot's.
    let left_out = but.unwrap_or(MAX_SEQUENCE);
    let links = state.rows.links;
    let behind = links.behind;
    let answered = state.rows.answered;
    let device = state.rows.device;
    let stage = state.rows.stage;
    let setting = state.rows.setting;
    let restarts = state.rows.restarts;
    let mut table = state.rows.settled_at;
    let mut i = links.first as usize;
    while i < MAX_SEQUENCE {
        if i != left_out {
            let from = i * MAX_COMMANDS;
            let end = from + (answered[i] as usize);
            let done = after_done(table, &device, &stage, &setting, from, end);
            table = done;
        }
        let after = after_restarts(table, &restarts, i);
        table = after;
        i = behind[i] as usize;
    }
    table
}

// What all devices are due.
pub fn due_settings(state: ValidState) -> [i16; MAX_DEVICES]
    ensures { settings_of result ≡ due (state_of state.rows) }
{
    due_settings_without(state, None)
}

// The devices with a command in flight of a routine that is not in the slot `but`.
pub fn in_flight_without(state: ValidState, but: usize) -> [bool; MAX_DEVICES]
    ensures { flags_of result ≡ (λ d. any_of (in_flight_on d) (members_without state.rows but)) }
{
    let links = state.rows.links;
    let behind = links.behind;
    let counts = state.rows.counts;
    let answered = state.rows.answered;
    let device = state.rows.device;
    let stage = state.rows.stage;
    let mut busy = [false; MAX_DEVICES];
    let mut i = links.first as usize;
    while i < MAX_SEQUENCE {
        if i != but && answered[i] < counts[i] {
            let k = i * MAX_COMMANDS + (answered[i] as usize);
            if stage[k] == IN_FLIGHT {
                let d = device[k] as usize;
                busy[d] = true;
            }
        }
        i = behind[i] as usize;
    }
    busy
}

// The due setting of a device. One that the hub does not have stands as at the opening.
pub fn due_setting<'a>(
    state: ValidState,
    device: &'a [u8; STEPS],
    stage: &'a [u8; STEPS],
    setting: &'a [i16; STEPS],
    wanted: u8,
) -> i16
    requires { (device.now ≡ state.rows.device) × (stage.now ≡ state.rows.stage)
        × (setting.now ≡ state.rows.setting) }
    ensures { result ≡ due (state_of state.rows) wanted }
{
    let at = wanted as usize;
    if MAX_DEVICES <= at {
        return due_on(state, device, stage, setting, wanted, 0);
    }
    let table = state.rows.settled_at;
    let settled = table[at];
    due_on(state, device, stage, setting, wanted, settled)
}
