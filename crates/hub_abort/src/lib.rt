// Document 01, "Abort of R": what an abort puts back, from the due settings before and after it; in `cancel`, "Cancel aborts R". How the
// routine leaves stands in crate `hub_settle`.
#![tactic(auto)]

pub mod cancel;

ghost use Rattle.std.specs.Prelude.{◌≡◌, ◌<◌, ◌≤◌};
ghost use Rattle.rules_routine.specs.Limits.{max_devices};
ghost use Rattle.rules.specs.Progress.{in_flight_on};
ghost use Rattle.hub_sequence.specs.Links.{Stands};
ghost use Rattle.hub_answers.specs.View.{put_backs_of};
ghost use Rattle.hub_state.specs.View.{settings_of, flags_of, member_at, state_of, there};
ghost use Rattle.hub_state.specs.Contract.{put_backs_left};
ghost use Rattle.hub_abort.specs.PutBacks.{down_if, is_back_by, put_backs_from, TablesAre};

use hub_answers::{PutBack, PutBacks};
use hub_state::{Unanswered, ValidState, readers};
use rules_routine::limits::MAX_DEVICES;

// The tables that tell which devices are put back: up; with a command in flight of those left, and of the one that left; and due before
// and after.
#[derive(Clone, Copy)]
pub struct Tables {
    pub up: [bool; MAX_DEVICES],
    pub others: [bool; MAX_DEVICES],
    pub own: [bool; MAX_DEVICES],
    pub before: [i16; MAX_DEVICES],
    pub after: [i16; MAX_DEVICES],
}

impl Tables {
    // "A device that is up, with no command of another routine in flight on it, is sent its due setting exactly if that changed by the
    // abort or R had a command in flight on it"
    fn is_put_back(&self, d: usize) -> bool
        requires { d < max_devices }
        ensures { result ≡ is_back_by self.now d }
    {
        self.up[d] && !self.others[d] && (self.before[d] != self.after[d] || self.own[d])
    }
}

// "These go out by rising device."
fn put_backs(devices: u8, tables: Tables) -> PutBacks
    requires { devices ≤ max_devices }
    ensures { put_backs_of result ≡ put_backs_from (is_back_by tables) (settings_of tables.after) 0 devices }
{
    let mut backs = PutBacks::none();
    let count = devices as usize;
    for d in 0..count {
        if tables.is_put_back(d) {
            let back = PutBack {
                device: d as u8,
                setting: tables.after[d],
            };
            backs = backs.with_put_back(back);
        }
    }
    backs
}

// The devices with a command of this routine in flight: one at most.
fn own_flights(state: ValidState, at: usize) -> [bool; MAX_DEVICES]
    requires { Stands state.rows.links at }
    ensures { flags_of result ≡ (λ d. in_flight_on d (member_at state.rows at)) }
{
    let mut own = [false; MAX_DEVICES];
    let stage = state.rows.stage;
    let open = readers::unanswered_at(state, &stage, at);
    let Unanswered::InFlight(k) = open else {
        return own;
    };
    let device = state.rows.device;
    let d = device[k] as usize;
    own[d] = true;
    own
}

// The tables of an abort of the routine in a slot, while a device fails, if one does. They are read off the rows as they are: the routine's
// commands are left out.
fn tables_of(state: ValidState, at: usize, down: Option<u8>) -> Tables
    requires { Stands state.rows.links at }
    ensures { TablesAre state.rows at down result }
{
    let before = hub_due::due_settings(state);
    let after = hub_due::due_settings_without(state, Some(at));
    let others = hub_due::in_flight_without(state, at);
    let own = own_flights(state, at);
    let mut up = state.rows.up;
    if let Some(device) = down {
        if (device as usize) < MAX_DEVICES {
            up[device as usize] = false;
        }
    }
    Tables {
        up,
        others,
        own,
        before,
        after,
    }
}

// What the abort of the routine in a slot puts back, while a device fails, if one does.
pub fn put_backs_of(state: ValidState, at: usize, down: Option<u8>) -> PutBacks
    requires { Stands state.rows.links at }
    ensures { put_backs_of result ≡ put_backs_left (down_if (state_of state.rows) down) (there state.rows at) }
{
    let tables = tables_of(state, at, down);
    put_backs(state.rows.devices, tables)
}
