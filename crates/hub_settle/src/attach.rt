// "Then the event is attached to D's mark": document 01, "Failure or restart of D".
ghost use Rattle.std.specs.Prelude.{◌≡◌, true, ◌<◌};
ghost use Rattle.rules_routine.specs.Limits.{max_devices};
ghost use Rattle.rules.specs.Attach.{one_restart, attach};
ghost use Rattle.hub_state.specs.View.{is_restart, state_of};
ghost use Rattle.hub_state.specs.Valid.{StateOk};
ghost use Rattle.hub_state.specs.Unmoved.{InPlace};

use hub_state::ValidState;
use rules_routine::limits::MAX_DEVICES;

// A restart of one device, attached to an id: to 0, the settled part, or to the routine that has it.
pub fn attach(state: ValidState, id: u32, device: u8, setting: i16) -> ValidState
    requires { (device < max_devices) × (is_restart setting ≡ true) }
    ensures { (StateOk result.rows) × (state_of result.rows ≡ attach id (one_restart device setting) (state_of state.rows))
        × (InPlace state.rows result.rows) }
{
    let d = device as usize;
    let mut changed = state;
    if id == 0 {
        changed.rows.settled_at[d] = setting;
        return changed;
    }
    let Some(to) = hub_search::with_id(state, id) else {
        return changed;
    };
    changed.rows.restarts[to * MAX_DEVICES + d] = setting;
    changed
}
