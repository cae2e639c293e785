// The opening: document 01, "Things and ranges".
ghost use Rattle.std.specs.Prelude.{◌≡◌, ◌<◌, ◌≤◌};
ghost use Rattle.rules_routine.specs.Limits.{max_devices};
ghost use Rattle.rules.specs.Open.{open_check, new_hub};
ghost use Rattle.hub.specs.View.{view};
ghost use Rattle.hub.specs.Valid.{Valid};

use crate::Hub;
use hub_sequence::order;
use hub_state::{HubState, RESTARTS, STEPS, ValidState};
use rules_routine::Refusal;
use rules_routine::limits::{MAX_DEVICES, MAX_SEQUENCE};

// 1, 2, 3.
pub fn check(devices: u8, pass_limit: u8, first_id: u32) -> Result<(), Refusal>
    ensures { result ≡ open_check devices pass_limit first_id }
{
    hub_limit::check(devices, pass_limit)?;
    if first_id == 0 {
        return Err(Refusal::FirstIdZero);
    }
    Ok(())
}

// "At the opening all are up at 0."
pub fn new_hub(devices: u8, pass_limit: u8, first_id: u32) -> Hub
    requires { (devices ≤ max_devices) × (0 < first_id) }
    ensures { (Valid result) × (view result ≡ new_hub devices pass_limit first_id) }
{
    let links = order::empty();
    let rows = HubState {
        devices,
        pass_limit,
        next_id: first_id as u64,
        links,
        ids: [0; MAX_SEQUENCE],
        passed: [0; MAX_SEQUENCE],
        committed: [false; MAX_SEQUENCE],
        counts: [0; MAX_SEQUENCE],
        answered: [0; MAX_SEQUENCE],
        due_then: [0; MAX_SEQUENCE],
        device: [0; STEPS],
        tag: [0; STEPS],
        setting: [0; STEPS],
        stage: [0; STEPS],
        restarts: [0; RESTARTS],
        settled_at: [0; MAX_DEVICES],
        up: [true; MAX_DEVICES],
        mark: [0; MAX_DEVICES],
    };
    Hub {
        state: ValidState { rows },
    }
}
