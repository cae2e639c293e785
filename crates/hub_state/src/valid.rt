// A state in order, as a type: no call asks for it beside the rows.
ghost use Rattle.hub_state.specs.Valid.{StateOk};
ghost use Rattle.hub_state.specs.Props.{state-prop};

use crate::HubState;

// The rows of a hub, and that they are in order.
#[derive(Clone, Copy)]
pub struct ValidState {
    pub rows: HubState,
    pub ghost ok: { StateOk rows } by { state-prop rows },
}
