// A new pass limit: document 02, item 13, "New pass limit without a stop".
#![tactic(auto)]

ghost use Rattle.std.specs.Prelude.{◌≡◌};
ghost use Rattle.rules.specs.Settle.{settle};
ghost use Rattle.rules.specs.Limit.{new_limit_check, with_pass_limit};
ghost use Rattle.hub_state.specs.View.{state_of};
ghost use Rattle.hub_state.specs.Valid.{StateOk};
ghost use Rattle.hub_state.specs.Unmoved.{Unmoved};
ghost use Rattle.hub_limit.specs.Contract.{Limits};

use hub_state::ValidState;
use rules_routine::Refusal;
use rules_routine::limits::{HIGHEST_PASS_LIMIT, MAX_DEVICES};

// "N not 1 to 32", then "K above 8": of an opening, and of a new pass limit on a hub with so many devices.
pub fn check(devices: u8, pass_limit: u8) -> Result<(), Refusal>
    ensures { result ≡ new_limit_check devices pass_limit }
{
    if devices == 0 {
        return Err(Refusal::DevicesOutOfRange);
    }
    if MAX_DEVICES < devices as usize {
        return Err(Refusal::DevicesOutOfRange);
    }
    if HIGHEST_PASS_LIMIT < pass_limit {
        return Err(Refusal::PassLimitOutOfRange);
    }
    Ok(())
}

// "Every routine keeps its count": K alone changes. Then, as "After each call", what is committed at the front settles; after calls from an
// opening that is nothing.
fn with_limit(state: ValidState, pass_limit: u8) -> ValidState
    ensures { (StateOk result.rows) × (state_of result.rows ≡ settle (with_pass_limit (state_of state.rows) pass_limit))
        × (Unmoved state.rows result.rows) }
{
    let mut changed = state;
    changed.rows.pass_limit = pass_limit;
    hub_settle::settle::settle(changed)
}

// The call: the state with the new K, or why it is turned down.
pub fn set_limit(state: ValidState, pass_limit: u8) -> Result<ValidState, Refusal>
    ensures { Limits state.rows pass_limit result }
{
    check(state.rows.devices, pass_limit)?;
    Ok(with_limit(state, pass_limit))
}
