// All due settings in one reading: document 02, item 14. The pass along the sequence is `due_settings_without` of crate `hub_due`.
#![tactic(auto)]

ghost use Rattle.std.specs.Prelude.{◌≡◌, length};
ghost use Rattle.rules.specs.AllDue.{list_check, list_after};
ghost use Rattle.hub_state.specs.View.{state_of};

use hub_state::ValidState;
use rules_routine::Refusal;

// What all devices are due, into a lent list. "A list shorter than N gets 21 and is unchanged."
pub fn put_settings(state: ValidState, list: &mut [i16]) -> Result<(), Refusal>
    ensures answers { result ≡ list_check (state_of state.rows) (length list.old) }
    ensures leaves { list.new ≡ list_after (state_of state.rows) list.old }
{
    let count = state.rows.devices as usize;
    if list.len() < count {
        return Err(Refusal::NoRoom);
    }
    let table = hub_due::due_settings(state);
    list[..count].copy_from_slice(&table[..count]);
    Ok(())
}
