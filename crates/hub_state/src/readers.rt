// Readings of one device or one slot.
ghost use Rattle.std.specs.Prelude.{◌≡◌};
ghost use Rattle.rules.specs.Sequence.{last_id_or};
ghost use Rattle.hub_sequence.specs.Links.{Stands};
ghost use Rattle.hub_state.specs.View.{state_of, there};
ghost use Rattle.hub_state.specs.Unanswered.{UnansweredIs};

use crate::{HubState, IN_FLIGHT, STEPS, Unanswered, ValidState};
use rules_routine::limits::{MAX_COMMANDS, MAX_SEQUENCE};

// Is a device up? One that the hub does not have stands as at the opening.
pub fn is_up(state: HubState, device: u8) -> bool
    ensures { result ≡ (state_of state).up device }
{
    let up = state.up;
    up.get(usize::from(device)).copied().unwrap_or(true)
}

// The id of the routine before the one in a slot; 0, the settled part, if there is none.
pub fn id_ahead(state: ValidState, at: usize) -> u32
    requires { Stands state.rows.links at }
    ensures { result ≡ last_id_or 0 (there state.rows at).ahead }
{
    let links = state.rows.links;
    let ahead = links.ahead;
    let before = ahead[at] as usize;
    if before < MAX_SEQUENCE {
        let ids = state.rows.ids;
        return ids[before];
    }
    0
}

// The first command that is not answered: the one in flight, or the next. The row of stages is lent, so that it is taken out of the state
// once a call.
pub fn unanswered_at<'a>(state: ValidState, stage: &'a [u8; STEPS], at: usize) -> Unanswered
    requires { (Stands state.rows.links at) × (stage.now ≡ state.rows.stage) }
    ensures { UnansweredIs state.rows at result }
{
    let counts = state.rows.counts;
    let answered = state.rows.answered;
    if counts[at] <= answered[at] {
        return Unanswered::Nothing;
    }
    let k = at * MAX_COMMANDS + (answered[at] as usize);
    if stage[k] == IN_FLIGHT {
        return Unanswered::InFlight(k);
    }
    Unanswered::ToDo(k)
}
