// A routine leaves the sequence: document 01, "Abort of R".
ghost use Rattle.std.specs.Prelude.{◌≡◌, ◌<◌};
ghost use Rattle.rules_routine.specs.Limits.{max_sequence};
ghost use Rattle.hub_sequence.specs.Links.{Stands};
ghost use Rattle.hub_settle.specs.Contract.{LeavesHub, MovesRestarts};

use crate::moved_marks;
use hub_sequence::order;
use hub_state::{HubState, NO_RESTART, RESTARTS, ValidState};
use rules_routine::limits::{MAX_DEVICES, MAX_SEQUENCE};

// The restarts of one slot go behind those of another.
fn moved_restarts(row: [i16; RESTARTS], from: usize, to: usize) -> [i16; RESTARTS]
    requires { (from < max_sequence) × (to < max_sequence) × (from ≡ to → ⊥) }
    ensures { MovesRestarts row from to result }
{
    let old = from * MAX_DEVICES;
    let new = to * MAX_DEVICES;
    let mut moved = row;
    for d in 0..MAX_DEVICES {
        let restart = row[old + d];
        if restart != NO_RESTART {
            moved[new + d] = restart;
        }
    }
    moved
}

// "R leaves the sequence. Marks that were R become the routine before it in the sequence, or 0; events attached to R move there"
pub fn leave(state: ValidState, at: usize) -> ValidState
    requires { Stands state.rows.links at }
    ensures { LeavesHub state.rows at result.rows }
{
    let ids = state.rows.ids;
    let mut settled_at = state.rows.settled_at;
    let mut restarts = state.rows.restarts;
    let ahead = state.rows.links.ahead;
    let before = ahead[at] as usize;
    let mut to: u32 = 0;
    if before < MAX_SEQUENCE {
        to = ids[before];
        let moved = moved_restarts(restarts, at, before);
        restarts = moved;
    } else {
        let after = hub_due::after_restarts(settled_at, &restarts, at);
        settled_at = after;
    }
    let mark = moved_marks(state.rows.mark, ids[at], to);
    let links = order::leave(state.rows.links, at as u8);
    ValidState {
        rows: HubState {
            links,
            restarts,
            settled_at,
            mark,
            ..state.rows
        },
    }
}
