// "while the first in the sequence is committed, it joins the settled part with its attached events, and marks equal to it become 0":
// document 01, "Settling".
ghost use Rattle.std.specs.Prelude.{◌≡◌};
ghost use Rattle.hub_state.specs.View.{state_of, first_committed};
ghost use Rattle.hub_settle.specs.Contract.{SettlesHub};

use crate::moved_marks;
use hub_sequence::order;
use hub_state::{HubState, ValidState};
use rules_routine::limits::{MAX_COMMANDS, MAX_SEQUENCE};

// Is the first in the sequence committed?
pub fn settles(state: ValidState) -> bool
    ensures { result ≡ first_committed (state_of state.rows).sequence }
{
    let links = state.rows.links;
    let first = links.first as usize;
    if first < MAX_SEQUENCE {
        let committed = state.rows.committed;
        return committed[first];
    }
    false
}

// The committed routines at the front settle.
pub fn settle(state: ValidState) -> ValidState
    ensures { SettlesHub state.rows result.rows }
{
    let ids = state.rows.ids;
    let committed = state.rows.committed;
    let answered = state.rows.answered;
    let device = state.rows.device;
    let setting = state.rows.setting;
    let stage = state.rows.stage;
    let restarts = state.rows.restarts;
    let mut links = state.rows.links;
    let mut settled = state.rows.settled_at;
    let mut mark = state.rows.mark;
    let mut i = links.first as usize;
    while i < MAX_SEQUENCE {
        if !committed[i] {
            break;
        }
        let from = i * MAX_COMMANDS;
        let end = from + (answered[i] as usize);
        let done = hub_due::after_done(settled, &device, &stage, &setting, from, end);
        let after = hub_due::after_restarts(done, &restarts, i);
        settled = after;
        let moved = moved_marks(mark, ids[i], 0);
        mark = moved;
        let left = order::leave(links, i as u8);
        links = left;
        i = links.first as usize;
    }
    ValidState {
        rows: HubState {
            links,
            settled_at: settled,
            mark,
            ..state.rows
        },
    }
}
