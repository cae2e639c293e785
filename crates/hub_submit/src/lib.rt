// Document 01, "Submit". Refusals: 4; then the commands in turn, each 5, 6, 7 and 22 (document 02, item 4); then 8, 9.
#![tactic(auto)]

ghost use Rattle.std.specs.Prelude.{◌≡◌, map};
ghost use Rattle.rules_routine.specs.Routine.{commands_of};
ghost use Rattle.rules.specs.Sequence.{last_id_or};
ghost use Rattle.rules.specs.Submit.{submit_check, submit_of};
ghost use Rattle.hub_sequence.specs.Lists.{ahead_of_place};
ghost use Rattle.hub_sequence.specs.Links.{none, slots_of, StandsOrNone};
ghost use Rattle.hub_state.specs.View.{member_at, state_of};
ghost use Rattle.hub_state.specs.Contract.{Decides};

use hub_answers::{Answer, Placed};
use hub_sequence::NONE;
use hub_state::{Change, Decision, ValidState, decisions};
use rules_routine::limits::{HIGHEST_ID, MAX_SEQUENCE};
use rules_routine::{Refusal, Routine};

// "4; then the commands in turn", then 8, 9.
fn check(state: ValidState, routine: Routine) -> Result<(), Refusal>
    ensures { result ≡ submit_check (state_of state.rows) (commands_of routine) }
{
    rules_routine::check(routine, state.rows.devices)?;
    let links = state.rows.links;
    if MAX_SEQUENCE <= links.taken {
        return Err(Refusal::SequenceFull);
    }
    if HIGHEST_ID < state.rows.next_id {
        return Err(Refusal::IdsUsedUp);
    }
    Ok(())
}

// The id of the routine in a slot; 0 for none.
fn id_in(state: ValidState, slot: u8) -> u32
    requires { StandsOrNone state.rows.links slot }
    ensures { result ≡ last_id_or 0 (map (member_at state.rows) (ahead_of_place slot none (slots_of state.rows.links))) }
{
    if slot == NONE {
        return 0;
    }
    let ids = state.rows.ids;
    let i = slot as usize;
    ids[i]
}

// "Place the routine directly after the latest": its id and the id it follows.
fn place(state: ValidState, routine: Routine) -> Decision
    requires { submit_check (state_of state.rows) (commands_of routine) ≡ Ok tt }
    ensures { Decides state.rows (commands_of routine) result (submit_of (state_of state.rows) (commands_of routine)) }
{
    let latest = hub_search::latest(state, routine);
    let after = id_in(state, latest);
    let answer = Placed {
        id: state.rows.next_id as u32,
        after,
    };
    decisions::plain(Answer::Placed(answer), Change::Join(latest))
}

// What a submission comes to: its refusal, or the placement.
pub fn decide(state: ValidState, routine: Routine) -> Decision
    ensures { Decides state.rows (commands_of routine) result (submit_of (state_of state.rows) (commands_of routine)) }
{
    match check(state, routine) {
        Ok(()) => place(state, routine),
        Err(refusal) => decisions::refused(refusal),
    }
}
