// The hub's state by value: rows over the slots of the sequence, whose order the links keep; and what a call comes to on it, as a decision.
// Document 01, "Things and ranges" and "The steps". `specs/` reads the rows as the state of the rules, and a decision as their result. Only
// crate `hub` has a hub to give to others; the crates of the calls decide on its state, and those of the appliers change it.
#![tactic(auto)]

pub mod decisions;
pub mod readers;
pub mod valid;

use hub_answers::{Answer, PutBack};
use hub_sequence::Links;
use rules_routine::limits::{MAX_COMMANDS, MAX_DEVICES, MAX_SEQUENCE};
pub use valid::ValidState;

// The commands of a slot stand in their rows from `slot * MAX_COMMANDS` on, its restarts from `slot * MAX_DEVICES` on.
pub const STEPS: usize = MAX_SEQUENCE * MAX_COMMANDS;

pub const RESTARTS: usize = MAX_SEQUENCE * MAX_DEVICES;

// Where a command stands: its stage. Numbers and no enum: the searches compare stages by order, `stage[k] < DONE`, on rows of bytes.
pub const TO_DO: u8 = 0;

pub const IN_FLIGHT: u8 = 1;

pub const DONE: u8 = 2;

pub const SKIPPED: u8 = 3;

// Of a condition (document 02, item 4).
pub const HELD: u8 = 4;

pub const NOT_HELD: u8 = 5;

// In the row of restarts, what stands at a device that has none. No setting is that high. A row of `Option` would be twice as long, against
// the stack that include/plot_hub.h promises.
pub const NO_RESTART: i16 = 32767;

// The hub: a row has an entry for each slot of the sequence, for each command of a slot, for each slot and device, or for each device. Rows
// side by side and no row of structs: a call takes out of the state the rows that it reads, and no more is copied.
#[derive(Clone, Copy)]
pub struct HubState {
    // N.
    pub devices: u8,
    // K, the pass limit in force.
    pub pass_limit: u8,
    // The id that the next routine gets; one past the last id when all are used up.
    pub next_id: u64,
    // The order of the sequence, and which slots are free.
    pub links: Links,
    // For each slot the routine's id.
    pub ids: [u32; MAX_SEQUENCE],
    // How often a newcomer was placed ahead of it while it ran.
    pub passed: [u8; MAX_SEQUENCE],
    // Is it committed? It stays in the sequence until it settles.
    pub committed: [bool; MAX_SEQUENCE],
    // How many commands it has.
    pub counts: [u8; MAX_SEQUENCE],
    // How many of them, from the first on, are answered.
    pub answered: [u8; MAX_SEQUENCE],
    // The due setting of the device of its command in flight, when that was sent.
    pub due_then: [i16; MAX_SEQUENCE],
    // For each command its device.
    pub device: [u8; STEPS],
    // Its tag.
    pub tag: [u8; STEPS],
    // Its setting.
    pub setting: [i16; STEPS],
    // Its stage, one of the numbers above.
    pub stage: [u8; STEPS],
    // For each slot and device the setting of the last restart attached to the routine, or NO_RESTART.
    pub restarts: [i16; RESTARTS],
    // For each device the setting that the settled part leaves it at.
    pub settled_at: [i16; MAX_DEVICES],
    // Is it up?
    pub up: [bool; MAX_DEVICES],
    // Its mark: the id of the routine that began it last, 0 for none.
    pub mark: [u32; MAX_DEVICES],
}

// The first command of a routine that is not answered, by its place in the rows.
#[derive(Clone, Copy)]
pub enum Unanswered {
    Nothing,
    ToDo(usize),
    InFlight(usize),
}

// The first command of the routine in a slot that is not answered comes to a stage; `begins`: the routine begins its device by that, which
// gets its mark.
#[derive(Clone, Copy)]
pub struct Staged {
    pub at: usize,
    pub stage: u8,
    pub due_then: i16,
    pub begins: bool,
    pub device: u8,
    pub id: u32,
}

// What a call changes, by slots of the state that it was decided on. `Join` has the slot that the newcomer follows, `Fail` and `Restart`
// the one of the routine that is halfway with the device, if there is one: it aborts first or has its commands left there skipped.
#[derive(Clone, Copy)]
pub enum Change {
    Nothing,
    Stage(Staged),
    Commit(usize),
    Join(u8),
    Abort(usize),
    Fail(u8, Option<usize>),
    Restart(u8, i16, Option<usize>),
}

// What a call comes to: the abort that comes first, if there is one, the answer, what the answer puts back, and the change. What an abort
// puts back is known once it is carried out.
#[derive(Clone, Copy)]
pub struct Decision {
    pub first: Option<u32>,
    pub answer: Answer,
    pub back: Option<PutBack>,
    pub change: Change,
}
