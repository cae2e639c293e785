// What the hub answers, as values: document 01, "Things and ranges" ("holds them as one record inside its case") and "The steps".
// `specs/` sets out for each case of each enum which answer of document 01 it is, and with which values.
#![tactic(auto)]

mod changes;

ghost use Rattle.std.specs.Prelude.{◌≡◌, [], ◌∷◌, ◌++◌, suc, ◌<◌, ◌≤◌};
ghost use Rattle.rules_routine.specs.Limits.{max_devices};

pub use changes::changes_nothing;
use rules_routine::limits::MAX_DEVICES;
use rules_routine::{Command, Refusal};

// A routine was placed: its id, and the id it follows, 0 for the settled part.
#[derive(Clone, Copy)]
pub struct Placed {
    pub id: u32,
    pub after: u32,
}

// A command is to be sent: the id of its routine, and the command.
#[derive(Clone, Copy)]
pub struct Sent {
    pub id: u32,
    pub command: Command,
}

// What a call answers. A wait has the id and the id it waits on; an event its device and the id it follows; a new pass limit the K now in
// force; the others the routine's id.
#[derive(Clone, Copy)]
pub enum Answer {
    Refused(Refusal),
    Placed(Placed),
    Wait(u32, u32),
    Sent(Sent),
    Done(u32),
    Skipped(u32),
    Committed(u32),
    Aborted(u32),
    Down(u8, u32),
    Up(u8, u32),
    Limited(u8),
    Held(u32),
    NotHeld(u32),
}

// A setting that a device is put back to.
#[derive(Clone, Copy)]
pub struct PutBack {
    pub device: u8,
    pub setting: i16,
}

// The first `count` of the items, by rising device. (No heap: an array, and how much of it counts.)
#[derive(Clone, Copy)]
pub struct PutBacks {
    pub items: [PutBack; MAX_DEVICES],
    pub count: usize,
    pub ghost within: { count ≤ max_devices },
}

impl PutBacks {
    ghost use Rattle.hub_answers.specs.View.{put_backs_of, back_of, one_of};

    // No device is put back.
    pub fn none() -> PutBacks
        ensures { (result.count ≡ 0) × (put_backs_of result ≡ []) }
    {
        let none = PutBack {
            device: 0,
            setting: 0,
        };
        let items = [none; MAX_DEVICES];
        PutBacks { items, count: 0 }
    }

    // One more device is put back.
    pub fn with_put_back(self, back: PutBack) -> PutBacks
        requires { self.count < max_devices }
        ensures { (result.count ≡ suc self.count) × (put_backs_of result ≡ put_backs_of self ++ (back_of back ∷ [])) }
    {
        let mut more = self;
        let at = more.count;
        more.items[at] = back;
        more.count = at + 1;
        more
    }

    // None or one, as a list.
    pub fn at_most_one(back: Option<PutBack>) -> PutBacks
        ensures { put_backs_of result ≡ one_of back }
    {
        let none = PutBacks::none();
        match back {
            None => none,
            Some(one) => none.with_put_back(one),
        }
    }
}
