// A routine leaves the sequence, by an abort or since it settles; restarts are attached. Document 01, "Abort of R", "Failure or restart of
// D" and "Settling". Each has a module of its name.
#![tactic(auto)]

pub mod attach;
pub mod leave;
pub mod settle;

ghost use Rattle.std.specs.Prelude.{◌≡◌, ◌<◌};
ghost use Rattle.rules.specs.Sequence.{move_marks};
ghost use Rattle.hub_state.specs.View.{marks_of};

use rules_routine::limits::MAX_DEVICES;

// Marks that were one id become another.
pub fn moved_marks(marks: [u32; MAX_DEVICES], from: u32, to: u32) -> [u32; MAX_DEVICES]
    requires { 0 < from }
    ensures { marks_of result ≡ move_marks from to (marks_of marks) }
{
    let mut moved = marks;
    for d in 0..MAX_DEVICES {
        if moved[d] == from {
            moved[d] = to;
        }
    }
    moved
}
