// Commands, routines, and what turns a call down: document 01, "Things and ranges" and "When a call is turned down"; conditions: document
// 02, item 4.
#![tactic(auto)]

pub mod limits;
pub mod refusals;
pub mod reports;
pub mod tags;

ghost use Rattle.std.specs.Prelude.{◌≡◌, ◌+◌, ◌<◌, ◌≤◌, get_or};
ghost use Rattle.std.proofs.Math.Seq.{slice};
ghost use Rattle.rules_routine.specs.Range.{in_range};
ghost use Rattle.rules_routine.specs.Limits.{max_commands};
ghost use Rattle.rules_routine.specs.Routine.{zero_command, commands_of, no_routine, with_command, command_check};
ghost use Rattle.rules_routine.specs.Routine.{stands_alone};
ghost use Rattle.rules_routine.specs.Routine.{routine_check};

use limits::{HIGHEST_SETTING, LOWEST_SETTING, MAX_COMMANDS};
pub use refusals::Refusal;
use tags::{CONDITION, HIGHEST_TAG};

#[derive(Clone, Copy)]
pub struct Command {
    pub device: u8,
    pub tag: u8,
    pub setting: i16,
}

// The first `count` of the commands; a count above MAX_COMMANDS, which no slice of them could have, is a routine that is turned down.
#[derive(Clone, Copy)]
pub struct Routine {
    pub commands: [Command; MAX_COMMANDS],
    pub count: usize,
}

// A routine of no commands.
pub fn empty() -> Routine
    ensures { result ≡ no_routine }
{
    let none = Command {
        device: 0,
        tag: 0,
        setting: 0,
    };
    let commands = [none; MAX_COMMANDS];
    Routine { commands, count: 0 }
}

// A routine with one command more; past the eighth it is counted and not held.
pub fn with_command(routine: Routine, command: Command) -> Routine
    ensures { result ≡ with_command routine command }
{
    let mut longer = routine;
    let at = longer.count;
    if at < MAX_COMMANDS {
        longer.commands[at] = command;
        longer.count = at + 1;
        return longer;
    }
    if at < usize::MAX {
        longer.count = at + 1;
    }
    longer
}

pub fn in_range(setting: i16) -> bool
    ensures { result ≡ in_range setting }
{
    LOWEST_SETTING <= setting && setting <= HIGHEST_SETTING
}

// A command against a number of devices: 5, 6, 7, with the command's index.
fn check_command(command: Command, devices: u8, index: usize) -> Result<(), Refusal>
    ensures { result ≡ command_check devices index command }
{
    if devices <= command.device {
        return Err(Refusal::DeviceNotBelow(index));
    }
    if !in_range(command.setting) {
        return Err(Refusal::SettingOutOfRange(index));
    }
    if HIGHEST_TAG < command.tag {
        return Err(Refusal::TagOutOfRange(index));
    }
    Ok(())
}

// Is the command at an index a condition that is last or is followed by another?
fn stands_alone(routine: Routine, index: usize) -> bool
    requires { (index < routine.count) × (routine.count ≤ max_commands) }
    ensures { result ≡ stands_alone (get_or routine.commands index zero_command)
        (slice (index + 1) routine.count routine.commands) }
{
    let command = routine.commands[index];
    if command.tag != CONDITION {
        return false;
    }
    let next = index + 1;
    if routine.count <= next {
        return true;
    }
    let after = routine.commands[next];
    after.tag == CONDITION
}

// A routine against a number of devices (N in the hub, 32 in a book): 4, then the commands in turn.
pub fn check(routine: Routine, devices: u8) -> Result<(), Refusal>
    ensures { result ≡ routine_check devices (commands_of routine) }
{
    let count = routine.count;
    if count == 0 {
        return Err(Refusal::CommandCount);
    }
    if MAX_COMMANDS < count {
        return Err(Refusal::CommandCount);
    }
    for i in 0..count {
        check_command(routine.commands[i], devices, i)?;
        if stands_alone(routine, i) {
            return Err(Refusal::ConditionAlone(i));
        }
    }
    Ok(())
}
