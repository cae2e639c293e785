// The rows of a newcomer, filled in at its slot.
ghost use Rattle.std.specs.Prelude.{◌*◌, ◌+◌, ◌≤◌};
ghost use Rattle.hub_apply.specs.Fill.{Fills, FillsCommands, CanFill, CanPassBehind, PassesBehind};

use hub_sequence::Links;
use hub_state::STEPS;
use rules_routine::Routine;
use rules_routine::limits::{MAX_COMMANDS, MAX_SEQUENCE};

// "Every running routine now behind it has been passed once more." The newcomer itself was not passed.
pub fn passed_behind(
    row: [u8; MAX_SEQUENCE],
    links: Links,
    committed: [bool; MAX_SEQUENCE],
    slot: usize,
) -> [u8; MAX_SEQUENCE]
    requires { CanPassBehind row links committed slot }
    ensures { PassesBehind row links committed slot result }
{
    let behind = links.behind;
    let mut passed = row;
    passed[slot] = 0;
    let mut i = behind[slot] as usize;
    while i < MAX_SEQUENCE {
        if !committed[i] {
            passed[i] = passed[i] + 1;
        }
        i = behind[i] as usize;
    }
    passed
}

// The rows of the commands' devices, tags and settings.
#[derive(Clone, Copy)]
pub struct CommandRows {
    pub device: [u8; STEPS],
    pub tag: [u8; STEPS],
    pub setting: [i16; STEPS],
}

// The commands of a newcomer, in their rows.
pub fn with_commands(rows: CommandRows, slot: usize, routine: Routine) -> CommandRows
    requires { CanFill slot routine }
    ensures { FillsCommands rows slot routine result }
{
    let commands = routine.commands;
    let count = routine.count;
    let from = slot * MAX_COMMANDS;
    let mut device = rows.device;
    let mut tag = rows.tag;
    let mut setting = rows.setting;
    for j in 0..count {
        let command = commands[j];
        let to = command.setting;
        device[from + j] = command.device;
        tag[from + j] = command.tag;
        setting[from + j] = to;
    }
    CommandRows {
        device,
        tag,
        setting,
    }
}

// A slot's part of a row gets one value.
pub fn filled<T: Copy, const N: usize>(row: [T; N], from: usize, count: usize, value: T) -> [T; N]
    requires { from + count ≤ N }
    ensures { (missing : T) → Fills missing row from count (λ j. value) result }
{
    let mut filled = row;
    for j in 0..count {
        filled[from + j] = value;
    }
    filled
}
