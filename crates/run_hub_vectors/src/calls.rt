// A record of the hub: kind, N, K, the first id in four bytes; then the calls, each of the same size: its letter, a byte (a count of
// commands, a code, a device, a new pass limit, or how many entries are lent), and four bytes of id, two of setting, or the commands.
ghost use Rattle.std.specs.Prelude.{◌<◌};
ghost use Rattle.hub.specs.Valid.{Valid};

use hub::{Hub, Opened, Outcome};
use rules_routine::{Command, Routine};

pub const OPENING_SIZE: usize = 7;

pub const CALL_SIZE: usize = 40;

// The byte at a place, 0 past the end.
pub fn small_at(bytes: &[u8], at: usize) -> u8 {
    bytes.get(at).copied().unwrap_or(0)
}

fn id_at(bytes: &[u8], at: usize) -> u32
    requires { at < 65536 }
{
    u32::from_le_bytes([
        small_at(bytes, at),
        small_at(bytes, at + 1),
        small_at(bytes, at + 2),
        small_at(bytes, at + 3),
    ])
}

pub fn setting_at(bytes: &[u8], at: usize) -> i16
    requires { at < 65536 }
{
    i16::from_le_bytes([small_at(bytes, at), small_at(bytes, at + 1)])
}

fn command_at(bytes: &[u8], at: usize) -> Command
    requires { at < 4096 }
{
    Command {
        device: small_at(bytes, at),
        tag: small_at(bytes, at + 1),
        setting: setting_at(bytes, at + 2),
    }
}

fn routine_of(call: &[u8], count: u8) -> Routine {
    let mut routine = rules_routine::empty();
    for j in 0..usize::from(count) {
        routine = rules_routine::with_command(routine, command_at(call, 2 + 4 * j));
    }
    routine
}

pub fn opened(bytes: &[u8]) -> Opened
    ensures { Valid result.hub }
{
    let devices = small_at(bytes, 1);
    let pass_limit = small_at(bytes, 2);
    let first_id = id_at(bytes, 3);
    hub::open(devices, pass_limit, first_id)
}

pub fn called(hub: Hub, call: &[u8]) -> Outcome
    requires { Valid hub }
    ensures { Valid result.hub }
{
    let small = small_at(call, 1);
    let id = id_at(call, 2);
    match small_at(call, 0) {
        b'S' => hub::submit(hub, routine_of(call, small)),
        b'N' => hub::turn(hub, id),
        b'P' => hub::report(hub, id, small),
        b'F' => hub::fail(hub, small),
        b'R' => hub::restart(hub, small, setting_at(call, 2)),
        b'K' => hub::limit(hub, small),
        _ => hub::cancel(hub, id),
    }
}
