// The line program over an input that comes in parts, as a program reads it: document 01, "The line program". The steps are code on byte
// slices: nothing here reads or writes. specs/Claims.antt says what the steps in turn print.
#![tactic(auto)]

pub mod whole;

ghost use Rattle.std.specs.Prelude.{◌≡◌, ◌+◌, ◌≤◌, length};
ghost use Rattle.hub.specs.Valid.{Valid};
ghost use Rattle.line_parts.specs.Contract.{input_room, room_for, TakesPart, TakesEnd};

use hub::Hub;
use line_print::MAX_TEXT;
use rules_routine::limits::MAX_LINE;

// At most so many bytes are read at a time. What they print is handed out at once, so the buffer for it has room for the most that they can
// print.
pub const MAX_PART: usize = 2048;

// The pending bytes, and a part behind them.
pub const INPUT_ROOM: usize = MAX_LINE + 1 + MAX_PART;

pub const OUT_ROOM: usize = MAX_TEXT * (INPUT_ROOM + 2);

// (Not one function with a const parameter: each contract names the length by the definition of its own.)
pub fn input_buffer() -> [u8; INPUT_ROOM]
    ensures { input_room ≡ length result }
{
    [0; INPUT_ROOM]
}

pub fn out_buffer() -> [u8; OUT_ROOM]
    ensures { room_for input_room ≡ length result }
{
    [0; OUT_ROOM]
}

// The hub after a part, how many bytes are pending of a line whose end has not come, and how long the text is that the part prints.
#[derive(Clone, Copy)]
pub struct AfterPart {
    pub hub: Hub,
    pub pending: usize,
    pub length: usize,
}

// A part that was read behind the pending bytes: its whole lines are run, and the rest is pending. There is room for what they print, so
// that there is a length.
pub fn take_part(
    hub: Hub,
    pending: usize,
    got: usize,
    input: &mut [u8],
    out: &mut [u8],
) -> AfterPart
    requires { (Valid hub) × (pending + got ≤ length input.old) × (room_for (length input.old) ≤ length out.old) }
    ensures { TakesPart hub pending got input.old input.new out.new result }
{
    let filled = pending + got;
    let whole = whole::whole_length(&input[..filled]);
    let written = line::run_part(hub, &input[..whole], out);
    let next = written.hub;
    let length = written.length.unwrap_or(0);
    let kept = whole::keep(input, whole, filled);
    AfterPart {
        hub: next,
        pending: kept,
        length,
    }
}

// The end of the input: the pending line, if there is one, and the device lines. How long their text is.
pub fn take_end(hub: Hub, pending: usize, input: &[u8], out: &mut [u8]) -> usize
    requires { (Valid hub) × (pending ≤ length input.now) × (room_for (length input.now) ≤ length out.old) }
    ensures { TakesEnd hub pending input.now out.new result }
{
    let written = line::run_last(hub, &input[..pending], out);
    written.length.unwrap_or(0)
}
