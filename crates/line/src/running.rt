// Lines in turn, by value, and how long a text is: it is measured on a buffer of one byte.
ghost use Rattle.std.specs.Prelude.{◌≡◌, true, ◌<◌, ◌≤◌, ◌^◌, length};
ghost use Rattle.rules.specs.Rounds.{times};
ghost use Rattle.line_rules.specs.Text.{line_end};
ghost use Rattle.line_rules.specs.Pieces.{lines_of};
ghost use Rattle.line_rules.specs.Program.{steps, run_from};
ghost use Rattle.hub.specs.Valid.{Valid};
ghost use Rattle.line.specs.View.{hub_in};
ghost use Rattle.line.specs.Contract.{chunk_length, Ample, RunsLines, Measures};

use crate::lines;
use hub::Hub;
use hub_state::Change;
use line_print::MAX_TEXT;
use line_read::Line;
use line_rules::LINE_END;

// Ends of lines are counted in chunks of so many bytes: a byte holds their number, and the count of many bytes is one operation.
const CHUNK_LENGTH: usize = 240;

// The hub after some lines, and the place behind what they print.
#[derive(Clone, Copy)]
pub struct Lines {
    pub hub: Hub,
    pub at: usize,
}

// Lines in turn, until what they print goes past the room. A line's text is put together in a buffer of its own, in which everything fits,
// and then copied. A call before an accepted `O` is not read: there is no hub, that is, one of no devices. A call decides on the hub as it
// is, its answers are put, and the arms of the match make the next hub: so it is changed in its place and not copied. (The match takes the
// line as it was read, and the routine out of the call only where it joins: a line is large by it, and is not to be copied on the way.)
pub fn run_lines(hub: Hub, input: &[u8], out: &mut [u8], room: usize) -> Lines
    requires { (Valid hub) × (room < 2 ^ 63) }
    ensures { RunsLines hub input.now room out.old out.new result }
{
    let mut now = hub;
    let mut text = [0u8; MAX_TEXT];
    let mut at = 0;
    let mut from = 0;
    while from < input.len() {
        if room < at {
            return Lines { hub: now, at };
        }
        let next = lines::next_line(input, from);
        let said = next.said;
        let mut printed = 0;
        match said {
            Line::Open(devices, pass_limit, first_id) => {
                let verdict = hub::check_opening(devices, pass_limit, first_id);
                printed = line_print::put_opening(&mut text, 0, verdict);
                if verdict.is_ok() {
                    let opened = hub::open(devices, pass_limit, first_id);
                    now = opened.hub;
                }
            }
            Line::Calling(call) if 0 < hub::device_count(now) => {
                let decision = lines::decided(now, call);
                let answer = decision.answer;
                let change = decision.change;
                printed = lines::put_answers(&mut text, now, decision);
                match change {
                    Change::Nothing => {}
                    Change::Stage(staged) => now = hub::with_stage(now, staged),
                    Change::Commit(slot) => now = hub::with_commit(now, slot),
                    Change::Join(after) => {
                        let routine = lines::routine_in(call);
                        now = hub::with_routine(now, after, routine);
                    }
                    Change::Abort(slot) => now = hub::with_abort(now, slot),
                    Change::Fail(device, slot) => now = hub::with_failure(now, device, slot),
                    Change::Restart(device, setting, slot) => now = hub::with_restart(
                        now, device, setting, slot,
                    ),
                }
                if !hub_answers::changes_nothing(answer) && hub::settles(now) {
                    now = hub::settle(now);
                }
            }
            _ => printed = line_print::put_unread(&mut text, 0),
        }
        at = line_print::put_text(out, at, &text[..printed]);
        from = next.end + 1;
    }
    Lines { hub: now, at }
}

// How many of a chunk's bytes end a line.
fn ends_in(chunk: &[u8]) -> u8
    requires { length chunk.now ≤ chunk_length }
    ensures { result ≡ times line_end chunk.now }
{
    let mut count = 0u8;
    for byte in chunk {
        if *byte == LINE_END {
            count += 1;
        }
    }
    count
}

// Is there room for any text of so many lines, and as much again for the device lines?
pub fn is_ample(input: &[u8], room: usize) -> bool
    ensures { result ≡ true → Ample input.now room }
{
    let most = room / MAX_TEXT;
    let mut count = 1;
    for chunk in input.chunks(CHUNK_LENGTH) {
        count += usize::from(ends_in(chunk));
    }
    count < most
}

// How long the text of the lines is; or a number past the room, if it is longer than that.
pub fn lines_length(hub: Hub, input: &[u8], room: usize) -> usize
    requires { (Valid hub) × (room < 2 ^ 63) }
    ensures { Measures (steps (hub_in hub) (lines_of input.now)).text input.now room result }
{
    let mut nowhere = [0u8; 1];
    let ran = run_lines(hub, input, &mut nowhere, room);
    ran.at
}

// The same of the whole text.
pub fn whole_length(hub: Hub, input: &[u8], room: usize) -> usize
    requires { (Valid hub) × (room < 2 ^ 63) }
    ensures { Measures (run_from (hub_in hub) input.now).text input.now room result }
{
    let mut nowhere = [0u8; 1];
    let ran = run_lines(hub, input, &mut nowhere, room);
    if room < ran.at {
        return ran.at;
    }
    let next = ran.hub;
    let devices = lines::devices_of(next);
    line_print::put_devices(&mut nowhere, ran.at, devices)
}
