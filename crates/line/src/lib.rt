// The line program on byte slices: document 01, "The line program". Here stand the calls that others make: the one that crate `line_c`
// exports to C, the one over a hub that is lent and changed there, and those for an input that comes in parts. All below them is by value.
#![tactic(auto)]

mod lines;
mod running;

ghost use Rattle.std.specs.Prelude.{◌≡◌, length};
ghost use Rattle.line_rules.specs.Pieces.{lines_of};
ghost use Rattle.line_rules.specs.Program.{steps, run_from, program_text, length_or21, buffer_with};
ghost use Rattle.rules.specs.Open.{closed_hub};
ghost use Rattle.hub.specs.View.{view};
ghost use Rattle.hub.specs.Valid.{Valid};
ghost use Rattle.line.specs.View.{hub_in};
ghost use Rattle.line.specs.Contract.{Wrote, Runs};

use hub::Hub;

// "−21 .. if it is too short"
pub const TOO_SHORT: i64 = -21;

// The hub afterwards, and the length written; none where the buffer was too short.
#[derive(Clone, Copy)]
pub struct RunResult {
    pub hub: Hub,
    pub length: Option<usize>,
}

// No hub, as before an accepted `O`: the hub of no devices. It stays the same hub until an `O` is accepted (`unopened` of `Wrote`).
pub fn no_hub() -> Hub
    ensures { (Valid result) × (view result ≡ closed_hub) }
{
    hub::closed()
}

// The lines of a part of an input, which ends with a line; without the device lines. A buffer that is too short stays as it was, so the
// text is measured first; where there is room for any text of so many lines, it is not.
pub fn run_part(hub: Hub, input: &[u8], out: &mut [u8]) -> RunResult
    requires { Valid hub }
    ensures { Runs (steps (hub_in hub) (lines_of input.now)) input.now hub result.hub
        out.old out.new result.length }
{
    let room = out.len();
    if !running::is_ample(input, room) {
        let length = running::lines_length(hub, input, room);
        if room < length {
            return RunResult { hub, length: None };
        }
    }
    let ran = running::run_lines(hub, input, out, room);
    let next = ran.hub;
    RunResult {
        hub: next,
        length: Some(ran.at),
    }
}

// The last part of an input, or all of it, and then the device lines.
pub fn run_last(hub: Hub, input: &[u8], out: &mut [u8]) -> RunResult
    requires { Valid hub }
    ensures { Runs (run_from (hub_in hub) input.now) input.now hub result.hub
        out.old out.new result.length }
{
    let room = out.len();
    if !running::is_ample(input, room) {
        let length = running::whole_length(hub, input, room);
        if room < length {
            return RunResult { hub, length: None };
        }
    }
    let ran = running::run_lines(hub, input, out, room);
    let next = ran.hub;
    let devices = lines::devices_of(next);
    let end = line_print::put_devices(out, ran.at, devices);
    RunResult {
        hub: next,
        length: Some(end),
    }
}

// The whole program on a hub that is lent and changed there: "It steps on a hub lent to it and changed there, all below it by value."
pub fn run(hub: &mut Hub, input: &[u8], out: &mut [u8]) -> i64
    requires { Valid hub.old }
    ensures { Wrote (run_from (hub_in hub.old) input.now) hub.old hub.new out.old
        out.new result }
{
    let written = run_last(*hub, input, out);
    *hub = written.hub;
    match written.length {
        Some(length) => length as i64,
        None => TOO_SHORT,
    }
}

// "called from a web server written in C, on two byte slices: the input, and a lent buffer for the output; the result is the length written
// .. or −21". Crate `line_c` exports it to C under this name.
pub fn plot_hub_run(input: &[u8], out: &mut [u8]) -> i64
    ensures answers { result ≡ length_or21 (program_text input.now) (length out.old) }
    ensures leaves { out.new ≡ buffer_with (program_text input.now) out.old }
{
    let mut hub = no_hub();
    run(&mut hub, input, out)
}
