// For people who write sittings: of each line that prints `unread` its number and why, and at the end how many lines were unread and
// refused. It reads what `plot_hub` reads and prints no key. What is said of a line is `line_hints::of_line`.
#![tactic(auto)]

mod said;

ghost use Rattle.std.specs.Prelude.{◌+◌, ◌<◌, ◌≤◌, length, IfSome};
ghost use Rattle.hub.specs.Valid.{Valid};

use hub::Hub;
use line_print::MAX_TEXT;

// What a line prints, and room to spare, with which it is not measured first.
const OUT_ROOM: usize = 4 * MAX_TEXT;

// The first byte of `refused`, and of no other answer.
const REFUSED: u8 = 114;

// The hub after the lines so far, how many there were, and how many of them were unread and refused; and whether all could be written:
// they go on being counted where it could not.
#[derive(Clone, Copy)]
struct Tally {
    hub: Hub,
    lines: u64,
    unread: u64,
    refused: u64,
    good: bool,
}

// No line.
fn none() -> Tally
    ensures { Valid result.hub }
{
    let hub = line::no_hub();
    Tally {
        hub,
        lines: 0,
        unread: 0,
        refused: 0,
        good: true,
    }
}

// A line of which nothing is told is run.
fn run_line(tally: &mut Tally, line: &[u8], out: &mut [u8])
    requires { (Valid tally.old.hub) × (0 < length out.old) }
    ensures { Valid tally.new.hub }
{
    let written = line::run_part(tally.hub, line, out);
    tally.hub = written.hub;
    if out[0] == REFUSED {
        tally.refused = tally.refused.saturating_add(1);
    }
}

// A line, the next one.
fn take_line(rt: &impl Print, tally: &mut Tally, line: &[u8], out: &mut [u8])
    requires { (Valid tally.old.hub) × (0 < length out.old) }
    ensures { Valid tally.new.hub }
{
    tally.lines = tally.lines.saturating_add(1);
    let opened = 0 < hub::device_count(tally.hub);
    match line_hints::of_line(line, opened) {
        Some(hint) => {
            tally.unread = tally.unread.saturating_add(1);
            tally.good &= said::say(rt, tally.lines, hint).is_ok();
        }
        None => run_line(tally, line, out),
    }
}

// Whole lines in turn.
fn take_lines(rt: &impl Print, tally: &mut Tally, input: &[u8], out: &mut [u8])
    requires { (Valid tally.old.hub) × (0 < length out.old) }
    ensures { Valid tally.new.hub }
{
    let mut from = 0;
    while from < input.len() {
        let end = line_read::line_end(input, from);
        take_line(rt, tally, &input[from..end], out);
        from = end + 1;
    }
}

// The bytes read so far behind the lines that were taken: the whole lines of them are taken, and the rest is pending. How many bytes are.
fn take_part(
    rt: &impl Print,
    tally: &mut Tally,
    filled: usize,
    input: &mut [u8],
    out: &mut [u8],
) -> usize
    requires { (Valid tally.old.hub) × (filled ≤ length input.old) × (0 < length out.old) }
    ensures { (Valid tally.new.hub) × (result ≤ length input.new) }
{
    let whole = line_parts::whole::whole_length(&input[..filled]);
    take_lines(rt, tally, &input[..whole], out);
    line_parts::whole::keep(input, whole, filled)
}

// Part by part to the end of the input: how many bytes are pending; none where it cannot be read, which is told under the name of the
// command. Nothing says that an input ends, so the loop counts its turns.
fn read_all(
    rt: &(impl Input + Print + Eprint),
    tally: &mut Tally,
    input: &mut [u8],
    out: &mut [u8],
) -> Option<usize>
    requires { (Valid tally.old.hub) × (0 < length out.old) }
    ensures valid { Valid tally.new.hub }
    ensures inside { IfSome result (λ pending. pending ≤ length input.new) }
{
    let mut pending = 0usize;
    for _ in 0..u64::MAX {
        let count = run_streams::read_behind(rt, b"plot_hub", input, pending).ok()?;
        if count == 0 {
            return Some(pending);
        }
        pending = take_part(rt, tally, pending + count, input, out);
    }
    None
}

fn main(rt: HostRuntime) {
    let mut input = line_parts::input_buffer();
    let mut out = [0u8; OUT_ROOM];
    let mut tally = none();
    if let Some(pending) = read_all(&rt, &mut tally, &mut input, &mut out) {
        // The line whose end has not come, if there is one.
        if 0 < pending {
            take_line(&rt, &mut tally, &input[..pending], &mut out);
        }
        let told = said::sum_up(&rt, tally.lines, tally.unread, tally.refused).is_ok();
        if !(tally.good && told) {
            run_streams::say_not_written(&rt, b"plot_hub");
        }
    }
}
