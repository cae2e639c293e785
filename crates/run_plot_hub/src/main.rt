// The line program from standard input to standard output: document 01, "The line program". The input may have any length: a part is read,
// crate `line_parts` takes it, and what it prints is written before the next is read.
#![tactic(auto)]

ghost use Rattle.std.specs.Prelude.{suc, ◌<◌, ◌≤◌, length, IfSome};
ghost use Rattle.rules_routine.specs.Limits.{max_line};
ghost use Rattle.line_parts.specs.Contract.{room_for, Reached, Adds};

use hub::Hub;
use std::io;

// How far the reading came: the hub, and how many bytes are pending of a line whose end has not come.
#[derive(Clone, Copy)]
struct Read {
    hub: Hub,
    pending: usize,
}

// Writes what a part, or the end of the input, adds to what is printed.
fn print(rt: &(impl Print + Eprint), text: &[u8]) -> io::Result<()>
    requires { Adds text.now }
{
    run_streams::write_out(rt, b"plot_hub", text)
}

// Part by part to the end of the input; none where it cannot be read, or what it prints not written. Nothing says that an input ends, so
// the loop counts its turns.
fn read_all(rt: &(impl Input + Print + Eprint), input: &mut [u8], out: &mut [u8]) -> Option<Read>
    requires { (suc max_line < length input.old) × (room_for (length input.old) ≤ length out.old) }
    ensures { IfSome result (λ read. Reached read.hub read.pending input.new) }
{
    let mut hub = line::no_hub();
    let mut pending = 0usize;
    for _ in 0..u64::MAX {
        let count = run_streams::read_behind(rt, b"plot_hub", input, pending).ok()?;
        if count == 0 {
            return Some(Read { hub, pending });
        }
        let step = line_parts::take_part(hub, pending, count, input, out);
        hub = step.hub;
        pending = step.pending;
        print(rt, &out[..step.length]).ok()?;
    }
    None
}

fn main(rt: HostRuntime) {
    let mut input = line_parts::input_buffer();
    let mut out = line_parts::out_buffer();
    if let Some(read) = read_all(&rt, &mut input, &mut out) {
        let length = line_parts::take_end(read.hub, read.pending, &input, &mut out);
        let _ = print(&rt, &out[..length]);
    }
}
