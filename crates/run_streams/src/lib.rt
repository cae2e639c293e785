// Standard input and output of the programs for people, and what a program says on standard error where they fail: its name and what
// it could not do.
#![tactic(auto)]

ghost use Rattle.std.specs.Prelude.{◌+◌, ◌≤◌, ◌≡◌, length, take, IfOk};

use std::io;
use std::io::Read;

// What cannot be said on standard error is not said; nor is a name that is no text, which standard error does not take.
fn say(rt: &impl Eprint, program: &[u8], message: &str) {
    let name = str::from_utf8(program).unwrap_or("");
    let _ = eprintln!(rt; "{name}: {message}");
}

pub fn say_not_written(rt: &impl Eprint, program: &[u8]) {
    say(rt, program, "standard output cannot be written");
}

// Reads into the input behind the pending bytes, which stay, also where it cannot be read. How many bytes were read, 0 at the end of the
// input.
pub fn read_behind(
    rt: &(impl Input + Eprint),
    program: &[u8],
    input: &mut [u8],
    pending: usize,
) -> io::Result<usize>
    requires { pending ≤ length input.old }
    ensures inside { IfOk result (λ count. pending + count ≤ length input.old) }
    ensures still { take pending input.new ≡ take pending input.old }
{
    let got = rt.reader().read(&mut input[pending..]);
    if got.is_err() {
        say(rt, program, "standard input cannot be read");
    }
    got
}

// Reads until the buffer is full or the input ends: how many bytes, also where it cannot be read on, and whether it could be read.
pub fn read_full(
    rt: &(impl Input + Eprint),
    program: &[u8],
    input: &mut [u8],
) -> (usize, io::Result<()>)
    ensures { result.0 ≤ length input.old }
{
    let mut filled = 0;
    while filled < input.len() {
        match read_behind(rt, program, input, filled) {
            Ok(0) => return (filled, Ok(())),
            Ok(count) => filled += count,
            Err(error) => return (filled, Err(error)),
        }
    }
    (filled, Ok(()))
}

// Writes a text.
pub fn write_out(rt: &(impl Print + Eprint), program: &[u8], text: &[u8]) -> io::Result<()> {
    let written = rt.write_all(text);
    if written.is_err() {
        say_not_written(rt, program);
    }
    written
}
