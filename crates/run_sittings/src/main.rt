// Runs sittings through the line program: standard input is a row of records (crate run_records), each the input of a sitting. For each it
// prints the key, and then a line `end`. tests/reference makes the records and what is printed.
#![tactic(auto)]

ghost use Rattle.std.specs.Prelude.{◌≡◌, ◌≤◌, length};

use std::io;

// Room for one key. The `ensures` keeps the array shut: only its length is known.
fn key_room() -> [u8; 524288]
    ensures { 524288 ≡ length result }
{
    [0; 524288]
}

// How much of the buffer is a key: its length, or nothing where there was too little room.
fn key_length(answer: i64, out: &[u8]) -> usize
    ensures { result ≤ length out.now }
{
    usize::try_from(answer).unwrap_or(0).min(out.len())
}

fn run_sitting(rt: &impl Print, sitting: &[u8], out: &mut [u8]) -> io::Result<()> {
    let answer = line::plot_hub_run(sitting, out);
    if answer < 0 {
        println!(rt; "too short")?;
    }
    let count = key_length(answer, out);
    rt.write_all(&out[..count])?;
    println!(rt; "end")
}

fn main(rt: HostRuntime) -> io::Result<()> {
    let mut buffer = run_records::room();
    let n = run_records::load(&rt, &mut buffer);
    let mut out = key_room();
    run_records::each(&buffer[..n], |sitting| run_sitting(&rt, sitting, &mut out))
}
