// Runs test vectors of the hub, the examples of document 01 among them: standard input is a row of records (crate run_records).
// tests/hub/make_vectors.py says what a record holds and what is printed for it.
#![tactic(auto)]

mod calls;
mod print;
mod readings;

ghost use Rattle.hub.specs.Valid.{Valid};

use hub::Hub;
use std::io;

// A record's first byte: is it a book?
const BOOK: u8 = 1;

// A call, or a reading of due settings. The hub becomes the one after it, before anything is printed.
fn run_call(rt: &impl Print, hub: &mut Hub, call: &[u8]) -> io::Result<()>
    requires { Valid hub.old }
    ensures { Valid hub.new }
{
    let small = calls::small_at(call, 1);
    match calls::small_at(call, 0) {
        b'V' => readings::print_one(rt, *hub, small),
        b'L' => readings::print_list(rt, *hub, small, calls::setting_at(call, 2)),
        _ => {
            let outcome = calls::called(*hub, call);
            *hub = outcome.hub;
            print::print_outcome(rt, outcome)
        }
    }
}

// The calls behind the opening, and then the device lines.
fn run_calls(rt: &impl Print, opened: Hub, calls: &[u8]) -> io::Result<()>
    requires { Valid opened }
{
    let mut now = opened;
    for call in calls.chunks(calls::CALL_SIZE) {
        run_call(rt, &mut now, call)?;
    }
    print::print_devices(rt, now)
}

fn run_hub(rt: &impl Print, bytes: &[u8]) -> io::Result<()> {
    let opened = calls::opened(bytes);
    match opened.verdict {
        Ok(()) => {
            println!(rt; "opened")?;
            run_calls(
                rt,
                opened.hub,
                bytes.get(calls::OPENING_SIZE..).unwrap_or(&[]),
            )
        }
        Err(refusal) => {
            run_book_print::print_refusal(rt, refusal)?;
            println!(rt)
        }
    }
}

fn run_record(rt: &impl Print, bytes: &[u8]) -> io::Result<()> {
    match bytes.split_first() {
        Some((first, book)) if *first == BOOK => run_book_print::print_book(rt, book),
        _ => run_hub(rt, bytes),
    }
}

fn main(rt: HostRuntime) -> io::Result<()> {
    let mut buffer = run_records::room();
    let n = run_records::load(&rt, &mut buffer);
    run_records::each(&buffer[..n], |record| run_record(&rt, record))
}
