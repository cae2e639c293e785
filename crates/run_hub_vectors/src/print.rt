// Prints outcomes and device lines in the words of document 01, "The line program".
ghost use Rattle.hub.specs.Valid.{Valid};

use hub::{Hub, Outcome};
use hub_answers::{Answer, Placed, PutBacks, Sent};
use rules_routine::limits::MAX_DEVICES;
use run_book_print::{print_number, print_refusal, print_setting};
use std::io;

// "`back` a count, then device and setting for each"
fn print_backs(rt: &impl Print, backs: PutBacks) -> io::Result<()> {
    let count = backs.count;
    print!(rt; " back {count}")?;
    for back in backs.items.iter().take(count) {
        print_number(rt, u64::from(back.device))?;
        print_setting(rt, back.setting)?;
    }
    Ok(())
}

fn print_aborted(rt: &impl Print, id: u32, backs: PutBacks) -> io::Result<()> {
    print!(rt; "aborted {id}")?;
    print_backs(rt, backs)?;
    println!(rt)
}

// "`skipped 1` (followed by `back` in the same form where a setting was sent back)"
fn print_skipped(rt: &impl Print, id: u32, backs: PutBacks) -> io::Result<()> {
    print!(rt; "skipped {id}")?;
    let count = backs.count;
    if 0 < count {
        print_backs(rt, backs)?;
    }
    println!(rt)
}

fn print_placed(rt: &impl Print, placed: Placed) -> io::Result<()> {
    let Placed { id, after } = placed;
    println!(rt; "placed {id} after {after}")
}

fn print_sent(rt: &impl Print, sent: Sent) -> io::Result<()> {
    let id = sent.id;
    let command = sent.command;
    let device = command.device;
    let setting = command.setting;
    println!(rt; "send {id} {device} {setting}")
}

fn print_answer(rt: &impl Print, answer: Answer, backs: PutBacks) -> io::Result<()> {
    match answer {
        Answer::Refused(refusal) => {
            print_refusal(rt, refusal)?;
            println!(rt)
        }
        Answer::Placed(placed) => print_placed(rt, placed),
        Answer::Wait(id, other) => println!(rt; "wait {id} on {other}"),
        Answer::Sent(sent) => print_sent(rt, sent),
        Answer::Done(id) => println!(rt; "done {id}"),
        Answer::Skipped(id) => print_skipped(rt, id, backs),
        Answer::Committed(id) => println!(rt; "committed {id}"),
        Answer::Aborted(id) => print_aborted(rt, id, backs),
        Answer::Down(device, id) => println!(rt; "down {device} after {id}"),
        Answer::Up(device, id) => println!(rt; "up {device} after {id}"),
        Answer::Limited(limit) => println!(rt; "limited {limit}"),
        Answer::Held(id) => println!(rt; "held {id}"),
        Answer::NotHeld(id) => println!(rt; "not held {id}"),
    }
}

pub fn print_outcome(rt: &impl Print, outcome: Outcome) -> io::Result<()> {
    let backs = outcome.put_backs;
    let first = outcome.first;
    if let Some(id) = first {
        print_aborted(rt, id, backs)?;
    }
    let answer = outcome.answer;
    print_answer(rt, answer, backs)
}

fn print_device(rt: &impl Print, device: u8, up: bool, due: i16) -> io::Result<()> {
    if up {
        println!(rt; "device {device} up {due}")
    } else {
        println!(rt; "device {device} down")
    }
}

// One line a device, with its due setting if it is up.
pub fn print_devices(rt: &impl Print, hub: Hub) -> io::Result<()>
    requires { Valid hub }
{
    let mut table = [0i16; MAX_DEVICES];
    let _ = hub::due_settings(hub, &mut table);
    for (device, due) in (0..hub::device_count(hub)).zip(&table) {
        print_device(rt, device, hub::is_up(hub, device), *due)?;
    }
    Ok(())
}
