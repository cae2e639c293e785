// Prints what reading a book gives: a line for each routine and then `end`, or the refusal. Each function that prints says whether all of
// it could be written.
#![tactic(auto)]

use book_read::reader;
use rules_routine::limits::MAX_ROUTINES;
use rules_routine::{Command, Refusal, Routine};
use std::io;

// A space and a number.
pub fn print_number(rt: &impl Print, n: u64) -> io::Result<()> {
    print!(rt; " {n}")
}

pub fn print_setting(rt: &impl Print, setting: i16) -> io::Result<()> {
    print!(rt; " {setting}")
}

// The word, the number, and the index if there is one; no line's end.
pub fn print_refusal(rt: &impl Print, refusal: Refusal) -> io::Result<()> {
    let number = refusal.number();
    match refusal.index() {
        None => print!(rt; "refused {number}"),
        Some(index) => print!(rt; "refused {number} {index}"),
    }
}

fn print_command(rt: &impl Print, command: &Command) -> io::Result<()> {
    let Command {
        device,
        tag,
        setting,
    } = command;
    print!(rt; " {device} {tag} {setting}")
}

fn print_routine(rt: &impl Print, routine: &Routine) -> io::Result<()> {
    print!(rt; "routine")?;
    for command in routine.commands.iter().take(routine.count) {
        print_command(rt, command)?;
    }
    println!(rt)
}

// The whole book, as the reader hands it out: a step for each routine, and the end.
pub fn print_book(rt: &impl Print, book: &[u8]) -> io::Result<()> {
    let mut reader = reader::start(book);
    for _ in 0..=MAX_ROUTINES {
        match reader::advance(&mut reader).item {
            Ok(Some(routine)) => print_routine(rt, &routine)?,
            Ok(None) => return println!(rt; "end"),
            Err(refusal) => {
                print_refusal(rt, refusal)?;
                return println!(rt);
            }
        }
    }
    Ok(())
}
