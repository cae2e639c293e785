// The parts of reading a book.
ghost use Rattle.std.specs.Prelude.{◌≡◌, ◌+◌, ◌*◌, ◌<◌, ◌≤◌, ◌^◌, length};
ghost use Rattle.rules_routine.specs.Limits.{max_commands, max_routines};
ghost use Rattle.rules_routine.specs.Routine.{routine_of};
ghost use Rattle.book_layout.specs.Layout.{command_size, pairs_end, command_at, commands_at};
ghost use Rattle.book_layout.specs.Reading.{length_fits, placed_check, placed_checks, book_check, pair_next};

use crate::bytes::{byte_at, four_at, two_at};
use book_layout::{BOOK_DEVICES, COMMAND_SIZE, COUNT_SIZE, Next, OFFSET_SIZE, PAIR_SIZE};
use rules_routine::limits::MAX_COMMANDS;
use rules_routine::{Command, Refusal, Routine};

// The command whose first byte is at a place.
fn command_at(book: &[u8], at: usize) -> Command
    requires { at + 3 < 2 ^ 64 }
    ensures { result ≡ command_at book.now at }
{
    Command {
        device: byte_at(book, at),
        tag: byte_at(book, at + 1),
        setting: book_layout::setting_of(byte_at(book, at + 2), byte_at(book, at + 3)),
    }
}

// The routine of so many commands from a place on.
fn routine_at(book: &[u8], at: usize, count: usize) -> Routine
    requires { (count ≤ max_commands) × (at + command_size * max_commands < 2 ^ 64) }
    ensures { result ≡ routine_of (commands_at book.now at count) }
{
    let mut routine = rules_routine::empty();
    for i in 0..count {
        routine = rules_routine::with_command(routine, command_at(book, at + COMMAND_SIZE * i));
    }
    routine
}

// 4 to 32 in fours.
fn length_fits(length: usize) -> bool
    ensures { result ≡ length_fits length }
{
    COMMAND_SIZE <= length && length <= COMMAND_SIZE * MAX_COMMANDS && length % COMMAND_SIZE == 0
}

// Routine i, which the layout puts at a place: 20, 19, then its commands. No sum of an offset and a length is made.
fn check_placed(book: &[u8], i: usize, at: usize) -> Result<(), Refusal>
    requires { (i < max_routines) × (at ≤ length book.now) }
    ensures { result ≡ placed_check book.now i at }
{
    let pair = COUNT_SIZE + PAIR_SIZE * i;
    let size = four_at(book, pair + OFFSET_SIZE);
    if !length_fits(size) {
        return Err(Refusal::BookLength(i));
    }
    if four_at(book, pair) != at {
        return Err(Refusal::BookMisplaced);
    }
    if book.len() - at < size {
        return Err(Refusal::BookMisplaced);
    }
    let routine = routine_at(book, at, size / COMMAND_SIZE);
    rules_routine::check(routine, BOOK_DEVICES)
}

// All routines of a book, each next where the one before ends; then bytes left over.
pub fn check_all(book: &[u8], count: usize) -> Result<(), Refusal>
    requires { (count ≤ max_routines) × (pairs_end count ≤ length book.now) }
    ensures { result ≡ placed_checks book.now 0 count (pairs_end count) }
{
    let mut at = COUNT_SIZE + PAIR_SIZE * count;
    for i in 0..count {
        check_placed(book, i, at)?;
        at += four_at(book, COUNT_SIZE + PAIR_SIZE * i + OFFSET_SIZE);
    }
    if at < book.len() {
        return Err(Refusal::BookMisplaced);
    }
    Ok(())
}

// The routine of the pair of an accepted book that begins at a position, or the end.
pub fn next_pair(book: &[u8], position: usize) -> Next
    requires { book_check book.now ≡ Ok tt }
    ensures { result ≡ pair_next book.now position }
{
    let pairs_end = COUNT_SIZE + PAIR_SIZE * two_at(book, 0);
    if pairs_end <= position || position % PAIR_SIZE != COUNT_SIZE {
        return Next {
            item: Ok(None),
            position,
        };
    }
    let from = four_at(book, position);
    let size = four_at(book, position + OFFSET_SIZE);
    let routine = routine_at(book, from, size / COMMAND_SIZE);
    Next {
        item: Ok(Some(routine)),
        position: position + PAIR_SIZE,
    }
}
