// The routine book, written as crate `book_layout` defines it. Document 01, "The routine book".
#![tactic(auto)]

mod writing;

ghost use Rattle.std.specs.Prelude.{◌≡◌, length};
ghost use Rattle.book_layout.specs.Writing.{routines_lent, written_of, buffer_after};

use book_layout::{COMMAND_SIZE, COUNT_SIZE, PAIR_SIZE};
use rules_routine::Refusal;
use rules_routine::limits::MAX_ROUTINES;

// Routines written into a lent buffer: the routines in turn (4, then commands), then 21. `counts` has a number of commands for each
// routine; the three other slices hold the parts of all commands in a row. Each routine has as many of the next as its count says: one that
// is not all there is turned down (5, 6 or 7 with the command's index). What is lent behind the last routine is not looked at. Four slices
// and no list of routines: what is promised of rows that are cut short is said of them, and there is no heap.
pub fn write(
    counts: &[u8],
    devices: &[u8],
    tags: &[u8],
    settings: &[i16],
    out: &mut [u8],
) -> Result<usize, Refusal>
    ensures answers { result ≡ written_of
        (routines_lent counts.now devices.now tags.now settings.now)
        (length out.old) }
    ensures leaves { out.new ≡ buffer_after
        (routines_lent counts.now devices.now tags.now settings.now)
        out.old }
{
    writing::check_routines(counts, devices, tags, settings)?;
    if MAX_ROUTINES < counts.len() {
        return Err(Refusal::NoRoom);
    }
    let commands = writing::count_commands(counts);
    let size = COUNT_SIZE + PAIR_SIZE * counts.len() + COMMAND_SIZE * commands;
    if out.len() < size {
        return Err(Refusal::NoRoom);
    }
    writing::put_book(counts, devices, tags, settings, commands, out);
    Ok(size)
}
