// A routine book that is read and written again: what crate `book_read` reads, lent to crate `book_write` as it takes it. So that the two
// belong together is proved of the code: an accepted book gives the same bytes.
#![tactic(auto)]

mod reading;

ghost use Rattle.std.specs.Prelude.{◌≡◌, ◌≤◌, length, take};
ghost use Rattle.rules_routine.specs.Limits.{max_routines};
ghost use Rattle.book_layout.specs.Writing.{routines_lent, written_of, buffer_after};
ghost use Rattle.book_copy.specs.Rows.{RowsOfBook};
ghost use Rattle.book_copy.specs.Copy.{copied_of, copy_after};

use rules_routine::Refusal;
use rules_routine::limits::{MAX_COMMANDS, MAX_ROUTINES};

// The most commands that a book has.
const MOST_COMMANDS: usize = MAX_ROUTINES * MAX_COMMANDS;

// Routines as the writer takes them: a count for each of them, and the parts of their commands in rows. By value, since there is no heap.
#[derive(Clone, Copy)]
pub struct Rows {
    pub counts: [u8; MAX_ROUTINES],
    pub devices: [u8; MOST_COMMANDS],
    pub tags: [u8; MOST_COMMANDS],
    pub settings: [i16; MOST_COMMANDS],
    pub routines: usize,
    pub commands: usize,
}

// The rows of a book's routines, or why it is turned down.
pub fn rows_of(book: &[u8]) -> Result<Rows, Refusal>
    ensures { RowsOfBook book.now result }
{
    book_read::check(book)?;
    Ok(reading::read_all(book))
}

// Rows written as a book. The rows of commands are lent whole: what stands behind the last routine belongs to none.
fn write_rows(rows: Rows, out: &mut [u8]) -> Result<usize, Refusal>
    requires { rows.routines ≤ max_routines }
    ensures answers { result ≡ written_of
        (routines_lent (take rows.routines rows.counts) rows.devices rows.tags rows.settings)
        (length out.old) }
    ensures leaves { out.new ≡ buffer_after
        (routines_lent (take rows.routines rows.counts) rows.devices rows.tags rows.settings)
        out.old }
{
    book_write::write(
        &rows.counts[..rows.routines],
        &rows.devices,
        &rows.tags,
        &rows.settings,
        out,
    )
}

// A book read, and what was read written into a lent buffer: the same bytes, or 21 if it is too short; of a refused book its refusal.
pub fn copied(book: &[u8], out: &mut [u8]) -> Result<usize, Refusal>
    ensures answers { result ≡ copied_of book.now (length out.old) }
    ensures leaves { out.new ≡ copy_after book.now out.old }
{
    let rows = rows_of(book)?;
    write_rows(rows, out)
}
