// Rows, put together from what a reading hands out.
ghost use Rattle.std.specs.Prelude.{◌≡◌, [], ◌≤◌};
ghost use Rattle.rules_routine.specs.Limits.{max_commands};
ghost use Rattle.rules_routine.specs.Routine.{commands_of};
ghost use Rattle.book_layout.specs.Reading.{book_check};
ghost use Rattle.book_copy.specs.Rows.{rows_of, RowsHanded, with_command, with_commands, with_count, with_routine};

use crate::{MOST_COMMANDS, Rows};
use rules_routine::limits::MAX_ROUTINES;
use rules_routine::{Command, Routine};

// Rows of no routine.
pub fn empty() -> Rows
    ensures { result ≡ rows_of [] }
{
    Rows {
        counts: [0; MAX_ROUTINES],
        devices: [0; MOST_COMMANDS],
        tags: [0; MOST_COMMANDS],
        settings: [0; MOST_COMMANDS],
        routines: 0,
        commands: 0,
    }
}

// Rows with one command more; where there is no room they stay.
fn with_command(mut rows: Rows, command: Command) -> Rows
    ensures { result ≡ with_command rows command }
{
    let at = rows.commands;
    if at < MOST_COMMANDS {
        rows.devices[at] = command.device;
        rows.tags[at] = command.tag;
        rows.settings[at] = command.setting;
        rows.commands = at + 1;
    }
    rows
}

// The same with the commands of a routine.
fn with_commands(rows: Rows, routine: Routine) -> Rows
    requires { routine.count ≤ max_commands }
    ensures { result ≡ with_commands rows (commands_of routine) }
{
    let mut longer = rows;
    for command in &routine.commands[..routine.count] {
        longer = with_command(longer, *command);
    }
    longer
}

// And with one count more.
fn with_count(mut rows: Rows, count: u8) -> Rows
    ensures { result ≡ with_count rows count }
{
    let at = rows.routines;
    if at < MAX_ROUTINES {
        rows.counts[at] = count;
        rows.routines = at + 1;
    }
    rows
}

// Rows with one routine more.
fn with_routine(rows: Rows, routine: Routine) -> Rows
    requires { routine.count ≤ max_commands }
    ensures { result ≡ with_routine rows (commands_of routine) }
{
    with_count(with_commands(rows, routine), routine.count as u8)
}

// The rows of what an accepted book hands out, step by step.
pub fn read_all(book: &[u8]) -> Rows
    requires { book_check book.now ≡ Ok tt }
    ensures { RowsHanded book.now result }
{
    let mut rows = empty();
    let mut position = 0;
    for _ in 0..MAX_ROUTINES {
        let next = book_read::next(book, position);
        match next.item {
            Ok(Some(routine)) => rows = with_routine(rows, routine),
            Ok(None) => return rows,
            Err(_) => return rows,
        }
        position = next.position;
    }
    rows
}
