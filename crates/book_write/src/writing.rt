// The parts of writing a book. The routines are lent as a count for each, and their commands in a row as three slices.
ghost use Rattle.std.specs.Prelude.{◌≡◌, ◌+◌, ◌*◌, ◌≤◌, length, get_or, sum};
ghost use Rattle.std.proofs.lemmas.List.Edits.{sets};
ghost use Rattle.rules_routine.specs.Limits.{max_commands, max_routines};
ghost use Rattle.rules_routine.specs.Routine.{routine_of, routine_check};
ghost use Rattle.book_layout.specs.Layout.{count_size, command_size, book_devices, pairs_end};
ghost use Rattle.book_layout.specs.Layout.{command_bytes, commands_bytes, book_bytes};
ghost use Rattle.book_layout.specs.Writing.{command_lent, commands_lent, routines_lent, routines_check};
ghost use Rattle.book_write.specs.Count.{pairs_counted};

use book_layout::{BOOK_DEVICES, COMMAND_SIZE, COUNT_SIZE, OFFSET_SIZE, PAIR_SIZE};
use rules_routine::limits::MAX_COMMANDS;
use rules_routine::{Command, Refusal, Routine};

// What a part of a command reads as that is not lent: numbers that no command has.
const MISSING_DEVICE: u8 = 255;

const MISSING_TAG: u8 = 255;

const MISSING_SETTING: i16 = 32767;

// A part of a command of the row.
fn part_in<T: Copy>(row: &[T], at: usize, missing: T) -> T
    ensures { result ≡ get_or row.now at missing }
{
    row.get(at).copied().unwrap_or(missing)
}

// A command of the row.
fn command_in(devices: &[u8], tags: &[u8], settings: &[i16], at: usize) -> Command
    ensures { result ≡ command_lent devices.now tags.now settings.now at }
{
    Command {
        device: part_in(devices, at, MISSING_DEVICE),
        tag: part_in(tags, at, MISSING_TAG),
        setting: part_in(settings, at, MISSING_SETTING),
    }
}

// A routine of the row.
fn routine_in(devices: &[u8], tags: &[u8], settings: &[i16], at: usize, count: usize) -> Routine
    requires { (count ≤ max_commands) × (at ≤ length devices.now) }
    ensures { result ≡ routine_of (commands_lent devices.now tags.now settings.now at count) }
{
    let mut routine = rules_routine::empty();
    for i in 0..count {
        routine = rules_routine::with_command(routine, command_in(devices, tags, settings, at + i));
    }
    routine
}

// One routine of the row: 4, whatever is lent; then its commands.
fn check_one(
    devices: &[u8],
    tags: &[u8],
    settings: &[i16],
    at: usize,
    count: usize,
) -> Result<(), Refusal>
    requires { at ≤ length devices.now }
    ensures { result ≡ routine_check book_devices
        (commands_lent devices.now tags.now settings.now at count) }
{
    if MAX_COMMANDS < count {
        return Err(Refusal::CommandCount);
    }
    let routine = routine_in(devices, tags, settings, at, count);
    rules_routine::check(routine, BOOK_DEVICES)
}

// The routines in turn. Where one is accepted all its commands are there, so that the next begins inside the row or at its end.
pub fn check_routines(
    counts: &[u8],
    devices: &[u8],
    tags: &[u8],
    settings: &[i16],
) -> Result<(), Refusal>
    ensures { result ≡ routines_check
        (routines_lent counts.now devices.now tags.now settings.now) }
{
    let mut at = 0;
    for n in counts {
        let count = usize::from(*n);
        check_one(devices, tags, settings, at, count)?;
        at += count;
    }
    Ok(())
}

// How many commands the routines have together.
pub fn count_commands(counts: &[u8]) -> usize
    requires { length counts.now ≤ max_routines }
    ensures { result ≡ sum counts.now }
{
    counts.iter().map(|n| usize::from(*n)).sum()
}

// Bytes written from a place on.
fn put<const N: usize>(out: &mut [u8], at: usize, bytes: [u8; N])
    requires { at + N ≤ length out.old }
    ensures { out.new ≡ sets out.old at bytes.entry }
{
    out[at..at + N].copy_from_slice(&bytes);
}

// The pairs, behind the count.
fn put_pairs(counts: &[u8], out: &mut [u8])
    requires { (length counts.now ≤ max_routines) × (pairs_end (length counts.now) ≤ length out.old) }
    ensures { out.new ≡ sets out.old count_size
        (pairs_counted (pairs_end (length counts.now)) counts.now) }
{
    let mut at = COUNT_SIZE + PAIR_SIZE * counts.len();
    for (i, count) in counts.iter().enumerate() {
        let size = COMMAND_SIZE * usize::from(*count);
        let pair = COUNT_SIZE + PAIR_SIZE * i;
        put(out, pair, (at as u32).to_le_bytes());
        put(out, pair + OFFSET_SIZE, (size as u32).to_le_bytes());
        at += size;
    }
}

// The bytes of a command from a place on.
fn put_command(out: &mut [u8], at: usize, command: Command)
    requires { at + command_size ≤ length out.old }
    ensures { out.new ≡ sets out.old at (command_bytes command) }
{
    let [lower, upper] = book_layout::bits_of(command.setting).to_le_bytes();
    put(out, at, [command.device, command.tag, lower, upper]);
}

// The first commands of the row, from a place on.
fn put_commands(
    devices: &[u8],
    tags: &[u8],
    settings: &[i16],
    count: usize,
    from: usize,
    out: &mut [u8],
)
    requires { from + command_size * count ≤ length out.old }
    ensures { out.new ≡ sets out.old from
        (commands_bytes (commands_lent devices.now tags.now settings.now 0 count)) }
{
    for i in 0..count {
        put_command(
            out,
            from + COMMAND_SIZE * i,
            command_in(devices, tags, settings, i),
        );
    }
}

// The whole book: count, pairs, commands.
pub fn put_book(
    counts: &[u8],
    devices: &[u8],
    tags: &[u8],
    settings: &[i16],
    commands: usize,
    out: &mut [u8],
)
    requires { (length counts.now ≤ max_routines) × (commands ≡ sum counts.now)
        × (length (book_bytes (routines_lent counts.now devices.now tags.now settings.now)) ≤ length out.old) }
    ensures { out.new ≡ sets out.old 0
        (book_bytes (routines_lent counts.now devices.now tags.now settings.now)) }
{
    put(out, 0, (counts.len() as u16).to_le_bytes());
    put_pairs(counts, out);
    put_commands(
        devices,
        tags,
        settings,
        commands,
        COUNT_SIZE + PAIR_SIZE * counts.len(),
        out,
    );
}
