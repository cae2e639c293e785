// The forms of lines, by their first letter. A place in a line is where a word begins; the words end at the line's end, so that the word
// behind the last would begin past it.
ghost use Rattle.std.specs.Option.{unwrap_or};
ghost use Rattle.std.specs.Prelude.{◌≡◌, [], ◌∷◌, ◌≢◌};
ghost use Rattle.line_rules.specs.Pieces.{words_of};
ghost use Rattle.line_rules.specs.Reading.{highest8, opening_line, restart_line, submit_line, call_with, one_number};
ghost use Rattle.line_rules.specs.Reading.{fails, line_with, line_by};
ghost use Rattle.line_read.specs.View.{letter_of, id_call, id_line, read_as};
ghost use Rattle.line_read.specs.Places.{behind_letter, words_from, CommandAt};

use crate::numbers::{number_at, setting_at};
use crate::{BEHIND_LETTER, Call, Line};
use line_rules::SPACE;
use line_rules::letters::{CANCEL, DONE, FAIL, FAILED, OPEN, RESTART, SUBMIT, TURN};
use rules_routine::Command;
use rules_routine::limits::HIGHEST_ID;
use rules_routine::reports::{CODE_DONE, CODE_FAILED};

const HIGHEST_8: u64 = 255;

// "`O` N K first"
fn open_line(line: &[u8]) -> Option<Line>
    ensures { unwrap_or result Line.Unread ≡ read_as (opening_line (words_from line.now behind_letter)) }
{
    let (devices, devices_end) = number_at(line, BEHIND_LETTER, HIGHEST_8)?;
    let (pass_limit, limit_end) = number_at(line, devices_end + 1, HIGHEST_8)?;
    let (first, end) = number_at(line, limit_end + 1, HIGHEST_ID)?;
    if end < line.len() {
        return None;
    }
    Some(Line::Open(devices as u8, pass_limit as u8, first as u32))
}

// "`R` device setting"
fn restart_line(line: &[u8]) -> Option<Line>
    ensures { unwrap_or result Line.Unread ≡ read_as (restart_line (words_from line.now behind_letter)) }
{
    let (device, device_end) = number_at(line, BEHIND_LETTER, HIGHEST_8)?;
    let (setting, end) = setting_at(line, device_end + 1)?;
    if end < line.len() {
        return None;
    }
    Some(Line::Calling(Call::Restart(device as u8, setting)))
}

// "`F` device"
fn fail_line(line: &[u8]) -> Option<Line>
    ensures { unwrap_or result Line.Unread ≡ read_as (one_number highest8 (call_with fails) (words_from line.now behind_letter)) }
{
    let (device, end) = number_at(line, BEHIND_LETTER, HIGHEST_8)?;
    if end < line.len() {
        return None;
    }
    Some(Line::Calling(Call::Fail(device as u8)))
}

// The call of a letter that an id follows.
fn id_call(letter: u8, id: u32) -> Option<Line>
    ensures { unwrap_or result Line.Unread ≡ read_as (id_call letter id) }
{
    match letter {
        TURN => Some(Line::Calling(Call::Turn(id))),
        DONE => Some(Line::Calling(Call::Report(id, CODE_DONE))),
        FAILED => Some(Line::Calling(Call::Report(id, CODE_FAILED))),
        CANCEL => Some(Line::Calling(Call::Cancel(id))),
        _ => None,
    }
}

// "`N` id (turn), `D` id (done), `B` id (failed), `C` id (cancel)"
fn id_line(line: &[u8], letter: u8) -> Option<Line>
    ensures { unwrap_or result Line.Unread ≡ read_as (id_line letter (words_from line.now behind_letter)) }
{
    let (id, end) = number_at(line, BEHIND_LETTER, HIGHEST_ID)?;
    if end < line.len() {
        return None;
    }
    id_call(letter, id as u32)
}

// "device tag setting", and where the last word ends
fn command_at(line: &[u8], from: usize) -> Option<(Command, usize)>
    ensures { CommandAt line.now from result }
{
    let (device, device_end) = number_at(line, from, HIGHEST_8)?;
    let (tag, tag_end) = number_at(line, device_end + 1, HIGHEST_8)?;
    let (setting, end) = setting_at(line, tag_end + 1)?;
    let command = Command {
        device: device as u8,
        tag: tag as u8,
        setting,
    };
    Some((command, end))
}

// "`S` device tag setting repeated"; "`S` alone is a routine of 0 commands".
fn submit_line(line: &[u8]) -> Option<Line>
    ensures { unwrap_or result Line.Unread ≡ read_as (submit_line (words_from line.now behind_letter)) }
{
    let mut routine = rules_routine::empty();
    let mut at = BEHIND_LETTER;
    while at <= line.len() {
        let (command, end) = command_at(line, at)?;
        routine = rules_routine::with_command(routine, command);
        at = end + 1;
    }
    Some(Line::Calling(Call::Submit(routine)))
}

// The lines that hold no routine.
fn plain_line(line: &[u8], letter: u8) -> Line
    requires { letter ≢ letter_of "S" }
    ensures { result ≡ read_as (line_with (letter ∷ []) (words_from line.now behind_letter)) }
{
    match letter {
        OPEN => open_line(line).unwrap_or(Line::Unread),
        FAIL => fail_line(line).unwrap_or(Line::Unread),
        RESTART => restart_line(line).unwrap_or(Line::Unread),
        _ => id_line(line, letter).unwrap_or(Line::Unread),
    }
}

// A letter alone is the first word, or there is another shape.
pub fn by_letter(line: &[u8]) -> Option<Line>
    ensures { unwrap_or result Line.Unread ≡ read_as (line_by (words_of line.now)) }
{
    if line.is_empty() {
        return None;
    }
    if 1 < line.len() && line[1] != SPACE {
        return None;
    }
    let letter = line[0];
    if letter == SUBMIT {
        return submit_line(line);
    }
    Some(plain_line(line, letter))
}
