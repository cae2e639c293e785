// Lines whose first word is one byte, by that byte.
ghost use Rattle.std.specs.Prelude.{◌≡◌};
ghost use Rattle.line_read.specs.Places.{behind_letter, words_from};
ghost use Rattle.line_hints.specs.Why.{is_letter, is_lower, by_numbers, by_count, by_commands, by_letter};

use crate::{Hint, words};
use line_rules::letters::{CANCEL, DONE, FAIL, FAILED, OPEN, RESTART, SUBMIT, TURN};

// A letter's lower case stands so far behind it.
const LOWER_CASE: u8 = 32;

#[tactic(auto, unfolding(crate::specs::Why::is_letter))]
fn is_letter(byte: u8) -> bool
    ensures { result ≡ is_letter byte }
{
    matches!(
        byte,
        OPEN | SUBMIT | TURN | DONE | FAILED | CANCEL | FAIL | RESTART
    )
}

#[tactic(auto, unfolding(crate::specs::Why::is_lower))]
fn is_lower(byte: u8) -> bool
    ensures { result ≡ is_lower byte }
{
    LOWER_CASE <= byte && is_letter(byte - LOWER_CASE)
}

// As many words as the call has.
fn by_numbers(line: &[u8]) -> Hint
    ensures { result ≡ by_numbers (words_from line.now behind_letter) }
{
    if words::all_numbers(line) {
        return Hint::OutsideWidth;
    }
    Hint::NoNumber
}

// A call with so many words.
#[tactic(auto, unfolding(crate::specs::Why::by_count))]
fn by_count(line: &[u8], expected: usize) -> Hint
    ensures { result ≡ by_count expected (words_from line.now behind_letter) }
{
    let count = words::count(line);
    if count < expected {
        return Hint::TooFew;
    }
    if expected < count {
        return Hint::TooMany;
    }
    by_numbers(line)
}

// Three words for each command.
#[tactic(auto, unfolding(crate::specs::Why::by_commands))]
fn by_commands(line: &[u8]) -> Hint
    ensures { result ≡ by_commands (words_from line.now behind_letter) }
{
    if words::count(line) % 3 != 0 {
        return Hint::TooFew;
    }
    by_numbers(line)
}

#[tactic(auto, unfolding(crate::specs::Why::by_letter))]
pub fn by_letter(line: &[u8], byte: u8) -> Hint
    ensures { result ≡ by_letter byte (words_from line.now behind_letter) }
{
    match byte {
        OPEN => by_count(line, 3),
        RESTART => by_count(line, 2),
        SUBMIT => by_commands(line),
        _ if is_letter(byte) => by_count(line, 1),
        _ if is_lower(byte) => Hint::LowerCase,
        _ => Hint::NoCall,
    }
}
